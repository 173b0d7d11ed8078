// Lists of calls from a separate reading of document 01, held against the book, are in proofs/; this function only makes a crate.
#![tactic(auto)]

pub fn nothing(x: u32) -> u32 {
    x
}
