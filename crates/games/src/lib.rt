// The game of guest against machine, its plays and strategies and both calls by the book are in specs/ and proofs/; this function only
// makes a crate.
#![tactic(auto)]

pub fn nothing(x: u32) -> u32 {
    x
}
