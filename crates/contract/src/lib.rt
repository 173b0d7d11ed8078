// What every call promises, over the lent words, is in specs/ and proofs/; this function only makes the folder a crate.
#![tactic(auto)]

pub fn nothing(x: u32) -> u32 {
    x
}
