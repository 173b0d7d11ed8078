// Runs of a relation that fit two logs are in specs/ and proofs/; this function only makes a crate.
#![tactic(auto)]

pub fn nothing(x: u32) -> u32 {
    x
}
