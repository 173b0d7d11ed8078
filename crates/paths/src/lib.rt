// Runs of a relation, layers by distance and the run that is to be written are in specs/ and proofs/; this function only makes a crate.
#![tactic(auto)]

pub fn nothing(x: u32) -> u32 {
    x
}
