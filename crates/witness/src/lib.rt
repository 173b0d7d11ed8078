// Lists of calls over concrete words that meet the closed list theorems are in proofs/; this function only makes the folder a crate.
#![tactic(auto)]

pub fn nothing(x: u32) -> u32 {
    x
}
