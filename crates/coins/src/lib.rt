// What a run costs in coins. Runs over the filled relations, their totals and the cheapest ones are in specs/.
#![tactic(auto)]

ghost use Rattle.std.specs.Prelude.{◌≡◌};
ghost use Rattle.coins.specs.Runs.{coins};

// What the call for a cheapest run answers: the credits of the run, the coins for them, and how many states it has.
#[derive(Clone, Copy)]
pub struct Fare {
    pub total: u32,
    pub charge: u32,
    pub states: u32,
}

// The coins for a total of credits: one for every ten credits begun.
pub fn charge(total: u32) -> u32
    ensures { result ≡ coins total }
{
    total / 10 + (total % 10 + 9) / 10
}
