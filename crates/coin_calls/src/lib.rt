// The call for the cheapest run from one register into another over any mix of filled relations: its checks in order, then the search.
#![tactic(auto)]

ghost use Rattle.std.specs.Prelude.{◌<◌, ◌^◌, ◌≤◌, length};
ghost use Rattle.coin_calls.specs.Asks.{BetweenPost, PayPost, PayPre};
ghost use Rattle.coin_calls.specs.Steps.{Ahead, IsExact, RelationTo, StepBelow};
ghost use Rattle.coin_calls.specs.Write.{WriteRunGives, WriteRunPre};
ghost use Rattle.coin_search.specs.Hall.{Hall};
ghost use Rattle.coin_search.specs.Search.{SearchPre};
ghost use Rattle.coins.specs.Post.{FarePost, fare_reply};
ghost use Rattle.layout.specs.Places.{HEADER};
ghost use Rattle.layout.specs.View.{view};

use coin_search::{Work, mark_of, search, state_at, step_cost};
use coins::{Fare, charge};
use layout::{Refusal, Table, header_word};
use seek::holds;
use soundness::sound;

// A step of a run: its relation, the state it leads to, and a place of the order at which that state stands.
#[derive(Clone, Copy)]
struct PlacedStep {
    pub relation: u32,
    pub state: u32,
    pub place: u32,
}

// Whether relation r leads from s to t and costs exactly what their marks differ by.
fn is_exact(
    words: &[u32],
    rows: u32,
    bits: u32,
    prices: &[u8],
    work: &[u64],
    s: u32,
    t: u32,
    r: u32,
) -> bool
    requires { Hall (view rows words.now) bits prices.now work.now × (s < 2 ^ bits) × (t < 2 ^ bits) × (r < 8)
        × (HEADER ≤ length words.now) }
    ensures { IsExact (view rows words.now) bits prices.now work.now s t r result }
{
    let root = header_word(words, Table::FIRST_RELATION + (r as usize));
    let from = mark_of(work, s);
    let to = mark_of(work, t);
    let cost = step_cost(prices, r);
    if root == 0 {
        return false;
    }
    if from <= cost {
        return false;
    }
    if to != from - cost {
        return false;
    }
    holds(words, rows, root - 1, s, t)
}

// A relation whose step from s to t costs exactly what their marks differ by; their number where there is none.
fn relation_to(
    words: &[u32],
    rows: u32,
    bits: u32,
    prices: &[u8],
    work: &[u64],
    s: u32,
    t: u32,
) -> u32
    requires { Hall (view rows words.now) bits prices.now work.now × (s < 2 ^ bits) × (t < 2 ^ bits)
        × (HEADER ≤ length words.now) }
    ensures { RelationTo (view rows words.now) bits prices.now work.now s t result }
{
    for r in 0..Table::RELATIONS {
        if is_exact(words, rows, bits, prices, work, s, t, r) {
            return r;
        }
    }
    Table::RELATIONS
}

// Such a step from s to a state that stands in the order before a place.
fn step_below(
    words: &[u32],
    rows: u32,
    bits: u32,
    prices: &[u8],
    work: &[u64],
    s: u32,
    from: u32,
) -> PlacedStep
    requires { Hall (view rows words.now) bits prices.now work.now × (s < 2 ^ bits) × (from ≤ 2 ^ bits)
        × Ahead (view rows words.now) bits prices.now work.now s from × (HEADER ≤ length words.now) }
    ensures { StepBelow (view rows words.now) bits prices.now work.now s from result.relation
        result.state result.place }
{
    let states = 1u32 << bits;
    for i in (0..from).rev() {
        let t = state_at(work, i);
        if t < states {
            let r = relation_to(words, rows, bits, prices, work, s, t);
            if r != Table::RELATIONS {
                return PlacedStep {
                    relation: r,
                    state: t,
                    place: i,
                };
            }
        }
    }
    PlacedStep {
        relation: 0,
        state: s,
        place: 0,
    }
}

// Writes the run from a state with so many steps.
fn write_run(
    words: &[u32],
    rows: u32,
    bits: u32,
    prices: &[u8],
    work: &[u64],
    states: &mut [u16],
    relations: &mut [u8],
    first: u32,
    steps: u32,
)
    requires { WriteRunPre (view rows words.now) bits prices.now work.now states.old relations.old first steps
        × (HEADER ≤ length words.now) }
    ensures { WriteRunGives (view rows words.now) bits prices.now work.now states.old
        states.new relations.old relations.new first steps }
{
    states[0] = first as u16;
    let mut s = first;
    let mut i = 1u32 << bits;
    for at in 0..steps as usize {
        let step = step_below(words, rows, bits, prices, work, s, i);
        i = step.place;
        relations[at] = step.relation as u8;
        s = step.state;
        states[at + 1] = s as u16;
    }
}

// Writes the run from a state with a mark, where both lists have room for it.
fn pay(
    words: &[u32],
    rows: u32,
    bits: u32,
    prices: &[u8],
    work: &[u64],
    states: &mut [u16],
    relations: &mut [u8],
    first: u32,
) -> Result<Fare, Refusal>
    requires { PayPre (view rows words.now) bits prices.now work.now first × (HEADER ≤ length words.now) }
    ensures { PayPost (view rows words.now) bits prices.now work.now states.old
        states.new relations.old relations.new first (fare_reply result) }
{
    let cost = mark_of(work, first) - 1;
    let total = (cost / Work::CREDIT) as u32;
    let steps = (cost % Work::CREDIT) as u32;
    if states.len() <= steps as usize {
        return Err(Refusal::Short);
    }
    if relations.len() < steps as usize {
        return Err(Refusal::Short);
    }
    write_run(
        words, rows, bits, prices, work, states, relations, first, steps,
    );
    Ok(Fare {
        total: total,
        charge: charge(total),
        states: steps + 1,
    })
}

// Searches for a cheapest run from arrow a's set into arrow b's and writes it; 10 where there is none, 11 where a list is too short.
fn between(
    words: &[u32],
    rows: u32,
    bits: u32,
    prices: &[u8],
    work: &mut [u64],
    states: &mut [u16],
    relations: &mut [u8],
    a: u32,
    b: u32,
) -> Result<Fare, Refusal>
    requires { SearchPre (view rows words.now) bits prices.now work.old a b × (HEADER ≤ length words.now) }
    ensures { BetweenPost (view rows words.now) bits prices.now work.old work.new
        states.old states.new relations.old relations.new a b (fare_reply result) }
{
    let first = search(words, rows, bits, prices, work, a, b);
    if first == Work::NO_STATE {
        return Err(Refusal::NoRun);
    }
    pay(words, rows, bits, prices, work, states, relations, first)
}

// Writes the states and the relations of a cheapest run from register a into register b to the lists, and answers its total, its coins and
// how many states it has. The first work words, one for each state, are lent for the search. 1 where the prices are not eight, 2 on unsound
// words, 1 where there are fewer work words than states, 3 where there is no such register, 7 where one is empty, 10 where there is no run,
// 11 where a list is too short.
pub fn cheapest(
    words: &[u32],
    prices: &[u8],
    work: &mut [u64],
    states: &mut [u16],
    relations: &mut [u8],
    a: u32,
    b: u32,
) -> Result<Fare, Refusal>
    ensures { FarePost a b words.now prices.now work.old work.new states.old
        states.new relations.old relations.new (fare_reply result) }
{
    if prices.len() != Table::RELATIONS as usize {
        return Err(Refusal::Sizes);
    }
    if !sound(words) {
        return Err(Refusal::Unsound);
    }
    let rows = header_word(words, Table::ROWS);
    let bits = header_word(words, Table::BITS);
    let all = 1usize << bits;
    if work.len() < all {
        return Err(Refusal::Sizes);
    }
    if a >= Table::REGISTERS {
        return Err(Refusal::Range);
    }
    if b >= Table::REGISTERS {
        return Err(Refusal::Range);
    }
    let x = header_word(words, Table::FIRST_REGISTER + (a as usize));
    let y = header_word(words, Table::FIRST_REGISTER + (b as usize));
    if x == 0 {
        return Err(Refusal::Empty);
    }
    if y == 0 {
        return Err(Refusal::Empty);
    }
    between(
        words,
        rows,
        bits,
        prices,
        &mut work[..all],
        states,
        relations,
        x - 1,
        y - 1,
    )
}
