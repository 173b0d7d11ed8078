// The rounds of the game of guest against machine, made again for one state and one press: the machine's answer is noted as the state
// enters the set.
#![tactic(auto)]

ghost use Rattle.game_steps.specs.Posts.{NoteAsks, NoteGives, IterateAsks, IterateGives, RoundsAsk, RoundsGive};

use accounts::Count;
use counting::{Counts, begin};
use evaluator::{Stack, Stopped, evaluate_round};
use layout::Table;
use memory::forget;
use modal::Limits;
use seek::{holds, least_next};

// What the machine is asked: the arrow of its relation, the state and the guest's press; and whether the press is open, a guest move of a
// state outside the goal.
// No Option: a press that is not open is asked for all the same, and its rounds are made.
#[derive(Clone, Copy)]
pub struct Asked {
    pub machine: u32,
    pub state: u32,
    pub press: u32,
    pub open_move: bool,
}

// The answer noted after a round that made the set of arrow `next` from the one of arrow `last`: of an open press the round in which the
// state enters decides, by the least answer into the set before. It makes no row.
fn note(words: &[u32], limits: Limits, asked: Asked, noted: u32, last: u32, next: u32) -> u32
    requires { NoteAsks limits words.now asked last next }
    ensures { NoteGives limits words.now asked noted last next result }
{
    if !asked.open_move {
        return noted;
    }
    if holds(words, limits.rows, last, asked.state, 0) {
        return noted;
    }
    if !holds(words, limits.rows, next, asked.state, 0) {
        return noted;
    }
    least_next(
        words,
        limits.rows,
        limits.bits,
        asked.machine,
        asked.press,
        last,
    )
}

// Makes round after round of the game's formula in `bytes`, the current set being live, until a round gives the same set again. Answers
// what was noted, 2^n where there is no answer; or why the set is not made.
fn iterate(
    words: &mut [u32],
    counts: &mut [u32],
    stack: &mut [u32],
    bytes: &[u8],
    limits: Limits,
    asked: Asked,
) -> Result<u32, Stopped>
    requires { IterateAsks limits words.old counts.old stack.old bytes.now asked }
    ensures { IterateGives limits words.old words.new stack.old bytes.now asked result }
{
    let mut noted = 1u32 << limits.bits;
    let mut current = Table::NOTHING;
    let mut counted = Count { rounds: 0, peak: 0 };
    // Not a for: the rounds are counted in what each turn answers.
    while counted.rounds < limits.rounds {
        let value = evaluate_round(words, counts, stack, bytes, limits, current, counted)?;
        if value.arrow == current {
            return Ok(noted);
        }
        noted = note(words, limits, asked, noted, current, value.arrow);
        current = value.arrow;
        counted = value.count;
    }
    Err(Stopped::Spent)
}

// Makes the rounds of the game's formula again, with nothing remembered before.
pub fn iterate_rounds(
    words: &mut [u32],
    limits: Limits,
    bytes: &[u8],
    asked: Asked,
) -> Result<u32, Stopped>
    requires { RoundsAsk limits words.old bytes.now asked }
    ensures { RoundsGive limits words.old words.new bytes.now asked result }
{
    forget(words, limits.rows);
    let mut counts = [0u32; Counts::WORDS];
    begin(words, limits.rows, &mut counts);
    let mut stack = [0u32; Stack::WORDS];
    iterate(words, &mut counts, &mut stack, bytes, limits, asked)
}
