// Layers of states by their distance from a set: each is made from the one before, by the steps of a diamond and one OR.
#![tactic(auto)]

ghost use Rattle.layers.specs.Posts.{NextAsks, NextGives, AgainAsks, AgainGives, PassAsks, PassGives};

use accounts::Count;
use counting::{Taken, take};
use modal::{Limits, diamond};
use seek::least_common;
use steps::Step;
use table::Full;

// Where the first pass meets the start: the last layer's number and the least state that it shares with the start.
#[derive(Clone, Copy)]
pub struct Meeting {
    pub layer: u32,
    pub state: u32,
}

// The layer after the last one: b OR diamond of it. Only the last layer is live, until the next is made. No peak is asked: one that is N
// already is never passed, so nothing is counted.
fn next_layer(
    words: &mut [u32],
    counts: &mut [u32],
    limits: Limits,
    relation: u32,
    b: u32,
    last: u32,
) -> Result<Taken, Full>
    requires { NextAsks limits words.old counts.old relation b last }
    ensures { NextGives limits words.old words.new counts.new relation b last result }
{
    let levels = 2 * limits.bits;
    let uncounted = Count {
        rounds: 0,
        peak: limits.rows,
    };
    let roots = [last];
    let before = diamond(words, counts, limits, &roots, relation, last, uncounted)?;
    take(
        words,
        counts,
        limits.rows,
        levels,
        limits.limit,
        &roots,
        Step::Or(b, before.arrow),
        before.count,
    )
}

// Layer j, made again: no step is full that was not full before.
pub fn make_layer(
    words: &mut [u32],
    counts: &mut [u32],
    limits: Limits,
    relation: u32,
    b: u32,
    j: u32,
) -> u32
    requires { AgainAsks limits words.old counts.old relation b j }
    ensures { AgainGives limits words.old words.new counts.new relation b j result }
{
    let mut x = b;
    for _ in 0..j {
        let Ok(next) = next_layer(words, counts, limits, relation, b, x) else {
            return x;
        };
        x = next.arrow;
    }
    x
}

// Makes layer after layer, up to the first that shares a state with a, which takes no step to see, or no longer grows.
pub fn reach(
    words: &mut [u32],
    counts: &mut [u32],
    limits: Limits,
    relation: u32,
    a: u32,
    b: u32,
) -> Result<Option<Meeting>, Full>
    requires { PassAsks limits words.old counts.old relation a b }
    ensures { PassGives limits words.old words.new counts.new relation a b result }
{
    let states = 1u32 << limits.bits;
    let mut x = b;
    let mut d = 0;
    // Not a for: it ends where a layer shares a state with a or no longer grows, at no count.
    loop {
        let s = least_common(words, limits.rows, limits.bits, a, x);
        if s < states {
            return Ok(Some(Meeting { layer: d, state: s }));
        }
        let next = next_layer(words, counts, limits, relation, b, x)?;
        if next.arrow == x {
            return Ok(None);
        }
        x = next.arrow;
        d += 1;
    }
}
