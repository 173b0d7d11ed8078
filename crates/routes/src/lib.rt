// The shortest run from one set into another, written to a lent list.
#![tactic(auto)]

ghost use Rattle.routes.specs.Posts.{PlaceAsks, PlaceGives, WriteAsks, WriteGives, RunAsks, RunGives, FindGives};
ghost use Rattle.layers.specs.Posts.{PassAsks};

use layers::{make_layer, reach};
use layout::Refusal;
use modal::Limits;
use seek::least_next;

// Writes the least next state of s in the set x, of which there is one, at a place of the list, and answers it.
pub fn write_next(
    words: &[u32],
    list: &mut [u16],
    limits: Limits,
    relation: u32,
    s: u32,
    x: u32,
    at: usize,
) -> u32
    requires { PlaceAsks limits words.now list.old relation s x at }
    ensures { PlaceGives limits words.now list.old list.new relation s x at result }
{
    let next = least_next(words, limits.rows, limits.bits, relation, s, x);
    list[at] = next as u16;
    next
}

// Writes the d states after the first one from place 1 on: at each the least next state that lies a layer nearer.
fn write_on(
    words: &mut [u32],
    counts: &mut [u32],
    list: &mut [u16],
    limits: Limits,
    relation: u32,
    b: u32,
    d: u32,
    first: u32,
)
    requires { WriteAsks limits words.old counts.old relation b d first list.old }
    ensures { WriteGives limits words.old words.new list.old list.new
        relation b d first }
{
    let mut s = first;
    let mut at = 1;
    for left in (0..d).rev() {
        let x = make_layer(words, counts, limits, relation, b, left);
        s = write_next(words, list, limits, relation, s, x, at);
        at += 1;
    }
}

// Writes the run from its first state, in layer d, where the list has room.
fn write_run(
    words: &mut [u32],
    counts: &mut [u32],
    list: &mut [u16],
    limits: Limits,
    relation: u32,
    b: u32,
    d: u32,
    first: u32,
) -> Result<u32, Refusal>
    requires { RunAsks limits words.old counts.old relation b d first }
    ensures { RunGives limits words.old words.new list.old list.new
        relation b d first result }
{
    if list.len() <= d as usize {
        return Err(Refusal::Short);
    }
    list[0] = first as u16;
    write_on(words, counts, list, limits, relation, b, d, first);
    Ok(d + 1)
}

// Finds the shortest run from a into b that is least at each place, and writes it; answers how many states it has.
// The list is kept where there is none or it is too short.
pub fn find_run(
    words: &mut [u32],
    counts: &mut [u32],
    list: &mut [u16],
    limits: Limits,
    relation: u32,
    a: u32,
    b: u32,
) -> Result<u32, Refusal>
    requires { PassAsks limits words.old counts.old relation a b }
    ensures { FindGives limits words.old words.new list.old list.new relation a b result }
{
    let reached = reach(words, counts, limits, relation, a, b)?;
    match reached {
        Some(at) => write_run(words, counts, list, limits, relation, b, at.layer, at.state),
        None => Err(Refusal::NoRun),
    }
}
