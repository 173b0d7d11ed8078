// The sets of states from which a run goes on as two logs say, each made from the one of the next moment; and the run, written to a lent
// list.
#![tactic(auto)]

ghost use Rattle.std.specs.Prelude.{◌≡◌};
ghost use Rattle.logs.specs.Runs as logs;
ghost use Rattle.moments.specs.Moment.{Fitless, entries, Joins, Has};
ghost use Rattle.moments.specs.Posts.{StepAsks, StepGives, FittingAsks, FittingGives, BeforeAsks, BeforeGives, LastAsks, LastGives};
ghost use Rattle.moments.specs.Posts.{MakeAsks, MakeGives, WriteAsks, WriteGives, FindAsks, FindGives};

use accounts::Count;
use counting::{Taken, take};
use layout::Refusal;
use modal::{Limits, diamond};
use routes::write_next;
use seek::least_common;
use steps::Step;
use table::Full;

// An entry of a log, or what both logs' entries for a moment say together: a state fits where its masked bits equal the value.
#[derive(Clone, Copy)]
pub struct Entry {
    pub mask: u32,
    pub value: u32,
}

impl Entry {
    // That no state fits.
    fn never() -> Entry
        ensures { Fitless result.mask result.value }
    {
        Entry { mask: 0, value: 1 }
    }
}

// Whether a state fits an entry of a log: its masked bits equal the value.
fn fits(state: u16, mask: u16, value: u16) -> bool
    ensures { result ≡ logs.fits mask value state }
{
    state & mask == value
}

// Two entries for one moment, each a mask and a value, as one. A state that fits both has the bits of both values, and no other bit under
// either mask: so where these bits alone do not fit both, no state does.
fn joined(mask: u16, value: u16, mask2: u16, value2: u16) -> Entry
    ensures { Joins (entries mask value mask2 value2) result.mask result.value }
{
    let both = value | value2;
    if !fits(both, mask, value) {
        return Entry::never();
    }
    if !fits(both, mask2, value2) {
        return Entry::never();
    }
    Entry {
        mask: u32::from(mask | mask2),
        value: u32::from(both),
    }
}

// What both logs say at moment i.
fn moment_at(one: &[u16], two: &[u16], i: usize) -> Entry
    requires { Has one.now two.now i }
    ensures { Joins (logs.moment_at one.now two.now i) result.mask result.value }
{
    let k = 2 * i;
    joined(one[k], one[k + 1], two[k], two[k + 1])
}

// A step, with registers, relations, V and some roots live.
fn take_step(
    words: &mut [u32],
    counts: &mut [u32],
    limits: Limits,
    roots: &[u32],
    step: Step,
    count: Count,
) -> Result<Taken, Full>
    requires { StepAsks limits words.old counts.old roots.now step }
    ensures { StepGives limits words.old words.new counts.new roots.now step count result }
{
    take(
        words,
        counts,
        limits.rows,
        2 * limits.bits,
        limits.limit,
        roots,
        step,
        count,
    )
}

// The states that fit: one step, and their AND with V another.
fn fitting(
    words: &mut [u32],
    counts: &mut [u32],
    limits: Limits,
    roots: &[u32],
    valid: u32,
    joint: Entry,
    count: Count,
) -> Result<Taken, Full>
    requires { FittingAsks limits words.old counts.old roots.now valid }
    ensures { FittingGives limits words.old words.new counts.new roots.now
        valid joint count result }
{
    let cube = Step::Cube(joint.value, joint.mask ^ joint.value);
    let fit = take_step(words, counts, limits, roots, cube, count)?;
    let step = Step::And(fit.arrow, valid);
    take_step(words, counts, limits, roots, step, fit.count)
}

// The set of the moment before: diamond of the later one, then the states that fit, then AND of both. Only the later set is live, until
// the new one is made. No peak is asked: one that is N already is never passed, so nothing is counted.
fn before(
    words: &mut [u32],
    counts: &mut [u32],
    limits: Limits,
    relation: u32,
    valid: u32,
    later: u32,
    joint: Entry,
) -> Result<Taken, Full>
    requires { BeforeAsks limits words.old counts.old relation valid later }
    ensures { BeforeGives limits words.old words.new counts.new relation valid later joint result }
{
    let uncounted = Count {
        rounds: 0,
        peak: limits.rows,
    };
    let roots = [later];
    let from = diamond(words, counts, limits, &roots, relation, later, uncounted)?;
    let both = [later, from.arrow];
    let fit = fitting(words, counts, limits, &both, valid, joint, from.count)?;
    let step = Step::And(from.arrow, fit.arrow);
    take_step(words, counts, limits, &roots, step, fit.count)
}

// The set of the last moment: the states that fit. Nothing is counted, as in `before`.
fn last_set(
    words: &mut [u32],
    counts: &mut [u32],
    limits: Limits,
    valid: u32,
    one: &[u16],
    two: &[u16],
) -> Result<Taken, Full>
    requires { LastAsks limits words.old counts.old valid one.now two.now }
    ensures { LastGives limits words.old words.new counts.new valid
        one.now two.now result }
{
    let uncounted = Count {
        rounds: 0,
        peak: limits.rows,
    };
    let none = [0u32; 0];
    let joint = moment_at(one, two, one.len() / 2 - 1);
    fitting(words, counts, limits, &none, valid, joint, uncounted)
}

// The set of moment `at`, made from that of the last moment on.
fn make_set(
    words: &mut [u32],
    counts: &mut [u32],
    limits: Limits,
    relation: u32,
    valid: u32,
    one: &[u16],
    two: &[u16],
    at: usize,
) -> Result<u32, Full>
    requires { MakeAsks limits words.old counts.old relation valid one.now two.now at }
    ensures { MakeGives limits words.old words.new counts.new relation valid
        one.now two.now at result }
{
    let last = last_set(words, counts, limits, valid, one, two)?;
    let mut x = last.arrow;
    for i in (at..one.len() / 2 - 1).rev() {
        let m = moment_at(one, two, i);
        let set = before(words, counts, limits, relation, valid, x, m)?;
        x = set.arrow;
    }
    Ok(x)
}

// Writes the states after the first one: at each place the least next state in its set, which is made again.
fn write_on(
    words: &mut [u32],
    counts: &mut [u32],
    list: &mut [u16],
    limits: Limits,
    relation: u32,
    valid: u32,
    one: &[u16],
    two: &[u16],
    first: u32,
)
    requires { WriteAsks limits words.old counts.old relation valid one.now two.now first list.old }
    ensures { WriteGives limits words.old words.new relation valid one.now two.now
        first list.old list.new }
{
    let mut s = first;
    for i in 1..one.len() / 2 {
        // Never full: what fitted once fits again.
        let Ok(x) = make_set(words, counts, limits, relation, valid, one, two, i) else {
            return;
        };
        s = write_next(words, list, limits, relation, s, x, i);
    }
}

// Finds the run that is least at each place, and writes it; the list is kept where there is none or it is too short.
pub fn find_logged(
    words: &mut [u32],
    counts: &mut [u32],
    list: &mut [u16],
    limits: Limits,
    relation: u32,
    valid: u32,
    one: &[u16],
    two: &[u16],
) -> Result<(), Refusal>
    requires { FindAsks limits words.old counts.old relation valid one.now two.now }
    ensures { FindGives limits words.old words.new relation valid one.now two.now
        list.old list.new result }
{
    let x = make_set(words, counts, limits, relation, valid, one, two, 0)?;
    let states = 1u32 << limits.bits;
    let s = least_common(words, limits.rows, limits.bits, x, x);
    if states <= s {
        return Err(Refusal::NoRun);
    }
    if list.len() < one.len() / 2 {
        return Err(Refusal::Short);
    }
    list[0] = s as u16;
    write_on(words, counts, list, limits, relation, valid, one, two, s);
    Ok(())
}
