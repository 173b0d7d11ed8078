// Diamond and box over arrows: chains of steps, with no bytes.
#![tactic(auto)]

ghost use Rattle.modal.specs.Posts.{QuantifyAsks, QuantifyGives, DiamondAsks, DiamondGives, ComplementAsks, ComplementGives, BoxAsks};
ghost use Rattle.modal.specs.Posts.{BoxGives};

use accounts::Count;
use counting::{Taken, take};
use layout::Table;
use stages::rest;
use steps::Step;
use table::Full;

// The sizes of a table and what an evaluation may use of it: state bits, rows, the row limit and the rounds.
#[derive(Clone, Copy)]
pub struct Limits {
    pub bits: u32,
    pub rows: u32,
    pub limit: u32,
    pub rounds: u32,
}

// EXISTS at levels 2n − 1, 2n − 3, down to 1: one by one, until those left are sure to raise nothing and are taken at once.
fn quantify(
    words: &mut [u32],
    counts: &mut [u32],
    limits: Limits,
    roots: &[u32],
    a: u32,
    count: Count,
) -> Result<Taken, Full>
    requires { QuantifyAsks limits words.old counts.old roots.now a }
    ensures { QuantifyGives limits words.old words.new counts.new roots.now a count result }
{
    let levels = 2 * limits.bits;
    let mut c = a;
    let mut total = count;
    for left in (0..limits.bits).rev() {
        let found = rest(
            words,
            counts,
            limits.rows,
            limits.bits,
            limits.limit,
            roots,
            c,
            left + 1,
            total.peak,
        );
        if let Some(r) = found {
            return Ok(Taken {
                arrow: r,
                count: total,
            });
        }
        let step = Step::Exists(2 * left + 1, c);
        let next = take(
            words,
            counts,
            limits.rows,
            levels,
            limits.limit,
            roots,
            step,
            total,
        )?;
        c = next.arrow;
        total = next.count;
    }
    Ok(Taken {
        arrow: c,
        count: total,
    })
}

// Diamond: SHIFT, AND with the relation, EXISTS at each next bit.
pub fn diamond(
    words: &mut [u32],
    counts: &mut [u32],
    limits: Limits,
    roots: &[u32],
    relation: u32,
    a: u32,
    count: Count,
) -> Result<Taken, Full>
    requires { DiamondAsks limits words.old counts.old roots.now relation a }
    ensures { DiamondGives limits words.old words.new counts.new roots.now
        relation a count result }
{
    let levels = 2 * limits.bits;
    let first = take(
        words,
        counts,
        limits.rows,
        levels,
        limits.limit,
        roots,
        Step::Shift(a),
        count,
    )?;
    let second = take(
        words,
        counts,
        limits.rows,
        levels,
        limits.limit,
        roots,
        Step::And(first.arrow, relation),
        first.count,
    )?;
    quantify(words, counts, limits, roots, second.arrow, second.count)
}

// NOT of an arrow within V, the states that exist: the step NOT, and AND with V. Where V is every state, that answers and needs the same.
pub fn complement(
    words: &mut [u32],
    counts: &mut [u32],
    limits: Limits,
    roots: &[u32],
    valid: u32,
    a: u32,
    count: Count,
) -> Result<Taken, Full>
    requires { ComplementAsks limits words.old counts.old roots.now valid a }
    ensures { ComplementGives limits words.old words.new counts.new roots.now
        valid a count result }
{
    let levels = 2 * limits.bits;
    let first = take(
        words,
        counts,
        limits.rows,
        levels,
        limits.limit,
        roots,
        Step::Not(a),
        count,
    )?;
    if valid == Table::EVERYTHING {
        return Ok(first);
    }
    take(
        words,
        counts,
        limits.rows,
        levels,
        limits.limit,
        roots,
        Step::And(first.arrow, valid),
        first.count,
    )
}

// Box: NOT, diamond, NOT, each NOT within V.
pub fn boxed(
    words: &mut [u32],
    counts: &mut [u32],
    limits: Limits,
    roots: &[u32],
    valid: u32,
    relation: u32,
    a: u32,
    count: Count,
) -> Result<Taken, Full>
    requires { BoxAsks limits words.old counts.old roots.now valid relation a }
    ensures { BoxGives limits words.old words.new counts.new roots.now
        valid relation a count result }
{
    let first = complement(words, counts, limits, roots, valid, a, count)?;
    let second = diamond(
        words,
        counts,
        limits,
        roots,
        relation,
        first.arrow,
        first.count,
    )?;
    complement(
        words,
        counts,
        limits,
        roots,
        valid,
        second.arrow,
        second.count,
    )
}
