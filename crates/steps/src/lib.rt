// The steps of an evaluation: a step is tried; where the rows run out, the table is collected and the step tried once more.
#![tactic(auto)]

ghost use Rattle.std.specs.Prelude.{◌≡◌};
ghost use Rattle.layout.specs.View.{view};
ghost use Rattle.steps.specs.Steps.{first_operand, second_operand, StepPre};
ghost use Rattle.steps.specs.Clean.{CleanPre, Cleaned};
ghost use Rattle.steps.specs.Settle.{SettlePre, SettlePost};
ghost use Rattle.steps.specs.Posts.{TryPre, TryPost, RetriedIn};

use collect::free_rows;
use cubes::cube;
use layout::{Table, flip, header_word};
use memory::forget;
use operations::{and_of, bit, exists, or_of, shift};
use table::Full;

// A step and its operands: bits and EXISTS have a level first; a cube has the bits that are 1 and those that are 0.
// No closure: what a step means and keeps live is said of it (step_f, live_at), also where it is tried a second time.
#[derive(Clone, Copy)]
pub enum Step {
    Bit(u32),
    Cube(u32, u32),
    Not(u32),
    And(u32, u32),
    Or(u32, u32),
    Shift(u32),
    Exists(u32, u32),
}

// Two operands.
#[derive(Clone, Copy)]
pub struct Operands {
    pub first: u32,
    pub second: u32,
}

// A step's operands, and nothing for those that it does not have.
pub fn operands_of(step: Step) -> Operands
    ensures { (result.first ≡ first_operand step) × (result.second ≡ second_operand step) }
{
    match step {
        Step::Bit(_) => Operands {
            first: Table::NOTHING,
            second: Table::NOTHING,
        },
        Step::Cube(_, _) => Operands {
            first: Table::NOTHING,
            second: Table::NOTHING,
        },
        Step::Not(a) => Operands {
            first: a,
            second: Table::NOTHING,
        },
        Step::And(a, b) => Operands {
            first: a,
            second: b,
        },
        Step::Or(a, b) => Operands {
            first: a,
            second: b,
        },
        Step::Shift(a) => Operands {
            first: a,
            second: Table::NOTHING,
        },
        Step::Exists(_, a) => Operands {
            first: a,
            second: Table::NOTHING,
        },
    }
}

// Tries a step: runs its operation.
pub fn try_step(
    words: &mut [u32],
    rows: u32,
    levels: u32,
    limit: u32,
    step: Step,
) -> Result<u32, Full>
    requires { TryPre levels rows limit words.old step }
    ensures { TryPost levels rows limit words.old words.new step result }
{
    match step {
        Step::Bit(l) => bit(words, rows, levels, limit, l),
        Step::Cube(o, z) => cube(words, rows, levels, limit, o, z),
        Step::Not(a) => Ok(flip(a)),
        Step::And(a, b) => and_of(words, rows, levels, limit, a, b),
        Step::Or(a, b) => or_of(words, rows, levels, limit, a, b),
        Step::Shift(a) => shift(words, rows, levels, limit, a),
        Step::Exists(x, a) => exists(words, rows, levels, limit, x, a),
    }
}

// Frees the rows that no register, no relation, no lent root, no operand and not one more arrow needs, and forgets what is remembered.
fn clean(words: &mut [u32], rows: u32, roots: &[u32], step: Step, kept: u32)
    requires { CleanPre (view rows words.old) roots.now step kept }
    ensures { Cleaned (view rows words.old) (view rows words.new) roots.now step kept }
{
    let p = operands_of(step);
    let more = [p.first, p.second, kept];
    free_rows(words, rows, roots, &more);
    forget(words, rows);
}

// The answer of a step from that of its last try: where more than `limit` rows are used, those that are reached decide.
pub fn settle(
    words: &mut [u32],
    rows: u32,
    limit: u32,
    roots: &[u32],
    step: Step,
    made: Result<u32, Full>,
) -> Result<u32, Full>
    requires { SettlePre (view rows words.old) roots.now step made }
    ensures { SettlePost limit (view rows words.old) (view rows words.new) roots.now step made result }
{
    let a = made?;
    if header_word(words, Table::USED) <= limit {
        return Ok(a);
    }
    clean(words, rows, roots, step, a);
    if header_word(words, Table::USED) <= limit {
        return Ok(a);
    }
    Err(Full)
}

// Collects, and tries a step again.
pub fn retry(
    words: &mut [u32],
    rows: u32,
    levels: u32,
    limit: u32,
    roots: &[u32],
    step: Step,
) -> Result<u32, Full>
    requires { StepPre levels rows limit (view rows words.old) roots.now step }
    ensures { RetriedIn levels rows limit words.old words.new roots.now step result }
{
    clean(words, rows, roots, step, Table::NOTHING);
    let made = try_step(words, rows, levels, limit, step);
    settle(words, rows, limit, roots, step, made)
}
