// The states with some bits 1 and some bits 0: a cube of current bits, a row for each of these bits.
#![tactic(auto)]

ghost use Rattle.std.specs.Prelude.{◌≡◌, ◌<◌};
ghost use Rattle.mucalculus.specs.Means.{bit};
ghost use Rattle.layout.specs.View.{view};
ghost use Rattle.operations.specs.Work.{Ready};
ghost use Rattle.operations.specs.Posts.{FnPost};
ghost use Rattle.cubes.specs.Cube.{cube_f, cube_rest, unless_arrow, CubePre};

use layout::Table;
use table::{Full, make};

// Whether bit p of a number is 1.
fn has(k: u32, p: u32) -> bool
    requires { p < 32 }
    ensures { result ≡ bit p k }
{
    (k >> p) % 2 == 1
}

// An arrow, or that of nothing.
fn unless(lost: bool, a: u32) -> u32
    ensures { result ≡ unless_arrow lost a }
{
    if lost {
        return Table::NOTHING;
    }
    a
}

// The states with every bit of `ones` and no bit of `zeros`, of the bits from p on. The two share no bit.
fn cube_from(
    words: &mut [u32],
    rows: u32,
    levels: u32,
    limit: u32,
    ones: u32,
    zeros: u32,
    p: u32,
) -> Result<u32, Full>
    requires { CubePre levels rows limit (view rows words.old) ones zeros p }
    ensures { FnPost levels rows limit words.old words.new result (cube_rest levels p ones zeros) }
{
    if levels <= 2 * p {
        return Ok(Table::EVERYTHING);
    }
    let a = cube_from(words, rows, levels, limit, ones, zeros, p + 1)?;
    let low = unless(has(ones, p), a);
    let high = unless(has(zeros, p), a);
    make(words, rows, limit, 2 * p, low, high)
}

// The states with every bit of `ones` and no bit of `zeros`: none where a bit is in both, or in `ones` and no state's.
pub fn cube(
    words: &mut [u32],
    rows: u32,
    levels: u32,
    limit: u32,
    ones: u32,
    zeros: u32,
) -> Result<u32, Full>
    requires { Ready levels rows limit (view rows words.old) }
    ensures { FnPost levels rows limit words.old words.new result (cube_f levels ones zeros) }
{
    if ones & zeros != 0 {
        return Ok(Table::NOTHING);
    }
    if ones >> (levels / 2) != 0 {
        return Ok(Table::NOTHING);
    }
    cube_from(words, rows, levels, limit, ones, zeros, 0)
}
