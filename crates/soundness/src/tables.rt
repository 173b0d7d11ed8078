// Tables of cells: a word that has, for each of the 32 values of the last five tested levels, whether an arrow has a valuation with it, and
// whether NOT of it has. What lies before the tested levels and between them may be anything.
ghost use Rattle.std.specs.Prelude.{◌≡◌, true, ◌*◌, ◌+◌, ◌≤◌, get_or, set};
ghost use Rattle.layout.specs.Places.{RANK};
ghost use Rattle.layout.specs.View.{view, cell_of};
ghost use Rattle.layout.specs.Arrows.{is_marked};
ghost use Rattle.rows.specs.Says.{Says};
ghost use Rattle.soundness.specs.Masks.{low_mask, high_mask};
ghost use Rattle.soundness.specs.Cells.{Classed, Disjoint, joined};
ghost use Rattle.soundness.specs.Tables.{RowPre, TablePre, TablePost, SetPre, SetsPre, SetsPost, carried_cells};
ghost use Rattle.soundness.specs.Posts.{TabledIn, SetTabledIn, RankPre};

use layout::{Table, get, is_marked, row_of};

// The words of nothing and of everything, and what half of a word has.
#[derive(Clone, Copy)]
struct Cells;

impl Cells {
    const NOTHING: u64 = 18446744069414584320;

    const EVERYTHING: u64 = 4294967295;

    const HALF: u64 = 4294967296;
}

// Which tested level a level is, from a base on: 0 to 4, or 5 where it is none.
fn class_of(base: u32, shift: u32, level: u32) -> u32
    requires { (base ≤ 32) × (shift ≤ 1) }
    ensures { Classed base shift level result }
{
    let first = base + shift;
    if level < first {
        return 5;
    }
    let past = level - first;
    if past % 2 == 1 {
        return 5;
    }
    if past >= 10 {
        return 5;
    }
    past / 2
}

// The cells that have 0 at a tested level; all where the level is none.
fn low_cells(class: u32) -> u64
    ensures { result ≡ low_mask class }
{
    match class {
        0 => 6148914691236517205,
        1 => 3689348814741910323,
        2 => 1085102592571150095,
        3 => 71777214294589695,
        4 => 281470681808895,
        _ => 18446744073709551615,
    }
}

// The cells that have 1 at a tested level; all where the level is none.
// Beside low_cells: its complement, but past the last class, where both are all cells. As two tables each is its definition.
fn high_cells(class: u32) -> u64
    ensures { result ≡ high_mask class }
{
    match class {
        0 => 12297829382473034410,
        1 => 14757395258967641292,
        2 => 17361641481138401520,
        3 => 18374966859414961920,
        4 => 18446462603027742720,
        _ => 18446744073709551615,
    }
}

// A row's table from those of its arrows.
fn join(class: u32, low: u64, high: u64) -> u64
    ensures { result ≡ joined class low high }
{
    (low & low_cells(class)) | (high & high_cells(class))
}

// A table, or that of NOT where an arrow carries one.
fn carried(by: u32, table: u64) -> u64
    ensures { result ≡ carried_cells (is_marked by) table }
{
    if is_marked(by) {
        return table % Cells::HALF * Cells::HALF + table / Cells::HALF % Cells::HALF;
    }
    table
}

// The table of row i that is remembered at its rank, or 0.
fn recall(words: &[u32], rows: u32, memo: &[u64], i: u32) -> u64
    requires { RankPre rows words.now memo.now i }
    ensures { result ≡ get_or memo.now (cell_of rows words.now i RANK) 0 }
{
    let k = get(words, rows, i, Table::RANK);
    memo[k as usize]
}

// Remembers the table of row i at its rank.
fn keep(words: &[u32], rows: u32, memo: &mut [u64], i: u32, table: u64)
    requires { RankPre rows words.now memo.old i }
    ensures { memo.new ≡ set memo.old (cell_of rows words.now i RANK) table }
{
    let k = get(words, rows, i, Table::RANK);
    memo[k as usize] = table;
}

// The table of row i from those of its arrows.
fn row_table(
    words: &[u32],
    rows: u32,
    base: u32,
    shift: u32,
    up: u32,
    i: u32,
    low: u64,
    high: u64,
) -> u64
    requires { RowPre (view rows words.now) base shift up i low high }
    ensures { TabledIn rows words.now base shift up i result }
{
    let level = get(words, rows, i, Table::LEVEL) + up;
    join(class_of(base, shift, level), low, high)
}

// The table of an arrow whose levels count higher by `up`. Tables of rows are remembered.
fn table_of(
    words: &[u32],
    rows: u32,
    base: u32,
    shift: u32,
    up: u32,
    a: u32,
    memo: &mut [u64],
) -> u64
    requires { TablePre (view rows words.now) base shift up a memo.old }
    ensures { TablePost (view rows words.now) base shift up a result memo.new }
{
    if a == Table::NOTHING {
        return Cells::NOTHING;
    }
    if a == Table::EVERYTHING {
        return Cells::EVERYTHING;
    }
    let i = row_of(a);
    let known = recall(words, rows, memo, i);
    if known != 0 {
        return carried(a, known);
    }
    let low = table_of(
        words,
        rows,
        base,
        shift,
        up,
        get(words, rows, i, Table::LOW),
        memo,
    );
    let high = table_of(
        words,
        rows,
        base,
        shift,
        up,
        get(words, rows, i, Table::HIGH),
        memo,
    );
    let table = row_table(words, rows, base, shift, up, i, low, high);
    keep(words, rows, memo, i, table);
    carried(a, table)
}

// The same where most tables are remembered. It is apart, so that it is inlined: a remembered table costs no call.
pub fn arrow_cells(
    words: &[u32],
    rows: u32,
    base: u32,
    shift: u32,
    up: u32,
    a: u32,
    memo: &mut [u64],
) -> u64
    requires { TablePre (view rows words.now) base shift up a memo.old }
    ensures { TablePost (view rows words.now) base shift up a result memo.new }
{
    if a < 2 {
        return table_of(words, rows, base, shift, up, a, memo);
    }
    let known = recall(words, rows, memo, row_of(a));
    if known != 0 {
        return carried(a, known);
    }
    table_of(words, rows, base, shift, up, a, memo)
}

// The table of an arrow whose levels count higher by the shift. None is remembered.
fn set_table(words: &[u32], rows: u32, base: u32, shift: u32, b: u32) -> u64
    requires { SetPre (view rows words.now) base shift b }
    ensures { SetTabledIn rows words.now base shift b result }
{
    if b == Table::NOTHING {
        return Cells::NOTHING;
    }
    if b == Table::EVERYTHING {
        return Cells::EVERYTHING;
    }
    let i = row_of(b);
    let low = set_table(words, rows, base, shift, get(words, rows, i, Table::LOW));
    let high = set_table(words, rows, base, shift, get(words, rows, i, Table::HIGH));
    carried(b, row_table(words, rows, base, shift, shift, i, low, high))
}

// The cells of an arrow to a row, in the low half of a word, whose levels count higher by the shift. They are remembered at a place, with
// the arrow in the high half.
pub fn set_cells(
    words: &[u32],
    rows: u32,
    base: u32,
    shift: u32,
    b: u32,
    at: u32,
    memo: &mut [u64],
) -> u64
    requires { SetsPre (view rows words.now) base shift b memo.old }
    ensures { SetsPost (view rows words.now) base shift b result memo.new }
{
    let k = (at % 1024) as usize;
    let known = memo[k];
    if known / Cells::HALF == b as u64 {
        return known;
    }
    let table = set_table(words, rows, base, shift, b);
    let entry = b as u64 * Cells::HALF + table % Cells::HALF;
    memo[k] = entry;
    entry
}

// Whether no cell is in both tables.
pub fn disjoint(x: u64, y: u64) -> bool
    ensures { Says (Disjoint x y) result }
{
    if (x & y) % Cells::HALF != 0 {
        return false;
    }
    true
}
