// Whether words are a sound table.
#![tactic(auto)]

mod arrows;
pub mod chains;
mod tables;
mod within;

ghost use Rattle.std.specs.Prelude.{◌≡◌, true, false, ℕ, ◌*◌, ◌<◌, ◌≤◌, length};
ghost use Rattle.layout.specs.Places.{HEADER, words_for, VALID, FIRST_RELATION};
ghost use Rattle.layout.specs.View.{view, list_of};
ghost use Rattle.layout.specs.Arrows.{is_marked};
ghost use Rattle.rows.specs.Used.{Sizes, used, rows_of, Ranked};
ghost use Rattle.rows.specs.Index.{Hit, Down, Link};
ghost use Rattle.rows.specs.Bits.{MARK_WORDS};
ghost use Rattle.rows.specs.Roots.{Ref, RefsPre};
ghost use Rattle.rows.specs.Says.{Says};
ghost use Rattle.soundness.specs.Walks.{WalkSays};
ghost use Rattle.soundness.specs.Triples.{Ready};
ghost use Rattle.rows.specs.Lookup.{Room};
ghost use Rattle.soundness.specs.Checks.{Placed, Leads, RowGood, Finds, Links, EvenMarked};
ghost use Rattle.rows.specs.Sound.{Good, EvenSets, Sound, table_of};
ghost use Rattle.soundness.specs.Posts.{RefsIn, SizesIn, LaidPre};

use chains::part_ok;
use layout::{Table, get, head, header_word, is_marked, is_row, listed, row_of};
use rows::{Bitmap, first, mark_refs, marked, row_bucket, same_row, used_row};
use within::all_within;

// Whether an arrow is 0, 1 or leads to a used row of a level above a bound.
fn lead_ok(words: &[u32], rows: u32, above: u32, a: u32) -> bool
    requires { Room (view rows words.now) }
    ensures { Says (Leads (view rows words.now) above a) result }
{
    if !is_row(a) {
        return true;
    }
    let i = row_of(a);
    if !used_row(words, rows, i) {
        return false;
    }
    if get(words, rows, i, Table::LEVEL) <= above {
        return false;
    }
    true
}

// Whether an arrow carries no NOT, and is 0 or leads to a used row of a level above a bound.
fn high_ok(words: &[u32], rows: u32, above: u32, a: u32) -> bool
    requires { Room (view rows words.now) }
    ensures { Says ((is_marked a ≡ false) × Leads (view rows words.now) above a) result }
{
    if is_marked(a) {
        return false;
    }
    lead_ok(words, rows, above, a)
}

// Whether a link is 0 or leads to a used row of a rank below a bound.
fn link_ok(words: &[u32], rows: u32, below: u32, p: u32) -> bool
    requires { Room (view rows words.now) }
    ensures { Says (Down (view rows words.now) below p) result }
{
    if p == 0 {
        return true;
    }
    let j = p - 1;
    if !used_row(words, rows, j) {
        return false;
    }
    if get(words, rows, j, Table::RANK) >= below {
        return false;
    }
    true
}

// Whether row i is in order: its level, its arrows and its link.
fn row_ok(words: &[u32], rows: u32, levels: u32, i: u32) -> bool
    requires { (i < rows) × Room (view rows words.now) }
    ensures { Says (RowGood (view rows words.now) levels i) result }
{
    let level = get(words, rows, i, Table::LEVEL);
    if level >= levels {
        return false;
    }
    let low = get(words, rows, i, Table::LOW);
    let high = get(words, rows, i, Table::HIGH);
    if low == high {
        return false;
    }
    if !lead_ok(words, rows, level, low) {
        return false;
    }
    if !high_ok(words, rows, level, high) {
        return false;
    }
    link_ok(
        words,
        rows,
        get(words, rows, i, Table::RANK),
        get(words, rows, i, Table::NEXT),
    )
}

// Whether each place of the list of used rows has a row whose rank it is.
fn list_ok(words: &[u32], rows: u32, used: u32) -> bool
    requires { (used ≤ rows) × (words_for rows ≤ length words.now) }
    ensures { Says ((k : ℕ) → k < used → Placed (view rows words.now) k) result }
{
    for k in 0..used {
        let i = listed(words, rows, k);
        if i >= rows {
            return false;
        }
        if get(words, rows, i, Table::RANK) != k {
            return false;
        }
    }
    true
}

// Whether every used row is in order.
fn rows_ok(words: &[u32], rows: u32, used: u32, levels: u32) -> bool
    requires { (used ≤ rows) × Room (view rows words.now) × ((k : ℕ) → k < used → Placed (view rows words.now) k) }
    ensures { Says ((k : ℕ) → k < used → RowGood (view rows words.now) levels (list_of rows words.now k)) result }
{
    (0..used).all(|k| row_ok(words, rows, levels, listed(words, rows, k)))
}

// How a walk along a chain ended: it met its row, missed it, or grew too long.
// No Option: three answers of one question, each with an arm of its own; an Option<bool> would name none.
#[derive(Clone, Copy)]
enum Walk {
    Met,
    Missed,
    Long,
}

impl Walk {
    // How many rows a walk passes before it gives up.
    const MOST: u32 = 32;
}

// Whether the walk from a link meets row i first of all rows with these three words.
fn hits(words: &[u32], rows: u32, link: u32, level: u32, low: u32, high: u32, i: u32) -> Walk
    requires { Links (view rows words.now) × Link (used (view rows words.now)) link }
    ensures { WalkSays (Hit (view rows words.now) level low high link i) result }
{
    let mut p = link;
    let mut left = Walk::MOST;
    // Not a for: the walk follows links, and ends where one is 0.
    while p != 0 {
        let j = p - 1;
        if same_row(words, rows, j, level, low, high) {
            if j == i {
                return Walk::Met;
            }
            return Walk::Missed;
        }
        if left == 0 {
            return Walk::Long;
        }
        left -= 1;
        p = get(words, rows, j, Table::NEXT);
    }
    Walk::Missed
}

// Whether the lookup of row i, a used one, finds row i: most rows are the first of their chains.
fn found_row(words: &[u32], rows: u32, i: u32) -> Walk
    requires { (used (view rows words.now) i ≡ true) × Links (view rows words.now) }
    ensures { WalkSays (Finds (view rows words.now) i) result }
{
    let b = row_bucket(words, rows, i);
    if head(words, rows, b) == i + 1 {
        return Walk::Met;
    }
    let level = get(words, rows, i, Table::LEVEL);
    let low = get(words, rows, i, Table::LOW);
    let high = get(words, rows, i, Table::HIGH);
    hits(words, rows, first(words, rows, b), level, low, high, i)
}

// Whether the lookup of every used row finds it. Where a walk grows too long, that is told another way.
fn index_ok(words: &[u32], rows: u32, used: u32) -> bool
    requires { Ready (view rows words.now) used }
    ensures { Says ((k : ℕ) → k < used → Finds (view rows words.now) (list_of rows words.now k)) result }
{
    for k in 0..used {
        let walk = found_row(words, rows, listed(words, rows, k));
        match walk {
            Walk::Met => {}
            Walk::Missed => {
                return false;
            }
            Walk::Long => {
                return part_ok(words, rows, used);
            }
        }
    }
    true
}

// Whether a root is empty or an arrow.
fn ref_ok(words: &[u32], rows: u32, r: u32) -> bool
    requires { Room (view rows words.now) }
    ensures { Says (Ref (rows_of (view rows words.now)) r) result }
{
    if r == 0 {
        return true;
    }
    let a = r - 1;
    if !is_row(a) {
        return true;
    }
    used_row(words, rows, row_of(a))
}

// Whether the header's words from `from` up to `to` are empty or arrows.
fn refs_ok(words: &[u32], rows: u32, from: usize, to: usize) -> bool
    requires { (to ≤ HEADER) × Room (view rows words.now) }
    ensures { Says (RefsIn rows words.now from to) result }
{
    (from..to).all(|k| ref_ok(words, rows, header_word(words, k)))
}

// Whether every marked row has an even level.
fn evens(words: &[u32], rows: u32, marks: &[u32]) -> bool
    requires { Ranked (view rows words.now) × (rows ≤ 32 * length marks.now) × (words_for rows ≤ length words.now) }
    ensures { Says (EvenMarked (view rows words.now) marks.now) result }
{
    let used = header_word(words, Table::USED);
    for k in 0..used {
        let i = listed(words, rows, k);
        if marked(marks, i) {
            if get(words, rows, i, Table::LEVEL) % 2 == 1 {
                return false;
            }
        }
    }
    true
}

// Whether the rows of V and of the registers have even levels.
fn even_sets(words: &[u32], rows: u32) -> bool
    requires { Ranked (view rows words.now) × RefsPre (view rows words.now) MARK_WORDS VALID FIRST_RELATION }
    ensures { Says (EvenSets (view rows words.now)) result }
{
    let mut marks = [0u32; Bitmap::WORDS];
    mark_refs(words, rows, &mut marks, Table::VALID, Table::FIRST_RELATION);
    evens(words, rows, &marks)
}

// Whether n, N and a number of words are in range.
pub fn sizes_fit(n: u32, rows: u32, size: usize) -> bool
    ensures { Says (Sizes n rows size) result }
{
    if n < 1 {
        return false;
    }
    if n > Table::MAX_BITS {
        return false;
    }
    if rows < 1 {
        return false;
    }
    if rows > Table::MAX_ROWS {
        return false;
    }
    if size < Table::HEADER + Table::ROW_WORDS * (rows as usize) {
        return false;
    }
    true
}

// Whether n, N and the number of words are in range, as the header has them.
fn sizes_ok(words: &[u32]) -> bool
    ensures { Says (SizesIn words.now) result }
{
    if words.len() < Table::HEADER {
        return false;
    }
    sizes_fit(
        header_word(words, Table::BITS),
        header_word(words, Table::ROWS),
        words.len(),
    )
}

// Whether the rows of a table of the right size and layout are sound.
fn table_ok(words: &[u32], rows: u32) -> bool
    requires { LaidPre rows words.now }
    ensures { Says (Good (view rows words.now)) result }
{
    let used = header_word(words, Table::USED);
    if used > rows {
        return false;
    }
    let bits = header_word(words, Table::BITS);
    if !list_ok(words, rows, used) {
        return false;
    }
    if !rows_ok(words, rows, used, 2 * bits) {
        return false;
    }
    index_ok(words, rows, used)
}

// Whether a table with sound rows is sound: its roots.
fn roots_ok(words: &[u32], rows: u32) -> bool
    requires { Good (view rows words.now) }
    ensures { Says (Sound (view rows words.now)) result }
{
    if !refs_ok(words, rows, Table::VALID, Table::ROOTS_END) {
        return false;
    }
    let valid = header_word(words, Table::VALID);
    if valid == 0 {
        return false;
    }
    if !even_sets(words, rows) {
        return false;
    }
    all_within(words, rows, valid - 1)
}

// Whether the table is sound.
pub fn sound(words: &[u32]) -> bool
    ensures { Says (Sound (table_of words.now)) result }
{
    if !sizes_ok(words) {
        return false;
    }
    if header_word(words, Table::LAYOUT) != Table::CURRENT {
        return false;
    }
    let rows = header_word(words, Table::ROWS);
    if !table_ok(words, rows) {
        return false;
    }
    roots_ok(words, rows)
}
