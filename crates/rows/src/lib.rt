// The rows of a table: which are used, their buckets, finding one, marking what arrows reach.
#![tactic(auto)]

ghost use Rattle.std.specs.Prelude.{◌≡◌, true, false, suc, ◌*◌, ◌<◌, ◌≤◌, length};
ghost use Rattle.layout.specs.Places.{MAX_ROWS, words_for};
ghost use Rattle.layout.specs.View.{view, head_of};
ghost use Rattle.layout.specs.Arrows.{is_row};
ghost use Rattle.rows.specs.Used.{used, rows_of};
ghost use Rattle.rows.specs.Index.{bucket, key_of, live, Has};
ghost use Rattle.rows.specs.Bits.{is_on, Sets};
ghost use Rattle.rows.specs.Mark.{Marks, MarkPre};
ghost use Rattle.rows.specs.Roots.{MarksAll, RefPre, RefsPre, MarksHeld};
ghost use Rattle.rows.specs.Says.{Says};
ghost use Rattle.rows.specs.Lookup.{Room};

use layout::{Hash, Table, get, head, header_word, is_row, listed, row_of};

// A bitmap with a mark of each row.
#[derive(Clone, Copy)]
pub struct Bitmap;

impl Bitmap {
    pub const WORDS: usize = 1875;
}

// The bucket of a row's three words in a table of `rows` rows.
pub fn bucket_of(rows: u32, level: u32, low: u32, high: u32) -> u32
    requires { (0 < rows) × (rows ≤ MAX_ROWS) }
    ensures { (result ≡ bucket rows level low high) × (result < rows) }
{
    let x = Hash::FIRST * (low as u64) % Hash::VALUES;
    let y = Hash::SECOND * (high as u64) % Hash::VALUES;
    let z = Hash::THIRD * (level as u64) % Hash::VALUES;
    let h = (x + (y + z)) % Hash::VALUES;
    (h * (rows as u64) / Hash::VALUES) as u32
}

// The bucket of row i.
pub fn row_bucket(words: &[u32], rows: u32, i: u32) -> u32
    requires { (i < rows) × (rows ≤ MAX_ROWS) × (words_for rows ≤ length words.now) }
    ensures { (result ≡ key_of (view rows words.now) i) × (result < rows) }
{
    let level = get(words, rows, i, Table::LEVEL);
    let low = get(words, rows, i, Table::LOW);
    let high = get(words, rows, i, Table::HIGH);
    bucket_of(rows, level, low, high)
}

// Whether row i is used.
pub fn used_row(words: &[u32], rows: u32, i: u32) -> bool
    requires { Room (view rows words.now) }
    ensures { result ≡ used (view rows words.now) i }
{
    if i >= rows {
        return false;
    }
    let k = get(words, rows, i, Table::RANK);
    if k >= header_word(words, Table::USED) {
        return false;
    }
    if listed(words, rows, k) != i {
        return false;
    }
    true
}

// Whether row j has these three words.
pub fn same_row(words: &[u32], rows: u32, j: u32, level: u32, low: u32, high: u32) -> bool
    requires { (j < rows) × (words_for rows ≤ length words.now) }
    ensures { Says (Has (view rows words.now) j level low high) result }
{
    if get(words, rows, j, Table::LEVEL) != level {
        return false;
    }
    if get(words, rows, j, Table::LOW) != low {
        return false;
    }
    if get(words, rows, j, Table::HIGH) != high {
        return false;
    }
    true
}

// The first link of bucket b: its head, or 0 where the head names no used row.
pub fn first(words: &[u32], rows: u32, b: u32) -> u32
    requires { (b < rows) × Room (view rows words.now) }
    ensures { result ≡ live (used (view rows words.now)) (head_of rows words.now b) }
{
    let p = head(words, rows, b);
    if p == 0 {
        return 0;
    }
    if !used_row(words, rows, p - 1) {
        return 0;
    }
    p
}

// Whether row i is marked.
pub fn marked(marks: &[u32], i: u32) -> bool
    requires { i < 32 * length marks.now }
    ensures { result ≡ is_on marks.now i }
{
    let at = (i / 32) as usize;
    (marks[at] >> (i % 32)) % 2 == 1
}

// Marks row i.
pub fn set_mark(marks: &mut [u32], i: u32)
    requires { i < 32 * length marks.old }
    ensures { Sets marks.old marks.new i }
{
    let at = (i / 32) as usize;
    let old = marks[at];
    marks[at] = old | (1u32 << (i % 32));
}

// Marks the rows that arrow a reaches.
pub fn mark(words: &[u32], rows: u32, marks: &mut [u32], a: u32)
    requires { MarkPre (view rows words.now) (length marks.old) a }
    ensures { Marks (rows_of (view rows words.now)) marks.old marks.new a }
{
    mark_part(words, rows, marks, a);
}

// The body of `mark`, also for an arrow of a row. Apart, so that it is inlined in `mark_row`: one with nothing to mark costs no call.
#[cycle(mark_part_mark_row)]
fn mark_part(words: &[u32], rows: u32, marks: &mut [u32], a: u32)
    requires { MarkPre (view rows words.now) (length marks.old) a }
    ensures { Marks (rows_of (view rows words.now)) marks.old marks.new a }
{
    if !is_row(a) {
        return;
    }
    if marked(marks, row_of(a)) {
        return;
    }
    mark_row(words, rows, marks, a);
}

// Marks the rows that an arrow to a row reaches.
#[cycle(mark_part_mark_row)]
#[inline(never)]
fn mark_row(words: &[u32], rows: u32, marks: &mut [u32], a: u32)
    requires { MarkPre (view rows words.now) (length marks.old) a × (is_row a ≡ true) }
    ensures { Marks (rows_of (view rows words.now)) marks.old marks.new a }
{
    let i = row_of(a);
    mark_part(words, rows, marks, get(words, rows, i, Table::LOW));
    mark_part(words, rows, marks, get(words, rows, i, Table::HIGH));
    set_mark(marks, i);
}

// Marks the rows that a root reaches.
fn mark_ref(words: &[u32], rows: u32, marks: &mut [u32], r: u32)
    requires { RefPre (view rows words.now) (length marks.old) r }
    ensures { MarksAll (rows_of (view rows words.now)) marks.old marks.new (λ a. r ≡ suc a) }
{
    if r == 0 {
        return;
    }
    mark(words, rows, marks, r - 1);
}

// Marks the rows that the header's words from `from` up to `to` reach.
pub fn mark_refs(words: &[u32], rows: u32, marks: &mut [u32], from: usize, to: usize)
    requires { RefsPre (view rows words.now) (length marks.old) from to }
    ensures { MarksHeld rows words.now marks.old marks.new from to }
{
    for k in from..to {
        mark_ref(words, rows, marks, header_word(words, k));
    }
}
