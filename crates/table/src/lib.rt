// The rows of a table: it is made, and rows are looked up and added.
#![tactic(auto)]

ghost use Rattle.std.specs.Prelude.{◌≡◌, ◌+◌, ◌<◌, ◌≤◌, length};
ghost use Rattle.layout.specs.Places.{HEADER, USED, words_for};
ghost use Rattle.layout.specs.View.{view, header_of};
ghost use Rattle.layout.specs.declared.Refusal.TheVariants as refusal;
ghost use Rattle.rows.specs.Lookup.{Room};
ghost use Rattle.rows.specs.Sound.{Good};
ghost use Rattle.table.specs.Columns.{set_header, set_heads};
ghost use Rattle.table.specs.Fresh.{emptied};
ghost use Rattle.table.specs.Append.{appended};
ghost use Rattle.table.specs.Find.{FindPost, FreePost, UnusedPost};
ghost use Rattle.table.specs.Add.{row_put};
ghost use Rattle.table.specs.Make.{MakePre, MakePost, PlainPre, PlainPost, AddPre};

use layout::{
    Refusal, Table, arrow_of, flip, get, header_word, is_marked, put, put_head, put_header,
    put_listed,
};
use rows::{bucket_of, first, row_bucket, same_row, used_row};

// Every head becomes 0: a table is sound whatever its heads hold, and lookups are faster without old links.
fn empty_heads(words: &mut [u32], rows: u32)
    requires { words_for rows ≤ length words.old }
    ensures { view rows words.new ≡ set_heads (view rows words.old) (λ b. 0) }
{
    for b in 0..rows {
        put_head(words, rows, b, 0);
    }
}

// The header becomes another.
fn write_header(words: &mut [u32], rows: u32, header: &[u32; Table::HEADER])
    requires { words_for rows ≤ length words.old }
    ensures { view rows words.new ≡ set_header (view rows words.old) (header_of header.now) }
{
    for (h, word) in header.iter().enumerate() {
        put_header(words, rows, h, *word);
    }
}

// The words become an empty table of n bits and `rows` rows. Only the header and the heads are written.
pub fn make_empty(words: &mut [u32], n: u32, rows: u32)
    requires { words_for rows ≤ length words.old }
    ensures { view rows words.new ≡ emptied (view rows words.old) n rows }
{
    empty_heads(words, rows);
    let header = Table::header(n, rows);
    write_header(words, rows, &header);
}

// The used row with this level, low and high arrow, if there is one.
fn find(words: &[u32], rows: u32, level: u32, low: u32, high: u32) -> Option<u32>
    requires { Good (view rows words.now) }
    ensures { FindPost (view rows words.now) level low high result }
{
    let mut p = first(words, rows, bucket_of(rows, level, low, high));
    // Not a for: the walk follows links, and ends where one is 0.
    while p != 0 {
        let j = p - 1;
        if same_row(words, rows, j, level, low, high) {
            return Some(j);
        }
        p = get(words, rows, j, Table::NEXT);
    }
    None
}

// The first unused row from `from` on, or `to`.
fn free_row(words: &[u32], rows: u32, from: u32, to: u32) -> u32
    requires { Room (view rows words.now) × (from ≤ to) }
    ensures { FreePost (view rows words.now) from to result }
{
    for i in from..to {
        if !used_row(words, rows, i) {
            return i;
        }
    }
    to
}

// An unused row, or `rows` if all are used. The search starts at the cursor.
fn unused_row(words: &[u32], rows: u32) -> u32
    requires { Room (view rows words.now) }
    ensures { UnusedPost (view rows words.now) result }
{
    let cursor = header_word(words, Table::CURSOR);
    if cursor >= rows {
        return free_row(words, rows, 0, rows);
    }
    let i = free_row(words, rows, cursor, rows);
    if i < rows {
        return i;
    }
    let j = free_row(words, rows, 0, cursor);
    if j < cursor {
        return j;
    }
    rows
}

// Row i gets its level and arrows, and remembers nothing.
fn write_row(words: &mut [u32], rows: u32, i: u32, level: u32, low: u32, high: u32)
    requires { (i < rows) × (words_for rows ≤ length words.old) }
    ensures { view rows words.new ≡ row_put (view rows words.old) i level low high }
{
    put(words, rows, i, Table::LOW, low);
    put(words, rows, i, Table::HIGH, high);
    put(words, rows, i, Table::LEVEL, level);
    put(words, rows, i, Table::MEMO_KEY, 0);
}

// Row i takes the next place of the list of used rows, and becomes the first of its chain.
pub fn append(words: &mut [u32], rows: u32, i: u32)
    requires { (i < rows) × Room (view rows words.old) × (header_of words.old USED < rows) }
    ensures { view rows words.new ≡ appended (view rows words.old) i }
{
    let b = row_bucket(words, rows, i);
    let next = first(words, rows, b);
    let used = header_word(words, Table::USED);
    put(words, rows, i, Table::NEXT, next);
    put(words, rows, i, Table::RANK, used);
    put_listed(words, rows, used, i);
    put_head(words, rows, b, i + 1);
    put_header(words, rows, Table::USED, used + 1);
}

// The rows ran out: why a step has no result.
#[derive(Clone, Copy)]
pub struct Full;

impl From<Full> for Refusal {
    ghost from_gives = { λ _ e. e ≡ refusal.Full };

    fn from(_full: Full) -> Refusal {
        Refusal::Full
    }
}

// Adds a row that is not there yet.
fn add(
    words: &mut [u32],
    rows: u32,
    limit: u32,
    level: u32,
    low: u32,
    high: u32,
) -> Result<u32, Full>
    requires { AddPre (view rows words.old) limit level low high }
    ensures { PlainPost (view rows words.old) (view rows words.new) limit level low high result }
{
    let i = unused_row(words, rows);
    if i >= rows {
        return Err(Full);
    }
    put_header(words, rows, Table::CURSOR, i + 1);
    write_row(words, rows, i, level, low, high);
    append(words, rows, i);
    Ok(arrow_of(i))
}

// Adds a row that is not there yet, while fewer than `limit` are used.
fn add_within(
    words: &mut [u32],
    rows: u32,
    limit: u32,
    level: u32,
    low: u32,
    high: u32,
) -> Result<u32, Full>
    requires { AddPre (view rows words.old) limit level low high }
    ensures { PlainPost (view rows words.old) (view rows words.new) limit level low high result }
{
    let used = header_word(words, Table::USED);
    if used >= limit {
        return Err(Full);
    }
    add(words, rows, limit, level, low, high)
}

// The arrow of level, low and high, which carries no NOT: low where the two are the same, else a row that is found or added.
fn make_plain(
    words: &mut [u32],
    rows: u32,
    limit: u32,
    level: u32,
    low: u32,
    high: u32,
) -> Result<u32, Full>
    requires { PlainPre (view rows words.old) limit level low high }
    ensures { PlainPost (view rows words.old) (view rows words.new) limit level low high result }
{
    if low == high {
        return Ok(low);
    }
    let found = find(words, rows, level, low, high);
    match found {
        Some(i) => Ok(arrow_of(i)),
        None => add_within(words, rows, limit, level, low, high),
    }
}

// The arrow of level, low and high. Where the high arrow carries a NOT, it is NOT of the arrow of their complements.
pub fn make(
    words: &mut [u32],
    rows: u32,
    limit: u32,
    level: u32,
    low: u32,
    high: u32,
) -> Result<u32, Full>
    requires { MakePre (view rows words.old) limit level low high }
    ensures { MakePost (view rows words.old) (view rows words.new) limit level low high result }
{
    if !is_marked(high) {
        return make_plain(words, rows, limit, level, low, high);
    }
    let made = make_plain(words, rows, limit, level, flip(low), flip(high))?;
    Ok(flip(made))
}
