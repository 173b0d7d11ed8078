// The operations on arrows: a bit, AND, OR, SHIFT and EXISTS at one level. None of them frees a row.
// NOT makes no row: it is `layout::flip`.
// Each answers an arrow, or `Full` where the rows ran out.
#![tactic(auto)]

ghost use Rattle.std.specs.Prelude.{◌≡◌, true, ◌<◌, ◌≤◌, min, max, length};
ghost use Rattle.diagram.specs.Steps.{bit_f, and_f, or_f, shift_f, exists_f};
ghost use Rattle.layout.specs.Places.{words_for};
ghost use Rattle.layout.specs.View.{view};
ghost use Rattle.layout.specs.Arrows.{is_row, row_of, is_marked};
ghost use Rattle.rows.specs.Lookup.{Room};
ghost use Rattle.memory.specs.Memo.{Slots};
ghost use Rattle.operations.specs.Work.{Ready};
ghost use Rattle.operations.specs.Open.{RowIs, ReachesLevel};
ghost use Rattle.operations.specs.Odd.{OddKnown, OddPost, JoinPre};
ghost use Rattle.operations.specs.Carried.{CarriedMade, carried_found};
ghost use Rattle.operations.specs.Pairs.{short_of, KnownPost, BothRows, OrKnown, OrRemembered};
ghost use Rattle.operations.specs.Posts.{rows_in, ArrowPre, RowPre, PairPre, PairRowsPre, ShiftPre, ShiftRowPre, LevelPre};
ghost use Rattle.operations.specs.Posts.{LevelRowPre, KnownOf, FnPost, OnePost, TwoPost, JoinedPost, top_level, HalvesAt};

use layout::{Table, carry, flip, get, is_row, row_of};
use memory::{Memory, recall, recall_row, remember, remember_row};
use table::{Full, make};

// A row's level, and the arrows that are followed from an arrow to it.
#[derive(Clone, Copy)]
pub struct Node {
    pub level: u32,
    pub low: u32,
    pub high: u32,
}

// The level of row i, and the arrows that are followed from a, an arrow to it: they carry its NOT.
pub fn node_at(words: &[u32], rows: u32, a: u32, i: u32) -> Node
    requires { (i < rows) × (words_for rows ≤ length words.now) }
    ensures { RowIs (rows_in rows words.now) a i result.level result.low result.high }
{
    Node {
        level: get(words, rows, i, Table::LEVEL),
        low: carry(a, get(words, rows, i, Table::LOW)),
        high: carry(a, get(words, rows, i, Table::HIGH)),
    }
}

// The function of one level.
pub fn bit(words: &mut [u32], rows: u32, levels: u32, limit: u32, level: u32) -> Result<u32, Full>
    requires { Ready levels rows limit (view rows words.old) × (level < levels) }
    ensures { FnPost levels rows limit words.old words.new result (bit_f level) }
{
    make(words, rows, limit, level, Table::NOTHING, Table::EVERYTHING)
}

// An answer, with the NOT of an arrow: `Full` stays.
fn carry_made(by: u32, made: Result<u32, Full>) -> Result<u32, Full>
    ensures { CarriedMade (is_marked by) made result }
{
    let a = made?;
    Ok(carry(by, a))
}

// What was found, with the NOT of an arrow.
fn carry_found(by: u32, found: Option<u32>) -> Option<u32>
    ensures { result ≡ carried_found (is_marked by) found }
{
    let r = found?;
    Some(carry(by, r))
}

// What is known of SHIFT of an arrow: of a constant, or remembered by its row for the arrow without a NOT.
fn shift_known(words: &[u32], rows: u32, levels: u32, a: u32) -> Option<u32>
    requires { ArrowPre levels rows 0 words.now a }
    ensures { KnownOf shift_f levels rows words.now a result (is_row a ≡ true) }
{
    if !is_row(a) {
        return Some(a);
    }
    let found = recall_row(words, rows, Table::NOTHING, row_of(a), Memory::SHIFT);
    carry_found(a, found)
}

// SHIFT of an arrow whose rows all have even levels: every level becomes the next one. It is worked out for the arrow without a NOT, once
// for both.
pub fn shift(words: &mut [u32], rows: u32, levels: u32, limit: u32, a: u32) -> Result<u32, Full>
    requires { ShiftPre levels rows limit words.old a }
    ensures { OnePost shift_f levels rows limit words.old words.new a result }
{
    shift_part(words, rows, levels, limit, a)
}

// The body of `shift`, also for a part of a row. Apart, so that it is inlined in `shift_row`: a part with a known result costs no call.
#[cycle(shift_part_shift_row)]
fn shift_part(words: &mut [u32], rows: u32, levels: u32, limit: u32, a: u32) -> Result<u32, Full>
    requires { ShiftPre levels rows limit words.old a }
    ensures { OnePost shift_f levels rows limit words.old words.new a result }
{
    let known = shift_known(words, rows, levels, a);
    if let Some(r) = known {
        return Ok(r);
    }
    let made = shift_row(words, rows, levels, limit, carry(a, a));
    carry_made(a, made)
}

// SHIFT of an arrow without a NOT to a row.
#[cycle(shift_part_shift_row)]
#[inline(never)]
fn shift_row(words: &mut [u32], rows: u32, levels: u32, limit: u32, a: u32) -> Result<u32, Full>
    requires { ShiftRowPre levels rows limit words.old a }
    ensures { OnePost shift_f levels rows limit words.old words.new a result }
{
    let i = row_of(a);
    let n = node_at(words, rows, Table::NOTHING, i);
    let low = shift_part(words, rows, levels, limit, n.low)?;
    let high = shift_part(words, rows, levels, limit, n.high)?;
    let made = make(words, rows, limit, n.level + 1, low, high);
    remember_row(words, rows, Table::NOTHING, i, Memory::SHIFT, made);
    made
}

// Two arrows, the lesser first.
#[derive(Clone, Copy)]
pub struct Sorted {
    pub lo: u32,
    pub hi: u32,
}

// Two arrows in order.
fn sort(a: u32, b: u32) -> Sorted
    ensures { (result.lo ≡ min a b) × (result.hi ≡ max a b) }
{
    Sorted {
        lo: a.min(b),
        hi: a.max(b),
    }
}

// AND of a lesser and a greater arrow, where they are the same or each other's NOT, or the lesser is a constant.
fn short(lo: u32, hi: u32) -> Option<u32>
    ensures { result ≡ short_of lo hi }
{
    if lo == hi {
        return Some(lo);
    }
    if hi == flip(lo) {
        return Some(Table::NOTHING);
    }
    if is_row(lo) {
        return None;
    }
    if lo == Table::NOTHING {
        return Some(lo);
    }
    Some(hi)
}

// What is known of AND of a lesser and a greater arrow: at once, or remembered.
fn known(words: &[u32], rows: u32, lo: u32, hi: u32) -> Option<u32>
    requires { Room (view rows words.now) × Slots (view rows words.now) }
    ensures { KnownPost (view rows words.now) lo hi result }
{
    let found = short(lo, hi);
    if let Some(r) = found {
        return Some(r);
    }
    recall(words, rows, lo, hi)
}

// The lesser level of two arrows to rows.
fn top(words: &[u32], rows: u32, lo: u32, hi: u32) -> u32
    requires { BothRows lo hi × (row_of lo < rows) × (row_of hi < rows) × (words_for rows ≤ length words.now) }
    ensures { result ≡ top_level rows words.now lo hi }
{
    let k = get(words, rows, row_of(lo), Table::LEVEL);
    let l = get(words, rows, row_of(hi), Table::LEVEL);
    k.min(l)
}

// The arrows that are followed from an arrow where a level is 0 and where it is 1.
#[derive(Clone, Copy)]
pub struct Halves {
    pub low: u32,
    pub high: u32,
}

// The halves of an arrow to a row at a level.
fn halve(words: &[u32], rows: u32, level: u32, a: u32) -> Halves
    requires { (is_row a ≡ true) × (row_of a < rows) × (words_for rows ≤ length words.now) }
    ensures { HalvesAt rows words.now level a result.low result.high }
{
    let n = node_at(words, rows, a, row_of(a));
    if n.level != level {
        return Halves { low: a, high: a };
    }
    Halves {
        low: n.low,
        high: n.high,
    }
}

// AND of two arrows.
pub fn and_of(
    words: &mut [u32],
    rows: u32,
    levels: u32,
    limit: u32,
    a: u32,
    b: u32,
) -> Result<u32, Full>
    requires { PairPre levels rows limit words.old a b }
    ensures { TwoPost and_f levels rows limit words.old words.new a b result }
{
    and_part(words, rows, levels, limit, a, b)
}

// The body of `and_of`, also for parts of two rows. Apart, so that it is inlined in `and_rows`: a pair with a known result costs no call.
#[cycle(and_part_and_rows)]
fn and_part(
    words: &mut [u32],
    rows: u32,
    levels: u32,
    limit: u32,
    a: u32,
    b: u32,
) -> Result<u32, Full>
    requires { PairPre levels rows limit words.old a b }
    ensures { TwoPost and_f levels rows limit words.old words.new a b result }
{
    let p = sort(a, b);
    let found = known(words, rows, p.lo, p.hi);
    if let Some(r) = found {
        return Ok(r);
    }
    and_rows(words, rows, levels, limit, p.lo, p.hi)
}

// AND of a lesser and a greater arrow to rows.
#[cycle(and_part_and_rows)]
#[inline(never)]
fn and_rows(
    words: &mut [u32],
    rows: u32,
    levels: u32,
    limit: u32,
    lo: u32,
    hi: u32,
) -> Result<u32, Full>
    requires { PairRowsPre levels rows limit words.old lo hi }
    ensures { TwoPost and_f levels rows limit words.old words.new lo hi result }
{
    let level = top(words, rows, lo, hi);
    let x = halve(words, rows, level, lo);
    let y = halve(words, rows, level, hi);
    let low = and_part(words, rows, levels, limit, x.low, y.low)?;
    let high = and_part(words, rows, levels, limit, x.high, y.high)?;
    let made = make(words, rows, limit, level, low, high);
    remember(words, rows, lo, hi, made);
    made
}

// What is known of OR of a lesser and a greater arrow: NOT of what is known of AND of the two with the other mark, so that one memory is
// for both.
fn or_known(words: &[u32], rows: u32, lo: u32, hi: u32) -> Option<u32>
    requires { Room (view rows words.now) × Slots (view rows words.now) }
    ensures { OrKnown (view rows words.now) lo hi result }
{
    let found = known(words, rows, flip(lo), flip(hi));
    carry_found(Table::EVERYTHING, found)
}

// Remembers OR of a lesser and a greater arrow: NOT of it, as AND of the two with the other mark.
fn remember_or(words: &mut [u32], rows: u32, lo: u32, hi: u32, made: Result<u32, Full>)
    requires { Room (view rows words.old) × Slots (view rows words.old) }
    ensures { OrRemembered (view rows words.old) (view rows words.new) lo hi made }
{
    let turned = carry_made(Table::EVERYTHING, made);
    remember(words, rows, flip(lo), flip(hi), turned);
}

// OR of two arrows.
pub fn or_of(
    words: &mut [u32],
    rows: u32,
    levels: u32,
    limit: u32,
    a: u32,
    b: u32,
) -> Result<u32, Full>
    requires { PairPre levels rows limit words.old a b }
    ensures { TwoPost or_f levels rows limit words.old words.new a b result }
{
    or_part(words, rows, levels, limit, a, b)
}

// The body of `or_of`, also for parts of two rows. Apart, so that it is inlined in `or_rows`: a pair with a known result costs no call.
// A twin of AND: document 01 names the form in which AND and OR each recurse (docs/DECISIONS.md, 133).
#[cycle(or_part_or_rows)]
fn or_part(
    words: &mut [u32],
    rows: u32,
    levels: u32,
    limit: u32,
    a: u32,
    b: u32,
) -> Result<u32, Full>
    requires { PairPre levels rows limit words.old a b }
    ensures { TwoPost or_f levels rows limit words.old words.new a b result }
{
    let p = sort(a, b);
    let found = or_known(words, rows, p.lo, p.hi);
    if let Some(r) = found {
        return Ok(r);
    }
    or_rows(words, rows, levels, limit, p.lo, p.hi)
}

// OR of a lesser and a greater arrow to rows.
// A twin of AND: document 01 names the form in which AND and OR each recurse (docs/DECISIONS.md, 133).
#[cycle(or_part_or_rows)]
#[inline(never)]
fn or_rows(
    words: &mut [u32],
    rows: u32,
    levels: u32,
    limit: u32,
    lo: u32,
    hi: u32,
) -> Result<u32, Full>
    requires { PairRowsPre levels rows limit words.old lo hi }
    ensures { TwoPost or_f levels rows limit words.old words.new lo hi result }
{
    let level = top(words, rows, lo, hi);
    let x = halve(words, rows, level, lo);
    let y = halve(words, rows, level, hi);
    let low = or_part(words, rows, levels, limit, x.low, y.low)?;
    let high = or_part(words, rows, levels, limit, x.high, y.high)?;
    let made = make(words, rows, limit, level, low, high);
    remember_or(words, rows, lo, hi, made);
    made
}

// What is known of EXISTS at level x of an arrow: of a function that does not read x, or remembered.
fn exists_known(words: &[u32], rows: u32, levels: u32, x: u32, a: u32) -> Option<u32>
    requires { LevelPre levels rows 0 words.now x a }
    ensures { KnownOf (exists_f x) levels rows words.now a result (ReachesLevel (rows_in rows words.now) x a) }
{
    if !is_row(a) {
        return Some(a);
    }
    let i = row_of(a);
    let level = get(words, rows, i, Table::LEVEL);
    if level > x {
        return Some(a);
    }
    recall_row(words, rows, a, i, Memory::EXISTS + x)
}

// EXISTS at level x of an arrow.
pub fn exists(
    words: &mut [u32],
    rows: u32,
    levels: u32,
    limit: u32,
    x: u32,
    a: u32,
) -> Result<u32, Full>
    requires { LevelPre levels rows limit words.old x a }
    ensures { OnePost (exists_f x) levels rows limit words.old words.new a result }
{
    exists_part(words, rows, levels, limit, x, a)
}

// The body of `exists`, also for a part of a row. Apart, so that it is inlined in `exists_row`: a part with a known result costs no call.
#[cycle(exists_part_exists_row)]
fn exists_part(
    words: &mut [u32],
    rows: u32,
    levels: u32,
    limit: u32,
    x: u32,
    a: u32,
) -> Result<u32, Full>
    requires { LevelPre levels rows limit words.old x a }
    ensures { OnePost (exists_f x) levels rows limit words.old words.new a result }
{
    let known = exists_known(words, rows, levels, x, a);
    if let Some(r) = known {
        return Ok(r);
    }
    exists_row(words, rows, levels, limit, x, a)
}

// EXISTS at level x of an arrow to a row at level x or above it.
#[cycle(exists_part_exists_row)]
#[inline(never)]
fn exists_row(
    words: &mut [u32],
    rows: u32,
    levels: u32,
    limit: u32,
    x: u32,
    a: u32,
) -> Result<u32, Full>
    requires { LevelRowPre levels rows limit words.old x a }
    ensures { OnePost (exists_f x) levels rows limit words.old words.new a result }
{
    let i = row_of(a);
    let n = node_at(words, rows, a, i);
    let kind = Memory::EXISTS + x;
    if n.level == x {
        let made = or_of(words, rows, levels, limit, n.low, n.high);
        remember_row(words, rows, a, i, kind, made);
        return made;
    }
    let low = exists_part(words, rows, levels, limit, x, n.low)?;
    let high = exists_part(words, rows, levels, limit, x, n.high)?;
    let made = make(words, rows, limit, n.level, low, high);
    remember_row(words, rows, a, i, kind, made);
    made
}

// What is known of EXISTS at every odd level of an arrow: of a constant, or remembered.
pub fn odd_known(words: &[u32], rows: u32, levels: u32, a: u32) -> Option<u32>
    requires { ArrowPre levels rows 0 words.now a }
    ensures { OddKnown levels (view rows words.now) a result }
{
    if !is_row(a) {
        return Some(a);
    }
    recall_row(words, rows, a, row_of(a), Memory::ODD)
}

// EXISTS at every odd level of an arrow. Rows are added for parts of the result too, so that `Full` says nothing of its need.
pub fn exists_odd(
    words: &mut [u32],
    rows: u32,
    levels: u32,
    limit: u32,
    a: u32,
) -> Result<u32, Full>
    requires { ArrowPre levels rows limit words.old a }
    ensures { OddPost levels (view rows words.old) (view rows words.new) a result }
{
    odd_part(words, rows, levels, limit, a)
}

// The body of `exists_odd`, also for a part of a row. Apart, so that it is inlined in `odd_row`: a part with a known result costs no call.
#[cycle(odd_part_odd_row)]
fn odd_part(words: &mut [u32], rows: u32, levels: u32, limit: u32, a: u32) -> Result<u32, Full>
    requires { ArrowPre levels rows limit words.old a }
    ensures { OddPost levels (view rows words.old) (view rows words.new) a result }
{
    let known = odd_known(words, rows, levels, a);
    if let Some(r) = known {
        return Ok(r);
    }
    odd_row(words, rows, levels, limit, a)
}

// OR of the parts of a row of an odd level, or a row over those of an even one.
fn odd_join(
    words: &mut [u32],
    rows: u32,
    levels: u32,
    limit: u32,
    level: u32,
    low: u32,
    high: u32,
) -> Result<u32, Full>
    requires { JoinPre levels rows limit (view rows words.old) level low high }
    ensures { JoinedPost levels rows limit words.old words.new level low high result }
{
    if level % 2 == 1 {
        return or_of(words, rows, levels, limit, low, high);
    }
    make(words, rows, limit, level, low, high)
}

// EXISTS at every odd level of an arrow to a row.
#[cycle(odd_part_odd_row)]
#[inline(never)]
fn odd_row(words: &mut [u32], rows: u32, levels: u32, limit: u32, a: u32) -> Result<u32, Full>
    requires { RowPre levels rows limit words.old a }
    ensures { OddPost levels (view rows words.old) (view rows words.new) a result }
{
    let i = row_of(a);
    let n = node_at(words, rows, a, i);
    let low = odd_part(words, rows, levels, limit, n.low)?;
    let high = odd_part(words, rows, levels, limit, n.high)?;
    let made = odd_join(words, rows, levels, limit, n.level, low, high);
    remember_row(words, rows, a, i, Memory::ODD, made);
    made
}
