// Whether registers lie within the set V of states that exist, and relations within V and SHIFT of V.
// Nothing is written but local lists of arrows, pairs and tables.
ghost use Rattle.std.specs.Prelude.{◌≡◌, true, ◌*◌, ◌+◌, ◌-◌, ◌≤◌, ◌<◌, min, length};
ghost use Rattle.layout.specs.Places.{words_for, BITS, USED};
ghost use Rattle.layout.specs.View.{view, header_of};
ghost use Rattle.layout.specs.Arrows.{is_row, row_of};
ghost use Rattle.diagram.specs.Rows.{Arrow};
ghost use Rattle.rows.specs.Used.{rows_of};
ghost use Rattle.rows.specs.Says.{Says};
ghost use Rattle.rows.specs.Within.{Within};
ghost use Rattle.rows.specs.Sound.{Good};
ghost use Rattle.soundness.specs.Tables.{FEW};
ghost use Rattle.soundness.specs.Contained.{MANY, AllApart, Deep, RootsPre, RefsPre, PassPre, Halved};
ghost use Rattle.soundness.specs.Lists.{ROOM, Listed, LeastPre, Least, half_of, HalvesPre, Halves, LayPre, Laid, StepPre, Stepped};
ghost use Rattle.soundness.specs.Lists.{TablesPre, TablesPost, WalkPre, WalkTold, RefsListed};
ghost use Rattle.soundness.specs.Posts.{level_in, ListRefsPre};

use super::arrows::{keep_all_open, push, push_ref, remember_all};
use super::tables::{arrow_cells, disjoint, set_cells};
use layout::{Table, carry, flip, get, header_word, row_of};

// Sizes of the local lists.
#[derive(Clone, Copy)]
struct Sizes;

impl Sizes {
    // The remembered pairs, two words for each of 512.
    const PAIRS: usize = 1024;

    // Places for the tables of rows, by rank: of all that a table may have, and of few.
    const ROWS: usize = 60000;

    const FEW: usize = 2048;

    // Places for the tables of V.
    const SETS: usize = 1024;

    // Arrows of one list, at most; places for all lists on the way, and places by which an arrow is found again.
    const MANY: usize = 64;

    const ROOM: usize = 3008;

    const FOUND: usize = 512;

    // Levels that the tables tell apart, with those between.
    const LAST: u32 = 10;
}

// The level from which tables decide: the last ten of an even number of levels, or all.
fn base_of(levels: u32) -> u32
    ensures { result ≡ levels - 10 }
{
    levels.saturating_sub(Sizes::LAST)
}

// Two arrows.
#[derive(Clone, Copy)]
struct Cofactors {
    low: u32,
    high: u32,
}

// The halves of an arrow to a row at a level, where another one is at another level: the arrow itself twice, if that is the lesser.
fn halve(words: &[u32], rows: u32, a: u32, own: u32, other: u32) -> Cofactors
    requires { (is_row a ≡ true) × (row_of a < rows) × (words_for rows ≤ length words.now) }
    ensures { Halved (rows_of (view rows words.now)) a own other result.low result.high }
{
    if own > other {
        return Cofactors { low: a, high: a };
    }
    let i = row_of(a);
    Cofactors {
        low: carry(a, get(words, rows, i, Table::LOW)),
        high: carry(a, get(words, rows, i, Table::HIGH)),
    }
}

// Whether the row that an arrow leads to is at a level from the base on.
fn deep(words: &[u32], rows: u32, base: u32, b: u32) -> bool
    requires { Good (view rows words.now) × Arrow (rows_of (view rows words.now)) b × (is_row b ≡ true) }
    ensures { Says (Deep (view rows words.now) base b) result }
{
    if get(words, rows, row_of(b), Table::LEVEL) < base {
        return false;
    }
    true
}

// The level of the row that an arrow leads to, which counts higher by the shift.
fn top_of(words: &[u32], rows: u32, shift: u32, b: u32) -> u32
    requires { Good (view rows words.now) × Arrow (rows_of (view rows words.now)) b × (is_row b ≡ true) × (shift ≤ 1) }
    ensures { result ≡ level_in rows words.now b + shift }
{
    get(words, rows, row_of(b), Table::LEVEL) + shift
}

// The lesser of a level and of that of the row that an arrow leads to.
fn lesser(words: &[u32], rows: u32, level: u32, a: u32) -> u32
    requires { Good (view rows words.now) × Listed (view rows words.now) 0 a × (level ≤ 2 * header_of words.now BITS) }
    ensures { result ≡ min level (level_in rows words.now a) }
{
    if a == Table::EVERYTHING {
        return level;
    }
    get(words, rows, row_of(a), Table::LEVEL).min(level)
}

// The least of a level and of those of a list's arrows.
fn least(words: &[u32], rows: u32, top: u32, from: usize, to: usize, list: &[u32]) -> u32
    requires { LeastPre (view rows words.now) list.now from to top }
    ensures { Least (view rows words.now) list.now from to top result }
{
    let mut level = top;
    for a in &list[from..to] {
        level = lesser(words, rows, level, *a);
    }
    level
}

// The half of an arrow where a level, at most its own, is 0 or 1: the arrow itself where its row is at another.
fn half(words: &[u32], rows: u32, level: u32, side: usize, a: u32) -> u32
    requires { Good (view rows words.now) × Listed (view rows words.now) 0 a × (side ≤ 1) }
    ensures { result ≡ half_of (view rows words.now) level side a }
{
    if a == Table::EVERYTHING {
        return a;
    }
    let i = row_of(a);
    if get(words, rows, i, Table::LEVEL) != level {
        return a;
    }
    carry(a, get(words, rows, i, side))
}

// Puts the halves of a list's arrows at the end of another, which starts past it in the same room.
fn halves(
    words: &[u32],
    rows: u32,
    level: u32,
    side: usize,
    from: usize,
    to: usize,
    start: usize,
    end: usize,
    list: &mut [u32],
    found: &mut [u32],
) -> usize
    requires { HalvesPre (view rows words.now) level list.old found.old from to end × (start ≤ end) × (end + (to - from) ≤ ROOM)
        × (side ≤ 1) }
    ensures { Halves (view rows words.now) level side list.old list.new from to start end result }
{
    let mut stop = end;
    for k in from..to {
        let h = half(words, rows, level, side, list[k]);
        stop = push(list, found, start, stop, h);
    }
    stop
}

// What a walk goes on with: two lists, up to `mid` and from there up to `stop`, an arrow against each, and the level that all are at, or
// past it. `last` is where the list ends of which these are the halves.
#[derive(Clone, Copy)]
struct Parts {
    last: usize,
    level: u32,
    low: u32,
    high: u32,
    mid: usize,
    stop: usize,
}

// Where a list is cut, so that each part has at most MANY.
fn cut(end: usize, stop: usize) -> usize
    requires { (end ≤ stop) × (stop ≤ end + 2 * MANY) × (stop ≤ ROOM) }
    ensures { (end ≤ result) × (result ≤ stop) × (result ≤ end + MANY) × (stop ≤ result + MANY) }
{
    stop.min(end + Sizes::MANY)
}

// Lays a list's halves at level l: all against b where b is past the level, cut in two; else the low ones against the low half of b, and
// the high ones against the high half.
fn lay(
    words: &[u32],
    rows: u32,
    shift: u32,
    l: u32,
    b: u32,
    from: usize,
    to: usize,
    end: usize,
    list: &mut [u32],
    found: &mut [u32],
) -> Parts
    requires { LayPre (view rows words.now) shift l b list.old found.old from to end }
    ensures { Laid (view rows words.now) shift l b list.old list.new from to end result.low result.high
        result.mid result.stop × (result.last ≡ to) × (result.level ≡ l + 1) }
{
    let top = top_of(words, rows, shift, b);
    let h = halve(words, rows, b, top, l);
    let mid = halves(words, rows, l, Table::LOW, from, to, end, end, list, found);
    if l < top {
        let stop = halves(words, rows, l, Table::HIGH, from, to, end, mid, list, found);
        return Parts {
            last: to,
            level: l + 1,
            low: h.low,
            high: h.high,
            mid: cut(end, stop),
            stop: stop,
        };
    }
    let stop = halves(words, rows, l, Table::HIGH, from, to, mid, mid, list, found);
    Parts {
        last: to,
        level: l + 1,
        low: h.low,
        high: h.high,
        mid: mid,
        stop: stop,
    }
}

// Leaves out of a list what is known to be apart from b, and lays the rest out at its least level or b's.
fn step(
    words: &[u32],
    rows: u32,
    shift: u32,
    b: u32,
    from: usize,
    to: usize,
    end: usize,
    list: &mut [u32],
    found: &mut [u32],
    memo: &[u32],
) -> Parts
    requires { StepPre (view rows words.now) shift b list.old found.old from to end memo.now }
    ensures { Stepped (view rows words.now) shift b memo.now list.old list.new from to end
        result.last result.level result.low result.high result.mid result.stop }
{
    let last = keep_all_open(shift, b, from, to, list, memo);
    let l = least(words, rows, top_of(words, rows, shift, b), from, last, list);
    lay(words, rows, shift, l, b, from, last, end, list, found)
}

// Whether no arrow of a list has a valuation in common with b, of even levels from the base on, which count higher by the shift: by their
// tables.
fn tables_apart(
    words: &[u32],
    rows: u32,
    shift: u32,
    base: u32,
    b: u32,
    from: usize,
    to: usize,
    list: &[u32],
    first: &mut [u64],
    second: &mut [u64],
) -> bool
    requires { TablesPre (view rows words.now) shift base b list.now from to first.old second.old }
    ensures { TablesPost (view rows words.now) shift base b list.now from to first.new
        second.new result }
{
    let y = set_cells(words, rows, base, shift, b, row_of(b), second);
    for a in &list[from..to] {
        let x = arrow_cells(words, rows, base, shift, 0, *a, first);
        if !disjoint(x, y) {
            return false;
        }
    }
    true
}

// Whether no arrow of a list has a valuation in common with b, whose levels count higher by the shift. It ends at the first one in common,
// and where b comes to the base its tables decide. `level`, at most that of each arrow, bounds the room past `end` for more lists; the list
// may be written over.
fn apart(
    words: &[u32],
    rows: u32,
    shift: u32,
    base: u32,
    level: u32,
    b: u32,
    from: usize,
    to: usize,
    end: usize,
    list: &mut [u32],
    found: &mut [u32],
    memo: &mut [u32],
    first: &mut [u64],
    second: &mut [u64],
) -> bool
    requires { WalkPre (view rows words.now) shift base level b list.old found.old from to end memo.old first.old
        second.old }
    ensures { WalkTold (view rows words.now) shift base b list.old list.new from to end
        memo.new first.new second.new result }
{
    if from == to {
        return true;
    }
    if b == Table::NOTHING {
        return true;
    }
    if b == Table::EVERYTHING {
        return false;
    }
    if deep(words, rows, base, b) {
        return tables_apart(words, rows, shift, base, b, from, to, list, first, second);
    }
    let q = step(words, rows, shift, b, from, to, end, list, found, memo);
    if !apart(
        words, rows, shift, base, q.level, q.low, end, q.mid, q.stop, list, found, memo, first,
        second,
    ) {
        return false;
    }
    if !apart(
        words, rows, shift, base, q.level, q.high, q.mid, q.stop, q.stop, list, found, memo, first,
        second,
    ) {
        return false;
    }
    remember_all(b, from, q.last, list, memo);
    true
}

// Puts the arrows of the roots in the header's words from `from` up to `to` into a list, and says where it ends.
fn list_refs(words: &[u32], from: usize, to: usize, list: &mut [u32], found: &mut [u32]) -> usize
    requires { ListRefsPre words.now list.old found.old from to }
    ensures { RefsListed (header_of words.now) list.new from to result }
{
    let mut stop = 0;
    for k in from..to {
        stop = push_ref(list, found, stop, header_word(words, k));
    }
    stop
}

// Whether the roots in the header's words from `from` up to `to` have no valuation in common with an arrow.
fn refs_apart(
    words: &[u32],
    rows: u32,
    shift: u32,
    from: usize,
    to: usize,
    b: u32,
    first: &mut [u64],
) -> bool
    requires { RefsPre (view rows words.now) shift from to b first.old }
    ensures { Says (AllApart (view rows words.now) shift from to b) result }
{
    let base = base_of(2 * header_word(words, Table::BITS));
    let mut memo = [0u32; Sizes::PAIRS];
    let mut second = [0u64; Sizes::SETS];
    let mut list = [0u32; Sizes::ROOM];
    let mut found = [0u32; Sizes::FOUND];
    let stop = list_refs(words, from, to, &mut list, &mut found);
    apart(
        words,
        rows,
        shift,
        base,
        0,
        b,
        0,
        stop,
        stop,
        &mut list,
        &mut found,
        &mut memo,
        first,
        &mut second,
    )
}

// The same with places for all rows. This and the next are not one function with a const parameter: `inline(never)` does not hold for a
// generic function's instances, and the frame of a small table's check had both lists.
#[inline(never)]
fn wide_apart(words: &[u32], rows: u32, shift: u32, from: usize, to: usize, b: u32) -> bool
    requires { RootsPre (view rows words.now) shift from to b }
    ensures { Says (AllApart (view rows words.now) shift from to b) result }
{
    let mut first = [0u64; Sizes::ROWS];
    refs_apart(words, rows, shift, from, to, b, &mut first)
}

// The same with places for few rows.
#[inline(never)]
fn narrow_apart(words: &[u32], rows: u32, shift: u32, from: usize, to: usize, b: u32) -> bool
    requires { RootsPre (view rows words.now) shift from to b × (header_of words.now USED ≤ FEW) }
    ensures { Says (AllApart (view rows words.now) shift from to b) result }
{
    let mut first = [0u64; Sizes::FEW];
    refs_apart(words, rows, shift, from, to, b, &mut first)
}

// The same with places for as many rows as are used.
fn roots_apart(words: &[u32], rows: u32, shift: u32, from: usize, to: usize, b: u32) -> bool
    requires { RootsPre (view rows words.now) shift from to b }
    ensures { Says (AllApart (view rows words.now) shift from to b) result }
{
    if (header_word(words, Table::USED) as usize) > Sizes::FEW {
        return wide_apart(words, rows, shift, from, to, b);
    }
    narrow_apart(words, rows, shift, from, to, b)
}

// Whether every register lies within V, and every relation within V and SHIFT of V, for the set V of arrow v.
pub fn all_within(words: &[u32], rows: u32, v: u32) -> bool
    requires { PassPre (view rows words.now) v }
    ensures { Says (Within (view rows words.now) v) result }
{
    if v == Table::EVERYTHING {
        return true;
    }
    let b = flip(v);
    roots_apart(words, rows, 0, Table::FIRST_REGISTER, Table::ROOTS_END, b)
        && roots_apart(words, rows, 1, Table::FIRST_RELATION, Table::ROOTS_END, b)
}
