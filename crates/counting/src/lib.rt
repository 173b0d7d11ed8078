// Counting rows: how many rows each step of an evaluation needs, for its peak.
#![tactic(auto)]

ghost use Rattle.std.specs.Prelude.{◌≡◌, true, false, ◌++◌, ◌≤◌, length, take};
ghost use Rattle.layout.specs.View.{view};
ghost use Rattle.layout.specs.Arrows.{is_row, row_of};
ghost use Rattle.rows.specs.Used.{rows_of};
ghost use Rattle.rows.specs.Bits.{MARK_WORDS, is_on};
ghost use Rattle.rows.specs.Mark.{MarkPre};
ghost use Rattle.rows.specs.Sound.{Sound};
ghost use Rattle.rows.specs.Filled.{filled};
ghost use Rattle.diagram.specs.Sizes.{Outside};
ghost use Rattle.collect.specs.Lent.{LentPre};
ghost use Rattle.collect.specs.Answers.{FreePre};
ghost use Rattle.steps.specs.Clean.{CleanPre};
ghost use Rattle.counting.specs.News.{MarksNew, ListNew};
ghost use Rattle.counting.specs.Sizes.{place_of, put_size};
ghost use Rattle.counting.specs.Counts.{COUNT_WORDS, Blank, BaseOf, CountsOf, Emptied, MarkRoom, LiveMarked};
ghost use Rattle.counting.specs.Bound.{SizePre, SizePost, SumPost, WithinPost};
ghost use Rattle.counting.specs.Peak.{NotePost};
ghost use Rattle.counting.specs.Posts.{LivePre, LiveReaches, TakePre, StepCountedIn, TakenIn};

use accounts::Count;
use collect::{count_marks, mark_filled};
use layout::{Table, get, header_word, is_row, row_of};
use rows::{Bitmap, marked, set_mark};
use steps::{Step, operands_of, retry, settle, try_step};
use table::Full;

// What an evaluation counts rows with: marks of the rows that registers and relations reach, the base; how many these are; and sizes, which
// are remembered: of an arrow, how many rows it reaches beside the base.
#[derive(Clone, Copy)]
pub struct Counts;

impl Counts {
    pub const WORDS: usize = 2388;
    // The place of the base's number.
    const NUMBER: usize = 1875;
    // The place of the first size, and how many there are.
    const SIZES: usize = 1876;

    const PAIRS: u32 = 256;
}

// A table of few rows, whose marks need few words: to clear as many as the largest table needs would cost more than most of the work on it.
#[derive(Clone, Copy)]
pub struct Few;

impl Few {
    pub const ROWS: u32 = 4096;

    pub const MARKS: usize = 128;
}

// What a step answers: the arrow of its result and the count with its need.
#[derive(Clone, Copy)]
pub struct Taken {
    pub arrow: u32,
    pub count: Count,
}

// Counts the rows that registers and relations reach.
pub fn begin(words: &[u32], rows: u32, counts: &mut [u32])
    requires { Sound (view rows words.now) × Blank counts.old }
    ensures { CountsOf (view rows words.now) counts.new }
{
    mark_filled(words, rows, &mut counts[..Bitmap::WORDS]);
    let number = count_marks(words, rows, &counts[..Bitmap::WORDS]);
    counts[Counts::NUMBER] = number;
}

// Copies as many words of the base's marks as `marks` has.
// Not by copy_from_slice, which is a call of memmove: the C archive takes memcpy and memset from outside, and nothing else.
fn copy_marks(counts: &[u32], marks: &mut [u32])
    requires { (length counts.now ≡ COUNT_WORDS) × (length marks.old ≤ MARK_WORDS) }
    ensures { marks.new ≡ take (length marks.old) counts.now }
{
    for (k, mark) in marks.iter_mut().enumerate() {
        *mark = counts[k];
    }
}

// Marks the rows that arrow a reaches, and counts those that were not marked.
fn mark_new(words: &[u32], rows: u32, marks: &mut [u32], a: u32) -> u32
    requires { MarkPre (view rows words.now) (length marks.old) a }
    ensures { MarksNew (rows_of (view rows words.now)) marks.old marks.new a result }
{
    new_part(words, rows, marks, a)
}

// The body of `mark_new`, also for an arrow of a row. Apart, so that it is inlined in `new_row`: one with nothing to mark costs no call.
#[cycle(new_part_new_row)]
fn new_part(words: &[u32], rows: u32, marks: &mut [u32], a: u32) -> u32
    requires { MarkPre (view rows words.now) (length marks.old) a }
    ensures { MarksNew (rows_of (view rows words.now)) marks.old marks.new a result }
{
    if !is_row(a) {
        return 0;
    }
    if marked(marks, row_of(a)) {
        return 0;
    }
    new_row(words, rows, marks, a)
}

// `mark_new` of an arrow to a row that is not marked.
#[cycle(new_part_new_row)]
#[inline(never)]
fn new_row(words: &[u32], rows: u32, marks: &mut [u32], a: u32) -> u32
    requires { MarkPre (view rows words.now) (length marks.old) a × (is_row a ≡ true) × (is_on marks.old (row_of a) ≡ false) }
    ensures { MarksNew (rows_of (view rows words.now)) marks.old marks.new a result }
{
    let i = row_of(a);
    let low = new_part(words, rows, marks, get(words, rows, i, Table::LOW));
    let high = new_part(words, rows, marks, get(words, rows, i, Table::HIGH));
    set_mark(marks, i);
    low + high + 1
}

// Marks the rows that a list of arrows reaches, and counts those that were not marked.
fn list_new(words: &[u32], rows: u32, marks: &mut [u32], roots: &[u32]) -> u32
    requires { LentPre (view rows words.now) (length marks.old) roots.now }
    ensures { ListNew (rows_of (view rows words.now)) marks.old marks.new roots.now result }
{
    let mut found = 0;
    for a in roots {
        found += mark_new(words, rows, marks, *a);
    }
    found
}

// Marks the rows that registers, relations and a list of arrows reach, and counts them.
pub fn mark_live(words: &[u32], rows: u32, counts: &[u32], roots: &[u32], marks: &mut [u32]) -> u32
    requires { LivePre rows words.now counts.now roots.now marks.old }
    ensures { LiveMarked (view rows words.now) roots.now marks.new result }
{
    copy_marks(counts, marks);
    let base = counts[Counts::NUMBER];
    base + list_new(words, rows, marks, roots)
}

// How many rows registers, relations and two lists of further arrows reach, with words for the marks.
fn count_marking(
    words: &[u32],
    rows: u32,
    counts: &[u32],
    marks: &mut [u32],
    roots: &[u32],
    more: &[u32],
) -> u32
    requires { LivePre rows words.now counts.now (roots.now ++ more.now) marks.old }
    ensures { LiveReaches rows words.now roots.now more.now result }
{
    copy_marks(counts, marks);
    let base = counts[Counts::NUMBER];
    let first = list_new(words, rows, marks, roots);
    let second = list_new(words, rows, marks, more);
    base + first + second
}

// How many rows registers, relations and two lists of further arrows reach.
fn count_live(words: &[u32], rows: u32, counts: &[u32], roots: &[u32], more: &[u32]) -> u32
    requires { FreePre (view rows words.now) (roots.now ++ more.now) × BaseOf (view rows words.now) counts.now }
    ensures { LiveReaches rows words.now roots.now more.now result }
{
    if rows <= Few::ROWS {
        let mut few = [0u32; Few::MARKS];
        return count_marking(words, rows, counts, &mut few, roots, more);
    }
    let mut marks = [0u32; Bitmap::WORDS];
    count_marking(words, rows, counts, &mut marks, roots, more)
}

// How many rows arrow a reaches beside the base, with words for the marks.
fn outside_marking(words: &[u32], rows: u32, counts: &[u32], marks: &mut [u32], a: u32) -> u32
    requires { SizePre (view rows words.now) counts.now a × MarkRoom rows (length marks.old) }
    ensures { Outside (rows_of (view rows words.now)) (filled (view rows words.now)) a result }
{
    copy_marks(counts, marks);
    mark_new(words, rows, marks, a)
}

// How many rows arrow a reaches beside the base.
fn count_outside(words: &[u32], rows: u32, counts: &[u32], a: u32) -> u32
    requires { SizePre (view rows words.now) counts.now a }
    ensures { Outside (rows_of (view rows words.now)) (filled (view rows words.now)) a result }
{
    if rows <= Few::ROWS {
        let mut few = [0u32; Few::MARKS];
        return outside_marking(words, rows, counts, &mut few, a);
    }
    let mut marks = [0u32; Bitmap::WORDS];
    outside_marking(words, rows, counts, &mut marks, a)
}

// The place of an arrow's size.
fn place(a: u32) -> usize
    ensures { result ≡ place_of a }
{
    Counts::SIZES + 2 * ((a / 2 % Counts::PAIRS) as usize)
}

// Remembers the size of an arrow.
fn remember(counts: &mut [u32], a: u32, size: u32)
    requires { length counts.old ≡ COUNT_WORDS }
    ensures { counts.new ≡ put_size counts.old a size }
{
    let at = place(a);
    counts[at] = a / 2;
    counts[at + 1] = size;
}

// Forgets all sizes.
fn forget_sizes(counts: &mut [u32])
    requires { length counts.old ≡ COUNT_WORDS }
    ensures { Emptied counts.old counts.new COUNT_WORDS }
{
    counts[Counts::SIZES..].fill(0);
}

// How many rows, at most, arrow a reaches beside the base: its size, as it is remembered, or counted and remembered.
fn size_of(words: &[u32], rows: u32, counts: &mut [u32], a: u32) -> u32
    requires { SizePre (view rows words.now) counts.old a }
    ensures { SizePost (view rows words.now) counts.new a result }
{
    if !is_row(a) {
        return 0;
    }
    if marked(counts, row_of(a)) {
        return 0;
    }
    let at = place(a);
    if counts[at] == a / 2 {
        return counts[at + 1];
    }
    let size = count_outside(words, rows, counts, a);
    remember(counts, a, size);
    size
}

// `sum` and the sizes of a list of arrows, or as soon as that is more than `most`, what it is then.
fn add_sizes(
    words: &[u32],
    rows: u32,
    counts: &mut [u32],
    arrows: &[u32],
    sum: u64,
    most: u32,
) -> u64
    requires { FreePre (view rows words.now) arrows.now × CountsOf (view rows words.now) counts.old }
    ensures { SumPost (view rows words.now) counts.new arrows.now sum most result }
{
    let mut total = sum;
    for a in arrows {
        if total > most as u64 {
            return total;
        }
        total += size_of(words, rows, counts, *a) as u64;
    }
    total
}

// Whether the base's number and the sizes of two lists of arrows sum to at most `most`.
pub fn sizes_within(
    words: &[u32],
    rows: u32,
    counts: &mut [u32],
    roots: &[u32],
    more: &[u32],
    most: u32,
) -> bool
    requires { FreePre (view rows words.now) (roots.now ++ more.now) × CountsOf (view rows words.now) counts.old }
    ensures { WithinPost (view rows words.now) counts.new roots.now more.now most result }
{
    let base = counts[Counts::NUMBER] as u64;
    let first = add_sizes(words, rows, counts, roots, base, most);
    let second = add_sizes(words, rows, counts, more, first, most);
    if second <= most as u64 {
        return true;
    }
    false
}

// The peak with a step whose result is arrow a: the rows that it and all that is live need, where they are more than the peak before.
fn note(
    words: &[u32],
    rows: u32,
    counts: &mut [u32],
    roots: &[u32],
    step: Step,
    a: u32,
    peak: u32,
) -> u32
    requires { CleanPre (view rows words.now) roots.now step a × CountsOf (view rows words.now) counts.old }
    ensures { NotePost (view rows words.now) counts.new roots.now step a peak result }
{
    if header_word(words, Table::USED) <= peak {
        return peak;
    }
    let p = operands_of(step);
    let more = [p.first, p.second, a];
    if sizes_within(words, rows, counts, roots, &more, peak) {
        return peak;
    }
    peak.max(count_live(words, rows, counts, roots, &more))
}

// Takes a step: refused exactly where its result and all that is live need more than `limit` rows.
// Where rows may have been freed, no size is remembered afterwards.
fn take_counted(
    words: &mut [u32],
    counts: &mut [u32],
    rows: u32,
    levels: u32,
    limit: u32,
    roots: &[u32],
    step: Step,
) -> Result<u32, Full>
    requires { TakePre levels rows limit words.old counts.old roots.now step }
    ensures { StepCountedIn levels rows limit words.old words.new roots.now counts.new
        step result }
{
    let made = try_step(words, rows, levels, limit, step);
    match made {
        Ok(a) => {
            if header_word(words, Table::USED) <= limit {
                return Ok(a);
            }
            forget_sizes(counts);
            settle(words, rows, limit, roots, step, Ok(a))
        }
        Err(_) => {
            forget_sizes(counts);
            retry(words, rows, levels, limit, roots, step)
        }
    }
}

// Takes a step, and counts what it needs.
pub fn take(
    words: &mut [u32],
    counts: &mut [u32],
    rows: u32,
    levels: u32,
    limit: u32,
    roots: &[u32],
    step: Step,
    count: Count,
) -> Result<Taken, Full>
    requires { TakePre levels rows limit words.old counts.old roots.now step }
    ensures { TakenIn levels rows limit words.old words.new roots.now counts.new
        step count result }
{
    let a = take_counted(words, counts, rows, levels, limit, roots, step)?;
    let p = note(words, rows, counts, roots, step, a, count.peak);
    Ok(Taken {
        arrow: a,
        count: Count {
            rounds: count.rounds,
            peak: p,
        },
    })
}
