// The EXISTS that are left of a diamond: where counts by level show that none of them can raise the peak, they are taken at once.
#![tactic(auto)]

ghost use Rattle.std.specs.Prelude.{◌≡◌, true, false, ◌*◌, ◌≤◌, ◌<◌, min, length};
ghost use Rattle.diagram.specs.Rows.{Rows, Arrow};
ghost use Rattle.layout.specs.View.{view};
ghost use Rattle.layout.specs.Arrows.{is_row, row_of};
ghost use Rattle.rows.specs.Bits.{is_on};
ghost use Rattle.layout.specs.Places.{MAX_BITS, MAX_ROWS};
ghost use Rattle.rows.specs.Used.{rows_of};
ghost use Rattle.rows.specs.Says.{Says};
ghost use Rattle.diagram.specs.Tally.{sum_to};
ghost use Rattle.operations.specs.Work.{Ready};
ghost use Rattle.operations.specs.Odd.{Grown};
ghost use Rattle.counting.specs.Counts.{COUNT_WORDS, BaseOf, CountsOf, MarkRoom};
ghost use Rattle.stages.specs.Left.{SeenBlank, LookPre, LookPost};
ghost use Rattle.stages.specs.Rest.{RestPre, SurePost, RestPost};
ghost use Rattle.stages.specs.Levels.{LEVELS, MOST, count_of, OneMore, Levels, AllWithin};
ghost use Rattle.stages.specs.AddedCounts.{MarkAddedPre, MarkAddedPost};
ghost use Rattle.stages.specs.Surveys.{SurveyPre, SurveyPost};
ghost use Rattle.stages.specs.Renews.{RenewPre};

use counting::{Few, mark_live, sizes_within};
use layout::{Table, get, is_row, row_of};
use operations::{exists_odd, node_at, odd_known};
use rows::{Bitmap, marked, set_mark};

// What a survey counts with.
#[derive(Clone, Copy)]
pub struct Counter;

impl Counter {
    // Words with a bit for each arrow.
    const ARROWS: usize = 3751;
    // The same for a table of few rows.
    const FEW_ARROWS: usize = 257;
    // A count for each level and for two behind the last.
    const LEVELS: usize = 34;
}

// What a look at the EXISTS left tells: none needs more than a number; one may; or a result that is wanted is not remembered.
// No Option: three answers of one question; an Option<bool> would name none.
#[derive(Clone, Copy)]
pub enum Looked {
    Fits,
    Over,
    Unknown,
}

// Counts one more of a level.
fn count_one(counts: &mut [u32], level: u32)
    requires { (level < length counts.old) × (count_of counts.old level < MOST) }
    ensures { OneMore counts.old counts.new level }
{
    let at = level as usize;
    counts[at] = counts[at] + 1;
}

// Marks the rows that arrow b reaches, and counts by level those that were not marked.
fn mark_added(words: &[u32], rows: u32, reached: &mut [u32], added: &mut [u32], b: u32)
    requires { MarkAddedPre (view rows words.now) reached.old added.old b }
    ensures { MarkAddedPost (rows_of (view rows words.now)) reached.old reached.new added.old
        added.new b }
{
    mark_added_part(words, rows, reached, added, b)
}

// The body of `mark_added`, also for an arrow of a row. Apart, so that it is inlined in `mark_added_row`: a marked row costs no call.
#[cycle(mark_added_part_mark_added_row)]
fn mark_added_part(words: &[u32], rows: u32, reached: &mut [u32], added: &mut [u32], b: u32)
    requires { MarkAddedPre (view rows words.now) reached.old added.old b }
    ensures { MarkAddedPost (rows_of (view rows words.now)) reached.old reached.new added.old
        added.new b }
{
    if !is_row(b) {
        return;
    }
    if marked(reached, row_of(b)) {
        return;
    }
    mark_added_row(words, rows, reached, added, b)
}

// `mark_added` of an arrow to a row that is not marked.
#[cycle(mark_added_part_mark_added_row)]
#[inline(never)]
fn mark_added_row(words: &[u32], rows: u32, reached: &mut [u32], added: &mut [u32], b: u32)
    requires { MarkAddedPre (view rows words.now) reached.old added.old b × (is_row b ≡ true)
        × (is_on reached.old (row_of b) ≡ false) }
    ensures { MarkAddedPost (rows_of (view rows words.now)) reached.old reached.new added.old
        added.new b }
{
    let i = row_of(b);
    mark_added_part(words, rows, reached, added, get(words, rows, i, Table::LOW));
    mark_added_part(
        words,
        rows,
        reached,
        added,
        get(words, rows, i, Table::HIGH),
    );
    set_mark(reached, i);
    count_one(added, get(words, rows, i, Table::LEVEL));
}

// Counts by level the arrows that are followed from arrow a, each with its sign, and `mark_added`s what is remembered as EXISTS at every
// odd level of each. False where that is not remembered.
fn survey(
    words: &[u32],
    rows: u32,
    levels: u32,
    seen: &mut [u32],
    above: &mut [u32],
    reached: &mut [u32],
    added: &mut [u32],
    a: u32,
) -> bool
    requires { SurveyPre levels rows (view rows words.now) seen.old above.old reached.old added.old a }
    ensures { result ≡ true
        → SurveyPost levels (rows_of (view rows words.now)) seen.old seen.new above.old
        above.new reached.old reached.new added.old added.new a }
{
    survey_part(words, rows, levels, seen, above, reached, added, a)
}

// The body of `survey`, also for an arrow that is followed. Apart, so that it is inlined in `survey_row`: one done with costs no call.
#[cycle(survey_part_survey_row)]
fn survey_part(
    words: &[u32],
    rows: u32,
    levels: u32,
    seen: &mut [u32],
    above: &mut [u32],
    reached: &mut [u32],
    added: &mut [u32],
    a: u32,
) -> bool
    requires { SurveyPre levels rows (view rows words.now) seen.old above.old reached.old added.old a }
    ensures { result ≡ true
        → SurveyPost levels (rows_of (view rows words.now)) seen.old seen.new above.old
        above.new reached.old reached.new added.old added.new a }
{
    if !is_row(a) {
        return true;
    }
    if marked(seen, a) {
        return true;
    }
    survey_row(words, rows, levels, seen, above, reached, added, a)
}

// `survey` of an arrow to a row that is not done with.
#[cycle(survey_part_survey_row)]
#[inline(never)]
fn survey_row(
    words: &[u32],
    rows: u32,
    levels: u32,
    seen: &mut [u32],
    above: &mut [u32],
    reached: &mut [u32],
    added: &mut [u32],
    a: u32,
) -> bool
    requires { SurveyPre levels rows (view rows words.now) seen.old above.old reached.old added.old a × (is_row a ≡ true)
        × (is_on seen.old a ≡ false) }
    ensures { result ≡ true
        → SurveyPost levels (rows_of (view rows words.now)) seen.old seen.new above.old
        above.new reached.old reached.new added.old added.new a }
{
    let known = odd_known(words, rows, levels, a);
    let Some(b) = known else {
        return false;
    };
    mark_added(words, rows, reached, added, b);
    let n = node_at(words, rows, a, row_of(a));
    if !survey_part(words, rows, levels, seen, above, reached, added, n.low) {
        return false;
    }
    if !survey_part(words, rows, levels, seen, above, reached, added, n.high) {
        return false;
    }
    set_mark(seen, a);
    count_one(above, n.level);
    true
}

// The sum of the first k counts.
fn total(counts: &[u32], k: usize) -> u64
    requires { (k ≤ LEVELS) × Levels counts.now }
    ensures { result ≡ sum_to (count_of counts.now) k }
{
    let mut sum = 0;
    for x in &counts[..k] {
        sum += *x as u64;
    }
    sum
}

// Whether the bounds of all EXISTS left, at levels below 2 · left, are at most `most`, `live` rows being live.
fn within(above: &[u32], added: &[u32], bits: u32, left: u32, live: u32, most: u32) -> bool
    requires { Levels above.now × Levels added.now × (left ≤ bits) × (bits ≤ MAX_BITS) }
    ensures { Says (AllWithin (2 * bits) live (count_of above.now) (count_of added.now) left most) result }
{
    let all = live as u64 + total(added, 2 * (bits as usize));
    let mut below = above[0] as u64;
    let mut past = added[0] as u64 + added[1] as u64;
    for j in 0..left {
        let at = 2 * (j as usize);
        let next = below + above[at + 1] as u64 + above[at + 2] as u64;
        if all + below + next > most as u64 + past {
            return false;
        }
        below = next;
        past += added[at + 2] as u64 + added[at + 3] as u64;
    }
    true
}

// Looks at the EXISTS left of arrow a, at levels below 2 · left, with words for the marks.
fn look_marking(
    words: &[u32],
    counts: &[u32],
    rows: u32,
    bits: u32,
    reached: &mut [u32],
    seen: &mut [u32],
    roots: &[u32],
    a: u32,
    left: u32,
    most: u32,
) -> Looked
    requires { LookPre bits rows (view rows words.now) counts.now roots.now a left × MarkRoom rows (length reached.old)
        × SeenBlank rows seen.old }
    ensures { LookPost bits (view rows words.now) roots.now a left most result }
{
    let live = mark_live(words, rows, counts, roots, reached);
    let mut above = [0u32; Counter::LEVELS];
    let mut added = [0u32; Counter::LEVELS];
    if !survey(
        words,
        rows,
        2 * bits,
        seen,
        &mut above,
        reached,
        &mut added,
        a,
    ) {
        return Looked::Unknown;
    }
    if within(&above, &added, bits, left, live, most) {
        return Looked::Fits;
    }
    Looked::Over
}

// Looks at the EXISTS left of arrow a, at levels below 2 · left.
fn look(
    words: &[u32],
    counts: &[u32],
    rows: u32,
    bits: u32,
    roots: &[u32],
    a: u32,
    left: u32,
    most: u32,
) -> Looked
    requires { LookPre bits rows (view rows words.now) counts.now roots.now a left }
    ensures { LookPost bits (view rows words.now) roots.now a left most result }
{
    if rows <= Few::ROWS {
        let mut few_reached = [0u32; Few::MARKS];
        let mut few_seen = [0u32; Counter::FEW_ARROWS];
        return look_marking(
            words,
            counts,
            rows,
            bits,
            &mut few_reached,
            &mut few_seen,
            roots,
            a,
            left,
            most,
        );
    }
    let mut reached = [0u32; Bitmap::WORDS];
    let mut seen = [0u32; Counter::ARROWS];
    look_marking(
        words,
        counts,
        rows,
        bits,
        &mut reached,
        &mut seen,
        roots,
        a,
        left,
        most,
    )
}

// Works out EXISTS at every odd level of each arrow that is followed from a, so that it is remembered.
fn renew(words: &mut [u32], rows: u32, levels: u32, limit: u32, seen: &mut [u32], a: u32)
    requires { RenewPre levels rows limit (view rows words.old) seen.old a }
    ensures { Grown levels (view rows words.old) (view rows words.new) }
{
    if !is_row(a) {
        return;
    }
    if marked(seen, a) {
        return;
    }
    let n = node_at(words, rows, a, row_of(a));
    renew(words, rows, levels, limit, seen, n.low);
    renew(words, rows, levels, limit, seen, n.high);
    set_mark(seen, a);
    let _ = exists_odd(words, rows, levels, limit, a);
}

// The same, for a whole arrow.
fn renew_all(words: &mut [u32], rows: u32, levels: u32, limit: u32, a: u32)
    requires { Ready levels rows limit (view rows words.old) × Arrow (rows_of (view rows words.old)) a }
    ensures { Grown levels (view rows words.old) (view rows words.new) }
{
    if rows <= Few::ROWS {
        let mut few = [0u32; Counter::FEW_ARROWS];
        renew(words, rows, levels, limit, &mut few, a);
        return;
    }
    let mut seen = [0u32; Counter::ARROWS];
    renew(words, rows, levels, limit, &mut seen, a);
}

// A look once more, with all results worked out anew.
fn look_again(
    words: &mut [u32],
    counts: &[u32],
    rows: u32,
    bits: u32,
    limit: u32,
    roots: &[u32],
    a: u32,
    left: u32,
    most: u32,
) -> bool
    requires { RestPre bits rows limit (view rows words.old) roots.now a left × BaseOf (view rows words.old) counts.now }
    ensures { SurePost bits (view rows words.old) (view rows words.new) roots.now a left most result }
{
    renew_all(words, rows, 2 * bits, limit, a);
    let looked = look(words, counts, rows, bits, roots, a, left, most);
    match looked {
        Looked::Fits => true,
        Looked::Over => false,
        Looked::Unknown => false,
    }
}

// Whether the EXISTS left of arrow a, at levels below 2 · left, are sure to need at most `most` rows each.
fn sure(
    words: &mut [u32],
    counts: &[u32],
    rows: u32,
    bits: u32,
    limit: u32,
    roots: &[u32],
    a: u32,
    left: u32,
    most: u32,
) -> bool
    requires { RestPre bits rows limit (view rows words.old) roots.now a left × BaseOf (view rows words.old) counts.now }
    ensures { SurePost bits (view rows words.old) (view rows words.new) roots.now a left most result }
{
    let looked = look(words, counts, rows, bits, roots, a, left, most);
    match looked {
        Looked::Fits => true,
        Looked::Over => false,
        Looked::Unknown => look_again(words, counts, rows, bits, limit, roots, a, left, most),
    }
}

// Whether the size of arrow a says nothing: before the first EXISTS, of a product that registers and relations reach.
// A guess: nothing rests on its answer.
fn no_size(counts: &[u32], a: u32, left: u32, bits: u32) -> bool
    requires { (length counts.now ≡ COUNT_WORDS) × (is_row a ≡ true → row_of a < MAX_ROWS) }
{
    if left < bits {
        return false;
    }
    if !is_row(a) {
        return false;
    }
    marked(counts, row_of(a))
}

// The arrow to count a third time: before the first EXISTS, whose results are often larger, arrow a, else none.
// A guess: nothing rests on it.
fn third_of(a: u32, left: u32, bits: u32) -> u32
    ensures { (rs : Rows) → Arrow rs a → Arrow rs result }
{
    if left < bits {
        return Table::NOTHING;
    }
    a
}

// EXISTS at every odd level of arrow a, of which those below 2 · left are left, where each of them is sure to need at most `peak` and
// `limit` rows.
pub fn rest(
    words: &mut [u32],
    counts: &mut [u32],
    rows: u32,
    bits: u32,
    limit: u32,
    roots: &[u32],
    a: u32,
    left: u32,
    peak: u32,
) -> Option<u32>
    requires { RestPre bits rows limit (view rows words.old) roots.now a left × CountsOf (view rows words.old) counts.old }
    ensures { RestPost bits (view rows words.old) (view rows words.new) roots.now a left (min peak limit) result
        × CountsOf (view rows words.new) counts.new }
{
    let most = peak.min(limit);
    // two guesses, that spare the work where the answer is likely to be none
    if no_size(counts, a, left, bits) {
        return None;
    }
    let likely = [a, a, third_of(a, left, bits)];
    if !sizes_within(words, rows, counts, roots, &likely, most) {
        return None;
    }
    let Ok(c) = exists_odd(words, rows, 2 * bits, limit, a) else {
        return None;
    };
    if sure(words, counts, rows, bits, limit, roots, a, left, most) {
        return Some(c);
    }
    None
}
