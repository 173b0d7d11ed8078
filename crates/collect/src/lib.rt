// Collecting: the rows that no root needs become unused.
#![tactic(auto)]

ghost use Rattle.std.specs.Prelude.{◌≡◌, ◌++◌, ◌*◌, ◌<◌, ◌≤◌, length};
ghost use Rattle.layout.specs.Places.{USED, VALID, ROOTS_END, words_for};
ghost use Rattle.layout.specs.View.{view, header_of};
ghost use Rattle.rows.specs.Used.{Ranked};
ghost use Rattle.rows.specs.Roots.{RefsPre};
ghost use Rattle.rows.specs.Sound.{Good, Sound};
ghost use Rattle.collect.specs.Lent.{LentPre};
ghost use Rattle.collect.specs.Gather.{Headed, GatherPre, Gathered};
ghost use Rattle.collect.specs.Counted.{mark_of, mark_count};
ghost use Rattle.collect.specs.Answers.{FreePre, CollectPost, FreeManyPost};
ghost use Rattle.collect.specs.Posts.{MarksLent, MarksFilled, MarksLive, MarkLivePre, HeadsPre, RegatheredIn, FreedIn};

use layout::{Table, header_word, listed, put_head, put_header};
use rows::{Bitmap, mark, mark_refs, marked, row_bucket};
use table::append;

// Marks the rows that a list of arrows reaches.
fn mark_list(words: &[u32], rows: u32, marks: &mut [u32], roots: &[u32])
    requires { LentPre (view rows words.now) (length marks.old) roots.now }
    ensures { MarksLent rows words.now marks.old marks.new roots.now }
{
    for a in roots {
        mark(words, rows, marks, *a);
    }
}

// Marks the rows that V, registers and relations reach.
pub fn mark_filled(words: &[u32], rows: u32, marks: &mut [u32])
    requires { RefsPre (view rows words.now) (length marks.old) VALID ROOTS_END }
    ensures { MarksFilled rows words.now marks.old marks.new }
{
    mark_refs(words, rows, marks, Table::VALID, Table::ROOTS_END);
}

// Marks the rows that V, registers, relations and further roots reach.
fn mark_roots(words: &[u32], rows: u32, marks: &mut [u32], roots: &[u32])
    requires { MarkLivePre rows words.now marks.old roots.now }
    ensures { MarksLive rows words.now marks.old marks.new roots.now }
{
    mark_filled(words, rows, marks);
    mark_list(words, rows, marks, roots);
}

// 1 where row i is marked, else 0.
fn mark_of(marks: &[u32], i: u32) -> u32
    requires { i < 32 * length marks.now }
    ensures { result ≡ mark_of marks.now i }
{
    u32::from(marked(marks, i))
}

// How many rows are marked.
pub fn count_marks(words: &[u32], rows: u32, marks: &[u32]) -> u32
    requires { Ranked (view rows words.now) × (rows ≤ 32 * length marks.now) × (words_for rows ≤ length words.now) }
    ensures { result ≡ mark_count (view rows words.now) marks.now (header_of words.now USED) }
{
    let used = header_word(words, Table::USED);
    let mut found: u32 = 0;
    for k in 0..used {
        found += mark_of(marks, listed(words, rows, k));
    }
    found
}

// The heads of the buckets of the first `total` listed rows become empty.
fn clear_heads(words: &mut [u32], rows: u32, total: u32)
    requires { HeadsPre rows words.old total }
    ensures { Headed (view rows words.old) (view rows words.new) }
{
    for k in 0..total {
        let i = listed(words, rows, k);
        let b = row_bucket(words, rows, i);
        put_head(words, rows, b, 0);
    }
}

// The marked rows of the first `total` listed rows become used, in their order.
fn regather(words: &mut [u32], rows: u32, total: u32, marks: &[u32])
    requires { GatherPre (view rows words.old) total (length marks.now) }
    ensures { RegatheredIn rows words.old words.new marks.now total }
{
    for k in 0..total {
        let i = listed(words, rows, k);
        if marked(marks, i) {
            append(words, rows, i);
        }
    }
}

// The rows without a mark become unused, and the index is made anew.
fn gather(words: &mut [u32], rows: u32, marks: &[u32])
    requires { Good (view rows words.old) × (rows ≤ 32 * length marks.now) }
    ensures { Gathered (view rows words.old) (view rows words.new) marks.now }
{
    let total = header_word(words, Table::USED);
    put_header(words, rows, Table::USED, 0);
    clear_heads(words, rows, total);
    regather(words, rows, total, marks);
}

// Whether the used rows are many more than the marked ones. A guess: nothing rests on its answer.
fn many_unmarked(words: &[u32], rows: u32, marks: &[u32]) -> bool
    requires { Ranked (view rows words.now) × (rows ≤ 32 * length marks.now) × (words_for rows ≤ length words.now) }
{
    let used = header_word(words, Table::USED) as u64;
    let kept = count_marks(words, rows, marks) as u64;
    4 * used > 5 * kept + 64
}

// Frees the rows that neither V nor a register or relation needs, where they are many.
pub fn free_many(words: &mut [u32], rows: u32)
    requires { Sound (view rows words.old) }
    ensures { FreeManyPost (view rows words.old) (view rows words.new) }
{
    let mut marks = [0u32; Bitmap::WORDS];
    mark_filled(words, rows, &mut marks);
    if !many_unmarked(words, rows, &marks) {
        return;
    }
    gather(words, rows, &marks);
}

// Frees the rows that neither V nor a register or relation nor one of two lists of further roots needs.
pub fn free_rows(words: &mut [u32], rows: u32, roots: &[u32], more: &[u32])
    requires { FreePre (view rows words.old) (roots.now ++ more.now) }
    ensures { FreedIn rows words.old words.new roots.now more.now }
{
    let mut marks = [0u32; Bitmap::WORDS];
    mark_roots(words, rows, &mut marks, roots);
    mark_list(words, rows, &mut marks, more);
    gather(words, rows, &marks);
}

// Frees the rows that neither V nor a register or relation needs, and returns how many are left.
pub fn collect_rows(words: &mut [u32], rows: u32) -> u32
    requires { Sound (view rows words.old) }
    ensures { CollectPost (view rows words.old) (view rows words.new) result }
{
    let mut marks = [0u32; Bitmap::WORDS];
    mark_filled(words, rows, &mut marks);
    gather(words, rows, &marks);
    header_word(words, Table::USED)
}
