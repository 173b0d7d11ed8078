// Of 64 states that differ in six bits only, those from which an arrow leads to one of 64 goals: a mask, which is remembered.
#![tactic(auto)]

ghost use Rattle.std.specs.Prelude.{◌+◌, ◌<◌, length, set, true, ◌≡◌};
ghost use Rattle.coin_masks.specs.Masks.{Chosen, Lower, MaskPost, MaskPre, Upper, column_of};
ghost use Rattle.layout.specs.Arrows.{is_row};
ghost use Rattle.layout.specs.View.{view};

use layout::Table;
use seek::{follow_at, level_of};

// Lent words of 64 bits: for each node which of its 64 classes are known to be marked; for each choice of the lower bits the arrow and the
// goals that are done; spent arrows with their goals; arrows, goals and masks that are remembered.
#[derive(Clone, Copy)]
pub struct Notes;

impl Notes {
    // Goals that are done.
    pub const DONE: usize = 2048;

    pub const DONE_GOALS: usize = 3072;

    // Spent arrows and their goals.
    pub const SPENT: usize = 4096;

    pub const SPENT_GOALS: usize = 5117;

    // Arrows, goals and masks.
    pub const ARROWS: usize = 6138;

    pub const GOALS: usize = 6547;

    pub const MASKS: usize = 6956;

    pub const WORDS: usize = 7365;

    // How many masks are remembered, and how many spent arrows.
    pub const KEPT: u64 = 409;

    pub const SLOTS: u64 = 1021;

    pub const ALL: u64 = 18446744073709551615;
}

// The numbers below 64 whose bit k is 1.
// For the first classes the masks of soundness::high_cells, which is private to a crate that this one does not stand on.
fn column(k: u32) -> u64
    ensures { result ≡ column_of k }
{
    match k {
        0 => 12297829382473034410,
        1 => 14757395258967641292,
        2 => 17361641481138401520,
        3 => 18374966859414961920,
        4 => 18446462603027742720,
        _ => 18446744069414584320,
    }
}

// The bits of `high` where bit k of their number is 1, and those of `low` elsewhere.
fn choose_bits(k: u32, low: u64, high: u64) -> u64
    requires { k < 6 }
    ensures { Chosen k low high result }
{
    low ^ ((low ^ high) & column(k))
}

// Of the goals those whose bit k is 0.
fn low_goals(k: u32, goals: u64) -> u64
    requires { k < 6 }
    ensures { Lower k goals result }
{
    goals ^ (goals & column(k))
}

// Of the goals those whose bit k is 1, with this bit 0.
fn high_goals(k: u32, goals: u64) -> u64
    requires { k < 6 }
    ensures { Upper k goals result }
{
    let high = goals & column(k);
    high >> (1u32 << k)
}

// The mask of arrow x, which leads to a row, worked out: both sides of the bit that it reads. A bit that is none of the six is 0.
#[cycle(leading_mask_of)]
fn leading(words: &[u32], rows: u32, notes: &mut [u64], low: u32, x: u32, goals: u64) -> u64
    requires { MaskPre (view rows words.now) low x notes.old × (is_row x ≡ true) }
    ensures { MaskPost (view rows words.now) low x goals notes.old notes.new result }
{
    let level = level_of(words, rows, x);
    let y = follow_at(words, rows, x, level, false);
    let p = level / 2;
    if p < low {
        return mask_of(words, rows, notes, low, y, goals);
    }
    let k = p - low;
    if k > 5 {
        return mask_of(words, rows, notes, low, y, goals);
    }
    let z = follow_at(words, rows, x, level, true);
    if level % 2 == 0 {
        let a = mask_of(words, rows, notes, low, y, goals);
        let b = mask_of(words, rows, notes, low, z, goals);
        return choose_bits(k, a, b);
    }
    let first = low_goals(k, goals);
    let second = high_goals(k, goals);
    let a = mask_of(words, rows, notes, low, y, first);
    let b = mask_of(words, rows, notes, low, z, second);
    a | b
}

// The mask is remembered at place `at`, with its arrow and goals.
fn keep_mask(notes: &mut [u64], at: usize, x: u64, goals: u64, mask: u64)
    requires { (at < 409) × (length notes.old ≡ 7_365) }
    ensures { notes.new ≡ set (set (set notes.old (6_138 + at) x) (6_547 + at) goals) (6_956 + at) mask }
{
    let place = Notes::ARROWS + at;
    let there = Notes::GOALS + at;
    let last = Notes::MASKS + at;
    notes[place] = x;
    notes[there] = goals;
    notes[last] = mask;
}

// Of 64 states, whose bits other than the six from `low` on are 0, those from which arrow x leads to one of the goals, 64 such states.
#[cycle(leading_mask_of)]
pub fn mask_of(words: &[u32], rows: u32, notes: &mut [u64], low: u32, x: u32, goals: u64) -> u64
    requires { MaskPre (view rows words.now) low x notes.old }
    ensures { MaskPost (view rows words.now) low x goals notes.old notes.new result }
{
    if x == Table::NOTHING {
        return 0;
    }
    if goals == 0 {
        return 0;
    }
    if x == Table::EVERYTHING {
        return Notes::ALL;
    }
    let arrow = x as u64;
    let at = ((arrow ^ goals) % Notes::KEPT) as usize;
    let place = Notes::ARROWS + at;
    let there = Notes::GOALS + at;
    let last = Notes::MASKS + at;
    if notes[place] == arrow {
        if notes[there] == goals {
            return notes[last];
        }
    }
    let mask = leading(words, rows, notes, low, x, goals);
    keep_mask(notes, at, arrow, goals, mask);
    mask
}
