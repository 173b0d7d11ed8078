// The search for the cheapest run into a set: states are put into an order by what it costs to come from them into the set, with no row
// made. Order and marks stand in lent words of 64 bits, one for each state; what only saves time stands in 58 KB of the stack.
#![tactic(auto)]

ghost use Rattle.std.specs.Prelude.{◌*◌, ◌+◌, ◌-◌, ◌/◌, ◌<◌, ◌^◌, ◌≤◌, get_or, length, set, true, ◌≡◌};
ghost use Rattle.coin_search.specs.Adds.{Adds, AddsPre, AtBit, InMask, One};
ghost use Rattle.coin_search.specs.Choice.{Best, NextMark, Placed};
ghost use Rattle.coin_search.specs.Expand.{ExpandPre, Reached, Stepped};
ghost use Rattle.coin_search.specs.Gather.{Gathered, GatherPre, GoalBit, Goals, OwnState};
ghost use Rattle.coin_search.specs.Notes.{DoneMet, KeyMet, KeyPut, LowBits, NewBits, NewBitsPre, Noted, NotesHold};
ghost use Rattle.coin_search.specs.Notes.{GoalsWith, SpentPre, spent_key};
ghost use Rattle.coin_search.specs.Search.{SearchPost, SearchPre};
ghost use Rattle.coin_search.specs.Start.{Bare, Cleared, FirstIn, Started};
ghost use Rattle.coin_search.specs.Turn.{TurnPost, TurnPre};
ghost use Rattle.coin_search.specs.Words.{AddPost, MarkPut, StatePut, mark_of, state_at};
ghost use Rattle.coins.specs.Cost.{step_cost};
ghost use Rattle.layout.specs.Places.{HEADER};
ghost use Rattle.layout.specs.View.{header_of, view};
ghost use Rattle.seek.specs.Apart.{level_at};
ghost use Rattle.seek.specs.Walk.{HoldsPre};
ghost use Rattle.std.specs.Int.Bits.{bit_and};

use coin_masks::{Notes, mask_of};
use layout::{Table, header_word};
use seek::{follow_at, holds, level_of};
use states::bit;

// The parts of a work word: in the low 16 bits the state at a place of the order; from bit 17 on the mark of a state, which is 0 where it
// has none, else one more than what it costs.
// A cost is 2^17 times the credits and one for each step, so that fewer steps win among equal credits.
#[derive(Clone, Copy)]
pub struct Work;

impl Work {
    pub const STATES: u64 = 65536;

    pub const MARK: u64 = 131072;

    pub const CREDIT: u64 = 131072;

    // The mark of a state of the goal.
    pub const GOAL: u64 = 1;

    // No state of 16 bits.
    pub const NO_STATE: u32 = 65536;

    // How many bits an arrow must skip to be remembered as spent, and at how many bits of a node every arrow is: elsewhere there are too
    // many keys.
    const SKIPPED: u32 = 3;

    const SHARED: u32 = 5;
}

// The mark of state s.
pub fn mark_of(work: &[u64], s: u32) -> u64
    requires { s < length work.now }
    ensures { result ≡ mark_of work.now s }
{
    let at = s as usize;
    work[at] / Work::MARK
}

// The state at place i of the order.
pub fn state_at(work: &[u64], i: u32) -> u32
    requires { i < length work.now }
    ensures { result ≡ state_at work.now i }
{
    let at = i as usize;
    (work[at] % Work::STATES) as u32
}

// State s, which has no mark, has the mark m.
fn put_mark(work: &mut [u64], s: u32, m: u64)
    requires { (s < length work.old) × (m < 70_368_744_177_664) }
    ensures { MarkPut work.old work.new s m }
{
    let at = s as usize;
    let word = work[at];
    work[at] = word % Work::MARK + m * Work::MARK;
}

// State s stands at place i of the order.
fn put_state(work: &mut [u64], i: u32, s: u32)
    requires { (i < length work.old) × (s < 65_536) }
    ensures { StatePut work.old work.new i s }
{
    let at = i as usize;
    let word = work[at];
    work[at] = word - word % Work::STATES + (s as u64);
}

// Puts state s, which has no mark, at the end of an order of `count` states with the mark m; answers how many there are then.
fn add(work: &mut [u64], s: u32, m: u64, count: u32) -> u32
    requires { (s < length work.old) × (s < 65_536) × (m < 70_368_744_177_664) × (count < length work.old) × (count < 65_536) }
    ensures { AddPost work.old work.new s m count × (result ≡ count + 1) }
{
    put_mark(work, s, m);
    put_state(work, count, s);
    count + 1
}

// What is known of both halves of a node of p bits is known of it.
fn join(notes: &mut [u64], p: u32, node: u32)
    requires { (p < 10) × (node < 1_024) × (length notes.old ≡ 7_365) }
    ensures { notes.new ≡ set notes.old node
        (bit_and (get_or notes.old (node + 2 ^ p) 0) (get_or notes.old (node + 2 * 2 ^ p) 0)) }
{
    let half = 1u32 << p;
    let first = notes[(node + half) as usize];
    let second = notes[(node + 2 * half) as usize];
    let at = node as usize;
    notes[at] = first & second;
}

// What is the same in the whole walk for some goals and one relation: the table's sizes, how many bits are below the six that a word of the
// notes has, the goals' lower bits, their six others as bits of a word, and the mark.
#[derive(Clone, Copy)]
struct Wave {
    pub rows: u32,
    pub bits: u32,
    pub low: u32,
    pub lower: u32,
    pub goals: u64,
    pub mark: u64,
}

// Adds state s where it has no mark.
fn admit(work: &mut [u64], wave: Wave, s: u32, count: u32) -> u32
    requires { AddsPre wave.bits work.old wave.mark count × (s < 2 ^ wave.bits) }
    ensures { Adds wave.bits work.old work.new wave.mark count result (One s) }
{
    if mark_of(work, s) != 0 {
        return count;
    }
    add(work, s, wave.mark, count)
}

// Notes that state s, which is bit j of word i, is marked.
fn note_mark(work: &[u64], notes: &mut [u64], s: u32, i: u32, j: u32)
    requires { (s < length work.now) × (i < length notes.old) × (j < 64) }
    ensures { Noted work.now notes.old notes.new s i j }
{
    if mark_of(work, s) == 0 {
        return;
    }
    let at = i as usize;
    notes[at] = notes[at] | (1u64 << j);
}

// Adds the state of bit j where `left` is odd, of those with the lower bits s, and notes that it is marked.
fn settle(
    words: &[u32],
    work: &mut [u64],
    notes: &mut [u64],
    wave: Wave,
    s: u32,
    j: u32,
    left: u64,
    count: u32,
) -> u32
    requires { AddsPre wave.bits work.old wave.mark count
        × NotesHold (view wave.rows words.now) wave.bits wave.low work.old notes.old × (s < 2 ^ wave.low) × (j < 64) }
    ensures { Adds wave.bits work.old work.new wave.mark count result (AtBit wave.low s left j)
        × NotesHold (view wave.rows words.now) wave.bits wave.low work.new notes.new }
{
    if left % 2 == 0 {
        return count;
    }
    let u = s + (j << wave.low);
    if u >= 1u32 << wave.bits {
        return count;
    }
    let most = admit(work, wave, u, count);
    note_mark(work, notes, u, s + (1u32 << wave.low), j);
    most
}

// Adds the states that a mask has, of those with the lower bits s.
fn add_all(
    words: &[u32],
    work: &mut [u64],
    notes: &mut [u64],
    wave: Wave,
    s: u32,
    mask: u64,
    count: u32,
) -> u32
    requires { AddsPre wave.bits work.old wave.mark count
        × NotesHold (view wave.rows words.now) wave.bits wave.low work.old notes.old × (s < 2 ^ wave.low) }
    ensures { Adds wave.bits work.old work.new wave.mark count result (InMask wave.low s mask)
        × NotesHold (view wave.rows words.now) wave.bits wave.low work.new notes.new }
{
    let mut left = mask;
    let mut j = 0;
    let mut most = count;
    // Not a for: it ends with the mask's last bit.
    while left != 0 {
        most = settle(words, work, notes, wave, s, j, left, most);
        left = left / 2;
        j += 1;
    }
    most
}

// Of the classes of a node those that are not known to be marked and may hold a state from which arrow x leads to a goal: exactly those
// with one where x reads six bits only.
fn new_bits(words: &[u32], notes: &mut [u64], wave: Wave, x: u32, node: u32) -> u64
    requires { NewBitsPre (view wave.rows words.now) wave.low x notes.old node }
    ensures { NewBits (view wave.rows words.now) wave.low x wave.goals notes.old notes.new node result }
{
    let at = node as usize;
    let known = notes[at];
    if known == Notes::ALL {
        return 0;
    }
    let level = level_of(words, wave.rows, x);
    if level < 2 * wave.low {
        return Notes::ALL;
    }
    let mask = mask_of(words, wave.rows, notes, wave.low, x, wave.goals);
    (mask | known) ^ known
}

// What says that an arrow is spent at a node for some goals: the arrow, the node, and the part of the goals' lower bits that it can read.
fn spent_key(wave: Wave, level: u32, x: u32, node: u32) -> u64
    requires { (level ≤ 32) × (wave.lower < 65_536) × (node < 65_536) }
    ensures { result ≡ spent_key x node (wave.lower / 2 ^ (level / 2)) }
{
    let part = wave.lower >> (level / 2);
    (x as u64) * 4294967296 + (node as u64) * 65536 + (part as u64)
}

// Whether it is worth a place that an arrow with this level is spent at a node of p bits. A guess, which promises nothing.
fn is_noted(level: u32, p: u32) -> bool
    requires { p ≤ 16 }
{
    if p == Work::SHARED {
        return true;
    }
    level / 2 >= p + Work::SKIPPED
}

// Whether it is remembered that all states of a node, of p bits, from which arrow x leads to the goals are marked.
fn is_spent(words: &[u32], notes: &[u64], wave: Wave, x: u32, p: u32, node: u32) -> bool
    requires { HoldsPre (view wave.rows words.now) x × SpentPre notes.now wave.lower node × (p ≤ 16) }
    ensures { result ≡ true → KeyMet notes.now
        (spent_key x node (wave.lower / 2 ^ (level_at (view wave.rows words.now) x / 2))) wave.goals }
{
    let level = level_of(words, wave.rows, x);
    if !is_noted(level, p) {
        return false;
    }
    let key = spent_key(wave, level, x, node);
    let slot = (key % Notes::SLOTS) as usize;
    let at = Notes::SPENT + slot;
    if notes[at] != key {
        return false;
    }
    let there = Notes::SPENT_GOALS + slot;
    notes[there] | wave.goals == notes[there]
}

// Stores two words.
fn put_pair(notes: &mut [u64], at: usize, there: usize, x: u64, y: u64)
    requires { (at < length notes.old) × (there < length notes.old) }
    ensures { notes.new ≡ set (set notes.old at x) there y }
{
    notes[at] = x;
    notes[there] = y;
}

// The goals that are remembered at a place: these, and those that stand there where the key does.
fn goals_with(notes: &[u64], slot: usize, key: u64, goals: u64) -> u64
    requires { (length notes.now ≡ 7_365) × (slot < 1_021) }
    ensures { GoalsWith notes.now slot key goals result }
{
    let at = Notes::SPENT + slot;
    if notes[at] != key {
        return goals;
    }
    let there = Notes::SPENT_GOALS + slot;
    notes[there] | goals
}

// Remembers that it is so.
fn put_spent(words: &[u32], notes: &mut [u64], wave: Wave, x: u32, p: u32, node: u32)
    requires { HoldsPre (view wave.rows words.now) x × SpentPre notes.old wave.lower node × (p ≤ 16) }
    ensures { KeyPut notes.old (spent_key x node (wave.lower / 2 ^ (level_at (view wave.rows words.now) x / 2)))
        wave.goals notes.new }
{
    let level = level_of(words, wave.rows, x);
    if !is_noted(level, p) {
        return;
    }
    let key = spent_key(wave, level, x, node);
    let slot = (key % Notes::SLOTS) as usize;
    let goals = goals_with(notes, slot, key, wave.goals);
    put_pair(
        notes,
        Notes::SPENT + slot,
        Notes::SPENT_GOALS + slot,
        key,
        goals,
    );
}

// The arrow that is followed from x where current bit p and next bit p are known.
fn step(words: &[u32], rows: u32, x: u32, p: u32, here: bool, there: bool) -> u32
    requires { HoldsPre (view rows words.now) x × (p < 16) }
    ensures { Stepped (view rows words.now) x p here there result }
{
    let level = 2 * p;
    let y = follow_at(words, rows, x, level, here);
    follow_at(words, rows, y, level + 1, there)
}

// Adds each state whose lower p bits are those of s and from which arrow x leads to a goal.
fn expand(
    words: &[u32],
    work: &mut [u64],
    notes: &mut [u64],
    wave: Wave,
    x: u32,
    p: u32,
    s: u32,
    count: u32,
) -> u32
    requires { ExpandPre (view wave.rows words.now) wave.bits wave.low work.old notes.old wave.lower wave.mark x p s
        count }
    ensures { Adds wave.bits work.old work.new wave.mark count result
        (Reached (view wave.rows words.now) wave.low wave.lower wave.goals x p s)
        × NotesHold (view wave.rows words.now) wave.bits wave.low work.new notes.new }
{
    if x == Table::NOTHING {
        return count;
    }
    let node = s + (1u32 << p);
    let new = new_bits(words, notes, wave, x, node);
    if new == 0 {
        return count;
    }
    if p == wave.low {
        return add_all(words, work, notes, wave, s, new, count);
    }
    if is_spent(words, notes, wave, x, p, node) {
        return count;
    }
    let then = p + 1;
    let side = bit(wave.lower, p);
    let low = step(words, wave.rows, x, p, false, side);
    let more = expand(words, work, notes, wave, low, then, s, count);
    let high = step(words, wave.rows, x, p, true, side);
    let most = expand(words, work, notes, wave, high, then, node, more);
    join(notes, p, node);
    put_spent(words, notes, wave, x, p, node);
    most
}

// What a step of relation r costs.
pub fn step_cost(prices: &[u8], r: u32) -> u64
    requires { r < length prices.now }
    ensures { result ≡ step_cost prices.now r }
{
    let at = r as usize;
    (prices[at] as u64) * Work::CREDIT + 1
}

// The first words are 0: no state has a mark.
fn clear(work: &mut [u64], states: u32)
    requires { (states ≤ 65_536) × (states ≤ length work.old) }
    ensures { Cleared work.old work.new states }
{
    work[..states as usize].fill(0);
}

// Puts state s into the order where it is in the set of arrow b.
fn add_goal(
    words: &[u32],
    rows: u32,
    bits: u32,
    work: &mut [u64],
    b: u32,
    s: u32,
    count: u32,
) -> u32
    requires { HoldsPre (view rows words.now) b × Started (view rows words.now) bits work.old b s count × (s < 2 ^ bits) }
    ensures { Started (view rows words.now) bits work.new b (s + 1) result }
{
    if holds(words, rows, b, s, 0) {
        return add(work, s, Work::GOAL, count);
    }
    count
}

// The states of the goal, arrow b, are the first of the order; answers how many they are.
fn start(words: &[u32], rows: u32, bits: u32, work: &mut [u64], b: u32) -> u32
    requires { HoldsPre (view rows words.now) b × Bare bits work.old }
    ensures { Started (view rows words.now) bits work.new b (2 ^ bits) result }
{
    let states = 1u32 << bits;
    let mut count = 0;
    for s in 0..states {
        count = add_goal(words, rows, bits, work, b, s, count);
    }
    count
}

// The first state of arrow a's set in the order from one place to another.
fn first_in(words: &[u32], rows: u32, a: u32, work: &[u64], from: u32, to: u32) -> u32
    requires { HoldsPre (view rows words.now) a × (to ≤ length work.now) }
    ensures { FirstIn (view rows words.now) a work.now from to result }
{
    for i in from..to {
        let s = state_at(work, i);
        if holds(words, rows, a, s, 0) {
            return s;
        }
    }
    Work::NO_STATE
}

// The mark that relation r gives next, after `done` of the states in the order; 0 where it is empty or has no more.
fn next_mark(words: &[u32], prices: &[u8], work: &[u64], r: u32, done: u32, count: u32) -> u64
    requires { (r < 8) × (HEADER ≤ length words.now) × (length prices.now ≡ 8) × Placed work.now count }
    ensures { NextMark (header_of words.now) prices.now work.now r done count result }
{
    let at = Table::FIRST_RELATION + (r as usize);
    if header_word(words, at) == 0 {
        return 0;
    }
    if done >= count {
        return 0;
    }
    let s = state_at(work, done);
    mark_of(work, s) + step_cost(prices, r)
}

// Which of two relations gives the lesser mark next: `best`, the best of those below r, or r.
fn better(
    words: &[u32],
    prices: &[u8],
    work: &[u64],
    done: &[u32],
    count: u32,
    best: u32,
    r: u32,
) -> u32
    requires { (r < 8) × (HEADER ≤ length words.now) × (length prices.now ≡ 8) × (length done.now ≡ 8) × Placed work.now count
        × Best (header_of words.now) prices.now work.now done.now count r best × (best ≤ 8) }
    ensures { Best (header_of words.now) prices.now work.now done.now count (r + 1) result
        × (result ≤ 8) }
{
    let at = r as usize;
    let m = next_mark(words, prices, work, r, done[at], count);
    if m == 0 {
        return best;
    }
    if best == Table::RELATIONS {
        return r;
    }
    let there = best as usize;
    let least = next_mark(words, prices, work, best, done[there], count);
    if m < least {
        return r;
    }
    best
}

// The relation that gives the least mark next; their number where none has more.
fn choose(words: &[u32], prices: &[u8], work: &[u64], done: &[u32], count: u32) -> u32
    requires { (HEADER ≤ length words.now) × (length prices.now ≡ 8) × (length done.now ≡ 8) × Placed work.now count }
    ensures { Best (header_of words.now) prices.now work.now done.now count 8 result
        × (result ≤ 8) }
{
    let mut best = Table::RELATIONS;
    for r in 0..Table::RELATIONS {
        best = better(words, prices, work, done, count, best, r);
    }
    best
}

// How many bits are below the six that a word of the notes has.
fn low_bits(bits: u32) -> u32
    requires { bits ≤ 16 }
    ensures { LowBits bits result }
{
    bits.saturating_sub(6)
}

// Bit j where state s has the mark m.
fn goal_bit(work: &[u64], s: u32, m: u64, j: u32) -> u64
    requires { (s < length work.now) × (j < 64) }
    ensures { GoalBit work.now s m j result }
{
    if mark_of(work, s) == m {
        return 1u64 << j;
    }
    0
}

// Of the states with the lower bits q those with the mark m, as bits of a word.
fn goals_of(work: &[u64], bits: u32, low: u32, q: u32, m: u64) -> u64
    requires { GatherPre bits low work.now q }
    ensures { Gathered low work.now q m (2 ^ (bits - low)) result }
{
    let most = 1u32 << (bits - low);
    let mut goals = 0u64;
    for j in 0..most {
        goals |= goal_bit(work, q + (j << low), m, j);
    }
    goals
}

// Whether the state at a place is the last one in the order with its mark, m. Nothing rests on it: it saves looking for more goals where there
// are none.
fn is_last(work: &[u64], done: u32, count: u32, m: u64) -> bool
    requires { Placed work.now count × (count ≤ 65_536) × (done < 65_536) }
{
    let next = done + 1;
    if next >= count {
        return true;
    }
    mark_of(work, state_at(work, next)) != m
}

// The goals of a turn: the state at a place of the order, with the mark m and the lower bits q, and where more of this mark follow all of
// it with these lower bits.
fn gather(work: &[u64], bits: u32, low: u32, q: u32, j: u32, m: u64, done: u32, count: u32) -> u64
    requires { GatherPre bits low work.now q × OwnState bits low work.now q j m count × (done < 65_536) }
    ensures { Goals bits low work.now q j m result }
{
    if is_last(work, done, count, m) {
        return 1u64 << j;
    }
    goals_of(work, bits, low, q, m)
}

// Whether arrow x has done the goal j of the lower bits q.
fn is_done(notes: &[u64], x: u32, q: u32, j: u32) -> bool
    requires { (length notes.now ≡ 7_365) × (q < 1_024) × (j < 64) }
    ensures { result ≡ true → DoneMet notes.now x q j }
{
    let at = Notes::DONE + (q as usize);
    if notes[at] != (x as u64) {
        return false;
    }
    let there = Notes::DONE_GOALS + (q as usize);
    (notes[there] >> j) % 2 == 1
}

// Arrow x has done some goals of the lower bits q.
fn put_done(notes: &mut [u64], x: u32, q: u32, goals: u64)
    requires { (length notes.old ≡ 7_365) × (q < 1_024) }
    ensures { notes.new ≡ set (set notes.old (2_048 + q) x) (3_072 + q) goals }
{
    put_pair(
        notes,
        Notes::DONE + (q as usize),
        Notes::DONE_GOALS + (q as usize),
        x as u64,
        goals,
    );
}

// One turn: the next state of relation r in the order, and all of its mark that have its lower bits, give marks to those from which r leads
// to them.
fn turn(
    words: &[u32],
    rows: u32,
    bits: u32,
    prices: &[u8],
    work: &mut [u64],
    notes: &mut [u64],
    low: u32,
    r: u32,
    done: u32,
    count: u32,
) -> u32
    requires { TurnPre (view rows words.now) bits prices.now work.old r done count × (HEADER ≤ length words.now)
        × NotesHold (view rows words.now) bits low work.old notes.old }
    ensures { TurnPost (view rows words.now) bits prices.now work.old work.new r done count result
        × NotesHold (view rows words.now) bits low work.new notes.new }
{
    let t = state_at(work, done);
    let at = Table::FIRST_RELATION + (r as usize);
    let root = header_word(words, at) - 1;
    let q = t % (1u32 << low);
    let j = t >> low;
    if is_done(notes, root, q, j) {
        return count;
    }
    let m = mark_of(work, t);
    let wave = Wave {
        rows: rows,
        bits: bits,
        low: low,
        lower: q,
        goals: gather(work, bits, low, q, j, m, done, count),
        mark: m + step_cost(prices, r),
    };
    let most = expand(words, work, notes, wave, root, 0, 0, count);
    put_done(notes, root, q, wave.goals);
    most
}

// A state of arrow a's set from which it costs least to come into arrow b's, its mark standing in the work words; none where there is no
// run.
pub fn search(
    words: &[u32],
    rows: u32,
    bits: u32,
    prices: &[u8],
    work: &mut [u64],
    a: u32,
    b: u32,
) -> u32
    requires { SearchPre (view rows words.now) bits prices.now work.old a b × (HEADER ≤ length words.now) }
    ensures { SearchPost (view rows words.now) bits prices.now work.new a b result }
{
    let states = 1u32 << bits;
    clear(work, states);
    let mut count = start(words, rows, bits, work, b);
    let first = first_in(words, rows, a, work, 0, count);
    if first != Work::NO_STATE {
        return first;
    }
    let low = low_bits(bits);
    let mut notes = [0u64; Notes::WORDS];
    let mut done = [0u32; 8];
    let mut r = choose(words, prices, work, &done, count);
    while r != Table::RELATIONS {
        let at = r as usize;
        let more = turn(
            words, rows, bits, prices, work, &mut notes, low, r, done[at], count,
        );
        done[at] = done[at] + 1;
        let s = first_in(words, rows, a, work, count, more);
        if s != Work::NO_STATE {
            return s;
        }
        count = more;
        r = choose(words, prices, work, &done, count);
    }
    Work::NO_STATE
}
