// Remembered results of operations: an entry is absent or right.
#![tactic(auto)]

ghost use Rattle.std.specs.Prelude.{◌≡◌, ℕ, ◌*◌, ◌<◌, ◌≤◌, length};
ghost use Rattle.layout.specs.Arrows.{is_marked};
ghost use Rattle.layout.specs.Places.{SLOTS, words_for};
ghost use Rattle.layout.specs.View.{view, header_of, list_of};
ghost use Rattle.rows.specs.Lookup.{Room};
ghost use Rattle.rows.specs.Sound.{Good};
ghost use Rattle.memory.specs.Memo.{KINDS, MOST, held, Slots, RecallPost, RowPost};
ghost use Rattle.memory.specs.Store.{Emptied, Fewer, Wrote, RememberPost, new_key, new_value, keep_row};
ghost use Rattle.memory.specs.Forget.{FirstSlots, RowsForgot, Forgot};

use layout::{Hash, Table, get, header_word, is_marked, listed, put, put_header, put_slot, slot};
use table::Full;

// What is fixed of remembered results.
#[derive(Clone, Copy)]
pub struct Memory {
    pub slots: u32,
}

impl Memory {
    // The words of an entry: two arrows and what they give.
    pub const ENTRY: u32 = 3;

    // The number of active slots starts near this and twice the used rows.
    pub const FEWEST: u32 = 256;

    // What a row remembers: nothing, or of each of its two arrows SHIFT, EXISTS at every odd level, or EXISTS at level 0 and so on.
    pub const NOTHING: u32 = 0;

    pub const SHIFT: u32 = 1;

    pub const ODD: u32 = 2;

    pub const EXISTS: u32 = 3;

    // The kind is the remainder of a row's key by this.
    pub const KIND_ROOM: u32 = 64;

    // A bound of arrows.
    pub const MOST: u32 = 131072;
}

// The slot of a pair among the active ones, a power of two: a multiplicative hash under a mask.
fn slot_of(slots: u32, x: u32, y: u32) -> u32
    requires { 0 < slots }
    ensures { result < slots }
{
    let a = Hash::FIRST * (x as u64) % Hash::VALUES;
    let b = Hash::SECOND * (y as u64) % Hash::VALUES;
    ((a + b) / 32768 & ((slots - 1) as u64)) as u32
}

// What is remembered of AND of two arrows.
pub fn recall(words: &[u32], rows: u32, lo: u32, hi: u32) -> Option<u32>
    requires { Room (view rows words.now) × Slots (view rows words.now) }
    ensures { RecallPost (view rows words.now) lo hi result }
{
    let slots = header_word(words, Table::SLOTS);
    if slots == 0 {
        return None;
    }
    let at = Memory::ENTRY * slot_of(slots, lo, hi);
    if slot(words, rows, at) != lo {
        return None;
    }
    if slot(words, rows, at + 1) != hi {
        return None;
    }
    Some(slot(words, rows, at + 2))
}

// Empties the entries from one up to another.
fn empty_slots(words: &mut [u32], rows: u32, from: u32, to: u32)
    requires { (from ≤ to) × (3 * to ≤ 2 * rows) × Room (view rows words.old) }
    ensures { Emptied (view rows words.old) (view rows words.new) from to }
{
    for s in from..to {
        put_slot(words, rows, Memory::ENTRY * s, 0);
    }
}

// Doubles the active slots if there is room, and counts anew.
fn double(words: &mut [u32], rows: u32, slots: u32)
    requires { Room (view rows words.old) × Slots (view rows words.old) × (slots ≡ header_of words.old SLOTS) }
    ensures { Fewer (view rows words.old) (view rows words.new) }
{
    put_header(words, rows, Table::STORED, 0);
    if Memory::ENTRY * (2 * slots) > 2 * rows {
        return;
    }
    empty_slots(words, rows, slots, 2 * slots);
    put_header(words, rows, Table::SLOTS, 2 * slots);
}

// Counts one more result. When half as many as there are active slots were stored, these double.
fn count_stored(words: &mut [u32], rows: u32)
    requires { Room (view rows words.old) × Slots (view rows words.old) }
    ensures { Fewer (view rows words.old) (view rows words.new) }
{
    let slots = header_word(words, Table::SLOTS);
    let stored = header_word(words, Table::STORED) + 1;
    if 2 * stored > slots {
        double(words, rows, slots);
        return;
    }
    put_header(words, rows, Table::STORED, stored);
}

// The entry of x and y gets the result r.
fn write_entry(words: &mut [u32], rows: u32, x: u32, y: u32, r: u32)
    requires { Room (view rows words.old) × Slots (view rows words.old) }
    ensures { Wrote (view rows words.old) (view rows words.new) x y r }
{
    let slots = header_word(words, Table::SLOTS);
    if slots == 0 {
        return;
    }
    let at = Memory::ENTRY * slot_of(slots, x, y);
    put_slot(words, rows, at, x);
    put_slot(words, rows, at + 1, y);
    put_slot(words, rows, at + 2, r);
}

// Remembers what AND of two arrows gives, if it was made.
pub fn remember(words: &mut [u32], rows: u32, lo: u32, hi: u32, made: Result<u32, Full>)
    requires { Room (view rows words.old) × Slots (view rows words.old) }
    ensures { RememberPost (view rows words.old) (view rows words.new) lo hi made }
{
    let Ok(r) = made else {
        return;
    };
    count_stored(words, rows);
    write_entry(words, rows, lo, hi, r);
}

// Where the answer for an arrow stands, one more than it, or 0 where there is none: in the rest of the key for one with a NOT.
fn held_for(a: u32, key: u32, value: u32) -> u32
    ensures { result ≡ held (is_marked a) key value }
{
    if is_marked(a) {
        return key / Memory::KIND_ROOM;
    }
    value
}

// What row i remembers, if it is a result of this kind for arrow a.
pub fn recall_row(words: &[u32], rows: u32, a: u32, i: u32, kind: u32) -> Option<u32>
    requires { (i < rows) × (words_for rows ≤ length words.now) × (kind < KINDS) }
    ensures { RowPost (view rows words.now) a i kind result }
{
    let key = get(words, rows, i, Table::MEMO_KEY);
    if key % Memory::KIND_ROOM != kind {
        return None;
    }
    let word = held_for(a, key, get(words, rows, i, Table::MEMO_VALUE));
    if word == 0 {
        return None;
    }
    Some(word - 1)
}

// The key after a result of a kind for arrow a is stored: a result of that kind for the other arrow stays.
fn key_after(a: u32, kind: u32, r: u32, key: u32) -> u32
    requires { (kind < KINDS) × (r < MOST) }
    ensures { result ≡ new_key (is_marked a) kind r key }
{
    if is_marked(a) {
        return kind + Memory::KIND_ROOM * (r + 1);
    }
    if key % Memory::KIND_ROOM == kind {
        return key;
    }
    kind
}

// The value after it.
fn value_after(a: u32, kind: u32, r: u32, key: u32, value: u32) -> u32
    requires { r < MOST }
    ensures { result ≡ new_value (is_marked a) kind r key value }
{
    if !is_marked(a) {
        return r + 1;
    }
    if key % Memory::KIND_ROOM == kind {
        return value;
    }
    0
}

// Row i remembers a result of this kind for arrow a, if it was made.
pub fn remember_row(
    words: &mut [u32],
    rows: u32,
    a: u32,
    i: u32,
    kind: u32,
    made: Result<u32, Full>,
)
    requires { (i < rows) × (words_for rows ≤ length words.old) × (kind < KINDS) }
    ensures { view rows words.new ≡ keep_row (view rows words.old) a i kind made }
{
    let Ok(r) = made else {
        return;
    };
    if r >= Memory::MOST {
        return;
    }
    let key = get(words, rows, i, Table::MEMO_KEY);
    let value = get(words, rows, i, Table::MEMO_VALUE);
    put(words, rows, i, Table::MEMO_KEY, key_after(a, kind, r, key));
    put(
        words,
        rows,
        i,
        Table::MEMO_VALUE,
        value_after(a, kind, r, key, value),
    );
}

// How many slots are active at first: a power of two near 256 and twice the used rows, and none where not one entry fits.
fn first_slots(rows: u32, used: u32) -> u32
    requires { FirstSlots rows used }
    ensures { 3 * result ≤ 2 * rows }
{
    if 2 * rows < Memory::ENTRY {
        return 0;
    }
    let mut slots = 1;
    // Not a for: the number doubles.
    while slots < Memory::FEWEST + 2 * used {
        if Memory::ENTRY * (2 * slots) > 2 * rows {
            return slots;
        }
        slots *= 2;
    }
    slots
}

// The first `used` listed rows remember nothing.
fn forget_rows(words: &mut [u32], rows: u32, used: u32)
    requires { (used ≤ rows) × (words_for rows ≤ length words.old) × ((k : ℕ) → k < used → list_of rows words.old k < rows) }
    ensures { RowsForgot (view rows words.old) (view rows words.new) used }
{
    for k in 0..used {
        let i = listed(words, rows, k);
        put(words, rows, i, Table::MEMO_KEY, Memory::NOTHING);
    }
}

// Forgets all remembered results, whatever the words for them hold.
pub fn forget(words: &mut [u32], rows: u32)
    requires { Good (view rows words.old) }
    ensures { Forgot (view rows words.old) (view rows words.new) }
{
    let used = header_word(words, Table::USED);
    let slots = first_slots(rows, used);
    put_header(words, rows, Table::SLOTS, slots);
    put_header(words, rows, Table::STORED, 0);
    empty_slots(words, rows, 0, slots);
    forget_rows(words, rows, used);
}
