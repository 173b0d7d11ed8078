// Lists of arrows in one room of words, and pairs of arrows that are known to have no valuation in common.
ghost use Rattle.std.specs.Prelude.{◌≡◌, true, ◌*◌, ◌+◌, ◌-◌, ◌≤◌, ◌<◌, length, get_or};
ghost use Rattle.layout.specs.Arrows.{flip_arrow};
ghost use Rattle.soundness.specs.Pairs.{PAIR_WORDS, Seen, Puts};
ghost use Rattle.soundness.specs.Lists.{ROOM, FOUND, Told, Pushed, KeptOne, KeptOpen, StaysRight};

use layout::{Table, flip};

// How many arrows of a list are so few that pairs are remembered.
#[derive(Clone, Copy)]
struct Short;

impl Short {
    const LENGTH: usize = 16;
}

// The place of a pair of arrows.
fn place(a: u32, b: u32) -> u32
    ensures { 2 * result + 1 < PAIR_WORDS }
{
    let x = 2654435761 * (a as u64) % 4294967296;
    let y = 2246822519 * (b as u64) % 4294967296;
    let h = (x + y) % 4294967296;
    (h / 8388608) as u32
}

// Whether a pair is remembered.
fn seen(memo: &[u32], a: u32, b: u32) -> bool
    requires { length memo.now ≡ PAIR_WORDS }
    ensures { result ≡ true → Seen memo.now a b }
{
    let at = 2 * (place(a, b) as usize);
    if memo[at] != a {
        return false;
    }
    if memo[at + 1] != b {
        return false;
    }
    true
}

// Remembers a pair.
fn remember(memo: &mut [u32], a: u32, b: u32)
    requires { length memo.old ≡ PAIR_WORDS }
    ensures { Puts memo.old memo.new a b }
{
    let at = 2 * (place(a, b) as usize);
    memo[at] = a;
    memo[at + 1] = b;
}

// Whether one arrow is NOT of the other, with no shift.
fn opposite(shift: u32, a: u32, b: u32) -> bool
    ensures { result ≡ true → ((shift ≡ 0) × (a ≡ flip_arrow b)) }
{
    if shift != 0 {
        return false;
    }
    if a != flip(b) {
        return false;
    }
    true
}

// Whether two arrows are known to have no valuation in common.
fn known(memo: &[u32], shift: u32, a: u32, b: u32) -> bool
    requires { length memo.now ≡ PAIR_WORDS }
    ensures { result ≡ true → Told memo.now shift a b }
{
    if opposite(shift, a, b) {
        return true;
    }
    seen(memo, a, b)
}

// Whether an arrow stands at a place of a list.
fn stands(list: &[u32], at: u32, from: usize, to: usize, a: u32) -> bool
    requires { to ≤ length list.now }
    ensures { result ≡ true → ((from ≤ at) × (at < to) × (get_or list.now at 0 ≡ a)) }
{
    let k = at as usize;
    if k < from {
        return false;
    }
    if k >= to {
        return false;
    }
    if list[k] != a {
        return false;
    }
    true
}

// Where to look for an arrow's place.
fn slot(a: u32) -> usize
    ensures { result < FOUND }
{
    (2654435761 * (a as u64) % 4294967296 / 8388608) as usize
}

// Puts an arrow at the end of a list, where it is not nothing and is not found there.
pub fn push(list: &mut [u32], found: &mut [u32], from: usize, to: usize, a: u32) -> usize
    requires { (from ≤ to) × (to < length list.old) × (length list.old ≡ ROOM) × (length found.old ≡ FOUND) }
    ensures { Pushed list.old list.new from to a result }
{
    if a == Table::NOTHING {
        return to;
    }
    let h = slot(a);
    if stands(list, found[h], from, to, a) {
        return to;
    }
    list[to] = a;
    found[h] = to as u32;
    to + 1
}

// Puts a root's arrow at the end of a list, where the root is not empty.
pub fn push_ref(list: &mut [u32], found: &mut [u32], to: usize, r: u32) -> usize
    requires { (to < length list.old) × (length list.old ≡ ROOM) × (length found.old ≡ FOUND) }
    ensures { Pushed list.old list.new 0 to (r - 1) result }
{
    if r == 0 {
        return to;
    }
    push(list, found, 0, to, r - 1)
}

// Moves an arrow to place m of a list, where it is not known to be apart from b.
fn keep_open(shift: u32, b: u32, m: usize, a: u32, list: &mut [u32], memo: &[u32]) -> usize
    requires { (length memo.now ≡ PAIR_WORDS) × (m < length list.old) }
    ensures { KeptOne (Told memo.now shift a b) list.old m a list.new result }
{
    if known(memo, shift, a, b) {
        return m;
    }
    list[m] = a;
    m + 1
}

// Leaves in a short list the arrows that are not known to be apart from b.
pub fn keep_all_open(
    shift: u32,
    b: u32,
    from: usize,
    to: usize,
    list: &mut [u32],
    memo: &[u32],
) -> usize
    requires { (length memo.now ≡ PAIR_WORDS) × (from ≤ to) × (to ≤ length list.old) }
    ensures { KeptOpen memo.now shift b list.old list.new from to result }
{
    if to - from >= Short::LENGTH {
        return to;
    }
    let mut m = from;
    for k in from..to {
        let a = list[k];
        m = keep_open(shift, b, m, a, list, memo);
    }
    m
}

// Remembers the arrows of a short list with b.
pub fn remember_all(b: u32, from: usize, to: usize, list: &[u32], memo: &mut [u32])
    requires { (length memo.old ≡ PAIR_WORDS) × (from ≤ to) × (to ≤ length list.now) }
    ensures { StaysRight list.now from to b memo.old memo.new }
{
    if to - from < Short::LENGTH {
        // By place, not over `&list[from..to]`, which makes the frame of the walk larger.
        for k in from..to {
            remember(memo, list[k], b);
        }
    }
}
