// The call for a run of a relation that fits two logs.
#![tactic(auto)]

ghost use Rattle.std.specs.Prelude.{T};
ghost use Rattle.rows.specs.Says.{Says};
ghost use Rattle.moments.specs.Find.{logged_reply};
ghost use Rattle.logs.specs.Call.{logs_fit};
ghost use Rattle.log_calls.specs.Post.{LogPost};
ghost use Rattle.log_calls.specs.Asks.{SearchAsks, SearchGives};

use collect::free_many;
use counting::{Counts, begin};
use layout::{Refusal, Table, header_word};
use memory::forget;
use modal::Limits;
use moments::find_logged;
use soundness::sound;

// How long a log may be, in numbers: two for each entry.
#[derive(Clone, Copy)]
pub struct Log;

impl Log {
    pub const MOST: usize = 2048;
}

// Whether both logs have the same number of entries, of two numbers each, from 1 to 1,024.
fn logs_fit(one: usize, two: usize) -> bool
    ensures { Says (T (logs_fit one two)) result }
{
    if one != two {
        return false;
    }
    if one % 2 != 0 {
        return false;
    }
    if one == 0 {
        return false;
    }
    if one > Log::MOST {
        return false;
    }
    true
}

// The search, with nothing remembered before; then rows are freed where many are not needed any more.
fn search(
    words: &mut [u32],
    list: &mut [u16],
    limits: Limits,
    relation: u32,
    valid: u32,
    one: &[u16],
    two: &[u16],
) -> Result<(), Refusal>
    requires { SearchAsks limits words.old relation valid one.now two.now }
    ensures { SearchGives limits words.old words.new relation valid one.now two.now
        list.old list.new result }
{
    forget(words, limits.rows);
    let mut counts = [0u32; Counts::WORDS];
    begin(words, limits.rows, &mut counts);
    let found = find_logged(words, &mut counts, list, limits, relation, valid, one, two);
    free_many(words, limits.rows);
    found
}

// Writes the states of the run of relation t that fits both logs and is least at each place to the list: 1 where the logs' lengths do not
// fit, 2 on unsound words, 3 where there is no such relation, 7 where it is empty, 8 where a step needs more rows than there are, 10 where
// there is no run, 11 where the list is too short for it.
pub fn logged(
    words: &mut [u32],
    list: &mut [u16],
    t: u32,
    one: &[u16],
    two: &[u16],
) -> Result<(), Refusal>
    ensures { LogPost t one.now two.now words.old words.new
        list.old list.new (logged_reply result) }
{
    if !logs_fit(one.len(), two.len()) {
        return Err(Refusal::Sizes);
    }
    if !sound(words) {
        return Err(Refusal::Unsound);
    }
    if t >= Table::RELATIONS {
        return Err(Refusal::Range);
    }
    let rows = header_word(words, Table::ROWS);
    let bits = header_word(words, Table::BITS);
    let valid = header_word(words, Table::VALID);
    let z = header_word(words, Table::FIRST_RELATION + (t as usize));
    if z == 0 {
        return Err(Refusal::Empty);
    }
    let limits = Limits {
        bits: bits,
        rows: rows,
        limit: rows,
        rounds: 0,
    };
    search(words, list, limits, z - 1, valid - 1, one, two)
}
