// The call for the shortest run from one register into another over a relation.
#![tactic(auto)]

ghost use Rattle.routes.specs.Find.{found_reply};
ghost use Rattle.path_calls.specs.Post.{PathPost};
ghost use Rattle.path_calls.specs.Asks.{SearchAsks, SearchGives};

use collect::free_many;
use counting::{Counts, begin};
use layout::{Refusal, Table, header_word};
use memory::forget;
use modal::Limits;
use routes::find_run;
use soundness::sound;

// The search, with nothing remembered before; then rows are freed where many are not needed any more.
fn search(
    words: &mut [u32],
    list: &mut [u16],
    limits: Limits,
    relation: u32,
    a: u32,
    b: u32,
) -> Result<u32, Refusal>
    requires { SearchAsks limits words.old relation a b }
    ensures { SearchGives limits words.old words.new list.old list.new relation a b result }
{
    forget(words, limits.rows);
    let mut counts = [0u32; Counts::WORDS];
    begin(words, limits.rows, &mut counts);
    let found = find_run(words, &mut counts, list, limits, relation, a, b);
    free_many(words, limits.rows);
    found
}

// Writes the states of the shortest run from register a into register b over relation t to the list, the least at each place, and answers
// how many they are: 2 on unsound words, 3 where there is no such register or relation, 7 where one is empty, 8 where a step needs more
// rows than there are, 10 where there is no run, 11 where the list is too short for it.
pub fn shortest(words: &mut [u32], list: &mut [u16], a: u32, b: u32, t: u32) -> Result<u32, Refusal>
    ensures { PathPost a b t words.old words.new list.old list.new (found_reply result) }
{
    if !sound(words) {
        return Err(Refusal::Unsound);
    }
    if a >= Table::REGISTERS {
        return Err(Refusal::Range);
    }
    if b >= Table::REGISTERS {
        return Err(Refusal::Range);
    }
    if t >= Table::RELATIONS {
        return Err(Refusal::Range);
    }
    let rows = header_word(words, Table::ROWS);
    let bits = header_word(words, Table::BITS);
    let x = header_word(words, Table::FIRST_REGISTER + (a as usize));
    let y = header_word(words, Table::FIRST_REGISTER + (b as usize));
    let z = header_word(words, Table::FIRST_RELATION + (t as usize));
    if x == 0 {
        return Err(Refusal::Empty);
    }
    if y == 0 {
        return Err(Refusal::Empty);
    }
    if z == 0 {
        return Err(Refusal::Empty);
    }
    let limits = Limits {
        bits: bits,
        rows: rows,
        limit: rows,
        rounds: 0,
    };
    search(words, list, limits, z - 1, x - 1, y - 1)
}
