// Guest against machine. The first call, the set of states from which the machine can force the goal, is a set call: its register and its
// bytes are made here. The second, the machine's answer to a press, is told of an account.
#![tactic(auto)]

ghost use Rattle.std.specs.Prelude.{◌≡◌, ◌%◌, ◌≤◌};
ghost use Rattle.layout.specs.View.{view};
ghost use Rattle.seek.specs.Walk.{HoldsPre};
ghost use Rattle.games.specs.Call.{numbers_in_range, game_target, game_bytes};
ghost use Rattle.game_calls.specs.Reacting.{open_move_at, response_of, response_reply, NamedPre, ReactingPre, Reacting};
ghost use Rattle.game_calls.specs.Post.{ReactPost};

use accounts::{Terms, is_named, rounds_under, rows_under};
use collect::free_many;
use evaluator::Stopped;
use game_steps::{Asked, iterate_rounds};
use layout::{Refusal, Table, header_word};
use modal::Limits;
use seek::holds;
use soundness::sound;

// The bytes of mu P (goal or (box guest of diamond machine of P, and diamond guest of true)); where there is no such register or relation,
// those of others.
pub fn game_bytes(goal: u32, guest: u32, machine: u32) -> [u8; 12]
    ensures { result ≡ game_bytes (goal % 32) (guest % 8) (machine % 8) }
{
    let x = (goal % Table::REGISTERS) as u8;
    let y = (guest % Table::RELATIONS) as u8;
    let z = (machine % Table::RELATIONS) as u8;
    [0, 10, 1, 112, 4, 64 + x, 3, 96 + y, 104 + z, 48, 104 + y, 1]
}

// Whether there are such a register and such relations.
fn in_range(goal: u32, guest: u32, machine: u32) -> bool
    ensures { result ≡ numbers_in_range goal guest machine }
{
    if goal >= Table::REGISTERS {
        return false;
    }
    if guest >= Table::RELATIONS {
        return false;
    }
    if machine >= Table::RELATIONS {
        return false;
    }
    true
}

// The register that the first call sets: r, and none where there is no such register or relation, so that 3 is given.
pub fn game_target(r: u32, goal: u32, guest: u32, machine: u32) -> u32
    ensures { result ≡ game_target r goal guest machine }
{
    if in_range(goal, guest, machine) {
        return r;
    }
    Table::REGISTERS
}

// Whether the press is a guest move of a state outside the goal, by their arrows.
fn is_open_move(words: &[u32], rows: u32, goal: u32, guest: u32, state: u32, press: u32) -> bool
    requires { HoldsPre (view rows words.now) goal × HoldsPre (view rows words.now) guest }
    ensures { result ≡ open_move_at (view rows words.now) goal guest state press }
{
    if holds(words, rows, goal, state, 0) {
        return false;
    }
    holds(words, rows, guest, state, press)
}

// What is answered when the rounds have ended: 15 is decided once the set is made.
fn respond(bits: u32, iterated: Result<u32, Stopped>) -> Result<u32, Refusal>
    requires { bits ≤ 16 }
    ensures { result ≡ response_of bits iterated }
{
    match iterated {
        Err(Stopped::Full) => Err(Refusal::Full),
        Err(Stopped::Spent) => Err(Refusal::Spent),
        Ok(u) => {
            if u < 1u32 << bits {
                return Ok(u);
            }
            Err(Refusal::NoAnswer)
        }
    }
}

// The second call after its checks, x, y and z being the arrows of the goal, the guest's relation and the machine's.
fn reacting(
    words: &mut [u32],
    terms: Terms,
    most: u32,
    goal: u32,
    guest: u32,
    machine: u32,
    x: u32,
    y: u32,
    z: u32,
    state: u32,
    press: u32,
) -> Result<u32, Refusal>
    requires { ReactingPre words.old goal guest machine x y z state press }
    ensures { Reacting terms most goal guest machine state press words.old words.new (response_reply result) }
{
    let rows = header_word(words, Table::ROWS);
    let bits = header_word(words, Table::BITS);
    let limits = Limits {
        bits: bits,
        rows: rows,
        limit: rows_under(rows, terms),
        rounds: rounds_under(most, terms),
    };
    let open_move = is_open_move(words, rows, x, y, state, press);
    let bytes = game_bytes(goal, guest, machine);
    let asked = Asked {
        machine: z,
        state: state,
        press: press,
        open_move: open_move,
    };
    let iterated = iterate_rounds(words, limits, &bytes, asked);
    free_many(words, rows);
    respond(bits, iterated)
}

// The second call where there are such numbers and the account named: 7 where a register or relation is empty, else the rounds.
fn react_named(
    words: &mut [u32],
    terms: Terms,
    most: u32,
    goal: u32,
    guest: u32,
    machine: u32,
    state: u32,
    press: u32,
) -> Result<u32, Refusal>
    requires { NamedPre terms words.old goal guest machine state press }
    ensures { ReactPost terms most goal guest machine state press words.old words.new (response_reply result) }
{
    let x = header_word(words, Table::FIRST_REGISTER + (goal as usize));
    let y = header_word(words, Table::FIRST_RELATION + (guest as usize));
    let z = header_word(words, Table::FIRST_RELATION + (machine as usize));
    if x == 0 {
        return Err(Refusal::Empty);
    }
    if y == 0 {
        return Err(Refusal::Empty);
    }
    if z == 0 {
        return Err(Refusal::Empty);
    }
    reacting(
        words,
        terms,
        most,
        goal,
        guest,
        machine,
        x - 1,
        y - 1,
        z - 1,
        state,
        press,
    )
}

// The least machine answer to the guest's press in a state of the set outside the goal, whose state enters the set in an earlier round; the
// rounds are made again, and nothing is stored. 2 on unsound words, 3 where there is no such register, relation or state, 14 where the list
// has not the account named, 7 where a register or relation is empty, 8 where a step needs more rows than there are, 9 where the rounds are
// used up, 15 where the state is in the goal or outside the set, or the press is no guest move of it.
pub fn react(
    words: &mut [u32],
    terms: Terms,
    most: u32,
    goal: u32,
    guest: u32,
    machine: u32,
    state: u32,
    press: u32,
) -> Result<u32, Refusal>
    ensures { ReactPost terms most goal guest machine state press words.old words.new (response_reply result) }
{
    if !sound(words) {
        return Err(Refusal::Unsound);
    }
    if !in_range(goal, guest, machine) {
        return Err(Refusal::Range);
    }
    let bits = header_word(words, Table::BITS);
    let states = 1u32 << bits;
    if state >= states {
        return Err(Refusal::Range);
    }
    if press >= states {
        return Err(Refusal::Range);
    }
    if !is_named(terms) {
        return Err(Refusal::Unlisted);
    }
    react_named(words, terms, most, goal, guest, machine, state, press)
}
