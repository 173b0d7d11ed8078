// The entry points for C and Rust. Each returns a refusal's number or 0, and writes its other answers, zeros where it is refused.
#![tactic(auto)]

ghost use Rattle.std.specs.Prelude.{◌≡◌, Err};
ghost use Rattle.book.specs.Book as book;
ghost use Rattle.batch_calls.specs.Posts.{BatchPost};
ghost use Rattle.calls.specs.Replies.{answer_reply, started_reply};
ghost use Rattle.coins.specs.Post.{FarePost};
ghost use Rattle.contract.specs.Posts.{CallPost, AskPost, SetAllPost};
ghost use Rattle.formula.specs.Checks.{number_of};
ghost use Rattle.formula_steps.specs.Replies.{stored_reply};
ghost use Rattle.game_calls.specs.Post.{ReactPost};
ghost use Rattle.log_calls.specs.Post.{LogPost};
ghost use Rattle.path_calls.specs.Post.{PathPost};
ghost use Rattle.exports.specs.Given.{given, fare_given, FreshGiven};
ghost use Rattle.exports.specs.Games.{ForceAllPost, ReactAllPost};
ghost use Rattle.exports.specs.Check.{kind_of, CheckPost};
ghost use Rattle.exports.specs.Playing.{PlayGiven, play_number};

use account_calls::terms_at;
use accounts::{Account, Terms};
use formula::check_formula;
use formula_steps::Stored;
use game_calls::{game_bytes, game_target};
use layout::{Refusal, Table, header_word};
use player::Unplayed;
use soundness::sound;
use tokens::Kind;

// The number of an answer without a value: 0, or its refusal's.
fn number_of(x: Result<(), Refusal>) -> u32
    ensures reply { given result 0 0 0 ≡ started_reply x }
    ensures number { result ≡ number_of x }
{
    match x {
        Ok(()) => 0,
        Err(e) => u32::from(e),
    }
}

// Gives an answer's value, 0 of a refused one.
fn give(x: Result<u32, Refusal>, value: &mut u32) -> u32
    ensures { given result 0 0 value.new ≡ answer_reply x }
{
    match x {
        Ok(v) => {
            *value = v;
            0
        }
        Err(e) => {
            *value = 0;
            u32::from(e)
        }
    }
}

// Makes an empty table of n bits and `rows` rows of any words, and sets the tallies of the accounts lent to 0.
#[unsafe(no_mangle)]
pub extern "C" fn kudzuclamp_fresh(
    words: &mut [u32],
    accounts: &mut [Account],
    n: u32,
    rows: u32,
) -> u32
    ensures { FreshGiven n rows words.old words.new accounts.old accounts.new result }
{
    number_of(account_calls::fresh(words, accounts, n, rows))
}

// Relation t holds the pairs of a formula; gives its peak.
#[unsafe(no_mangle)]
pub extern "C" fn kudzuclamp_relation(
    words: &mut [u32],
    t: u32,
    bytes: &[u8],
    peak: &mut u32,
) -> u32
    ensures { CallPost (book.relation t bytes.now) words.old words.new
        (given result 0 peak.new 0) }
{
    let x = formula_calls::relation(words, t, bytes);
    *peak = 0;
    match x {
        Ok(loaded) => {
            *peak = loaded.peak;
            0
        }
        Err(e) => u32::from(e),
    }
}

// V, the states that exist, are those of a formula.
#[unsafe(no_mangle)]
pub extern "C" fn kudzuclamp_valid(words: &mut [u32], bytes: &[u8]) -> u32
    ensures { CallPost (book.valid bytes.now) words.old words.new (given result 0 0 0) }
{
    number_of(formula_calls::valid(words, bytes))
}

// Gives the node number, the rounds and the peak of an answered set, zeros of a refused one.
fn give_stored(x: Result<Stored, Refusal>, node: &mut u32, rounds: &mut u32, peak: &mut u32) -> u32
    ensures { given result rounds.new peak.new node.new ≡ stored_reply x }
{
    match x {
        Ok(stored) => {
            *node = stored.number;
            *rounds = stored.rounds;
            *peak = stored.peak;
            0
        }
        Err(e) => {
            *node = 0;
            *rounds = 0;
            *peak = 0;
            u32::from(e)
        }
    }
}

// Register r holds the states of a formula, found under the limits of the account at a place and in at most `most` rounds, which go to its
// tally; gives its node number, the rounds and the peak.
#[unsafe(no_mangle)]
pub extern "C" fn kudzuclamp_set(
    words: &mut [u32],
    accounts: &mut [Account],
    place: u32,
    r: u32,
    most: u32,
    bytes: &[u8],
    node: &mut u32,
    rounds: &mut u32,
    peak: &mut u32,
) -> u32
    ensures { SetAllPost place r most bytes.now words.old words.new
        accounts.old accounts.new
        (given result rounds.new peak.new node.new) }
{
    let x = account_calls::set(words, accounts, place, r, most, bytes);
    give_stored(x, node, rounds, peak)
}

// Empties register r.
#[unsafe(no_mangle)]
pub extern "C" fn kudzuclamp_clear(words: &mut [u32], r: u32) -> u32
    ensures { CallPost (book.clear r) words.old words.new (given result 0 0 0) }
{
    number_of(calls::clear(words, r))
}

// Frees the rows that neither V nor a register or relation needs; gives how many are needed.
#[unsafe(no_mangle)]
pub extern "C" fn kudzuclamp_collect(words: &mut [u32], rows: &mut u32) -> u32
    ensures { CallPost book.collect words.old words.new (given result 0 0 rows.new) }
{
    give(calls::collect(words), rows)
}

// Gives the node number in register r.
#[unsafe(no_mangle)]
pub extern "C" fn kudzuclamp_node(words: &[u32], r: u32, node: &mut u32) -> u32
    ensures { AskPost (book.node r) words.now (given result 0 0 node.new) }
{
    give(calls::node(words, r), node)
}

// Gives 1 where the set in register r has state s, else 0.
#[unsafe(no_mangle)]
pub extern "C" fn kudzuclamp_member(words: &[u32], r: u32, s: u32, value: &mut u32) -> u32
    ensures { AskPost (book.member r s) words.now (given result 0 0 value.new) }
{
    give(calls::member(words, r, s), value)
}

// Answers for each of up to 1,024 states whether the set in register r has it; gives how many rows were read.
// The order is lent for the work.
#[unsafe(no_mangle)]
pub extern "C" fn kudzuclamp_members(
    words: &[u32],
    r: u32,
    states: &[u16],
    order: &mut [u16],
    answers: &mut [u8],
    reads: &mut u32,
) -> u32
    ensures { BatchPost r words.now states.now order.old order.new
        answers.old answers.new (given result 0 0 reads.new) }
{
    give(
        batch_calls::members(words, r, states, order, answers),
        reads,
    )
}

// Gives how many states the set in register r has.
#[unsafe(no_mangle)]
pub extern "C" fn kudzuclamp_count(words: &[u32], r: u32, value: &mut u32) -> u32
    ensures { AskPost (book.count r) words.now (given result 0 0 value.new) }
{
    give(calls::count(words, r), value)
}

// Writes the states of a shortest run from register a into register b over relation t to the list; gives how many they are.
#[unsafe(no_mangle)]
pub extern "C" fn kudzuclamp_shortest(
    words: &mut [u32],
    list: &mut [u16],
    a: u32,
    b: u32,
    t: u32,
    states: &mut u32,
) -> u32
    ensures { PathPost a b t words.old words.new list.old list.new
        (given result 0 0 states.new) }
{
    give(path_calls::shortest(words, list, a, b, t), states)
}

// Writes the states of a cheapest run from register a into register b over any mix of filled relations, and the relation of each step, to
// the lists; gives its total of prices, its coins and how many states it has. The work words, one for each state, are lent for the search.
#[unsafe(no_mangle)]
pub extern "C" fn kudzuclamp_cheapest(
    words: &[u32],
    prices: &[u8],
    work: &mut [u64],
    states: &mut [u16],
    relations: &mut [u8],
    a: u32,
    b: u32,
    total: &mut u32,
    charge: &mut u32,
    count: &mut u32,
) -> u32
    ensures { FarePost a b words.now prices.now work.old work.new states.old
        states.new relations.old relations.new
        (fare_given result total.new charge.new count.new) }
{
    let x = coin_calls::cheapest(words, prices, work, states, relations, a, b);
    match x {
        Ok(fare) => {
            *total = fare.total;
            *charge = fare.charge;
            *count = fare.states;
            0
        }
        Err(e) => {
            *total = 0;
            *charge = 0;
            *count = 0;
            u32::from(e)
        }
    }
}

// Register r holds the states from which the machine can force the goal, the guest moving by relation `guest` and the machine by relation
// `machine` in turn: a set of the game's bytes, under the limits of the account at a place; gives its node number, the rounds and the peak.
#[unsafe(no_mangle)]
pub extern "C" fn kudzuclamp_force(
    words: &mut [u32],
    accounts: &mut [Account],
    place: u32,
    r: u32,
    most: u32,
    goal: u32,
    guest: u32,
    machine: u32,
    node: &mut u32,
    rounds: &mut u32,
    peak: &mut u32,
) -> u32
    ensures { ForceAllPost place r most goal guest machine words.old words.new
        accounts.old accounts.new
        (given result rounds.new peak.new node.new) }
{
    let target = game_target(r, goal, guest, machine);
    let bytes = game_bytes(goal, guest, machine);
    kudzuclamp_set(
        words, accounts, place, target, most, &bytes, node, rounds, peak,
    )
}

// Gives the state that the machine answers a guest's press with, under what is told of an account; 0 where it is refused.
fn react_under(
    words: &mut [u32],
    terms: Terms,
    most: u32,
    goal: u32,
    guest: u32,
    machine: u32,
    state: u32,
    press: u32,
    answer: &mut u32,
) -> u32
    ensures { ReactPost terms most goal guest machine state press words.old words.new
        (given result 0 0 answer.new) }
{
    give(
        game_calls::react(words, terms, most, goal, guest, machine, state, press),
        answer,
    )
}

// Gives the state that the machine answers a guest's press with, in a state from which it can force the goal; the rounds are made again
// under the limits of the account at a place.
#[unsafe(no_mangle)]
pub extern "C" fn kudzuclamp_react(
    words: &mut [u32],
    accounts: &[Account],
    place: u32,
    most: u32,
    goal: u32,
    guest: u32,
    machine: u32,
    state: u32,
    press: u32,
    answer: &mut u32,
) -> u32
    ensures { ReactAllPost place most goal guest machine state press words.old words.new
        accounts.now (given result 0 0 answer.new) }
{
    let terms = terms_at(accounts, place);
    react_under(
        words, terms, most, goal, guest, machine, state, press, answer,
    )
}

// Writes the states of the run of relation t that fits two logs, and is least at each place, to the list. A log is a mask and a value for
// each moment, one after the other.
#[unsafe(no_mangle)]
pub extern "C" fn kudzuclamp_logged(
    words: &mut [u32],
    list: &mut [u16],
    t: u32,
    one: &[u16],
    two: &[u16],
) -> u32
    ensures { LogPost t one.now two.now words.old words.new
        list.old list.new (given result 0 0 0) }
{
    number_of(log_calls::logged(words, list, t, one, two))
}

// The call that formula bytes are for: set at 0, else relation.
// No From: 0 and all other numbers of one parameter of C.
fn kind_of(relation: u32) -> Kind
    ensures { result ≡ kind_of relation }
{
    if relation == 0 {
        return Kind::Set;
    }
    Kind::Relation
}

// The checks 2, 4 to 7 and 12 that a set call, or a relation call, makes of formula bytes; no step is taken.
#[unsafe(no_mangle)]
pub extern "C" fn kudzuclamp_check<'a>(words: &'a [u32], relation: u32, bytes: &'a [u8]) -> u32
    ensures { CheckPost (kind_of relation) words.now bytes.now result }
{
    if !sound(words) {
        return u32::from(Refusal::Unsound);
    }
    let n = header_word(words, Table::BITS);
    number_of(check_formula(bytes, kind_of(relation), n, words))
}

// The numbers of `kudzuclamp_play`'s own refusals.
#[derive(Clone, Copy)]
pub struct Playing;

impl Playing {
    pub const SHORT: u32 = 100;

    pub const UNREADABLE: u32 = 101;
}

// The number of a reason not to play.
fn unplayed_number(e: Unplayed) -> u32
    ensures { result ≡ play_number (Err e) }
{
    match e {
        Unplayed::Short => Playing::SHORT,
        Unplayed::Unreadable => Playing::UNREADABLE,
    }
}

// Plays the calls of all records in order, and writes number, node, rounds, value and peak of each to the list; gives how many records
// there were.
#[unsafe(no_mangle)]
pub extern "C" fn kudzuclamp_play(
    words: &mut [u32],
    bytes: &[u8],
    list: &mut [u32],
    count: &mut usize,
) -> u32
    ensures { PlayGiven bytes.now words.old words.new list.old list.new
        result count.new }
{
    let x = player::play(words, bytes, list);
    match x {
        Ok(n) => {
            *count = n;
            0
        }
        Err(e) => {
            *count = 0;
            unplayed_number(e)
        }
    }
}
