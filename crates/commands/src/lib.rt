// The commands of records, each by its call, and a whole list of them.
#![tactic(auto)]

ghost use Rattle.accounts.specs.Terms.{alone};
ghost use Rattle.std.specs.Prelude.{◌≡◌, List, ℕ, ◌≤◌, length};
ghost use Rattle.book.specs.Book as book;
ghost use Rattle.book.specs.Program as program;
ghost use Rattle.rows.specs.Says.{Says};
ghost use Rattle.contract.specs.Seen.{SoundWords};
ghost use Rattle.records.specs.Record.{start_of, asked};
ghost use Rattle.commands.specs.Obey.{plain_outcome, Obeys, StatesIn, TakePost};
ghost use Rattle.commands.specs.After.{sound_after};

use accounts::lone_terms;
use calls::{clear_unchecked, collect_unchecked, count_unchecked, fresh};
use formula_calls::{relation_unchecked, set_unchecked};
use layout::Refusal;
use records::{Command, Found, read_record};

// What a record returned: its operation, a refusal's number or 0, set's node number, the rounds, the value that the program shows, and the
// peak.
#[derive(Clone, Copy)]
pub struct Outcome {
    pub operation: u32,
    pub number: u32,
    pub node: u32,
    pub rounds: u32,
    pub value: u32,
    pub peak: u32,
}

// What became of the bytes at hand: a record was obeyed, nothing is left, more bytes are needed, or no record can be read.
// No Result of an Option, as records::Found: end and more are no failures, and none is handed on.
#[derive(Clone, Copy)]
pub enum Taken {
    Done { outcome: Outcome, size: usize },
    End,
    More,
    Bad,
}

// The operations of records, as outcomes show them.
#[derive(Clone, Copy)]
struct Operation;

impl Operation {
    const FRESH: u32 = records::Operation::FRESH as u32;

    const RELATION: u32 = records::Operation::RELATION as u32;

    const SET: u32 = records::Operation::SET as u32;

    const CLEAR: u32 = records::Operation::CLEAR as u32;

    const COUNT: u32 = records::Operation::COUNT as u32;

    const COLLECT: u32 = records::Operation::COLLECT as u32;
}

// The outcome of a command that makes no node, takes no rounds and no step.
fn plain(operation: u32, number: u32, value: u32) -> Outcome
    ensures { result ≡ plain_outcome operation number value }
{
    Outcome {
        operation,
        number,
        node: 0,
        rounds: 0,
        value,
        peak: 0,
    }
}

// Fresh, on any words.
fn obey_fresh(words: &mut [u32], n: u32, rows: u32) -> Outcome
    ensures { Obeys (program.start n rows) words.old words.new result }
{
    match fresh(words, 1, n, rows) {
        Ok(()) => plain(Operation::FRESH, 0, 0),
        Err(x) => plain(Operation::FRESH, u32::from(x), 0),
    }
}

// Relation, on a sound table.
fn obey_relation(words: &mut [u32], t: u32, formula: &[u8]) -> Outcome
    requires { SoundWords words.old }
    ensures { Obeys (program.call (book.relation t formula.now)) words.old words.new result }
{
    match relation_unchecked(words, t, formula) {
        Ok(loaded) => Outcome {
            operation: Operation::RELATION,
            number: 0,
            node: 0,
            rounds: 0,
            value: 0,
            peak: loaded.peak,
        },
        Err(x) => plain(Operation::RELATION, u32::from(x), 0),
    }
}

// The states in register r of a sound table, after an answered set.
fn states_in(words: &[u32], r: u32) -> u32
    requires { SoundWords words.now }
    ensures { StatesIn r words.now result }
{
    count_unchecked(words, r).unwrap_or(0)
}

// Set, on a sound table, and the states of what it stored.
fn obey_set(words: &mut [u32], r: u32, most: u32, formula: &[u8]) -> Outcome
    requires { SoundWords words.old }
    ensures { Obeys (program.call (book.set alone r most formula.now)) words.old words.new result }
{
    match set_unchecked(words, lone_terms(), r, most, formula) {
        Ok(stored) => {
            let states = states_in(words, r);
            Outcome {
                operation: Operation::SET,
                number: 0,
                node: stored.number,
                rounds: stored.rounds,
                value: states,
                peak: stored.peak,
            }
        }
        Err(x) => plain(Operation::SET, u32::from(x), 0),
    }
}

// Clear, on a sound table.
fn obey_clear(words: &mut [u32], r: u32) -> Outcome
    requires { SoundWords words.old }
    ensures { Obeys (program.call (book.clear r)) words.old words.new result }
{
    match clear_unchecked(words, r) {
        Ok(()) => plain(Operation::CLEAR, 0, 0),
        Err(x) => plain(Operation::CLEAR, u32::from(x), 0),
    }
}

// Count, on a sound table.
fn obey_count(words: &mut [u32], r: u32) -> Outcome
    requires { SoundWords words.old }
    ensures { Obeys (program.states r) words.old words.new result }
{
    match count_unchecked(words, r) {
        Ok(k) => plain(Operation::COUNT, 0, k),
        Err(x) => plain(Operation::COUNT, u32::from(x), 0),
    }
}

// Collect, on a sound table.
fn obey_collect(words: &mut [u32]) -> Outcome
    requires { SoundWords words.old }
    ensures { Obeys (program.call book.collect) words.old words.new result }
{
    match collect_unchecked(words) {
        Ok(k) => plain(Operation::COLLECT, 0, k),
        Err(x) => plain(Operation::COLLECT, u32::from(x), 0),
    }
}

// The outcome of a command that asks for a sound table, on words that are none.
fn unsound(operation: u32) -> Outcome
    ensures { result ≡ plain_outcome operation 2 0 }
{
    plain(operation, u32::from(Refusal::Unsound), 0)
}

// A command on words that are no sound table: fresh is obeyed, and every other one is refused with 2.
fn obey_unsound(words: &mut [u32], command: Command) -> Outcome
    requires { SoundWords words.old → ⊥ }
    ensures { (bs : List ℕ) (size : ℕ) → Obeys (asked bs size command) words.old words.new result }
{
    match command {
        Command::Fresh { n, rows } => obey_fresh(words, n, rows),
        Command::Relation { t: _, start: _ } => unsound(Operation::RELATION),
        Command::Set {
            r: _,
            rounds: _,
            start: _,
        } => unsound(Operation::SET),
        Command::Clear { r: _ } => unsound(Operation::CLEAR),
        Command::Count { r: _ } => unsound(Operation::COUNT),
        Command::Collect => unsound(Operation::COLLECT),
    }
}

// The command of the record of so many bytes, on words that are a sound table or not; its formula is the rest of the record.
fn obey(words: &mut [u32], sound: bool, bytes: &[u8], size: usize, command: Command) -> Outcome
    requires { (start_of command ≤ size) × (size ≤ length bytes.now) × Says (SoundWords words.old) sound }
    ensures { Obeys (asked bytes.now size command) words.old words.new result }
{
    if !sound {
        return obey_unsound(words, command);
    }
    match command {
        Command::Fresh { n, rows } => obey_fresh(words, n, rows),
        Command::Relation { t, start } => obey_relation(words, t, &bytes[start..size]),
        Command::Set { r, rounds, start } => obey_set(words, r, rounds, &bytes[start..size]),
        Command::Clear { r } => obey_clear(words, r),
        Command::Count { r } => obey_count(words, r),
        Command::Collect => obey_collect(words),
    }
}

// Whether the words are a sound table after a record with that number: they were one before it, or it was answered, which on other words
// fresh alone is.
pub fn sound_after(sound: bool, number: u32) -> bool
    ensures { result ≡ sound_after sound number }
{
    if sound {
        return true;
    }
    if number == 0 {
        return true;
    }
    false
}

// Obeys the record at the front of the bytes at hand; `sound` says whether the words are a sound table, `ended` that no more will come.
pub fn take_record(words: &mut [u32], sound: bool, bytes: &[u8], ended: bool) -> Taken
    requires { Says (SoundWords words.old) sound }
    ensures { TakePost bytes.now ended words.old words.new result }
{
    match read_record(bytes, ended) {
        Found::End => Taken::End,
        Found::More => Taken::More,
        Found::Bad => Taken::Bad,
        Found::Record { command, size } => {
            let outcome = obey(words, sound, bytes, size, command);
            Taken::Done { outcome, size }
        }
    }
}
