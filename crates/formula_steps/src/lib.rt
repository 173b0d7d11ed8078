// The steps of the calls that take a formula, after their checks: the formula is evaluated, what it gives is stored, and rows are freed
// where many are not needed any more.
#![tactic(auto)]

ghost use Rattle.std.specs.Prelude.{◌≡◌, ◌<◌, ◌≤◌, length};
ghost use Rattle.layout.specs.Places.{REGISTERS, RELATIONS, words_for};
ghost use Rattle.layout.specs.View.{view};
ghost use Rattle.rows.specs.Sound.{Sound};
ghost use Rattle.book.specs.Book as book;
ghost use Rattle.formula_steps.specs.Evaluated.{Tidied};
ghost use Rattle.contract.specs.Posts.{CallPost};
ghost use Rattle.formula_steps.specs.Load.{RelationReady, ValidReady};
ghost use Rattle.formula_steps.specs.Replies.{stored_reply, loaded_reply, confined_reply};
ghost use Rattle.formula_steps.specs.Store.{SetReady, Holds, stored_of, set_stored, Carries, loaded_of, relation_loaded, confined_of};
ghost use Rattle.formula_steps.specs.Store.{valid_confined};

use accounts::{Terms, rounds_under, rows_under};
use collect::free_many;
use counting::Taken;
use evaluator::{Stopped, Value, evaluate_pairs, evaluate_relation, evaluate_set};
use layout::{Refusal, Table, header_word, put_header};
use modal::Limits;
use table::Full;

// What set answers: the node number, the rounds and the peak.
#[derive(Clone, Copy)]
pub struct Stored {
    pub number: u32,
    pub rounds: u32,
    pub peak: u32,
}

// What relation answers: the peak.
#[derive(Clone, Copy)]
pub struct Loaded {
    pub peak: u32,
}

// Frees the rows that no register and no relation needs, where they are many. Looked at only where the used rows have passed a multiple of
// 64 since `before` at the call's start, so that a call that makes few rows does not pay for it.
fn tidy(words: &mut [u32], rows: u32, before: u32)
    requires { Sound (view rows words.old) }
    ensures { Tidied (view rows words.old) (view rows words.new) }
{
    let used = header_word(words, Table::USED);
    if used / 64 == before / 64 {
        return;
    }
    free_many(words, rows);
}

// Stores what an evaluation gave in register r.
fn store_set(
    words: &mut [u32],
    rows: u32,
    r: u32,
    done: Result<Value, Stopped>,
) -> Result<Stored, Refusal>
    requires { (r < REGISTERS) × (words_for rows ≤ length words.old) × Holds done }
    ensures { (result ≡ stored_of done) × (view rows words.new ≡ set_stored (view rows words.old) r done) }
{
    let value = done?;
    let at = Table::FIRST_REGISTER + (r as usize);
    put_header(words, rows, at, value.arrow + 1);
    Ok(Stored {
        number: value.arrow,
        rounds: value.count.rounds,
        peak: value.count.peak,
    })
}

// Stores what an evaluation gave in relation t.
fn store_relation(
    words: &mut [u32],
    rows: u32,
    t: u32,
    done: Result<Taken, Full>,
) -> Result<Loaded, Refusal>
    requires { (t < RELATIONS) × (words_for rows ≤ length words.old) × Carries done }
    ensures { (result ≡ loaded_of done) × (view rows words.new ≡ relation_loaded (view rows words.old) t done) }
{
    let made = done?;
    let at = Table::FIRST_RELATION + (t as usize);
    put_header(words, rows, at, made.arrow + 1);
    Ok(Loaded {
        peak: made.count.peak,
    })
}

// Evaluates a checked formula under the limits of an account, stores its states in register r, and frees rows where many are not needed any
// more.
pub fn set_steps(
    words: &mut [u32],
    terms: Terms,
    r: u32,
    most: u32,
    bytes: &[u8],
) -> Result<Stored, Refusal>
    requires { SetReady terms r words.old bytes.now }
    ensures { CallPost (book.set terms r most bytes.now) words.old words.new (stored_reply result) }
{
    let rows = header_word(words, Table::ROWS);
    let limits = Limits {
        bits: header_word(words, Table::BITS),
        rows: rows,
        limit: rows_under(rows, terms),
        rounds: rounds_under(most, terms),
    };
    let before = header_word(words, Table::USED);
    let done = evaluate_set(words, limits, bytes);
    let answer = store_set(words, rows, r, done);
    tidy(words, rows, before);
    answer
}

// Evaluates a checked formula, stores its pairs in relation t, and frees rows where many are not needed any more.
pub fn relation_steps(words: &mut [u32], t: u32, bytes: &[u8]) -> Result<Loaded, Refusal>
    requires { RelationReady t words.old bytes.now }
    ensures { CallPost (book.relation t bytes.now) words.old words.new (loaded_reply result) }
{
    let total = header_word(words, Table::ROWS);
    let limits = Limits {
        bits: header_word(words, Table::BITS),
        rows: total,
        limit: total,
        rounds: 0,
    };
    let before = header_word(words, Table::USED);
    let done = evaluate_relation(words, limits, bytes);
    let answer = store_relation(words, total, t, done);
    tidy(words, total, before);
    answer
}

// Stores what an evaluation gave as V.
fn store_valid(words: &mut [u32], rows: u32, done: Result<Taken, Full>) -> Result<(), Refusal>
    requires { (words_for rows ≤ length words.old) × Carries done }
    ensures { (result ≡ confined_of done) × (view rows words.new ≡ valid_confined (view rows words.old) done) }
{
    let made = done?;
    put_header(words, rows, Table::VALID, made.arrow + 1);
    Ok(())
}

// Evaluates valid's checked formula, makes its states V, and frees rows where many are not needed any more.
pub fn valid_steps(words: &mut [u32], bytes: &[u8]) -> Result<(), Refusal>
    requires { ValidReady words.old bytes.now }
    ensures { CallPost (book.valid bytes.now) words.old words.new (confined_reply result) }
{
    let total = header_word(words, Table::ROWS);
    let limits = Limits {
        bits: header_word(words, Table::BITS),
        rows: total,
        limit: total,
        rounds: 0,
    };
    let before = header_word(words, Table::USED);
    let done = evaluate_pairs(words, limits, bytes);
    let answer = store_valid(words, total, done);
    tidy(words, total, before);
    answer
}
