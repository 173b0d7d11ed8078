// The entry points that take a formula. Each makes its checks in document 01's order, and then leaves the work to one lower function.
// A function `.._unchecked` is its entry point after check 2, on words that are known to be a sound table.
#![tactic(auto)]

ghost use Rattle.std.specs.Prelude.{◌≤◌, length};
ghost use Rattle.layout.specs.Places.{HEADER};
ghost use Rattle.rows.specs.Says.{Says};
ghost use Rattle.book.specs.Book as book;
ghost use Rattle.contract.specs.Seen.{SoundWords};
ghost use Rattle.contract.specs.Posts.{CallPost};
ghost use Rattle.formula_steps.specs.Replies.{stored_reply, loaded_reply, confined_reply};
ghost use Rattle.formula_calls.specs.Vacant.{Vacant};

use accounts::{Terms, is_named};
use formula::check_formula;
use formula_steps::{Loaded, Stored, relation_steps, set_steps, valid_steps};
use layout::{Refusal, Table, header_word};
use soundness::sound;
use tokens::Kind;

// Relation t of a sound table holds the pairs of a formula; 3 where there is no such relation, 4 to 7 and 12 by the formula, 8 where a step
// needs more rows than there are.
pub fn relation_unchecked(words: &mut [u32], t: u32, bytes: &[u8]) -> Result<Loaded, Refusal>
    requires { SoundWords words.old }
    ensures { CallPost (book.relation t bytes.now) words.old words.new (loaded_reply result) }
{
    if t >= Table::RELATIONS {
        return Err(Refusal::Range);
    }
    let n = header_word(words, Table::BITS);
    check_formula(bytes, Kind::Relation, n, words)?;
    relation_steps(words, t, bytes)
}

// Relation t holds the pairs of a formula; 2 on unsound words, and else as `relation_unchecked`.
pub fn relation(words: &mut [u32], t: u32, bytes: &[u8]) -> Result<Loaded, Refusal>
    ensures { CallPost (book.relation t bytes.now) words.old words.new (loaded_reply result) }
{
    if !sound(words) {
        return Err(Refusal::Unsound);
    }
    relation_unchecked(words, t, bytes)
}

// Register r of a sound table holds the states of a formula, found in at most so many rounds under the limits of an account; 3 where there
// is no such register, 14 where the list has not the account named, 4 to 7 and 12 by the formula, 8 where a step needs more rows than there
// are,
// 9 where the rounds are used up.
pub fn set_unchecked(
    words: &mut [u32],
    terms: Terms,
    r: u32,
    most: u32,
    bytes: &[u8],
) -> Result<Stored, Refusal>
    requires { SoundWords words.old }
    ensures { CallPost (book.set terms r most bytes.now) words.old words.new (stored_reply result) }
{
    if r >= Table::REGISTERS {
        return Err(Refusal::Range);
    }
    if !is_named(terms) {
        return Err(Refusal::Unlisted);
    }
    let n = header_word(words, Table::BITS);
    check_formula(bytes, Kind::Set, n, words)?;
    set_steps(words, terms, r, most, bytes)
}

// Register r holds the states of a formula; 2 on unsound words, and else as `set_unchecked`.
pub fn set(
    words: &mut [u32],
    terms: Terms,
    r: u32,
    most: u32,
    bytes: &[u8],
) -> Result<Stored, Refusal>
    ensures { CallPost (book.set terms r most bytes.now) words.old words.new (stored_reply result) }
{
    if !sound(words) {
        return Err(Refusal::Unsound);
    }
    set_unchecked(words, terms, r, most, bytes)
}

// Whether every register and every relation is empty.
fn unfilled(words: &[u32]) -> bool
    requires { HEADER ≤ length words.now }
    ensures { Says (Vacant words.now) result }
{
    for k in Table::FIRST_REGISTER..Table::ROOTS_END {
        if header_word(words, k) != 0 {
            return false;
        }
    }
    true
}

// V, the states that exist, are those of a formula, in a sound table; 13 while a register or relation is filled, 4 by the formula, 8 where
// a step needs more rows than there are.
pub fn valid_unchecked(words: &mut [u32], bytes: &[u8]) -> Result<(), Refusal>
    requires { SoundWords words.old }
    ensures { CallPost (book.valid bytes.now) words.old words.new (confined_reply result) }
{
    if !unfilled(words) {
        return Err(Refusal::Occupied);
    }
    let n = header_word(words, Table::BITS);
    check_formula(bytes, Kind::Valid, n, words)?;
    valid_steps(words, bytes)
}

// V, the states that exist, are those of a formula; 2 on unsound words, and else as `valid_unchecked`.
pub fn valid(words: &mut [u32], bytes: &[u8]) -> Result<(), Refusal>
    ensures { CallPost (book.valid bytes.now) words.old words.new (confined_reply result) }
{
    if !sound(words) {
        return Err(Refusal::Unsound);
    }
    valid_unchecked(words, bytes)
}
