// The entry points over lent words and a lent list of accounts.
#![tactic(auto)]

ghost use Rattle.std.specs.Prelude.{◌≡◌};
ghost use Rattle.accounts.specs.Terms.{terms_of};
ghost use Rattle.contract.specs.Posts.{SetAllPost};
ghost use Rattle.formula_steps.specs.Replies.{stored_reply};
ghost use Rattle.account_calls.specs.Lists.{rounds_of, FreshBoth, made_count, FreshListPost};

use accounts::{Account, Terms, add_rounds, empty_tallies, terms_of, unnamed};
use formula_steps::Stored;
use layout::Refusal;

// The rounds of an answered set, 0 of a refused one.
pub fn rounds_of(x: Result<Stored, Refusal>) -> u32
    ensures { result ≡ rounds_of x }
{
    if let Ok(stored) = x { stored.rounds } else { 0 }
}

// A set call under the limits of the account at a place of a lent list; its rounds go to that account's tally.
pub fn set(
    words: &mut [u32],
    accounts: &mut [Account],
    place: u32,
    r: u32,
    most: u32,
    bytes: &[u8],
) -> Result<Stored, Refusal>
    ensures { SetAllPost place r most bytes.now words.old words.new
        accounts.old accounts.new (stored_reply result) }
{
    let x = formula_calls::set(words, terms_at(accounts, place), r, most, bytes);
    let at = place as usize;
    if at < accounts.len() {
        // read here, so that it is known to be a word
        let _tally = accounts[at].tally;
        add_rounds(accounts, at, rounds_of(x));
    }
    x
}

// Makes an empty table, where so many accounts are lent.
pub fn make(words: &mut [u32], count: usize, n: u32, rows: u32) -> Result<(), Refusal>
    ensures { FreshBoth n rows count words.old words.new result }
{
    calls::fresh(words, count, n, rows)
}

// How many tallies an answered fresh sets to 0: all, or none where it is refused.
pub fn ready_count(x: Result<(), Refusal>, count: usize) -> usize
    ensures { result ≡ made_count x count }
{
    if x.is_ok() { count } else { 0 }
}

// Makes an empty table, and sets the tallies of the accounts lent to 0.
pub fn fresh(words: &mut [u32], accounts: &mut [Account], n: u32, rows: u32) -> Result<(), Refusal>
    ensures { FreshListPost n rows words.old words.new accounts.old accounts.new result }
{
    let count = accounts.len();
    let x = make(words, count, n, rows);
    empty_tallies(accounts, ready_count(x, count));
    x
}

// What a call is told of the account at a place of a lent list, which it only reads.
pub fn terms_at(accounts: &[Account], place: u32) -> Terms
    ensures { result ≡ terms_of accounts.now place }
{
    let at = place as usize;
    let count = accounts.len();
    if at < count {
        return terms_of(count, place, accounts[at]);
    }
    unnamed(count, place)
}
