// Accounts that share one table, each with a row limit, a round limit and a tally of rounds. First the arithmetic on one account by value,
// then the few thin functions over a lent list of accounts.
#![tactic(auto)]

ghost use Rattle.std.specs.Prelude.{◌≡◌, ◌<◌, ◌≤◌, length, get_or, set};
ghost use Rattle.accounts.specs.Account.{counted, emptied, list_fits};
ghost use Rattle.accounts.specs.Listed.{none, emptied_to};
ghost use Rattle.accounts.specs.Terms.{terms_with, named, lent, rows_under, rounds_under, alone};

// An account: the rows that a step may need and the rounds that a set call may take, beside the table's and the caller's own, and the
// rounds of its answered sets since fresh.
#[repr(C)]
#[derive(Clone, Copy)]
pub struct Account {
    pub rows: u32,
    pub rounds: u32,
    pub tally: u32,
}

// What a set call is told of the accounts: how many are lent, which is named, and its limits.
#[derive(Clone, Copy)]
pub struct Terms {
    pub count: usize,
    pub place: u32,
    pub rows: u32,
    pub rounds: u32,
}

// What a call has counted as its steps go: its rounds, and its peak, the largest row need of a step.
#[derive(Clone, Copy)]
pub struct Count {
    pub rounds: u32,
    pub peak: u32,
}

// The counts of a list of accounts.
#[derive(Clone, Copy)]
pub struct List;

impl List {
    pub const MOST: usize = 8;

    // where a tally stays
    pub const TOP: u32 = 4294967295;
}

// The account after an answered set of so many rounds.
pub fn with_rounds(a: Account, rounds: u32) -> Account
    ensures { result ≡ counted a rounds }
{
    Account {
        tally: a.tally.saturating_add(rounds),
        ..a
    }
}

// The account after fresh.
pub fn with_none(a: Account) -> Account
    ensures { result ≡ emptied a }
{
    Account { tally: 0, ..a }
}

// Whether a list of `count` accounts is 1 to 8 long and has one at the place.
pub fn list_fits(count: usize, place: u32) -> bool
    ensures { result ≡ list_fits count place }
{
    if count > List::MOST {
        return false;
    }
    if (place as usize) < count {
        return true;
    }
    false
}

// Whether the list is 1 to 8 long and has the account named.
pub fn is_named(t: Terms) -> bool
    ensures { result ≡ named t }
{
    list_fits(t.count, t.place)
}

// The rows that a call may use: both limits hold.
pub fn rows_under(rows: u32, t: Terms) -> u32
    ensures { result ≡ rows_under rows t }
{
    rows.min(t.rows)
}

// The rounds that a call may use.
pub fn rounds_under(most: u32, t: Terms) -> u32
    ensures { result ≡ rounds_under most t }
{
    most.min(t.rounds)
}

// What a call is told of an account that was read at a place.
pub fn terms_of(count: usize, place: u32, a: Account) -> Terms
    ensures { result ≡ terms_with count place a }
{
    Terms {
        count: count,
        place: place,
        rows: a.rows,
        rounds: a.rounds,
    }
}

// What a call is told where the list has no account at that place.
pub fn unnamed(count: usize, place: u32) -> Terms
    ensures { result ≡ terms_with count place none }
{
    Terms {
        count: count,
        place: place,
        rows: 0,
        rounds: 0,
    }
}

// Whether a list of so many accounts is 1 to 8 long.
pub fn is_lent(count: usize) -> bool
    ensures { result ≡ lent count }
{
    if count < 1 {
        return false;
    }
    if count > List::MOST {
        return false;
    }
    true
}

// What a call is told of one account with the largest limits.
pub fn lone_terms() -> Terms
    ensures { result ≡ alone }
{
    Terms {
        count: 1,
        place: 0,
        rows: List::TOP,
        rounds: List::TOP,
    }
}

// An answered set's rounds go to the account at a place; every other account, and all limits, are as they were.
pub fn add_rounds(accounts: &mut [Account], place: usize, rounds: u32)
    requires { place < length accounts.old }
    ensures { accounts.new ≡ set accounts.old place (counted (get_or accounts.old place none) rounds) }
{
    let next = with_rounds(accounts[place], rounds);
    accounts[place] = next;
}

// The tallies of the first `count` accounts are 0; all limits, and the accounts after them, are as they were.
pub fn empty_tallies(accounts: &mut [Account], count: usize)
    requires { count ≤ length accounts.old }
    ensures { accounts.new ≡ emptied_to count accounts.old }
{
    for a in accounts[..count].iter_mut() {
        *a = with_none(*a);
    }
}
