// The tokens of document 01: what each formula byte means, and which tokens a call takes.
#![tactic(auto)]

ghost use Rattle.std.specs.Prelude.{◌≡◌, ◌≤◌, Some};
ghost use Rattle.tokens.specs.Tokens.{token_of, first_of, second_of, grammar_of, is_states, only_now, has_runs, leaf_allowed, two_allowed};
ghost use Rattle.tokens.specs.Tokens.{allowed, lead_at};

// The call that a formula is for.
#[derive(Clone, Copy)]
pub enum Kind {
    Relation,
    Set,
    Valid,
}

// What a formula speaks of: pairs of states, states, states and runs, or the bits of a state alone.
#[derive(Clone, Copy)]
pub enum Grammar {
    Pairs,
    States,
    Runs,
    Bits,
}

impl Grammar {
    pub const VERSION: u8 = 1;

    // The version whose formulas, for set calls, speak of runs.
    pub const RUNS_VERSION: u8 = 2;

    // How many variables there are.
    pub const VARIABLES: usize = 16;
}

// A formula of one byte.
#[derive(Clone, Copy)]
pub enum Leaf {
    False,
    True,
    Now(u32),
    Next(u32),
    Var(u32),
    Reg(u32),
}

#[derive(Clone, Copy)]
pub enum Join {
    And,
    Or,
}

// Box and diamond; every run and some run.
#[derive(Clone, Copy)]
pub enum Mode {
    All,
    Some,
}

#[derive(Clone, Copy)]
pub enum Fix {
    Mu,
    Nu,
}

// An operator of two parts: AND or OR, or until on some or on every run of a relation.
#[derive(Clone, Copy)]
pub enum Two {
    Join(Join),
    Until(Mode, u32),
}

// A token: a leaf, or an operator with the number that its byte holds.
#[derive(Clone, Copy)]
pub enum Token {
    Leaf(Leaf),
    Not,
    Both(Two),
    Modal(Mode, u32),
    Binder(Fix, u32),
}

// The grammar of version 1.
fn first_of(kind: Kind) -> Option<Grammar>
    ensures { result ≡ first_of kind }
{
    match kind {
        Kind::Relation => Some(Grammar::Pairs),
        Kind::Set => Some(Grammar::States),
        Kind::Valid => Some(Grammar::Bits),
    }
}

// The grammar of version 2, which is for set calls.
fn second_of(kind: Kind) -> Option<Grammar>
    ensures { result ≡ second_of kind }
{
    match kind {
        Kind::Relation => None,
        Kind::Set => Some(Grammar::Runs),
        Kind::Valid => None,
    }
}

// The grammar of a call's formula, by the version byte; none where the version is unknown.
pub fn grammar_of(kind: Kind, version: u8) -> Option<Grammar>
    ensures { result ≡ grammar_of kind version }
{
    if version == Grammar::VERSION {
        return first_of(kind);
    }
    if version == Grammar::RUNS_VERSION {
        return second_of(kind);
    }
    None
}

// The token of a byte 60 to 6F: its quotient by 8 tells box or diamond, its remainder is the relation.
fn modal_of(b: u8) -> Token
    requires { (0x60 ≤ b) × (b ≤ 0x6F) }
    ensures { Some result ≡ token_of b }
{
    // No branch (docs/DECISIONS.md, 37).
    let modes = [Mode::All, Mode::Some];
    let kind = usize::from(b / 8 - 12);
    Token::Modal(modes[kind], u32::from(b % 8))
}

// The token of a byte 90 to 9F: its quotient by 8 tells until on some or on every run, its remainder is the relation.
fn until_of(b: u8) -> Token
    requires { (0x90 ≤ b) × (b ≤ 0x9F) }
    ensures { Some result ≡ token_of b }
{
    let modes = [Mode::Some, Mode::All];
    let kind = usize::from(b / 8 - 18);
    Token::Both(Two::Until(modes[kind], u32::from(b % 8)))
}

// The meaning of a byte, if it has one.
fn token_of(b: u8) -> Option<Token>
    ensures { result ≡ token_of b }
{
    let byte = u32::from(b);
    match b {
        0x00 => Some(Token::Leaf(Leaf::False)),
        0x01 => Some(Token::Leaf(Leaf::True)),
        0x02 => Some(Token::Not),
        0x03 => Some(Token::Both(Two::Join(Join::And))),
        0x04 => Some(Token::Both(Two::Join(Join::Or))),
        0x10..=0x1F => Some(Token::Leaf(Leaf::Now(byte - 0x10))),
        0x20..=0x2F => Some(Token::Leaf(Leaf::Next(byte - 0x20))),
        0x30..=0x3F => Some(Token::Leaf(Leaf::Var(byte - 0x30))),
        0x40..=0x5F => Some(Token::Leaf(Leaf::Reg(byte - 0x40))),
        0x60..=0x6F => Some(modal_of(b)),
        0x70..=0x7F => Some(Token::Binder(Fix::Mu, byte - 0x70)),
        0x80..=0x8F => Some(Token::Binder(Fix::Nu, byte - 0x80)),
        0x90..=0x9F => Some(until_of(b)),
        _ => None,
    }
}

// Whether formulas speak of states.
fn is_states(grammar: Grammar) -> bool
    ensures { result ≡ is_states grammar }
{
    match grammar {
        Grammar::Pairs => false,
        Grammar::States => true,
        Grammar::Runs => true,
        Grammar::Bits => false,
    }
}

// Whether formulas speak of one state alone, and of no next one.
pub fn only_now(grammar: Grammar) -> bool
    ensures { result ≡ only_now grammar }
{
    match grammar {
        Grammar::Pairs => false,
        Grammar::States => true,
        Grammar::Runs => true,
        Grammar::Bits => true,
    }
}

// Whether formulas speak of runs.
fn has_runs(grammar: Grammar) -> bool
    ensures { result ≡ has_runs grammar }
{
    match grammar {
        Grammar::Pairs => false,
        Grammar::States => false,
        Grammar::Runs => true,
        Grammar::Bits => false,
    }
}

// Whether the grammar takes the leaf.
fn leaf_allowed(l: Leaf, n: u32, grammar: Grammar) -> bool
    ensures { result ≡ leaf_allowed l n grammar }
{
    match l {
        Leaf::False => true,
        Leaf::True => true,
        Leaf::Now(p) => p < n,
        Leaf::Next(p) => {
            if only_now(grammar) {
                return false;
            }
            p < n
        }
        Leaf::Var(_) => is_states(grammar),
        Leaf::Reg(_) => is_states(grammar),
    }
}

// Whether the grammar takes the operator of two parts.
fn two_allowed(w: Two, grammar: Grammar) -> bool
    ensures { result ≡ two_allowed w grammar }
{
    match w {
        Two::Join(_) => true,
        Two::Until(_, _) => has_runs(grammar),
    }
}

// Whether the grammar takes the token.
fn token_allowed(t: Token, n: u32, grammar: Grammar) -> bool
    ensures { result ≡ allowed t n grammar }
{
    match t {
        Token::Leaf(l) => leaf_allowed(l, n, grammar),
        Token::Not => true,
        Token::Both(w) => two_allowed(w, grammar),
        Token::Modal(_, _) => is_states(grammar),
        Token::Binder(_, _) => is_states(grammar),
    }
}

// The token at a place, where there is a byte and the grammar takes its token.
pub fn lead_at(bytes: &[u8], n: u32, grammar: Grammar, at: usize) -> Option<Token>
    ensures { result ≡ lead_at n grammar bytes.now at }
{
    if at < bytes.len() {
        let t = token_of(bytes[at])?;
        if token_allowed(t, n, grammar) {
            return Some(t);
        }
    }
    None
}
