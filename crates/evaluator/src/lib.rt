// The evaluation of a call's formula from its bytes, over the words of a table: of a set's, a relation's or that of valid.
#![tactic(auto)]

ghost use Rattle.std.specs.Prelude.{◌≡◌, ◌+◌, ◌<◌, ◌≤◌, length, get_or, set};
ghost use Rattle.layout.specs.Places.{HEADER, VALID};
ghost use Rattle.layout.specs.View.{header_of};
ghost use Rattle.accounts.specs.Count.{another};
ghost use Rattle.tokens.specs.Tokens.{only_now};
ghost use Rattle.book.specs.Turns.{start_arrow};
ghost use Rattle.tokens.specs.declared.Mode.TheVariants.{All};
ghost use Rattle.evaluator.specs.declared.Stopped.TheVariants as stopped;
ghost use Rattle.evaluator.specs.Stops.{stopped_refusal};
ghost use Rattle.evaluator.specs.Whole.{start, body_start};
ghost use Rattle.evaluator.specs.Scene.{stack_size, from_taken, body_of, round_of, is_least, fix_of, variable_of, join_step};
ghost use Rattle.evaluator.specs.Scene.{TrueIs, UntilPost};
ghost use Rattle.evaluator.specs.Posts.{LiveAsks, LiveGives, JoinedAsks, JoinedGives, ConfinedAsks, ConfinedGives};
ghost use Rattle.evaluator.specs.Posts.{LeafAsks, LeafGives, OverAsks, OverGives, ReachAsks, ReachGives, FurtherAsks, FurtherGives};
ghost use Rattle.evaluator.specs.Posts.{EvalAsks, EvalGives, NegateGives, BothAsks, BothGives, ModeAsks, ModeGives};
ghost use Rattle.evaluator.specs.Posts.{BindAsks, BindGives, TurnAsks, TurnGives};
ghost use Rattle.evaluator.specs.Posts.{KeepAsks, KeepGives, RoundAsks, RoundGives, WithinAsks, WithinGives};
ghost use Rattle.evaluator.specs.Posts.{SetAsks, SetGives, PairsAsks, PairsGives, RelationGives, OnceAsks, OnceGives};

use accounts::Count;
use counting::{Counts, Taken, begin, take};
use formula::{Frame, syntax};
use layout::{Refusal, Table, header_word};
use memory::forget;
use modal::{Limits, boxed, diamond};
use steps::Step;
use table::Full;
use tokens::{Fix, Grammar, Join, Leaf, Mode, Token, Two, lead_at, only_now};

// What an evaluation answers: the arrow of the set, the place after the formula and what is counted.
#[derive(Clone, Copy)]
pub struct Value {
    pub arrow: u32,
    pub next: usize,
    pub count: Count,
}

// Why an evaluation answers no value: the rows ran out, or the rounds did.
#[derive(Clone, Copy)]
pub enum Stopped {
    Full,
    Spent,
}

impl From<Full> for Stopped {
    ghost from_gives = { λ _ e. e ≡ stopped.Full };

    fn from(_full: Full) -> Stopped {
        Stopped::Full
    }
}

impl From<Stopped> for Refusal {
    ghost from_gives = { λ s e. e ≡ stopped_refusal s };

    fn from(stopped: Stopped) -> Refusal {
        match stopped {
            Stopped::Full => Refusal::Full,
            Stopped::Spent => Refusal::Spent,
        }
    }
}

// What rounds are taken of: a binder's formula at the context's place, or until over a relation, whose f stands there and whose g at the
// place named.
#[derive(Clone, Copy)]
enum Body {
    Binder(Fix, u32),
    Until(Mode, u32, usize),
}

impl Body {
    // The variable of until's current set, which no formula's bytes name: it has no place of its own among the open ones.
    const OWN: u32 = 16;
}

// For each open variable the place of its binder's current set on the stack. Bytes, since a context is copied at each part of a formula.
type Places = [u8; Grammar::VARIABLES];

// The words in which an evaluation keeps live arrows.
#[derive(Clone, Copy)]
pub struct Stack;

impl Stack {
    // Two for each level of a formula, since until holds its current set and the value of g while f is evaluated; what it holds after f is
    // no more than the level below would.
    pub const WORDS: usize = 128;
}

// Where an evaluation stands: its place in the bytes, the depth left, how many words of the stack are live, the places of the open
// variables among them, and what is counted.
#[derive(Clone, Copy)]
struct Context {
    at: usize,
    depth: usize,
    held: usize,
    places: Places,
    count: Count,
}

// A step's result as an answer.
fn answer(taken: Result<Taken, Full>, next: usize) -> Result<Value, Stopped>
    ensures { result ≡ from_taken next taken }
{
    let made = taken?;
    Ok(Value {
        arrow: made.arrow,
        next: next,
        count: made.count,
    })
}

// One round more is counted.
fn another_round(c: Count) -> Count
    requires { c.rounds < 4_294_967_295 }
    ensures { result ≡ another c }
{
    Count {
        rounds: c.rounds + 1,
        peak: c.peak,
    }
}

// The places with a variable's place.
fn with_place(places: Places, p: u32, place: usize) -> Places
    requires { place < stack_size }
    ensures { result ≡ set places p place }
{
    let mut inner = places;
    let i = p as usize;
    if i < Grammar::VARIABLES {
        inner[i] = place as u8;
    }
    inner
}

// The context of a binder's body: the current set of variable p is one live word more, and so much is counted.
fn opened(here: Context, p: u32, count: Count) -> Context
    requires { here.held < stack_size }
    ensures { result ≡ body_of here p count }
{
    let places = here.places;
    let inner = with_place(places, p, here.held);
    let mut body = here;
    body.held = here.held + 1;
    body.places = inner;
    body.count = count;
    body
}

// The context of what follows at `next`, with one live word more and so much counted.
fn onward(here: Context, next: usize, count: Count) -> Context
    requires { here.held < stack_size }
    ensures { result ≡ round_of here next count }
{
    let mut rest = here;
    rest.at = next;
    rest.held = here.held + 1;
    rest.count = count;
    rest
}

// The arrow where a body's rounds start: V for nu, no state for mu and until.
fn start_of(body: Body, valid: u32) -> u32
    ensures { result ≡ start_arrow (is_least (fix_of body)) valid }
{
    match body {
        Body::Binder(x, _) => match x {
            Fix::Mu => Table::NOTHING,
            Fix::Nu => valid,
        },
        Body::Until(_, _, _) => Table::NOTHING,
    }
}

// The variable of a body's current set.
fn variable_of(body: Body) -> u32
    ensures { result ≡ variable_of body }
{
    match body {
        Body::Binder(_, p) => p,
        Body::Until(_, _, _) => Body::OWN,
    }
}

// The step of AND or OR.
pub fn join_of(j: Join, a: u32, b: u32) -> Step
    ensures { result ≡ join_step j a b }
{
    match j {
        Join::And => Step::And(a, b),
        Join::Or => Step::Or(a, b),
    }
}

// The arrow in a filled root: V, a register or a relation.
pub fn root_arrow(words: &[u32], h: usize) -> u32
    requires { (h < HEADER) × (HEADER ≤ length words.now) × (0 < header_of words.now h) }
    ensures { result + 1 ≡ header_of words.now h }
{
    header_word(words, h) - 1
}

// The arrow of an open variable's set.
fn variable(stack: &[u32], places: Places, p: u32) -> u32
    requires { (p < 16) × (get_or places p 0 < length stack.now) }
    ensures { result ≡ get_or stack.now (get_or places p 0) 0 }
{
    let i = p as usize;
    let place = places[i] as usize;
    stack[place]
}

// Takes a step, the first `held` words of the stack being live.
pub fn live_step(
    words: &mut [u32],
    counts: &mut [u32],
    stack: &[u32],
    limits: Limits,
    held: usize,
    s: Step,
    count: Count,
) -> Result<Taken, Full>
    requires { LiveAsks limits words.old counts.old stack.now held s }
    ensures { LiveGives limits words.old words.new counts.new stack.now
        held s count result }
{
    take(
        words,
        counts,
        limits.rows,
        2 * limits.bits,
        limits.limit,
        &stack[..held],
        s,
        count,
    )
}

// The answer of two parts, of which the first has the value `a`: the second one's, where that has no value, else the step AND or OR of both
// values.
fn joined(
    words: &mut [u32],
    counts: &mut [u32],
    stack: &[u32],
    limits: Limits,
    held: usize,
    j: Join,
    a: u32,
    second: Result<Value, Stopped>,
) -> Result<Value, Stopped>
    requires { JoinedAsks limits words.old counts.old stack.now held j a second }
    ensures { JoinedGives limits words.old words.new counts.new stack.now
        held j a second result }
{
    let value = second?;
    let step = join_of(j, a, value.arrow);
    let taken = live_step(words, counts, stack, limits, held, step, value.count);
    answer(taken, value.next)
}

// A step's result, and for a formula of states AND with V, which answers and needs the same where V is every state.
// Pairs are of all states.
fn confined(
    words: &mut [u32],
    counts: &mut [u32],
    stack: &[u32],
    limits: Limits,
    grammar: Grammar,
    held: usize,
    first: Result<Taken, Full>,
) -> Result<Taken, Full>
    requires { ConfinedAsks limits words.old counts.old stack.now held first }
    ensures { ConfinedGives limits words.old words.new counts.new stack.now
        held grammar first result }
{
    let made = first?;
    if only_now(grammar) {
        let valid = root_arrow(words, Table::VALID);
        if valid == Table::EVERYTHING {
            return Ok(made);
        }
        return live_step(
            words,
            counts,
            stack,
            limits,
            held,
            Step::And(made.arrow, valid),
            made.count,
        );
    }
    Ok(made)
}

// True: V for a formula of states, all pairs for one of pairs.
fn truth(words: &[u32], grammar: Grammar) -> u32
    requires { (VALID < HEADER) × (HEADER ≤ length words.now) × (0 < header_of words.now VALID) }
    ensures { TrueIs (only_now grammar) (header_of words.now VALID) result }
{
    if only_now(grammar) {
        return root_arrow(words, Table::VALID);
    }
    Table::EVERYTHING
}

// An arrow that takes no step.
pub fn unmoved(a: u32, count: Count) -> Taken
    ensures { result ≡ record { arrow = a; count = count } }
{
    Taken {
        arrow: a,
        count: count,
    }
}

// A leaf: constants, registers and variables take no step; a bit is one, and for a formula of states AND with V another.
fn leaf(
    words: &mut [u32],
    counts: &mut [u32],
    stack: &[u32],
    limits: Limits,
    here: Context,
    grammar: Grammar,
    l: Leaf,
) -> Result<Taken, Full>
    requires { LeafAsks limits words.old counts.old stack.now here grammar l }
    ensures { LeafGives limits words.old words.new counts.new stack.now
        here grammar l result }
{
    let count = here.count;
    let held = here.held;
    match l {
        Leaf::False => Ok(unmoved(Table::NOTHING, count)),
        Leaf::True => Ok(unmoved(truth(words, grammar), count)),
        Leaf::Now(p) => {
            let bit = live_step(words, counts, stack, limits, held, Step::Bit(2 * p), count);
            confined(words, counts, stack, limits, grammar, held, bit)
        }
        Leaf::Next(p) => {
            live_step(
                words,
                counts,
                stack,
                limits,
                held,
                Step::Bit(2 * p + 1),
                count,
            )
        }
        Leaf::Var(p) => {
            let places = here.places;
            Ok(unmoved(variable(stack, places, p), count))
        }
        Leaf::Reg(r) => {
            let h = Table::FIRST_REGISTER + (r as usize);
            Ok(unmoved(root_arrow(words, h), count))
        }
    }
}

// Box or diamond of an arrow.
fn over(
    words: &mut [u32],
    counts: &mut [u32],
    limits: Limits,
    roots: &[u32],
    m: Mode,
    relation: u32,
    a: u32,
    count: Count,
) -> Result<Taken, Full>
    requires { OverAsks limits words.old counts.old roots.now relation a }
    ensures { OverGives limits words.old words.new counts.new roots.now
        m relation a count result }
{
    match m {
        Mode::All => {
            let valid = root_arrow(words, Table::VALID);
            boxed(words, counts, limits, roots, valid, relation, a, count)
        }
        Mode::Some => diamond(words, counts, limits, roots, relation, a, count),
    }
}

// Box or diamond of a value over relation t; the answer names the place `end`.
fn reach(
    words: &mut [u32],
    counts: &mut [u32],
    stack: &[u32],
    limits: Limits,
    here: Context,
    m: Mode,
    t: u32,
    x: u32,
    end: usize,
) -> Result<Value, Stopped>
    requires { ReachAsks limits words.old counts.old stack.now here t x end }
    ensures { ReachGives limits words.old words.new counts.new stack.now
        here m t x end result }
{
    let h = Table::FIRST_RELATION + (t as usize);
    let relation = root_arrow(words, h);
    let held = here.held;
    let count = here.count;
    let taken = over(words, counts, limits, &stack[..held], m, relation, x, count);
    answer(taken, end)
}

// Box of the current set x, and diamond of true, and AND.
fn every(
    words: &mut [u32],
    counts: &mut [u32],
    stack: &mut [u32],
    limits: Limits,
    here: Context,
    t: u32,
    x: u32,
    end: usize,
) -> Result<Value, Stopped>
    requires { FurtherAsks limits words.old counts.old stack.old here t x }
    ensures { FurtherGives limits words.old words.new counts.new stack.old
        stack.new here All t x end result }
{
    let first = reach(words, counts, stack, limits, here, Mode::All, t, x, end)?;
    let held = here.held;
    stack[held] = first.arrow;
    let rest = onward(here, here.at, first.count);
    let valid = root_arrow(words, Table::VALID);
    let second = reach(
        words,
        counts,
        stack,
        limits,
        rest,
        Mode::Some,
        t,
        valid,
        end,
    );
    joined(
        words,
        counts,
        stack,
        limits,
        held,
        Join::And,
        first.arrow,
        second,
    )
}

// What a round of until wants of the next states: diamond of the current set x, or box of it and diamond of true.
fn further(
    words: &mut [u32],
    counts: &mut [u32],
    stack: &mut [u32],
    limits: Limits,
    here: Context,
    m: Mode,
    t: u32,
    x: u32,
    end: usize,
) -> Result<Value, Stopped>
    requires { FurtherAsks limits words.old counts.old stack.old here t x }
    ensures { FurtherGives limits words.old words.new counts.new stack.old
        stack.new here m t x end result }
{
    match m {
        Mode::All => every(words, counts, stack, limits, here, t, x, end),
        Mode::Some => reach(words, counts, stack, limits, here, Mode::Some, t, x, end),
    }
}

// The body of until, whose parts f and g stand from the context's place on.
fn until_body(bytes: &[u8], limits: Limits, here: Context, m: Mode, t: u32) -> Body
    ensures { UntilPost limits bytes.now here m t result }
{
    let Some(first) = syntax(bytes, limits.bits, Grammar::Runs, here.at, here.depth) else {
        return Body::Until(m, t, here.at);
    };
    Body::Until(m, t, first.next)
}

// Evaluates the formula at the context's place, of depth at most its depth: one of pairs, or of states and runs.
#[cycle(bind_both_eval_keep_modal_negate_round_turn)]
fn eval(
    words: &mut [u32],
    counts: &mut [u32],
    stack: &mut [u32],
    bytes: &[u8],
    limits: Limits,
    here: Context,
    grammar: Grammar,
) -> Result<Value, Stopped>
    requires { EvalAsks limits words.old counts.old stack.old bytes.now here grammar }
    ensures { EvalGives limits words.old words.new counts.new stack.old
        stack.new bytes.now here grammar result }
{
    let Some(t) = lead_at(bytes, limits.bits, grammar, here.at) else {
        return Err(Stopped::Full);
    };
    let mut part = here;
    part.at = here.at + 1;
    part.depth = here.depth - 1;
    let body = match t {
        Token::Leaf(l) => {
            return answer(
                leaf(words, counts, stack, limits, here, grammar, l),
                part.at,
            );
        }
        Token::Not => return negate(words, counts, stack, bytes, limits, part, grammar),
        Token::Both(w) => match w {
            Two::Join(j) => return both(words, counts, stack, bytes, limits, part, grammar, j),
            Two::Until(m, t) => until_body(bytes, limits, part, m, t),
        },
        Token::Modal(m, t) => return modal(words, counts, stack, bytes, limits, part, m, t),
        Token::Binder(x, p) => Body::Binder(x, p),
    };
    bind(words, counts, stack, bytes, limits, part, body)
}

// Evaluates the formula at the context's place, and takes the step NOT, for a formula of states within V.
#[cycle(bind_both_eval_keep_modal_negate_round_turn)]
fn negate(
    words: &mut [u32],
    counts: &mut [u32],
    stack: &mut [u32],
    bytes: &[u8],
    limits: Limits,
    here: Context,
    grammar: Grammar,
) -> Result<Value, Stopped>
    requires { EvalAsks limits words.old counts.old stack.old bytes.now here grammar }
    ensures { NegateGives limits words.old words.new counts.new stack.old
        stack.new bytes.now here grammar result }
{
    let part = eval(words, counts, stack, bytes, limits, here, grammar)?;
    let held = here.held;
    let step = Step::Not(part.arrow);
    let inverse = live_step(words, counts, stack, limits, held, step, part.count);
    let taken = confined(words, counts, stack, limits, grammar, held, inverse);
    answer(taken, part.next)
}

// Evaluates the two formulas from the context's place on, the first one's value being live meanwhile, and takes the step AND or OR.
#[cycle(bind_both_eval_keep_modal_negate_round_turn)]
fn both(
    words: &mut [u32],
    counts: &mut [u32],
    stack: &mut [u32],
    bytes: &[u8],
    limits: Limits,
    here: Context,
    grammar: Grammar,
    j: Join,
) -> Result<Value, Stopped>
    requires { BothAsks limits words.old counts.old stack.old bytes.now here grammar }
    ensures { BothGives limits words.old words.new counts.new stack.old
        stack.new bytes.now here grammar j result }
{
    let first = eval(words, counts, stack, bytes, limits, here, grammar)?;
    let held = here.held;
    stack[held] = first.arrow;
    let rest = onward(here, first.next, first.count);
    let second = eval(words, counts, stack, bytes, limits, rest, grammar);
    joined(words, counts, stack, limits, held, j, first.arrow, second)
}

// Evaluates the formula at the context's place, and takes the steps of box or diamond over relation t.
#[cycle(bind_both_eval_keep_modal_negate_round_turn)]
fn modal(
    words: &mut [u32],
    counts: &mut [u32],
    stack: &mut [u32],
    bytes: &[u8],
    limits: Limits,
    here: Context,
    m: Mode,
    t: u32,
) -> Result<Value, Stopped>
    requires { ModeAsks limits words.old counts.old stack.old bytes.now here t }
    ensures { ModeGives limits words.old words.new counts.new stack.old
        stack.new bytes.now here m t result }
{
    let part = eval(words, counts, stack, bytes, limits, here, Grammar::Runs)?;
    let h = Table::FIRST_RELATION + (t as usize);
    let relation = root_arrow(words, h);
    let held = here.held;
    let taken = over(
        words,
        counts,
        limits,
        &stack[..held],
        m,
        relation,
        part.arrow,
        part.count,
    );
    answer(taken, part.next)
}

// Rounds of the body, variable p being the current set, which is live; until a round gives the same set again.
#[cycle(bind_both_eval_keep_modal_negate_round_turn)]
fn bind(
    words: &mut [u32],
    counts: &mut [u32],
    stack: &mut [u32],
    bytes: &[u8],
    limits: Limits,
    here: Context,
    body: Body,
) -> Result<Value, Stopped>
    requires { BindAsks limits words.old counts.old stack.old bytes.now here body }
    ensures { BindGives limits words.old words.new counts.new stack.old
        stack.new bytes.now here body result }
{
    let held = here.held;
    let mut current = start_of(body, root_arrow(words, Table::VALID));
    let mut counted = here.count;
    // Not a for: the rounds of inner binders count too, so that a turn may count many.
    while counted.rounds < limits.rounds {
        stack[held] = current;
        let inner = opened(here, variable_of(body), another_round(counted));
        let value = turn(words, counts, stack, bytes, limits, inner, body, current)?;
        if value.arrow == current {
            return Ok(value);
        }
        current = value.arrow;
        counted = value.count;
    }
    Err(Stopped::Spent)
}

// Evaluates the body once, x being the current set.
#[cycle(bind_both_eval_keep_modal_negate_round_turn)]
fn turn(
    words: &mut [u32],
    counts: &mut [u32],
    stack: &mut [u32],
    bytes: &[u8],
    limits: Limits,
    here: Context,
    body: Body,
    x: u32,
) -> Result<Value, Stopped>
    requires { TurnAsks limits words.old counts.old stack.old bytes.now here body x }
    ensures { TurnGives limits words.old words.new counts.new stack.old
        stack.new bytes.now here body x result }
{
    match body {
        Body::Binder(_, _) => { eval(words, counts, stack, bytes, limits, here, Grammar::Runs) }
        Body::Until(m, t, middle) => round(
            words, counts, stack, bytes, limits, here, middle, m, t, x,
        ),
    }
}

// In a round of until: evaluates f at the context's place and, its value being live meanwhile, what is wanted of the next states, and takes
// the step AND.
#[cycle(bind_both_eval_keep_modal_negate_round_turn)]
fn keep(
    words: &mut [u32],
    counts: &mut [u32],
    stack: &mut [u32],
    bytes: &[u8],
    limits: Limits,
    here: Context,
    m: Mode,
    t: u32,
    x: u32,
    end: usize,
) -> Result<Value, Stopped>
    requires { KeepAsks limits words.old counts.old stack.old bytes.now here t x }
    ensures { KeepGives limits words.old words.new counts.new stack.old
        stack.new bytes.now here m t x end result }
{
    let first = eval(words, counts, stack, bytes, limits, here, Grammar::Runs)?;
    let held = here.held;
    stack[held] = first.arrow;
    let rest = onward(here, here.at, first.count);
    let second = further(words, counts, stack, limits, rest, m, t, x, end);
    joined(
        words,
        counts,
        stack,
        limits,
        held,
        Join::And,
        first.arrow,
        second,
    )
}

// A round of until with the current set x: evaluates g at `middle` and, its value being live meanwhile, f and what is wanted of the next
// states, and takes the step OR.
#[cycle(bind_both_eval_keep_modal_negate_round_turn)]
fn round(
    words: &mut [u32],
    counts: &mut [u32],
    stack: &mut [u32],
    bytes: &[u8],
    limits: Limits,
    here: Context,
    middle: usize,
    m: Mode,
    t: u32,
    x: u32,
) -> Result<Value, Stopped>
    requires { RoundAsks limits words.old counts.old stack.old bytes.now here middle t x }
    ensures { RoundGives limits words.old words.new counts.new stack.old
        stack.new bytes.now here middle m t x result }
{
    let mut goal = here;
    goal.at = middle;
    let first = eval(words, counts, stack, bytes, limits, goal, Grammar::Runs)?;
    let held = here.held;
    stack[held] = first.arrow;
    let rest = onward(here, here.at, first.count);
    let second = keep(
        words, counts, stack, bytes, limits, rest, m, t, x, first.next,
    );
    joined(
        words,
        counts,
        stack,
        limits,
        held,
        Join::Or,
        first.arrow,
        second,
    )
}

// The pairs of an arrow within V: AND with V, SHIFT of V, AND with that.
fn within(
    words: &mut [u32],
    counts: &mut [u32],
    stack: &mut [u32],
    limits: Limits,
    a: u32,
    count: Count,
) -> Result<Taken, Full>
    requires { WithinAsks limits words.old counts.old stack.old a }
    ensures { WithinGives limits words.old words.new counts.new stack.old
        a count result }
{
    let valid = root_arrow(words, Table::VALID);
    let first = live_step(words, counts, stack, limits, 0, Step::And(a, valid), count)?;
    stack[0] = first.arrow;
    let second = live_step(
        words,
        counts,
        stack,
        limits,
        1,
        Step::Shift(valid),
        first.count,
    )?;
    let step = Step::And(first.arrow, second.arrow);
    live_step(words, counts, stack, limits, 0, step, second.count)
}

// The context at a formula's start.
fn starting() -> Context
    ensures { result ≡ start }
{
    let places = [0u8; Grammar::VARIABLES];
    Context {
        at: Frame::START,
        depth: Table::DEPTH,
        held: 0,
        places: places,
        count: Count { rounds: 0, peak: 0 },
    }
}

// The context of the body of a formula that is a binder, after so much is counted: the binder's current set is the one live word, and one
// round more is counted.
fn body_start(counted: Count) -> Context
    requires { counted.rounds < 4_294_967_295 }
    ensures { result ≡ body_start counted }
{
    Context {
        at: Frame::START + 1,
        depth: Table::DEPTH - 1,
        held: 1,
        count: another_round(counted),
        ..starting()
    }
}

// Makes one round of the formula in `bytes`, which is a binder: evaluates its body, x being the current set, after so much is counted.
pub fn evaluate_round(
    words: &mut [u32],
    counts: &mut [u32],
    stack: &mut [u32],
    bytes: &[u8],
    limits: Limits,
    x: u32,
    counted: Count,
) -> Result<Value, Stopped>
    requires { OnceAsks limits words.old counts.old stack.old bytes.now x counted }
    ensures { OnceGives limits words.old words.new counts.new stack.old
        stack.new bytes.now x counted result }
{
    stack[0] = x;
    let here = body_start(counted);
    eval(words, counts, stack, bytes, limits, here, Grammar::Runs)
}

// Evaluates the set's formula in `bytes`, which has passed the checks, with nothing remembered before.
pub fn evaluate_set(words: &mut [u32], limits: Limits, bytes: &[u8]) -> Result<Value, Stopped>
    requires { SetAsks limits words.old bytes.now }
    ensures { SetGives limits words.old words.new bytes.now result }
{
    forget(words, limits.rows);
    let mut counts = [0u32; Counts::WORDS];
    begin(words, limits.rows, &mut counts);
    let mut stack = [0u32; Stack::WORDS];
    let start = starting();
    eval(
        words,
        &mut counts,
        &mut stack,
        bytes,
        limits,
        start,
        Grammar::Runs,
    )
}

// Evaluates the formula of a relation or of valid in `bytes`, which has passed the checks, over all states, with nothing remembered before.
pub fn evaluate_pairs(words: &mut [u32], limits: Limits, bytes: &[u8]) -> Result<Taken, Full>
    requires { PairsAsks limits words.old bytes.now }
    ensures { PairsGives limits words.old words.new bytes.now result }
{
    forget(words, limits.rows);
    let mut counts = [0u32; Counts::WORDS];
    begin(words, limits.rows, &mut counts);
    let mut stack = [0u32; Stack::WORDS];
    let start = starting();
    let Ok(value) = eval(
        words,
        &mut counts,
        &mut stack,
        bytes,
        limits,
        start,
        Grammar::Pairs,
    ) else {
        return Err(Full);
    };
    Ok(unmoved(value.arrow, value.count))
}

// Evaluates a relation's formula in `bytes`, which has passed the checks, within V, with nothing remembered before.
pub fn evaluate_relation(words: &mut [u32], limits: Limits, bytes: &[u8]) -> Result<Taken, Full>
    requires { PairsAsks limits words.old bytes.now }
    ensures { RelationGives limits words.old words.new bytes.now result }
{
    forget(words, limits.rows);
    let mut counts = [0u32; Counts::WORDS];
    begin(words, limits.rows, &mut counts);
    let mut stack = [0u32; Stack::WORDS];
    let start = starting();
    let Ok(value) = eval(
        words,
        &mut counts,
        &mut stack,
        bytes,
        limits,
        start,
        Grammar::Pairs,
    ) else {
        return Err(Full);
    };
    within(
        words,
        &mut counts,
        &mut stack,
        limits,
        value.arrow,
        value.count,
    )
}
