// A model text turned into a table. Every text is taken: the table, which accepts the binary form of exactly the documents that the models
// derive, stands at the fronts of the lent slices, or a refusal leaves them as they were: 1, 13, 15, 14, 16, decided before anything is
// written. specs/Compile has what a text tells.
#![tactic(auto)]

ghost use Rattle.std.specs.Prelude.{◌≡◌, ◌++◌, ◌*◌, ◌≤◌, ◌<◌, length, drop};
ghost use Rattle.paper.specs.Limits.{limits};
ghost use Rattle.put.specs.Put.{Put, Fit};
ghost use Rattle.compiled.specs.Rules.{numbers};
ghost use Rattle.model_table.specs.Compile.{Compiles};
ghost use Rattle.model_fill.specs.Kept.{Long};
ghost use Rattle.model_table.specs.Work.{NextLong, starts_at, the_mark_at, marks_for, the_numbers_by, Roomy};
ghost use Rattle.model_table.specs.Work.{leaf_with, the_leaves_by, the_eps_by, join_with, joins_from, the_joins_by, count_from, the_count_by};

use paper::{Fault, Refusal, RuleRow};
use table::Sizes;

// The marks of an element, of the start and of the other states: 2 × sort + final.
const ELEMENT_MARK: u16 = 4;

const START_MARK: u16 = 5;

const INSIDE_MARK: u16 = 2;

// So many states, by their numbers: what each place bears, whom each state belongs to, where a word may end and what can come next.
#[derive(Clone, Copy)]
struct States<'a> {
    pub count: usize,
    pub bears: &'a [u16],
    pub owners: &'a [u16],
    pub ends: &'a [u16],
    pub next: &'a [u16],
}

// How many places can come next after the state q.
fn count_next(s: States, q: usize) -> usize
    requires { (q < limits.states) × (s.count ≤ limits.states) × (length s.next.now ≡ limits.states * limits.states) }
    ensures { result ≡ count_from limits.states s.entry.count s.entry.next.now q }
{
    let row = q * paper::STATES;
    let mut n = 0;
    for y in 0..s.count {
        if s.next[row + y] != 0 {
            n += 1;
        }
    }
    n
}

// Is the state q the initial one of a symbol?
fn is_initial(s: States, q: usize) -> bool
    requires { (q < length s.bears.now) × (q < length s.owners.now) }
    ensures { result ≡ starts_at s.entry.bears.now s.entry.owners.now q }
{
    if s.owners[q] == model_fill::NO_SYMBOL {
        return false;
    }
    s.bears[q] == model_fill::NO_SYMBOL
}

// How many rules the states take: a leaf rule for each initial state, an ε rule where a word may end, a join rule for each next place.
fn count_rules(s: States) -> usize
    requires { (s.count ≤ limits.states) × Long limits.states s.bears.now s.owners.now s.ends.now s.next.now }
    ensures { result ≡ the_count_by limits.states s.entry.count s.entry.bears.now s.entry.owners.now s.entry.ends.now
        s.entry.next.now }
{
    let mut n = 0;
    for q in 0..s.count {
        n += count_next(s, q);
        if s.ends[q] != 0 {
            n += 1;
        }
        if is_initial(s, q) {
            n += 1;
        }
    }
    n
}

// The mark of the state q.
fn mark_of(q: usize, symbols: u16, start: u16) -> u16
    ensures { result ≡ the_mark_at symbols start q }
{
    if symbols as usize <= q {
        return INSIDE_MARK;
    }
    if q == start as usize {
        return START_MARK;
    }
    ELEMENT_MARK
}

// Writes the marks of the states.
fn write_marks(marks: &mut [u16], symbols: u16, start: u16, states: usize)
    requires { states ≤ length marks.old }
    ensures { marks.new ≡ marks_for symbols start states ++ drop states marks.old }
{
    for q in 0..states {
        marks[q] = mark_of(q, symbols, start);
    }
}

// Writes the leaf rule of the symbol a, if it has one, from `at` on, and answers where it ends.
fn write_leaf(rules: &mut [u16], at: usize, a: u16, s: States) -> usize
    requires { (s.count ≤ limits.states) × (s.count ≤ length s.bears.now) × (s.count ≤ length s.owners.now) }
    ensures { Fit rules.old at (numbers (leaf_with s.entry.count s.entry.bears.now s.entry.owners.now a)) result
        rules.new }
{
    let mut e = at;
    for q in 0..s.count {
        if s.owners[q] == a {
            if s.bears[q] == model_fill::NO_SYMBOL {
                e = rows::put_rule(rules, e, RuleRow::leaf(a, q as u16));
            }
        }
    }
    e
}

// Writes the leaf rules, rising by symbol, and answers where they end.
fn write_leaves(rules: &mut [u16], symbols: u16, s: States) -> usize
    requires { (s.count ≤ limits.states) × (s.count ≤ length s.bears.now) × (s.count ≤ length s.owners.now) }
    ensures { Fit rules.old 0 (numbers (the_leaves_by symbols s.entry.count s.entry.bears.now s.entry.owners.now)) result
        rules.new }
{
    let mut e = 0;
    for a in 0..symbols {
        e = write_leaf(rules, e, a, s);
    }
    e
}

// Writes the ε rules to the front of the rest of the rules that it is lent, rising, and answers where they end.
fn write_eps(rules: &mut [u16], s: States) -> usize
    requires { (s.count ≤ limits.states) × (s.count ≤ length s.ends.now) × (s.count ≤ length s.owners.now) }
    ensures { Fit rules.old 0 (numbers (the_eps_by s.entry.count s.entry.ends.now s.entry.owners.now)) result
        rules.new }
{
    let mut e = 0;
    for q in 0..s.count {
        if s.ends[q] != 0 {
            e = rows::put_rule(rules, e, RuleRow::epsilon(q as u16, s.owners[q]));
        }
    }
    e
}

// Writes the join rules of the left state q and the element a from `at` on, and answers where they end.
fn write_join(rules: &mut [u16], at: usize, q: usize, a: u16, s: States) -> usize
    requires { (q < limits.states) × NextLong limits.states s.count s.bears.now s.next.now }
    ensures { Fit rules.old at
        (numbers (join_with limits.states s.entry.count s.entry.bears.now s.entry.next.now q a)) result rules.new }
{
    let row = q * paper::STATES;
    let mut e = at;
    for y in 0..s.count {
        if s.next[row + y] != 0 {
            if s.bears[y] == a {
                e = rows::put_rule(rules, e, RuleRow::join(q as u16, a, y as u16));
            }
        }
    }
    e
}

// Writes the join rules of the left state q from `at` on, rising by element, and answers where they end.
fn write_row(rules: &mut [u16], at: usize, q: usize, symbols: u16, s: States) -> usize
    requires { (q < limits.states) × NextLong limits.states s.count s.bears.now s.next.now }
    ensures { Fit rules.old at
        (numbers (joins_from limits.states symbols s.entry.count s.entry.bears.now s.entry.next.now q)) result rules.new }
{
    let mut e = at;
    for a in 0..symbols {
        e = write_join(rules, e, q, a, s);
    }
    e
}

// Writes the join rules to the front of the rest of the rules that it is lent, rising by left state, and answers where they end.
fn write_joins(rules: &mut [u16], symbols: u16, s: States) -> usize
    requires { NextLong limits.states s.count s.bears.now s.next.now }
    ensures { Fit rules.old 0
        (numbers (the_joins_by limits.states symbols s.entry.count s.entry.bears.now s.entry.next.now)) result rules.new }
{
    let mut e = 0;
    for q in 0..s.count {
        e = write_row(rules, e, q, symbols, s);
    }
    e
}

// Writes all rules, one kind directly behind the other, and answers where they end.
fn write_rules(rules: &mut [u16], symbols: u16, s: States) -> usize
    requires { (s.count ≤ limits.states) × Long limits.states s.bears.now s.owners.now s.ends.now s.next.now
        × Roomy limits.states symbols s.count s.bears.now s.owners.now s.ends.now s.next.now rules.old }
    ensures { Put rules.old 0 (the_numbers_by limits.states symbols s.entry.count s.entry.bears.now
        s.entry.owners.now s.entry.ends.now s.entry.next.now) result rules.new }
{
    let a = write_leaves(rules, symbols, s);
    let b = a + write_eps(&mut rules[a..], s);
    b + write_joins(&mut rules[b..], symbols, s)
}

// Turns a model text into a table of the sizes that it answers: the marks and the rules stand at the fronts of the lent slices, which a
// refusal leaves as they were.
pub fn compile(text: &[u8], marks: &mut [u16], rules: &mut [u16]) -> Result<Sizes, Refusal>
    ensures { Compiles limits text.now marks.old rules.old result
        marks.new rules.new }
{
    if marks.len() < paper::STATES {
        return Err(Refusal::at(Fault::Room, 0));
    }
    if rules.len() < paper::RULE_NUMBERS {
        return Err(Refusal::at(Fault::Room, 0));
    }
    let mut bears = [0u16; paper::STATES];
    let mut owners = [0u16; paper::STATES];
    let mut ends = [0u16; paper::STATES];
    let mut next = [0u16; model_fill::NEXT];
    let survey = model_fill::fill_states(text, &mut bears, &mut owners, &mut ends, &mut next)?;
    let known = States {
        count: survey.states,
        bears: &bears,
        owners: &owners,
        ends: &ends,
        next: &next,
    };
    let count = count_rules(known);
    if paper::RULES < count {
        return Err(Refusal::at(Fault::ModelRules, 0));
    }
    write_marks(marks, survey.symbols, survey.start, survey.states);
    write_rules(rules, survey.symbols, known);
    Ok(Sizes {
        symbols: survey.symbols,
        states: survey.states,
        rules: count,
    })
}
