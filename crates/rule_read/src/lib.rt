// Rule texts read into a table. The reader takes every text: it tells the table, which then stands at the fronts of the lent slices, or
// the refusal with its line, which leaves the slices as they were.
// specs/Text has what a text tells, specs/Work what the reader keeps while it reads.
#![tactic(auto)]

ghost use Rattle.std.specs.Prelude.{◌≡◌, ◌*◌, ◌≤◌, length, take};
ghost use Rattle.paper.specs.Limits.{limits};
ghost use Rattle.paper.specs.Faults.{number_if};
ghost use Rattle.rule_read.specs.Text.{state_line_fault, rule_line_fault, line_fault_of, Reads};
ghost use Rattle.rule_read.specs.Work.{Room, Fits, Stored, Headed, Answers};

use paper::{Fault, Refusal, RuleRow};
use rule_line::Line;
use table::Sizes;

// What the head of a text says.
#[derive(Clone, Copy)]
struct Head {
    pub symbols: u16,
    pub states: u16,
}

// How many marks and rules are read.
#[derive(Clone, Copy)]
struct Counts {
    pub marks: usize,
    pub rules: usize,
}

// The first of the faults of an S line behind m of n S lines, if it has one.
fn state_fault(n: u16, m: usize, state: u16, sort: u16, accepting: u16) -> Option<Fault>
    ensures { number_if result ≡ state_line_fault n m state sort accepting }
{
    if n as usize <= m {
        return Some(Fault::Order);
    }
    if state as usize != m {
        return Some(Fault::Order);
    }
    if table::bad_sort(sort, accepting) {
        return Some(Fault::Range);
    }
    None
}

// The first of the faults of a rule line, if it has one; the rules so far stand at the front of `rules`.
fn rule_fault(head: Head, done: Counts, rules: &[u16], rule: RuleRow) -> Option<Fault>
    requires { done.rules * limits.width ≤ length rules.now }
    ensures { number_if result ≡ rule_line_fault limits head.symbols head.states done.marks
        (take (done.rules * limits.width) rules.now) rule.kind rule.left rule.right rule.to }
{
    let states = head.states as usize;
    if done.marks < states {
        return Some(Fault::Order);
    }
    if paper::RULES <= done.rules {
        return Some(Fault::Size);
    }
    if table::out_of_range(head.symbols, states, rule) {
        return Some(Fault::Range);
    }
    if table::has_row(rules, done.rules, rule) {
        return Some(Fault::Repeat);
    }
    None
}

// The first of the faults of a line behind the head, if it has one.
#[tactic(auto, unfolding(crate::specs::Text::line_fault_of))]
fn line_fault(head: Head, done: Counts, rules: &[u16], l: Line) -> Option<Fault>
    requires { done.rules * limits.width ≤ length rules.now }
    ensures { number_if result ≡ line_fault_of limits head.symbols head.states done.marks
        (take (done.rules * limits.width) rules.now) l }
{
    match l {
        Line::Head(_, _) => Some(Fault::Order),
        Line::State(q, s, f) => state_fault(head.states, done.marks, q, s, f),
        Line::Rule(rule) => rule_fault(head, done, rules, rule),
        Line::Faulty(_) => Some(Fault::Shape),
    }
}

// Stores what a line adds behind the marks and the rules so far, and answers how many there are then.
fn store(marks: &mut [u16], rules: &mut [u16], done: Counts, l: Line) -> Counts
    requires { Fits limits.width marks.old rules.old done.marks done.rules l }
    ensures { Stored limits.width marks.old rules.old done.marks done.rules l
        result.marks result.rules marks.new rules.new }
{
    match l {
        Line::Head(_, _) => done,
        Line::State(_, s, f) => {
            marks[done.marks] = 2 * s + f;
            Counts {
                marks: done.marks + 1,
                rules: done.rules,
            }
        }
        Line::Rule(rule) => {
            rows::put_rule(rules, done.rules * paper::WIDTH, rule);
            Counts {
                marks: done.marks,
                rules: done.rules + 1,
            }
        }
        Line::Faulty(_) => done,
    }
}

// Reads the lines behind the head, from `from` on, into work slices.
fn read_rest(
    text: &[u8],
    from: usize,
    head: Head,
    marks: &mut [u16],
    rules: &mut [u16],
) -> Result<Sizes, Refusal>
    requires { Headed limits text.now head.symbols head.states from × Room limits marks.old rules.old }
    ensures { Answers limits text.now result marks.new rules.new }
{
    let mut at = from;
    let mut k = 1;
    let mut done = Counts { marks: 0, rules: 0 };
    // Kept: the new form is no plainer: `at` goes up by a line's length, so no range counts it.
    while at < text.len() {
        let end = lines::line_end(text, at);
        let l = rule_line::read_line(&text[at..end]);
        if let Some(fault) = line_fault(head, done, rules, l) {
            return Err(Refusal::at(fault, k + 1));
        }
        done = store(marks, rules, done, l);
        k += 1;
        at = end;
    }
    if done.marks < head.states as usize {
        return Err(Refusal::at(Fault::Order, k + 1));
    }
    Ok(Sizes {
        symbols: head.symbols,
        states: done.marks,
        rules: done.rules,
    })
}

// Reads a text into work slices.
fn read_work(text: &[u8], marks: &mut [u16], rules: &mut [u16]) -> Result<Sizes, Refusal>
    requires { Room limits marks.old rules.old }
    ensures { Answers limits text.now result marks.new rules.new }
{
    if text.is_empty() {
        return Err(Refusal::at(Fault::Order, 1));
    }
    let end = lines::line_end(text, 0);
    let l = rule_line::read_line(&text[0..end]);
    match l {
        Line::Head(symbols, states) => {
            if table::too_large(symbols, states as usize, 0) {
                return Err(Refusal::at(Fault::Size, 1));
            }
            read_rest(text, end, Head { symbols, states }, marks, rules)
        }
        Line::State(_, _, _) => Err(Refusal::at(Fault::Order, 1)),
        Line::Rule(_) => Err(Refusal::at(Fault::Order, 1)),
        Line::Faulty(_) => Err(Refusal::at(Fault::Shape, 1)),
    }
}

// Reads a rule text: the marks and the rules stand at the fronts of the lent slices, which a refusal leaves as they were.
pub fn read_text(text: &[u8], marks: &mut [u16], rules: &mut [u16]) -> Result<Sizes, Refusal>
    ensures { Reads limits text.now marks.old rules.old result
        marks.new rules.new }
{
    if marks.len() < paper::STATES {
        return Err(Refusal::at(Fault::Room, 0));
    }
    if rules.len() < paper::RULE_NUMBERS {
        return Err(Refusal::at(Fault::Room, 0));
    }
    let mut ms = [0u16; paper::STATES];
    let mut xs = [0u16; paper::RULE_NUMBERS];
    let found = read_work(text, &mut ms, &mut xs)?;
    let numbers = found.rules * paper::WIDTH;
    marks[..found.states].copy_from_slice(&ms[..found.states]);
    rules[..numbers].copy_from_slice(&xs[..numbers]);
    Ok(found)
}
