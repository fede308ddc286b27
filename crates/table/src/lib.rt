// A rule table given as slices, and its check: refusals 4, 2, 5 and 6.
// specs/Rules has rules, evaluation and acceptance, specs/Check what is wrong with a table, specs/Links the lists that its check keeps.
#![tactic(auto)]

ghost use Rattle.std.specs.Prelude.{◌≡◌, ◌+◌, ◌*◌, ◌/◌, ◌<◌, ◌≤◌, length};
ghost use Rattle.paper.specs.Limits.{limits, at};
ghost use Rattle.paper.specs.Told.{Tells, passes, check_told};
ghost use Rattle.paper.specs.Faults.{number_if};
ghost use Rattle.paper.specs.First.{first, FindsWrong};
ghost use Rattle.table.specs.Rules.{Row, RowAt};
ghost use Rattle.table.specs.Check.{TooLarge, BadSort, BadMark, Misshapen, OutOfRange, HasRow};
ghost use Rattle.table.specs.Check.{rule_fault_of, table_checked};
ghost use Rattle.table.specs.Links.{lists, the_list_of, Linked};

use paper::{Checked, EPSILON_RULE, Fault, JOIN_RULE, LEAF_RULE, Refusal, RuleRow};

// The sorts of a state and the values of final go up to these.
const MOST_SORT: u16 = 3;

const MOST_FINAL: u16 = 1;

// So many lists of rules the check keeps: the fronts stand first in the links, then a link for each rule.
const LISTS: usize = 64;

// Kept: lists in one array of numbers, as nothing is allocated; 0 ends a list, as a number of a rule counts from 1.
const LINKS: usize = LISTS + paper::RULES;

// How many symbols, states and rules a table has.
#[derive(Clone, Copy, PartialEq, Eq)]
pub struct Sizes {
    pub symbols: u16,
    pub states: usize,
    pub rules: usize,
}

// Are the symbols outside their limits, or the states or rules too many?
pub fn too_large(symbols: u16, states: usize, rules: usize) -> bool
    ensures { Tells result (TooLarge limits symbols states rules) }
{
    if symbols == 0 {
        return true;
    }
    if paper::SYMBOLS < symbols {
        return true;
    }
    if paper::STATES < states {
        return true;
    }
    paper::RULES < rules
}

// Is a sort none of the three, or a final mark neither 0 nor 1?
pub fn bad_sort(sort: u16, accepting: u16) -> bool
    ensures { Tells result (BadSort sort accepting) }
{
    if sort == 0 {
        return true;
    }
    if MOST_SORT < sort {
        return true;
    }
    MOST_FINAL < accepting
}

// The first state whose mark is out of range, if there is one.
fn first_bad_mark(marks: &[u16]) -> Option<usize>
    ensures { FindsWrong (λ i. BadMark (at marks.now i)) (length marks.now) result }
{
    for i in 0..marks.len() {
        if bad_sort(marks[i] / 2, marks[i] % 2) {
            return Some(i);
        }
    }
    None
}

// Is the kind none of the three, or a number that must be 0 another one?
fn misshapen(kind: u16, right: u16) -> bool
    ensures { Tells result (Misshapen kind right) }
{
    if EPSILON_RULE < kind {
        return true;
    }
    if kind != JOIN_RULE {
        return right != 0;
    }
    false
}

// Does a rule name a symbol or a state that is not there?
pub fn out_of_range(symbols: u16, states: usize, rule: RuleRow) -> bool
    ensures { Tells result (OutOfRange symbols states rule.kind rule.left rule.right rule.to) }
{
    let RuleRow {
        kind,
        left,
        right,
        to,
    } = rule;
    if states <= to as usize {
        return true;
    }
    if kind == LEAF_RULE {
        return symbols <= left;
    }
    if states <= left as usize {
        return true;
    }
    if kind == JOIN_RULE {
        return states <= right as usize;
    }
    false
}

// The numbers of rule i, if it stands whole in the rules.
pub fn row_at(rules: &[u16], i: usize) -> Option<RuleRow>
    ensures { RowAt limits.width rules.now i result }
{
    if rules.len() / paper::WIDTH <= i {
        return None;
    }
    let row = i * paper::WIDTH;
    Some(RuleRow {
        kind: rules[row],
        left: rules[row + 1],
        right: rules[row + 2],
        to: rules[row + 3],
    })
}

// Has row i these numbers? A row that is not whole inside the slice has none.
fn is_row(rules: &[u16], i: usize, rule: RuleRow) -> bool
    ensures { Tells result (Row limits.width rules.now i rule.kind rule.left rule.right rule.to) }
{
    row_at(rules, i) == Some(rule)
}

// Has one of the first n rows these numbers?
pub fn has_row(rules: &[u16], n: usize, rule: RuleRow) -> bool
    ensures { Tells result (HasRow limits.width rules.now n rule.kind rule.left rule.right rule.to) }
{
    for i in 0..n.min(rules.len() / paper::WIDTH) {
        if is_row(rules, i, rule) {
            return true;
        }
    }
    false
}

// The list of the rules with this left number.
fn list_of(left: u16) -> usize
    ensures { result ≡ the_list_of lists left }
{
    left as usize % LISTS
}

// Has one of the first n rules, which are linked, these numbers? Only the list of the left number is walked.
fn is_repeat(rules: &[u16], links: &[u16], n: usize, rule: RuleRow) -> bool
    requires { (n * limits.width ≤ length rules.now) × Linked lists limits rules.now links.now n }
    ensures { Tells result (HasRow limits.width rules.now n rule.kind rule.left rule.right rule.to) }
{
    let mut next = links[list_of(rule.left)];
    // Kept: a while, since the next rule is the one that the list names.
    while next != 0 {
        let j = next as usize - 1;
        if is_row(rules, j, rule) {
            return true;
        }
        next = links[LISTS + j];
    }
    false
}

// Puts rule i at the front of its list.
fn link(rules: &[u16], links: &mut [u16], i: usize)
    requires width_in_bounds { i * limits.width + limits.width ≤ length rules.now }
    requires linked { Linked lists limits rules.now links.old i }
    ensures { Linked lists limits rules.now links.new (i + 1) }
{
    let list = list_of(rules[i * paper::WIDTH + 1]);
    links[LISTS + i] = links[list];
    links[list] = (i + 1) as u16;
}

// The first of the faults of rule i, if it has one. The rules before it are linked.
fn rule_fault(symbols: u16, states: usize, rules: &[u16], links: &[u16], i: usize) -> Option<Fault>
    requires width_in_bounds { i * limits.width + limits.width ≤ length rules.now }
    requires linked { Linked lists limits rules.now links.now i }
    ensures { number_if result ≡ rule_fault_of limits symbols states rules.now i }
{
    let rule = row_at(rules, i)?;
    if misshapen(rule.kind, rule.right) {
        return Some(Fault::Shape);
    }
    if out_of_range(symbols, states, rule) {
        return Some(Fault::Range);
    }
    if is_repeat(rules, links, i, rule) {
        return Some(Fault::Repeat);
    }
    None
}

// Checks the rules in order, over so many symbols and states.
fn check_rules(symbols: u16, states: usize, rules: &[u16]) -> Checked
    requires { length rules.now / limits.width ≤ limits.rules }
    ensures { check_told result ≡ first (rule_fault_of limits symbols states rules.now)
        (length rules.now / limits.width) passes }
{
    let mut links = [0u16; LINKS];
    for i in 0..rules.len() / paper::WIDTH {
        if let Some(fault) = rule_fault(symbols, states, rules, &links, i) {
            return Err(Refusal::at(fault, i + 1));
        }
        link(rules, &mut links, i);
    }
    Ok(())
}

// Checks a table: its size, its slice's length, its marks in order, its rules in order.
pub fn check(symbols: u16, marks: &[u16], rules: &[u16]) -> Checked
    ensures { check_told result ≡ table_checked limits symbols marks.now rules.now }
{
    if too_large(symbols, marks.len(), rules.len() / paper::WIDTH) {
        return Err(Refusal::at(Fault::Size, 0));
    }
    if rules.len() % paper::WIDTH != 0 {
        return Err(Refusal::at(Fault::Shape, 0));
    }
    if let Some(state) = first_bad_mark(marks) {
        return Err(Refusal::at(Fault::Range, state + 1));
    }
    check_rules(symbols, marks.len(), rules)
}
