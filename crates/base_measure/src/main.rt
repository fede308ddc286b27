// The inputs whose cost docs/MEASURES.md tells: the fullest rule text, the largest tree under a star over a choice of 23 symbols, and
// the tree and table at which acceptance is slowest. Each is one function, so that its instructions can be counted.
#![tactic(auto)]

ghost use Rattle.std.specs.Prelude.{◌≡◌, length};

use paper::{Refusal, RuleRow};
use put::Out;
use std::io;

// Prints a text.
fn say(rt: &impl Print, text: &[u8]) -> io::Result<()> {
    rt.write_all(text)
}

// Puts rule i, where the slice has room for it.
fn put_rule(rules: &mut [u16], i: usize, rule: RuleRow)
    ensures { length rules.new ≡ length rules.old }
{
    let count = rules.len() / paper::WIDTH;
    if i < count {
        rows::put_rule(rules, i * paper::WIDTH, rule);
    }
}

// The ε rules of the star: its initial state 23 and its places 24 to 46 end words of element 0.
fn star_ends(rules: &mut [u16]) {
    for q in 23..47 {
        put_rule(rules, q - 22, RuleRow::epsilon(q as u16, 0));
    }
}

// The join rules of the star: from each of those states with element a to the place of a.
fn star_joins(rules: &mut [u16]) {
    for j in 0..552 {
        let rule = RuleRow::join((23 + j / 23) as u16, (j % 23) as u16, (24 + j % 23) as u16);
        put_rule(rules, 25 + j, rule);
    }
}

// A chain of joins, each of the node before and node 0, which is a leaf.
fn chain(nodes: &mut [u16]) {
    for i in 1..paper::NODES {
        if nodes.len() <= 2 * i + 1 {
            return;
        }
        nodes[2 * i] = (i - 1) as u16;
        nodes[2 * i + 1] = 0;
    }
}

// Prints what is answered.
fn tell(rt: &impl Print, a: Result<bool, Refusal>) -> io::Result<()> {
    match a {
        Ok(true) => say(rt, b"accepted\n"),
        Ok(false) => say(rt, b"rejected\n"),
        Err(_) => say(rt, b"refused\n"),
    }
}

// The largest tree under the star: 47 states, 577 rules, 3,660 nodes.
fn star(rt: &impl Print) -> io::Result<()> {
    let mut marks = [2u16; 47];
    let mut rules = [0u16; 2308];
    let mut nodes = [0u16; 2 * paper::NODES];
    marks[1..23].fill(4);
    marks[0] = 5;
    put_rule(&mut rules, 0, RuleRow::leaf(0, 23));
    star_ends(&mut rules);
    star_joins(&mut rules);
    chain(&mut nodes);
    nodes[1] = paper::LEAF;
    tell(rt, accept::accept(23, &marks, &rules, &nodes))
}

// The ε rules of the slowest table: its states in a chain, the last rule first, so that each pass adds one state.
fn slow_steps(rules: &mut [u16]) {
    for i in 0..59 {
        put_rule(rules, i, RuleRow::epsilon((58 - i) as u16, (59 - i) as u16));
    }
}

// The join rules of the slowest table, which fit nothing.
fn slow_joins(rules: &mut [u16]) {
    for j in 0..540 {
        let rule = RuleRow::join((1 + j / 59) as u16, (1 + j % 59) as u16, 59);
        put_rule(rules, 60 + j, rule);
    }
}

// The slowest table and tree: 60 states, 600 rules, 3,660 leaves.
fn slowest(rt: &impl Print) -> io::Result<()> {
    let mut marks = [6u16; paper::STATES];
    let mut rules = [0u16; paper::RULE_NUMBERS];
    let mut nodes = [paper::LEAF; 2 * paper::NODES];
    marks[59] = 7;
    slow_steps(&mut rules);
    put_rule(&mut rules, 59, RuleRow::leaf(0, 0));
    slow_joins(&mut rules);
    for i in 0..paper::NODES {
        nodes[2 * i] = 0;
    }
    tell(rt, accept::accept(1, &marks, &rules, &nodes))
}

// Writes the state lines of the fullest text.
fn write_states(out: &mut Out) {
    for q in 0..paper::STATES {
        out.write_letters(b'S', 3, q as u16, 3, 1);
    }
}

// Writes the rule lines of the fullest text, of three numbers with two digits each.
fn write_rules(out: &mut Out) {
    for i in 0..paper::RULES {
        let left = (10 + i / 50) as u16;
        let right = (10 + i % 50) as u16;
        out.write_letters(b'P', 3, left, right, 10);
    }
}

// The fullest text: 40 symbols, 60 states, 600 rules.
fn write_text(out: &mut [u8]) -> usize {
    let mut out = Out { bytes: out, at: 0 };
    out.write_letters(b'T', 2, paper::SYMBOLS, paper::STATES as u16, 0);
    write_states(&mut out);
    write_rules(&mut out);
    out.at
}

// The fullest text, written and read.
fn fullest(rt: &impl Print) -> io::Result<()> {
    let mut text = [0u8; paper::TEXT];
    let mut marks = [0u16; paper::STATES];
    let mut rules = [0u16; paper::RULE_NUMBERS];
    let n = write_text(&mut text);
    if paper::TEXT < n {
        return Ok(());
    }
    match rule_read::read_text(&text[..n], &mut marks, &mut rules) {
        Ok(_) => say(rt, b"read\n"),
        Err(_) => say(rt, b"refused\n"),
    }
}

// Prints an answer for each input.
fn main(rt: HostRuntime) -> io::Result<()> {
    fullest(&rt)?;
    star(&rt)?;
    slowest(&rt)
}
