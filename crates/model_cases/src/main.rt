// Cases of model texts at the edges of their limits, each a file of data/: each is turned into a table, which is checked and written as a
// rule text. The file stdout beside src/ has what each must be told, and docs/CASES.md what each case is.
#![tactic(auto)]

use std::io;
use std::rt::Files;

// So many cases there are, m01 .., and of these the slices of two are too short.
const MODELS: usize = 65;

const SHORT_MARKS: usize = 64;

const SHORT_RULES: usize = 65;

// The first rules of a slice, so many of them, as far as it goes.
fn rows<'a>(rules: &'a [u16], count: usize) -> &'a [u16] {
    if count <= rules.len() / paper::WIDTH {
        return say::part(rules, 0, count * paper::WIDTH);
    }
    rules
}

// The check and the rule text of a table.
fn show(rt: &impl Print, symbols: u16, marks: &[u16], rules: &[u16]) -> io::Result<()> {
    let mut out = [0u8; paper::TEXT];
    say::checked(rt, table::check(symbols, marks, rules))?;
    say::text(rt, b"\n")?;
    match rule_write::write_text(symbols, marks, rules, &mut out) {
        Err(f) => say::refusal(rt, f),
        Ok(n) => {
            if n <= out.len() {
                say::text(rt, &out[..n])?;
            }
            Ok(())
        }
    }
}

// Turns a text into a table in slices of FILLERs.
fn compile_into(
    rt: &impl Print,
    text: &[u8],
    marks: &mut [u16],
    rules: &mut [u16],
) -> io::Result<()> {
    match model_table::compile(text, marks, rules) {
        Err(f) => say::refused(rt, f, marks, rules),
        Ok(t) => {
            say::text(rt, b"\ttable")?;
            say::field(rt, t.symbols as usize)?;
            say::field(rt, t.states)?;
            say::field(rt, t.rules)?;
            show(
                rt,
                t.symbols,
                say::part(marks, 0, t.states),
                rows(rules, t.rules),
            )
        }
    }
}

// Case n; one has a slice for marks that is too short, one a slice for rules.
fn compile(rt: &(impl Files + Print), n: usize) -> io::Result<()> {
    let mut bytes = [0u8; say::CASE_BYTES];
    let mut marks = [say::FILLER; paper::STATES];
    let mut rules = [say::FILLER; paper::RULE_NUMBERS];
    let length = say::load(rt, b'm', n, &mut bytes)?;
    let m = say::less(paper::STATES, n, SHORT_MARKS);
    let r = say::less(paper::RULE_NUMBERS, n, SHORT_RULES);
    compile_into(rt, &bytes[..length], &mut marks[..m], &mut rules[..r])
}

fn main(rt: HostRuntime) -> io::Result<()> {
    for n in 1..MODELS + 1 {
        compile(&rt, n)?;
    }
    Ok(())
}
