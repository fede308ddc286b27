// A table and a tree in numbers: the symbols, how many marks, the marks, how many rule numbers, these, and the nodes.
use std::io;
use std::rt::Files;

// Tells what the checks and the acceptance say of a table and a tree.
fn tell(
    rt: &impl Print,
    symbols: u16,
    marks: &[u16],
    rules: &[u16],
    nodes: &[u16],
) -> io::Result<()> {
    say::checked(rt, table::check(symbols, marks, rules))?;
    say::checked(rt, tree::check(symbols, nodes))?;
    match accept::accept(symbols, marks, rules, nodes) {
        Ok(true) => say::text(rt, b"\taccepted\n"),
        Ok(false) => say::text(rt, b"\trejected\n"),
        Err(f) => {
            say::refusal(rt, f)?;
            say::text(rt, b"\n")
        }
    }
}

fn judge_numbers(rt: &impl Print, all: &[u16]) -> io::Result<()> {
    let m = say::at(all, 1) as usize;
    let r = say::at(all, 2 + m) as usize;
    tell(
        rt,
        say::at(all, 0),
        say::part(all, 2, m),
        say::part(all, 3 + m, r),
        say::part(all, 3 + m + r, all.len()),
    )
}

// Case n: it has at most CASE_BYTES bytes, and so no more numbers.
pub(crate) fn judge(rt: &(impl Files + Print), n: usize) -> io::Result<()> {
    let mut bytes = [0u8; say::CASE_BYTES];
    let mut all = [0u16; say::CASE_BYTES];
    let length = say::load(rt, b's', n, &mut bytes)?;
    let count = say::numbers(&bytes[..length], &mut all);
    judge_numbers(rt, say::part(&all, 0, count))
}
