// Cases of tables, trees, rule texts and acceptance at the edges of their limits, each a file of data/, and what each is told: the
// file stdout beside src/ has what it must be, and docs/CASES.md what each case is.
#![tactic(auto)]

mod slices;
mod texts;

use std::io;
use std::rt::Files;

// How many cases there are of each kind: s01 .. have a table and a tree in numbers, t01 .. a rule text, p01 .. and q01 .. the texts
// of a sender and a receiver.
const TABLES: usize = 52;

const TEXTS: usize = 50;

const PAIRS: usize = 6;

// Case n of each kind that has so many.
fn run(rt: &(impl Files + Print), n: usize) -> io::Result<()> {
    slices::judge(rt, n)?;
    if n <= TEXTS {
        texts::read(rt, n)?;
    }
    if n <= PAIRS {
        texts::part(rt, n)?;
    }
    Ok(())
}

fn main(rt: HostRuntime) -> io::Result<()> {
    for n in 1..TABLES + 1 {
        run(&rt, n)?;
    }
    texts::short_text(&rt)
}
