// Rule texts: read into slices, written back, and the faulty line of two.
use std::io;
use std::rt::Files;

// The cases whose slices are too short.
const SHORT_MARKS: usize = 49;

const SHORT_RULES: usize = 50;

// The counts of a table, and how many bytes its text has, which must be the text that was read.
fn write_back(
    rt: &impl Print,
    text: &[u8],
    symbols: u16,
    marks: &[u16],
    rules: &[u16],
) -> io::Result<()> {
    let mut out = [0u8; paper::TEXT];
    match rule_write::write_text(symbols, marks, rules, &mut out) {
        Err(f) => say::refusal(rt, f)?,
        Ok(n) => {
            say::field(rt, n)?;
            if n <= out.len() {
                if text != &out[..n] {
                    say::text(rt, b"\tanother text")?;
                }
            }
        }
    }
    say::text(rt, b"\n")
}

// Reads a text into slices of FILLERs.
fn read_into(rt: &impl Print, text: &[u8], marks: &mut [u16], rules: &mut [u16]) -> io::Result<()> {
    match rule_read::read_text(text, marks, rules) {
        Err(f) => say::refused(rt, f, marks, rules),
        Ok(t) => {
            say::text(rt, b"\ttable")?;
            say::field(rt, t.symbols as usize)?;
            say::field(rt, t.states)?;
            say::field(rt, t.rules)?;
            if t.states <= marks.len() && t.rules <= rules.len() / paper::WIDTH {
                write_back(
                    rt,
                    text,
                    t.symbols,
                    &marks[..t.states],
                    &rules[..t.rules * paper::WIDTH],
                )?;
            }
            Ok(())
        }
    }
}

// Case n; one has a slice for marks that is too short, one a slice for rules.
pub(crate) fn read(rt: &(impl Files + Print), n: usize) -> io::Result<()> {
    let mut bytes = [0u8; say::CASE_BYTES];
    let mut marks = [say::FILLER; paper::STATES];
    let mut rules = [say::FILLER; paper::RULE_NUMBERS];
    let length = say::load(rt, b't', n, &mut bytes)?;
    let m = say::less(paper::STATES, n, SHORT_MARKS);
    let r = say::less(paper::RULE_NUMBERS, n, SHORT_RULES);
    read_into(rt, &bytes[..length], &mut marks[..m], &mut rules[..r])
}

// A slice for a text that is too short.
pub(crate) fn short_text(rt: &impl Print) -> io::Result<()> {
    let marks = [6u16; 1];
    let rules = [0u16; paper::WIDTH];
    let mut out = [0u8; paper::TEXT - 1];
    match rule_write::write_text(1, &marks, &rules, &mut out) {
        Err(f) => say::refusal(rt, f)?,
        Ok(n) => say::field(rt, n)?,
    }
    say::text(rt, b"\n")
}

// The faulty line of the texts of pair n: how many bytes, and these.
pub(crate) fn part(rt: &(impl Files + Print), n: usize) -> io::Result<()> {
    let mut sender = [0u8; say::CASE_BYTES];
    let mut receiver = [0u8; say::CASE_BYTES];
    let a = say::load(rt, b'p', n, &mut sender)?;
    let b = say::load(rt, b'q', n, &mut receiver)?;
    let found = rule_part::faulty_line(&sender[..a], &receiver[..b]);
    say::field(rt, found.len())?;
    say::text(rt, b"\t")?;
    say::text(rt, found)?;
    say::text(rt, b"\n")
}
