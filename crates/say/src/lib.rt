// What the programs of cases share: reading a case's file and its numbers, writing what it is told, and parts of slices.
#![tactic(auto)]

ghost use Rattle.std.specs.Prelude.{◌≡◌, cond, ◌-◌, ◌≤◌, ◌<◌, eqb, length, slice_index_or, take, drop, IfOk, OnErr};

use paper::{Checked, Refusal};
use std::io;
use std::rt::Files;

// No case's file has more bytes than this, and so none has more numbers.
pub const CASE_BYTES: usize = 16384;

// The slices that a case may write are full of this number first.
pub const FILLER: u16 = 9;

pub fn text(rt: &impl Print, bytes: &[u8]) -> io::Result<()> {
    rt.write_all(bytes)
}

pub fn number(rt: &impl Print, n: usize) -> io::Result<()> {
    rt.print(n)
}

// A tab and a number.
pub fn field(rt: &impl Print, n: usize) -> io::Result<()> {
    text(rt, b"\t")?;
    number(rt, n)
}

// A refusal: number, side and place.
pub fn refusal(rt: &impl Print, f: Refusal) -> io::Result<()> {
    text(rt, b"\trefused")?;
    field(rt, f.number as usize)?;
    field(rt, f.side as usize)?;
    field(rt, f.place)
}

pub fn checked(rt: &impl Print, c: Checked) -> io::Result<()> {
    match c {
        Ok(()) => text(rt, b"\tpasses"),
        Err(f) => refusal(rt, f),
    }
}

// The name of case n of a kind: its letter and two digits.
fn name(kind: u8, n: usize) -> [u8; 3] {
    [kind, (48 + n / 10 % 10) as u8, (48 + n % 10) as u8]
}

// Reads the file of a name into the slice: how many bytes, none where it can't be opened.
fn read_file(rt: &impl Files, name: &[u8], bytes: &mut [u8]) -> usize
    ensures { (result ≤ length bytes.new) × (length bytes.new ≡ length bytes.old) }
{
    let Ok(path) = str::from_utf8(name) else {
        return 0;
    };
    intake::read_file(rt, path, bytes)
}

// Writes the name of a case, and reads its file into the slice: how many bytes, none where it can't be opened. Where the name can't be
// written, nothing is read.
pub fn load(rt: &(impl Files + Print), kind: u8, n: usize, bytes: &mut [u8]) -> io::Result<usize>
    ensures ok { IfOk result (λ r. (r ≤ length bytes.new) × (length bytes.new ≡ length bytes.old)) }
    ensures err { OnErr result (bytes.new ≡ bytes.old) }
{
    let path = name(kind, n);
    text(rt, &path)?;
    Ok(read_file(rt, &path, bytes))
}

// The length n, or one less in case `short`.
pub fn less(n: usize, case: usize, short: usize) -> usize
    ensures value { result ≡ cond (eqb case short) (n - 1) n }
    ensures upper_bound { result ≤ n }
{
    if case != short {
        return n;
    }
    n.saturating_sub(1)
}

// Number a of the slice, or 0 behind its end.
pub fn at(all: &[u16], a: usize) -> u16
    ensures { result ≡ slice_index_or all.now a 0 }
{
    if a < all.len() { all[a] } else { 0 }
}

// The part of a slice from a on, at most n long, as far as the slice goes.
pub fn part<'a>(all: &'a [u16], a: usize, n: usize) -> &'a [u16]
    ensures { result.now ≡ take n (drop a all.now) }
{
    let len = all.len();
    if len < a {
        return &all[len..len];
    }
    if n <= len - a {
        return &all[a..a + n];
    }
    &all[a..len]
}

// Is each number of the slice still FILLER?
fn kept(numbers: &[u16]) -> bool {
    for number in numbers {
        if *number != FILLER {
            return false;
        }
    }
    true
}

// Says so where a slice of FILLERs has changed.
pub fn changed(rt: &impl Print, numbers: &[u16]) -> io::Result<()> {
    if !kept(numbers) {
        text(rt, b"\tslice changed")?;
    }
    Ok(())
}

// A refusal, which must leave the slices of FILLERs as they were.
pub fn refused(rt: &impl Print, f: Refusal, marks: &[u16], rules: &[u16]) -> io::Result<()> {
    refusal(rt, f)?;
    changed(rt, marks)?;
    changed(rt, rules)?;
    text(rt, b"\n")
}

// How far the bytes are read, and how many numbers there are.
#[derive(Drop)]
struct Cursor {
    at: usize,
    count: usize,
}

// Puts v behind the first `count` numbers of the slice, if it goes so far, and answers how many there are then.
fn push(out: &mut [u16], count: usize, v: u16) -> usize
    requires { count ≤ length out.old }
    ensures { (result ≤ length out.new) × (length out.new ≡ length out.old) }
{
    if count < out.len() {
        out[count] = v;
        return count + 1;
    }
    count
}

// Goes on by one number, or by one byte that is none.
fn step(bytes: &[u8], at: usize, out: &mut [u16], count: usize) -> Cursor
    requires { (at < length bytes.now) × (count ≤ length out.old) }
    ensures { (at < result.at) × (result.count ≤ length out.new)
        × (length out.new ≡ length out.old) }
{
    let Ok((a, end)) = lines::read_number(bytes, at) else {
        return Cursor { at: at + 1, count };
    };
    if end <= at {
        return Cursor { at: at + 1, count };
    }
    let more = push(out, count, a);
    Cursor {
        at: end,
        count: more,
    }
}

// Puts the numbers of the bytes, decimal and parted by any other bytes, into the slice, as far as it goes, and answers how many.
pub fn numbers(bytes: &[u8], out: &mut [u16]) -> usize
    ensures { (result ≤ length out.new) × (length out.new ≡ length out.old) }
{
    let mut at = 0;
    let mut count = 0;
    // Kept: a while, since a number has as many bytes as it likes.
    while at < bytes.len() {
        let s = step(bytes, at, out, count);
        at = s.at;
        count = s.count;
    }
    count
}
