// Lines and numbers of texts, read: one decimal number; a text cut into lines; a line of a letter and two or three numbers.
// Every public function takes every text and every place: what it does not find it answers by the first byte that is wrong, or by an
// empty part. specs/ has how numbers and lines are written, and proofs/ that reading and writing are inverse to each other.
#![tactic(auto)]

ghost use Rattle.std.specs.Prelude.{◌≡◌, ◌<◌, drop, SomeIff};
ghost use Rattle.lines.specs.Number.{digit, number};
ghost use Rattle.lines.specs.Lines.{line_end_of, line_at, Starts};
ghost use Rattle.lines.specs.Fields.{field, ends, fields};

const MOST_NUMBER: u32 = 65535;

pub const TAB: u8 = b'\t';

pub const LF: u8 = b'\n';

// What stands where a number should: its value and where it ends, or the first byte that is wrong.
pub type Number = Result<(u16, usize), usize>;

// The numbers of a line, the third being 0 where there are two; or the first byte that is wrong.
pub type Fields = Result<(u16, u16, u16), usize>;

// The digit that a byte stands for, if it stands for one.
fn digit_of(b: u8) -> Option<u32>
    ensures { SomeIff result (digit b < 10) (digit b) }
{
    if b.is_ascii_digit() {
        return Some((b - b'0') as u32);
    }
    None
}

// The number that starts at `at`.
pub fn read_number(s: &[u8], at: usize) -> Number
    ensures { result ≡ number at (drop at s.now) }
{
    if s.len() <= at {
        return Err(at);
    }
    let Some(first) = digit_of(s[at]) else {
        return Err(at);
    };
    let mut v = first;
    for i in at + 1..s.len() {
        let Some(d) = digit_of(s[i]) else {
            return Ok((v as u16, i));
        };
        if v == 0 {
            return Err(i);
        }
        let w = v * 10 + d;
        if MOST_NUMBER < w {
            return Err(i);
        }
        v = w;
    }
    Ok((v as u16, s.len()))
}

// A tab at `at` and the number behind it.
pub fn read_field(x: &[u8], at: usize) -> Number
    ensures { result ≡ field x.now at }
{
    if x.len() <= at {
        return Err(at);
    }
    if x[at] == TAB {
        read_number(x, at + 1)
    } else {
        Err(at)
    }
}

// The numbers f where x ends in LF at `at`.
fn read_end(x: &[u8], at: usize, f: Fields) -> Fields
    ensures { result ≡ ends x.now at f }
{
    if x.len() <= at {
        return Err(at);
    }
    if x[at] != LF {
        return Err(at);
    }
    if x.len() == at + 1 {
        return f;
    }
    Err(at + 1)
}

// The n numbers, 3 or else 2, of the line x, whose first byte is not looked at.
pub fn read_fields(x: &[u8], n: usize) -> Fields
    ensures { result ≡ fields n x.now }
{
    let (a, i) = read_field(x, 1)?;
    let (b, j) = read_field(x, i)?;
    if n != 3 {
        return read_end(x, j, Ok((a, b, 0)));
    }
    let (c, k) = read_field(x, j)?;
    read_end(x, k, Ok((a, b, c)))
}

// Where the line that starts at `at` ends: behind its LF, or where the text ends; `at` itself behind the end.
pub fn line_end(s: &[u8], at: usize) -> usize
    ensures { result ≡ line_end_of at (drop at s.now) }
{
    for i in at..s.len() {
        if s[i] == LF {
            return i + 1;
        }
    }
    at.max(s.len())
}

// Where the line k starts: behind the k lines before it, or where the text ends.
fn line_start(s: &[u8], k: usize) -> usize
    ensures { Starts s.now k result }
{
    let mut at = 0;
    for i in 0..k {
        if s.len() <= at {
            return at;
        }
        at = line_end(s, at);
    }
    at
}

// The line k, counted from 0, of a text, as a part of it; an empty part where there is none.
pub fn line<'a>(s: &'a [u8], k: usize) -> &'a [u8]
    ensures { result.now ≡ line_at s.now k }
{
    let from = line_start(s, k);
    let to = line_end(s, from);
    &s[from..to]
}
