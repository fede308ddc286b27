// One line of a rule text: taken apart, and written. The two are inverse to each other on every line that can be said, with numbers that
// must be 0 being so and one of the three kinds (Sayable, line_written and line_known of proofs/LineLaws).
#![tactic(auto)]

ghost use Rattle.std.specs.Prelude.{◌≡◌, ◌<◌, SomeIff};
ghost use Rattle.put.specs.Put.{Wrote};
ghost use Rattle.rule_line.specs.Line.{count, says, line, rule_text, line_text};

use paper::RuleRow;
use put::Out;

// What a line says: the head, a state, a rule; or the first byte at which none of the five shapes could go on.
// Kept: a public promise: write_line takes every line, a faulty one too, so that Line is no Result.
#[derive(Clone, Copy)]
pub enum Line {
    Head(u16, u16),
    State(u16, u16, u16),
    Rule(RuleRow),
    Faulty(usize),
}

// How many numbers follow a letter, if it is one of a line.
#[tactic(auto, unfolding(crate::specs::Line::count))]
fn count_of(t: u8) -> Option<usize>
    ensures { SomeIff result (0 < count t) (count t) }
{
    match t {
        b'T' => Some(2),
        b'S' => Some(3),
        b'L' => Some(2),
        b'P' => Some(3),
        b'E' => Some(2),
        _ => None,
    }
}

// What a letter says with its numbers.
#[tactic(auto, unfolding(crate::specs::Line::says))]
fn line_of(t: u8, a: u16, b: u16, c: u16) -> Line
    ensures { result ≡ says t a b c }
{
    match t {
        b'T' => Line::Head(a, b),
        b'S' => Line::State(a, b, c),
        b'L' => Line::Rule(RuleRow::leaf(a, b)),
        b'P' => Line::Rule(RuleRow::join(a, b, c)),
        _ => Line::Rule(RuleRow::epsilon(a, b)),
    }
}

// What the line x says.
#[tactic(auto, unfolding(crate::specs::Line::line, crate::specs::Line::count))]
pub fn read_line(x: &[u8]) -> Line
    ensures { result ≡ line x.now }
{
    let Some(&t) = x.first() else {
        return Line::Faulty(0);
    };
    let Some(n) = count_of(t) else {
        return Line::Faulty(0);
    };
    match lines::read_fields(x, n) {
        Ok((a, b, c)) => line_of(t, a, b, c),
        Err(i) => Line::Faulty(i),
    }
}

// Writes a rule's line.
#[tactic(auto, unfolding(crate::specs::Line::rule_text))]
fn write_rule(out: &mut Out, rule: RuleRow)
    ensures same { out.new.bytes.ghost_name ≡ out.old.bytes.ghost_name }
    ensures wrote { Wrote out.old.bytes.now out.old.at
        (rule_text rule.kind rule.left rule.right rule.to) out.new.at out.new.bytes.now }
{
    if rule.kind == paper::LEAF_RULE {
        out.write_letters(b'L', 2, rule.left, rule.to, 0)
    } else if rule.kind == paper::JOIN_RULE {
        out.write_letters(b'P', 3, rule.left, rule.right, rule.to)
    } else {
        out.write_letters(b'E', 2, rule.left, rule.to, 0)
    }
}

// Writes what a line says; what says nothing is not written.
#[tactic(auto, using(crate::proofs::LineLaws::wrote_nothing), unfolding(crate::specs::Line::line_text))]
pub fn write_line(out: &mut Out, l: Line)
    ensures same { out.new.bytes.ghost_name ≡ out.old.bytes.ghost_name }
    ensures wrote { Wrote out.old.bytes.now out.old.at (line_text l) out.new.at out.new.bytes.now }
{
    match l {
        Line::Head(y, n) => out.write_letters(b'T', 2, y, n, 0),
        Line::State(q, s, f) => out.write_letters(b'S', 3, q, s, f),
        Line::Rule(rule) => write_rule(out, rule),
        Line::Faulty(_) => {}
    }
}
