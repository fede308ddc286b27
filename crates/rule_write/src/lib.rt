// A table written as a rule text. proofs/ has that reading and writing are inverse to each other: a text that is read and then
// written comes back byte for byte (RoundTrip), a table that is written and then read comes back equal (WriteRead).
#![tactic(auto)]

ghost use Rattle.std.specs.Prelude.{◌≡◌, ◌/◌, ◌≤◌, length};
ghost use Rattle.paper.specs.Limits.{limits};
ghost use Rattle.lines.specs.Number.{most_number};
ghost use Rattle.put.specs.Put.{Fit};
ghost use Rattle.rule_write.specs.Write.{states_text_of, rules_text_of, Writes};

use paper::{Fault, Refusal};
use put::Out;
use rule_line::Line;

// Writes the lines of the states in order.
fn write_states(out: &mut Out, marks: &[u16])
    requires { length marks.now ≤ most_number }
    ensures same { out.new.bytes.ghost_name ≡ out.old.bytes.ghost_name }
    ensures fit { Fit out.old.bytes.now out.old.at
        (states_text_of marks.now (length marks.now)) out.new.at out.new.bytes.now }
{
    for i in 0..marks.len() {
        let m = marks[i];
        rule_line::write_line(out, Line::State(i as u16, m / 2, m % 2));
    }
}

// Writes the lines of the rules in order.
fn write_rules(out: &mut Out, rules: &[u16])
    ensures same { out.new.bytes.ghost_name ≡ out.old.bytes.ghost_name }
    ensures fit { Fit out.old.bytes.now out.old.at (rules_text_of limits.width rules.now
        (length rules.now / limits.width)) out.new.at out.new.bytes.now }
{
    for i in 0..rules.len() / paper::WIDTH {
        // Each of these rows is whole, so that none is missing.
        let Some(rule) = table::row_at(rules, i) else {
            return;
        };
        rule_line::write_line(out, Line::Rule(rule));
    }
}

// Writes the text of a table: the table's refusals, then 1; the text stands at the front of the slice, the rest unchanged.
pub fn write_text(
    symbols: u16,
    marks: &[u16],
    rules: &[u16],
    out: &mut [u8],
) -> Result<usize, Refusal>
    ensures { Writes limits symbols marks.now rules.now
        out.old result out.new }
{
    table::check(symbols, marks, rules)?;
    if out.len() < paper::TEXT {
        return Err(Refusal::at(Fault::Room, 0));
    }
    let states = marks.len() as u16;
    let mut out = Out { bytes: out, at: 0 };
    rule_line::write_line(&mut out, Line::Head(symbols, states));
    write_states(&mut out, marks);
    write_rules(&mut out, rules);
    Ok(out.at)
}
