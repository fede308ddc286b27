// The faulty line of two rule texts, handed back as a part of the sender's text or of the receiver's: the line at which the reader
// refuses the text, the sender's if both are refused; empty if neither is, or if that line is missing.
// specs/Part has which part it is.
#![tactic(auto)]

ghost use Rattle.std.specs.Prelude.{◌≡◌, ◌-◌, true, SomeIff};
ghost use Rattle.paper.specs.Limits.{limits};
ghost use Rattle.paper.specs.Told.{is_refusal, place_of};
ghost use Rattle.rule_read.specs.Text.{text_told};
ghost use Rattle.rule_part.specs.Part.{faulty_part};

// The line at which a text is refused, counted from 0, if it is refused.
fn refused_at(text: &[u8]) -> Option<usize>
    ensures { SomeIff result (is_refusal (text_told limits text.now) ≡ true) (place_of (text_told limits text.now) - 1) }
{
    let mut ms = [0u16; paper::STATES];
    let mut xs = [0u16; paper::RULE_NUMBERS];
    match rule_read::read_text(text, &mut ms, &mut xs) {
        Ok(_) => None,
        Err(refusal) => Some(refusal.place - 1),
    }
}

// The faulty line of two texts, the sender's if both have a fault, as a part of its text; an empty part where there is none.
pub fn faulty_line<'a>(sender: &'a [u8], receiver: &'a [u8]) -> &'a [u8]
    ensures { result.now ≡ faulty_part limits sender.now receiver.now }
{
    if let Some(s) = refused_at(sender) {
        return lines::line(sender, s);
    }
    if let Some(r) = refused_at(receiver) {
        return lines::line(receiver, r);
    }
    &receiver[0..0]
}
