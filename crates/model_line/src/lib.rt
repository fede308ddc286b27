// One line of a model text, taken apart. Both functions take every line: what has the shape of neither a header nor a model is told so.
#![tactic(auto)]

ghost use Rattle.std.specs.Prelude.{◌≡◌};
ghost use Rattle.paper.specs.Limits.{limits};
ghost use Rattle.model_line.specs.Line.{split_of, model_said, says, line_of};

const LETTER_D: u8 = b'D';

const LETTER_M: u8 = b'M';

// What a line says: the header, with its symbols and its start; or a symbol and how many places its model has.
#[derive(Clone, Copy, PartialEq, Eq)]
pub enum Line {
    Head(u16, u16),
    Model(u16, usize),
}

// The symbol of an M line and where its token field begins, if the line is one.
pub fn split(x: &[u8]) -> Option<(u16, usize)>
    ensures { result ≡ split_of x.now }
{
    if x.is_empty() {
        return None;
    }
    if x[0] != LETTER_M {
        return None;
    }
    if x[x.len() - 1] != lines::LF {
        return None;
    }
    let Ok((symbol, end)) = lines::read_field(x, 1) else {
        return None;
    };
    if x.len() <= end {
        return None;
    }
    if x[end] != lines::TAB {
        return None;
    }
    Some((symbol, end + 1))
}

// Reads an M line over so many symbols: its token field goes to the model reader as it stands.
fn read_content(x: &[u8], symbols: u16) -> Option<Line>
    ensures { result ≡ line_of (model_said limits symbols x.now (split_of x.now)) }
{
    let (symbol, from) = split(x)?;
    let to = x.len() - 1;
    let places = postfix::read_model(&x[from..to], symbols)?;
    Some(Line::Model(symbol, places))
}

// What a line says over so many symbols, if it has the shape of a header or of a model.
pub fn read_line(x: &[u8], symbols: u16) -> Option<Line>
    ensures { result ≡ line_of (says limits symbols x.now) }
{
    if x.is_empty() {
        return None;
    }
    if x[0] != LETTER_D {
        return read_content(x, symbols);
    }
    let Ok((y, s, _)) = lines::read_fields(x, 2) else {
        return None;
    };
    Some(Line::Head(y, s))
}
