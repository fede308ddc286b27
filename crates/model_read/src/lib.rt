// A model text read for the first time: is it well-formed (13), and does its table need too many states (15)? Every text is taken.
// specs/Text has what a text says and what is wrong with it, specs/Work what is known behind its header.
#![tactic(auto)]

ghost use Rattle.std.specs.Prelude.{◌≡◌};
ghost use Rattle.paper.specs.Limits.{limits};
ghost use Rattle.paper.specs.Told.{Tells};
ghost use Rattle.model_read.specs.Text.{BadHead, survey_told, told};
ghost use Rattle.model_read.specs.Work.{Headed};

use model_line::Line;
use paper::{Fault, Refusal};

// What a model text asks for: its symbols, its start and the states of its table.
#[derive(Clone, Copy, PartialEq, Eq)]
pub struct Survey {
    pub symbols: u16,
    pub start: u16,
    pub states: usize,
}

// Are the symbols of a header outside their limits, or is its start not below them?
fn bad_head(symbols: u16, start: u16) -> bool
    ensures { Tells result (BadHead limits symbols start) }
{
    if symbols == 0 {
        return true;
    }
    if paper::SYMBOLS < symbols {
        return true;
    }
    symbols <= start
}

// Reads the lines behind the header, from `from` on.
fn survey_rest(text: &[u8], from: usize, symbols: u16, start: u16) -> Result<Survey, Refusal>
    requires { Headed limits text.now symbols start from }
    ensures { told result ≡ survey_told limits text.now }
{
    let mut seen = [false; paper::SYMBOLS as usize];
    let mut at = from;
    let mut k = 1;
    let mut states = symbols as usize;
    // Kept: a while, since a line's length varies.
    while at < text.len() {
        let end = lines::line_end(text, at);
        k += 1;
        let Some(Line::Model(symbol, places)) = model_line::read_line(&text[at..end], symbols)
        else {
            return Err(Refusal::at(Fault::ModelText, k));
        };
        if symbols <= symbol {
            return Err(Refusal::at(Fault::ModelText, k));
        }
        if seen[symbol as usize] {
            return Err(Refusal::at(Fault::ModelText, k));
        }
        seen[symbol as usize] = true;
        states += 1 + places;
        at = end;
    }
    if paper::STATES < states {
        return Err(Refusal::at(Fault::ModelStates, 0));
    }
    Ok(Survey {
        symbols,
        start,
        states,
    })
}

// Reads a model text: its refusals 13 and 15, or its sizes.
pub fn survey_text(text: &[u8]) -> Result<Survey, Refusal>
    ensures { told result ≡ survey_told limits text.now }
{
    let end = lines::line_end(text, 0);
    let Some(Line::Head(symbols, start)) = model_line::read_line(&text[0..end], 0) else {
        return Err(Refusal::at(Fault::ModelText, 1));
    };
    if bad_head(symbols, start) {
        return Err(Refusal::at(Fault::ModelText, 1));
    }
    survey_rest(text, end, symbols, start)
}
