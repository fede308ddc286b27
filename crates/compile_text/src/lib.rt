// From bytes to bytes: the answer to a model text, which is the rule text of its table or the line of a refusal. What the program
// `compile` does between reading and writing. specs/Answer has the text of the answer.
#![tactic(auto)]

ghost use Rattle.paper.specs.Limits.{limits};
ghost use Rattle.rule_write.specs.Write.{told};
ghost use Rattle.answers.specs.Written.{WritesText};
ghost use Rattle.compile_text.specs.Answer.{compile_text_of};

use paper::{Fault, Refusal};
use put::Out;

// Writes the answer to a model text to the front of the slice, the rest unchanged; a slice that has no room for every rule text is
// refused with 1 and unchanged.
pub fn compile_text(text: &[u8], out: &mut [u8]) -> Result<usize, Refusal>
    ensures { WritesText limits.text (compile_text_of limits text.now) out.old (told result)
        out.new }
{
    if out.len() < paper::TEXT {
        return Err(Refusal::at(Fault::Room, 0));
    }
    let mut marks = [0u16; paper::STATES];
    let mut rules = [0u16; paper::RULE_NUMBERS];
    match model_table::compile(text, &mut marks, &mut rules) {
        Err(f) => {
            let mut out = Out { bytes: out, at: 0 };
            answers::write_refused(&mut out, f);
            Ok(out.at)
        }
        Ok(sizes) => {
            let end = sizes.rules * paper::WIDTH;
            rule_write::write_text(sizes.symbols, &marks[..sizes.states], &rules[..end], out)
        }
    }
}
