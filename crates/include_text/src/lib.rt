// From bytes to bytes: the answer to two rule texts, the sender's and the receiver's. What the program `include` does between reading and
// writing. specs/Answer has the text of the answer, specs/Work what the private functions write.
#![tactic(auto)]

ghost use Rattle.std.specs.Prelude.{◌≡◌, ◌*◌, ◌≤◌, length};
ghost use Rattle.paper.specs.Limits.{limits};
ghost use Rattle.paper.specs.Told.{written};
ghost use Rattle.put.specs.Put.{Fit};
ghost use Rattle.rule_write.specs.Write.{told};
ghost use Rattle.inclusion.specs.Inclusion as inclusion;
ghost use Rattle.inclusion.specs.Inclusion.{lent};
ghost use Rattle.answers.specs.Lines.{node_lines};
ghost use Rattle.include_text.specs.Answer.{answer_size, Answers};
ghost use Rattle.include_text.specs.Work.{answer_text, Enough, Meets};

use paper::{Fault, Refusal, Side};
use put::Out;

// At most so many bytes have the line that counts a witness's nodes, and the line of a node; and so many have room for every answer.
const HEAD_SIZE: usize = 13;

const NODE_SIZE: usize = 12;

pub const ANSWER: usize = HEAD_SIZE + NODE_SIZE * paper::NODES;

// Writes the lines of the first n nodes.
fn write_nodes(out: &mut Out, nodes: &[u16], n: usize)
    requires { 2 * n ≤ length nodes.now }
    ensures same { out.new.bytes.ghost_name ≡ out.old.bytes.ghost_name }
    ensures fit { Fit out.old.bytes.now out.old.at (node_lines nodes.now n) out.new.at
        out.new.bytes.now }
{
    for i in 0..n {
        answers::write_node(out, nodes[2 * i], nodes[2 * i + 1]);
    }
}

// Writes what the inclusion test answered, the witness standing in the slice.
fn write_answer(out: &mut Out, answer: Result<Option<usize>, Refusal>, witness: &[u16])
    requires { Enough (inclusion.told answer) witness.now }
    ensures same { out.new.bytes.ghost_name ≡ out.old.bytes.ghost_name }
    ensures fit { Fit out.old.bytes.now out.old.at
        (answer_text (inclusion.told answer) witness.now) out.new.at out.new.bytes.now }
{
    match answer {
        Ok(None) => answers::write_included(out),
        Err(f) => answers::write_refused(out, f),
        Ok(Some(n)) => {
            answers::write_witness(out, n);
            write_nodes(out, witness, n)
        }
    }
}

// Compares the sender's table with the receiver's text, and writes the answer.
fn include_receiver(symbols: u16, marks: &[u16], rules: &[u16], receiver: &[u8], out: &mut Out)
    requires room { answer_size limits ≤ length out.old.bytes.now }
    requires front { out.old.at ≡ 0 }
    ensures same { out.new.bytes.ghost_name ≡ out.old.bytes.ghost_name }
    ensures meets { Meets limits (lent symbols marks.now rules.now) receiver.now
        out.old.bytes.now out.new.at out.new.bytes.now }
{
    let mut own_marks = [0u16; paper::STATES];
    let mut own_rules = [0u16; paper::RULE_NUMBERS];
    match rule_read::read_text(receiver, &mut own_marks, &mut own_rules) {
        Err(f) => answers::write_refused(out, f.of(Side::Receiver)),
        Ok(own) => {
            let end = own.rules * paper::WIDTH;
            let mut witness = [0u16; 2 * paper::NODES];
            let answer = inclusion::include(
                symbols,
                marks,
                rules,
                own.symbols,
                &own_marks[..own.states],
                &own_rules[..end],
                &mut witness,
            );
            write_answer(out, answer, &witness)
        }
    }
}

// Reads the sender's text, compares its table with the receiver's text, and writes the answer.
fn include_sender(sender: &[u8], receiver: &[u8], out: &mut Out)
    requires room { answer_size limits ≤ length out.old.bytes.now }
    requires front { out.old.at ≡ 0 }
    ensures same { out.new.bytes.ghost_name ≡ out.old.bytes.ghost_name }
    ensures answered { Answers limits sender.now receiver.now out.old.bytes.now
        (written out.new.at) out.new.bytes.now }
{
    let mut marks = [0u16; paper::STATES];
    let mut rules = [0u16; paper::RULE_NUMBERS];
    match rule_read::read_text(sender, &mut marks, &mut rules) {
        Err(f) => answers::write_refused(out, f.of(Side::Sender)),
        Ok(sizes) => {
            let end = sizes.rules * paper::WIDTH;
            include_receiver(
                sizes.symbols,
                &marks[..sizes.states],
                &rules[..end],
                receiver,
                out,
            )
        }
    }
}

// Writes the answer to two rule texts to the front of the slice, the rest unchanged; a slice of fewer than ANSWER bytes is refused with 1
// and unchanged.
pub fn include_text(sender: &[u8], receiver: &[u8], out: &mut [u8]) -> Result<usize, Refusal>
    ensures { Answers limits sender.now receiver.now out.old (told result)
        out.new }
{
    if out.len() < ANSWER {
        return Err(Refusal::at(Fault::Room, 0));
    }
    let mut out = Out { bytes: out, at: 0 };
    include_sender(sender, receiver, &mut out);
    Ok(out.at)
}
