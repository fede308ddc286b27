// The library for C and Rust: each function here calls one proved function and hands its answer back as six numbers of the paper's
// numbering. They take every input. crates/embed_c exports them to C, where a lent slice is a pointer and a count, which the caller vouches
// for.
// specs/Numbers has which numbers stand for what is told, specs/Says what each function promises.
#![tactic(auto)]

ghost use Rattle.std.specs.Prelude.{◌≡◌};
ghost use Rattle.paper.specs.Told.{check_told};
ghost use Rattle.table.specs.Told.{sizes_told};
ghost use Rattle.rule_write.specs.Write as writing;
ghost use Rattle.accept.specs.Accept as accepting;
ghost use Rattle.inclusion.specs.Inclusion as including;
ghost use Rattle.inclusion.specs.Inclusion.{lent};
ghost use Rattle.embed.specs.Numbers.{numbers, refusal_numbers, value_numbers};
ghost use Rattle.embed.specs.Says.{ReadSays, WriteSays, CompileSays, CheckSays, ReceiverSays, AcceptSays, IncludeSays};

use paper::{Checked, Refusal};
use table::Sizes;

// What is answered: number 0 where nothing is refused, and then up to three values; or a refusal's number, side and place.
// Kept: six numbers, for the C interface.
#[repr(C)]
#[derive(Drop)]
pub struct Answer {
    pub number: u16,
    pub side: u16,
    pub place: usize,
    pub first: usize,
    pub second: usize,
    pub third: usize,
}

// The numbers of a refusal.
impl From<Refusal> for Answer {
    ghost from_gives = { λ x a. a ≡ refusal_numbers x.number x.side x.place };

    fn from(x: Refusal) -> Answer {
        Answer {
            number: x.number,
            side: x.side,
            place: x.place,
            first: 0,
            second: 0,
            third: 0,
        }
    }
}

// The numbers of an answer that refuses nothing.
fn values(first: usize, second: usize, third: usize) -> Answer
    ensures { result ≡ value_numbers first second third }
{
    Answer {
        number: 0,
        side: 0,
        place: 0,
        first,
        second,
        third,
    }
}

// The numbers of what reading a rule text finds, and of what a model text becomes.
impl From<Result<Sizes, Refusal>> for Answer {
    ghost from_gives = { λ x a. a ≡ numbers (sizes_told x) };

    fn from(x: Result<Sizes, Refusal>) -> Answer {
        match x {
            Ok(t) => values(t.symbols as usize, t.states, t.rules),
            Err(f) => Answer::from(f),
        }
    }
}

// The numbers of what writing a rule text does.
impl From<Result<usize, Refusal>> for Answer {
    ghost from_gives = { λ x a. a ≡ numbers (writing.told x) };

    fn from(x: Result<usize, Refusal>) -> Answer {
        match x {
            Ok(bytes) => values(bytes, 0, 0),
            Err(f) => Answer::from(f),
        }
    }
}

// The numbers of what a check finds.
impl From<Checked> for Answer {
    ghost from_gives = { λ x a. a ≡ numbers (check_told x) };

    fn from(x: Checked) -> Answer {
        match x {
            Ok(()) => values(0, 0, 0),
            Err(f) => Answer::from(f),
        }
    }
}

// The numbers of how a tree is judged.
impl From<Result<bool, Refusal>> for Answer {
    ghost from_gives = { λ x a. a ≡ numbers (accepting.told x) };

    fn from(x: Result<bool, Refusal>) -> Answer {
        match x {
            Ok(true) => values(1, 0, 0),
            Ok(false) => values(0, 0, 0),
            Err(f) => Answer::from(f),
        }
    }
}

// The numbers of what the inclusion test finds.
impl From<Result<Option<usize>, Refusal>> for Answer {
    ghost from_gives = { λ x a. a ≡ numbers (including.told x) };

    fn from(x: Result<Option<usize>, Refusal>) -> Answer {
        match x {
            Ok(None) => values(0, 0, 0),
            Ok(Some(nodes)) => values(nodes, 0, 0),
            Err(f) => Answer::from(f),
        }
    }
}

// Reads a rule text into the lent marks and rules. Values: symbols, states, rules.
pub fn baranduk_read(text: &[u8], marks: &mut [u16], rules: &mut [u16]) -> Answer
    ensures { ReadSays text.now marks.old rules.old result
        marks.new rules.new }
{
    Answer::from(rule_read::read_text(text, marks, rules))
}

// Writes a table as a rule text. Values: bytes.
pub fn baranduk_write(symbols: u16, marks: &[u16], rules: &[u16], text: &mut [u8]) -> Answer
    ensures { WriteSays symbols marks.now rules.now text.old result
        text.new }
{
    Answer::from(rule_write::write_text(symbols, marks, rules, text))
}

// Turns a model text into a table in the lent marks and rules. Values: symbols, states, rules.
pub fn baranduk_compile(text: &[u8], marks: &mut [u16], rules: &mut [u16]) -> Answer
    ensures { CompileSays text.now marks.old rules.old result
        marks.new rules.new }
{
    Answer::from(model_table::compile(text, marks, rules))
}

// Checks a table. No values.
pub fn baranduk_check(symbols: u16, marks: &[u16], rules: &[u16]) -> Answer
    ensures { CheckSays symbols marks.now rules.now result }
{
    Answer::from(table::check(symbols, marks, rules))
}

// Checks a receiver's table. No values.
pub fn baranduk_check_receiver(symbols: u16, marks: &[u16], rules: &[u16]) -> Answer
    ensures { ReceiverSays symbols marks.now rules.now result }
{
    Answer::from(factorized::check(symbols, marks, rules))
}

// Judges a tree by a table. Values: 1 for accepted, 0 for rejected.
pub fn baranduk_accept(symbols: u16, marks: &[u16], rules: &[u16], nodes: &[u16]) -> Answer
    ensures { AcceptSays symbols marks.now rules.now nodes.now result }
{
    Answer::from(accept::accept(symbols, marks, rules, nodes))
}

// Is every tree that the sender's table accepts accepted by the receiver's? Values: 0 for included, else the nodes of the witness.
pub fn baranduk_include(
    sender_symbols: u16,
    sender_marks: &[u16],
    sender_rules: &[u16],
    receiver_symbols: u16,
    receiver_marks: &[u16],
    receiver_rules: &[u16],
    witness: &mut [u16],
) -> Answer
    ensures { IncludeSays (lent sender_symbols sender_marks.now sender_rules.now)
        (lent receiver_symbols receiver_marks.now receiver_rules.now)
        witness.old result witness.new }
{
    Answer::from(inclusion::include(
        sender_symbols,
        sender_marks,
        sender_rules,
        receiver_symbols,
        receiver_marks,
        receiver_rules,
        witness,
    ))
}
