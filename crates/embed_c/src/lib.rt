// The exports of the library to C: each calls the function of crates/embed that has its name, and promises what that one promises. A lent
// slice is a pointer and a count, which the caller vouches for. bindings/c/baranduk.h is the header.
#![tactic(auto)]

ghost use Rattle.inclusion.specs.Inclusion.{lent};
ghost use Rattle.embed.specs.Says.{ReadSays, WriteSays, CompileSays, CheckSays, ReceiverSays, AcceptSays, IncludeSays};

use embed::Answer;

// Reads a rule text into the lent marks and rules. Values: symbols, states, rules.
#[unsafe(no_mangle)]
pub extern "C" fn baranduk_read(text: &[u8], marks: &mut [u16], rules: &mut [u16]) -> Answer
    ensures { ReadSays text.now marks.old rules.old result
        marks.new rules.new }
{
    embed::baranduk_read(text, marks, rules)
}

// Writes a table as a rule text. Values: bytes.
#[unsafe(no_mangle)]
pub extern "C" fn baranduk_write(
    symbols: u16,
    marks: &[u16],
    rules: &[u16],
    text: &mut [u8],
) -> Answer
    ensures { WriteSays symbols marks.now rules.now text.old result
        text.new }
{
    embed::baranduk_write(symbols, marks, rules, text)
}

// Turns a model text into a table in the lent marks and rules. Values: symbols, states, rules.
#[unsafe(no_mangle)]
pub extern "C" fn baranduk_compile(text: &[u8], marks: &mut [u16], rules: &mut [u16]) -> Answer
    ensures { CompileSays text.now marks.old rules.old result
        marks.new rules.new }
{
    embed::baranduk_compile(text, marks, rules)
}

// Checks a table. No values.
#[unsafe(no_mangle)]
pub extern "C" fn baranduk_check(symbols: u16, marks: &[u16], rules: &[u16]) -> Answer
    ensures { CheckSays symbols marks.now rules.now result }
{
    embed::baranduk_check(symbols, marks, rules)
}

// Checks a receiver's table. No values.
#[unsafe(no_mangle)]
pub extern "C" fn baranduk_check_receiver(symbols: u16, marks: &[u16], rules: &[u16]) -> Answer
    ensures { ReceiverSays symbols marks.now rules.now result }
{
    embed::baranduk_check_receiver(symbols, marks, rules)
}

// Judges a tree by a table. Values: 1 for accepted, 0 for rejected.
#[unsafe(no_mangle)]
pub extern "C" fn baranduk_accept(
    symbols: u16,
    marks: &[u16],
    rules: &[u16],
    nodes: &[u16],
) -> Answer
    ensures { AcceptSays symbols marks.now rules.now nodes.now result }
{
    embed::baranduk_accept(symbols, marks, rules, nodes)
}

// Is every tree that the sender's table accepts accepted by the receiver's? Values: 0 for included, else the nodes of the witness.
#[unsafe(no_mangle)]
pub extern "C" fn baranduk_include(
    sender_symbols: u16,
    sender_marks: &[u16],
    sender_rules: &[u16],
    receiver_symbols: u16,
    receiver_marks: &[u16],
    receiver_rules: &[u16],
    witness: &mut [u16],
) -> Answer
    ensures { IncludeSays (lent sender_symbols sender_marks.now sender_rules.now)
        (lent receiver_symbols receiver_marks.now receiver_rules.now)
        witness.old result witness.new }
{
    embed::baranduk_include(
        sender_symbols,
        sender_marks,
        sender_rules,
        receiver_symbols,
        receiver_marks,
        receiver_rules,
        witness,
    )
}
