// The program `compile`: reads a model text on standard input, and writes the rule text of its table or the line of its refusal.
#![tactic(auto)]

use std::io;

fn main(rt: HostRuntime) -> io::Result<()> {
    let mut text = [0u8; paper::INPUT];
    let count = intake::read_full(&mut rt.stdin(), &mut text).count;
    let mut out = [0u8; paper::TEXT];
    if let Ok(n) = compile_text::compile_text(&text[..count], &mut out) {
        rt.write_all(&out[..n])?;
    }
    Ok(())
}
