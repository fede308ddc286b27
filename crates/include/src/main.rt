// The program `include`: reads sender.txt and receiver.txt in the current folder, and writes the answer to the two rule texts.
#![tactic(auto)]

use std::io;

fn main(rt: HostRuntime) -> io::Result<()> {
    let mut sender = [0u8; paper::INPUT];
    let s = intake::read_file(&rt, "sender.txt", &mut sender);
    let mut receiver = [0u8; paper::INPUT];
    let r = intake::read_file(&rt, "receiver.txt", &mut receiver);
    let mut out = [0u8; include_text::ANSWER];
    if let Ok(n) = include_text::include_text(&sender[..s], &receiver[..r], &mut out) {
        rt.write_all(&out[..n])?;
    }
    Ok(())
}
