// Cases of the inclusion test, each a file of data/ with the room for a witness and two tables in numbers; a witness is held against both
// tables by acceptance, and its height is told. The file stdout beside src/ has what each must be told, and docs/CASES.md what each is.
#![tactic(auto)]

ghost use Rattle.std.specs.Prelude.{◌≡◌, ◌+◌, ◌*◌, ◌≤◌, length};
ghost use Rattle.lines.specs.Number.{most_number};

use std::io;
use std::rt::Files;

// So many cases there are, i01 ..
const CASES: usize = 57;

// A witness of at most so many nodes is written out.
const SHOWN: usize = 12;

// Where a table stands among the numbers of a case: its symbols, how many marks, the marks, how many rule numbers, and these.
#[derive(Drop)]
struct Place {
    symbols: u16,
    marks: usize,
    states: usize,
    rules: usize,
    count: usize,
}

fn table_at(all: &[u16], a: usize) -> Place
    requires { a ≤ 3 * most_number }
    ensures { (result.rules ≤ a + 3 + most_number) × (result.count ≤ most_number) }
{
    let states = say::at(all, a + 1) as usize;
    let count = say::at(all, a + 2 + states) as usize;
    Place {
        symbols: say::at(all, a),
        marks: a + 2,
        states,
        rules: a + 3 + states,
        count,
    }
}

// Says whether a table accepts a tree.
fn judge(rt: &impl Print, all: &[u16], t: Place, nodes: &[u16]) -> io::Result<()> {
    let marks = say::part(all, t.marks, t.states);
    let rules = say::part(all, t.rules, t.count);
    match accept::accept(t.symbols, marks, rules, nodes) {
        Ok(true) => say::text(rt, b"\taccepted"),
        Ok(false) => say::text(rt, b"\trejected"),
        Err(f) => say::refusal(rt, f),
    }
}

// The height of node i, the joins on the longest way from it to a leaf, over the heights of the nodes before it.
fn node_height(nodes: &[u16], i: usize, heights: &[u16]) -> u16
    requires { 2 * i + 2 ≤ length nodes.now }
{
    let a = nodes[2 * i];
    let b = nodes[2 * i + 1];
    if b == paper::LEAF {
        return 0;
    }
    let left = say::at(heights, a as usize);
    let right = say::at(heights, b as usize);
    let most = left.max(right);
    if most == paper::LEAF {
        return most;
    }
    most + 1
}

// Sets number i of the slice, if it goes so far.
fn put(all: &mut [u16], i: usize, v: u16)
    ensures { length all.new ≡ length all.old }
{
    if i < all.len() {
        all[i] = v;
    }
}

// The height of a tree, with the heights of its nodes in the slice, as far as it goes.
fn height(nodes: &[u16], heights: &mut [u16]) -> u16 {
    let mut last = 0;
    for i in 0..nodes.len() / 2 {
        last = node_height(nodes, i, heights);
        put(heights, i, last);
    }
    last
}

// The nodes of a small witness.
fn list(rt: &impl Print, nodes: &[u16]) -> io::Result<()> {
    if 2 * SHOWN < nodes.len() {
        return Ok(());
    }
    for number in nodes {
        say::field(rt, *number as usize)?;
    }
    Ok(())
}

// A witness of k nodes: their number, the tree's height, whether each table accepts it, and the nodes; and whether what stands behind it
// has changed.
fn show(
    rt: &impl Print,
    all: &[u16],
    sender: Place,
    receiver: Place,
    room: &[u16],
    k: usize,
) -> io::Result<()> {
    say::text(rt, b"\twitness")?;
    say::field(rt, k)?;
    if k <= room.len() / 2 {
        let mut heights = [0u16; paper::NODES];
        let nodes = &room[..2 * k];
        say::field(rt, height(nodes, &mut heights) as usize)?;
        judge(rt, all, sender, nodes)?;
        judge(rt, all, receiver, nodes)?;
        list(rt, nodes)?;
        say::changed(rt, &room[2 * k..])?;
    }
    Ok(())
}

// Says what the inclusion test answers.
fn tell(
    rt: &impl Print,
    all: &[u16],
    sender: Place,
    receiver: Place,
    room: &mut [u16],
) -> io::Result<()> {
    let answer = inclusion::include(
        sender.symbols,
        say::part(all, sender.marks, sender.states),
        say::part(all, sender.rules, sender.count),
        receiver.symbols,
        say::part(all, receiver.marks, receiver.states),
        say::part(all, receiver.rules, receiver.count),
        room,
    );
    match answer {
        Ok(Some(k)) => show(rt, all, sender, receiver, room, k)?,
        Ok(None) => {
            say::text(rt, b"\tincluded")?;
            say::changed(rt, room)?;
        }
        Err(f) => {
            say::refusal(rt, f)?;
            say::changed(rt, room)?;
        }
    }
    say::text(rt, b"\n")
}

// Case n, its witness slice full of FILLERs; no case has more numbers than a rule text has bytes.
fn compare(rt: &(impl Files + Print), n: usize) -> io::Result<()> {
    let mut bytes = [0u8; paper::INPUT];
    let mut all = [0u16; paper::TEXT];
    let mut slice = [say::FILLER; 2 * paper::NODES];
    let length = say::load(rt, b'i', n, &mut bytes)?;
    let count = say::numbers(&bytes[..length], &mut all);
    let numbers = say::part(&all, 0, count);
    let room = say::at(numbers, 0) as usize;
    let sender = table_at(numbers, 1);
    let receiver = table_at(numbers, sender.rules + sender.count);
    if room <= slice.len() {
        tell(rt, numbers, sender, receiver, &mut slice[..room])?;
    }
    Ok(())
}

fn main(rt: HostRuntime) -> io::Result<()> {
    for n in 1..CASES + 1 {
        compare(&rt, n)?;
    }
    Ok(())
}
