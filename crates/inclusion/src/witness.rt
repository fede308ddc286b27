// The witness, the tree of a failing pair: a walk down the queue marks the pairs that it needs, a walk up writes nodes for them.
// Of n pairs, the work memory keeps what it keeps from base on (specs/Memory of pairs).
// specs/Trace has the queue that the walks take, specs/Write what each function does.
ghost use Rattle.std.specs.Prelude.{◌≡◌, ◌≢◌, ◌+◌, ◌*◌, ◌≤◌, ◌<◌, length, set};
ghost use Rattle.paper.specs.Limits.{at};
ghost use Rattle.tree.specs.Tree.{leaf_mark};
ghost use Rattle.pairs.specs.Memory.{memory};
ghost use Rattle.inclusion.specs.Trace.{Traced, Ready, EntryAt};
ghost use Rattle.inclusion.specs.Write.{WantRow, Wanting, WriteRow, Writable, Writes};

use pairs::Sizes;

// The mark of a pair that is needed.
const NEEDED: u16 = 1;

// What is kept of a pair: its number, its mark, and the two numbers that say where it came from.
#[derive(Drop)]
struct Entry {
    pair: u16,
    mark: u16,
    left: u16,
    right: u16,
}

// Reads number c of the part of the work memory that begins at from.
fn get(work: &[u16], from: usize, c: usize) -> u16
    requires { from + c < length work.now }
    ensures { result ≡ at work.now (from + c) }
{
    work[from + c]
}

// Reads what is kept of the pair at place j of the queue.
fn read_row(base: usize, n: usize, work: &[u16], j: usize) -> Entry
    requires { Ready base n (memory base n work.now) j }
    ensures { EntryAt (memory base n work.now) j result }
{
    let pair = get(work, base + n, j);
    let c = pair as usize;
    let mark = get(work, base, c);
    let left = get(work, base + pairs::FIRSTS * n, c);
    let right = get(work, base + pairs::SECONDS * n, c);
    Entry {
        pair,
        mark,
        left,
        right,
    }
}

// Takes all marks away and marks the pair at place i.
fn mark(base: usize, n: usize, work: &mut [u16], i: usize)
    requires { Traced base n (memory base n work.old) (i + 1) }
    ensures { Wanting base n (memory base n work.old) (memory base n work.new) i (i + 1) }
{
    work[base..base + n].fill(0);
    let root = work[base + n + i] as usize;
    work[base + root] = NEEDED;
}

// Marks the parts of the pair at place j, if it is marked itself.
fn want_row(base: usize, n: usize, work: &mut [u16], j: usize)
    requires { Ready base n (memory base n work.old) j }
    ensures { WantRow (memory base n work.old) j (memory base n work.new) }
{
    let e = read_row(base, n, work, j);
    if e.mark == 0 {
        return;
    }
    let right = e.right;
    if right == paper::LEAF {
        return;
    }
    work[base + e.left as usize] = NEEDED;
    if right == pairs::EPSILON {
        return;
    }
    work[base + right as usize] = NEEDED;
}

// Marks the pair at place i and all that it needs, and nothing else.
fn want(base: usize, n: usize, work: &mut [u16], i: usize)
    requires { Traced base n (memory base n work.old) (i + 1) }
    ensures { Wanting base n (memory base n work.old) (memory base n work.new) i 0 }
{
    mark(base, n, work, i);
    for j in (0..i + 1).rev() {
        want_row(base, n, work, j);
    }
}

// The number that a node has for v, a number of its pair: v itself in a leaf, else that of v's node, in place of v's left number.
fn part(work: &[u16], lefts: usize, right: u16, v: u16) -> u16
    requires { right ≢ leaf_mark → lefts + v < length work.now }
    ensures { (right ≡ leaf_mark → result ≡ v) × (right ≢ leaf_mark → result ≡ at work.now (lefts + v)) }
{
    if right == paper::LEAF {
        return v;
    }
    work[lefts + v as usize]
}

// Writes node m.
fn put_node(out: &mut [u16], m: usize, x: u16, y: u16)
    requires { 2 * m + 1 < length out.old }
    ensures { out.new ≡ set (set out.old (2 * m) x) (2 * m + 1) y }
{
    out[2 * m] = x;
    out[2 * m + 1] = y;
}

// Writes the node of the pair at place j, if it is marked and has one of its own; m nodes are written. Returns how many then are.
fn write_row(base: usize, n: usize, work: &mut [u16], out: &mut [u16], j: usize, m: usize) -> usize
    requires { Ready base n (memory base n work.old) j × (m ≤ j) × (2 * n ≤ length out.old) }
    ensures { WriteRow base n work.old out.old m j work.new out.new result }
{
    let e = read_row(base, n, work, j);
    if e.mark == 0 {
        return m;
    }
    let right = e.right;
    let lefts = base + pairs::FIRSTS * n;
    let c = lefts + e.pair as usize;
    let x = part(work, lefts, right, e.left);
    if right == pairs::EPSILON {
        work[c] = x;
        return m;
    }
    let y = part(work, lefts, right, right);
    put_node(out, m, x, y);
    work[c] = m as u16;
    m + 1
}

// Writes the witness of the pair at place i of the queue. Returns the count of its nodes.
pub(crate) fn witness(z: Sizes, work: &mut [u16], out: &mut [u16], i: usize) -> usize
    requires { Writable z work.old out.old i }
    ensures { Writes z work.old work.new out.old out.new i result }
{
    let base = z.base;
    let n = z.pairs;
    want(base, n, work, i);
    let mut m = 0;
    for j in 0..i + 1 {
        m = write_row(base, n, work, out, j, m);
    }
    m
}
