// The receiver's moves, as the search makes them: the base state of a leaf, the base state of a join, and whether a pair fails.
// specs/Looked has what they read on any slices, specs/Receiving the receiver as the search has it, and proofs/MoveLaws what they
// are there.
#![tactic(auto)]

ghost use Rattle.paper.specs.Limits.{limits};
ghost use Rattle.paper.specs.Told.{Tells};
ghost use Rattle.moves.specs.Looked.{FirstLeaf, Stepped, FailsAt};

use pairs::{Pair, Receiver, Sizes};

// So many numbers has a receiver's state, and where they stand: the one left state, the one right state, whether a final one is reached.
const EACH: usize = 3;

const LEFT: usize = 0;

const RIGHT: usize = 1;

const ENDS: usize = 2;

// The receiver's base state of a leaf, or n if it has none.
// Kept: n is a state of the product, the one that stands for none, and a pair has it as any other (FirstLeaf, base states of product).
pub fn leaf_state(rules: &[u16], n: u16, a: u16) -> Receiver
    ensures { FirstLeaf limits.width rules.now n a result.0 }
{
    for i in 0..rules.len() / paper::WIDTH {
        let row = pairs::rule_row(rules, i);
        if row.kind == paper::LEAF_RULE {
            if row.left == a {
                return Receiver(row.to);
            }
        }
    }
    Receiver(n)
}

// The receiver's base state of a join of trees with the base states x and y, or the state that stands for none if it has none.
pub fn step(rules: &[u16], z: Sizes, work: &[u16], x: Receiver, y: Receiver) -> Receiver
    ensures { Stepped limits.width rules.now z work.now x.0 y.0 result.0 }
{
    let i = EACH * x.0 as usize + LEFT;
    let j = EACH * y.0 as usize + RIGHT;
    let from = z.index;
    let to = z.base;
    if work.len() < to {
        return Receiver(z.receivers);
    }
    if to < from {
        return Receiver(z.receivers);
    }
    if to <= i {
        return Receiver(z.receivers);
    }
    if to <= j {
        return Receiver(z.receivers);
    }
    let target = joins::target(rules, &work[from..to], work[i], work[j]);
    Receiver(target.unwrap_or(z.receivers))
}

// Does the pair fail?
pub fn fails(marks: &[u16], work: &[u16], pair: Pair) -> bool
    ensures { Tells result (FailsAt marks.now work.now pair) }
{
    let p = pair.p;
    if !pairs::is_final(marks, p) {
        return false;
    }
    let i = EACH * pair.q.0 as usize + ENDS;
    if work.len() <= i {
        return false;
    }
    work[i] != 1
}
