// Acceptance of a tree by a table. The lent nodes are read in place, node by node; a node's set of states is kept in the library's own
// memory, one bit a state.
// specs/Accept has what the answer tells, specs/Work the memory and what each function does to it.
#![tactic(auto)]

ghost use Rattle.std.specs.Prelude.{◌+◌, ◌*◌, ◌/◌, ◌≤◌, ◌<◌, length};
ghost use Rattle.paper.specs.Limits.{limits};
ghost use Rattle.paper.specs.Told.{Tells};
ghost use Rattle.accept.specs.Work.{span, In, Room, Ready, Evaluable, Added, FitsRow, GatherRow, GatherAll};
ghost use Rattle.accept.specs.Work.{PassedRow, PassedAll, ClosedAll, Going, Evaluated, IsFinal, HasFinal, Judgeable};
ghost use Rattle.accept.specs.Accept.{AcceptsNodes, Judged, told};

use paper::Refusal;

// So many words has the set of a node, one bit a state, and so many bits.
const WORDS: usize = 4;

const SPAN: usize = WORDS * bits::WORD;

// Is state q in the set of node i?
fn has(work: &[u16], i: usize, q: u16) -> bool
    requires { i < limits.nodes }
    ensures { Tells result (In span work.now i q) }
{
    bits::get(work, i * SPAN + q as usize)
}

// Puts state q into the set of node i.
fn add(work: &mut [u16], i: usize, q: u16)
    requires { Room work.old i × (q < span) }
    ensures { Added span work.old i q work.new }
{
    bits::put(work, i * SPAN + q as usize);
}

// The rules of a table and the nodes of a tree that can be evaluated.
#[derive(Drop)]
struct Input<'a> {
    rules: &'a [u16],
    nodes: &'a [u16],
    ghost can: { Evaluable rules.now nodes.now },
}

// Kept: by index, as this is the hottest loop; with table::row_at the slowest acceptance took 14 of a hundred more instructions.
impl<'a> Input<'a> {
    // Does rule k give node i its target, before any ε step?
    fn fits(&self, k: usize, i: usize, work: &[u16]) -> bool
        requires k_in_bounds { k < length self.now.rules.now / limits.width }
        requires ready { Ready self.now.nodes.now work.now i }
        ensures { Tells result (FitsRow self.now.rules.now k self.now.nodes.now i work.now) }
    {
        let r = k * paper::WIDTH;
        let a = self.nodes[2 * i];
        let b = self.nodes[2 * i + 1];
        if b == paper::LEAF {
            if self.rules[r] != paper::LEAF_RULE {
                return false;
            }
            return self.rules[r + 1] == a;
        }
        if self.rules[r] != paper::JOIN_RULE {
            return false;
        }
        if !has(work, a as usize, self.rules[r + 1]) {
            return false;
        }
        has(work, b as usize, self.rules[r + 2])
    }

    // Adds the target of rule k to the set of node i, if the rule gives it before any ε step.
    fn gather_row(&self, k: usize, i: usize, work: &mut [u16])
        requires k_in_bounds { k < length self.now.rules.now / limits.width }
        requires ready { Ready self.now.nodes.now work.old i }
        ensures { GatherRow self.now.rules.now k self.now.nodes.now i work.old work.new }
    {
        if !self.fits(k, i, work) {
            return;
        }
        add(work, i, self.rules[k * paper::WIDTH + 3]);
    }

    // Adds to the set of node i the targets of all rules that give them before any ε step.
    fn gather(&self, i: usize, work: &mut [u16])
        requires { Ready self.now.nodes.now work.old i }
        ensures { GatherAll self.now.rules.now self.now.nodes.now i work.old work.new }
    {
        for k in 0..self.rules.len() / paper::WIDTH {
            self.gather_row(k, i, work);
        }
    }

    // Adds the target of rule k to the set of node i, if it is an ε rule from a state of the set. Tells how many are new.
    // Kept: factorized has this, step_all and close on flags in a slice; a trait for those and a node's bits, with its laws, is longer.
    fn step_row(&self, k: usize, i: usize, work: &mut [u16]) -> usize
        requires k_in_bounds { k < length self.now.rules.now / limits.width }
        requires room { Room work.old i }
        ensures { PassedRow self.now.rules.now k work.old i work.new result }
    {
        let r = k * paper::WIDTH;
        if self.rules[r] != paper::EPSILON_RULE {
            return 0;
        }
        if !has(work, i, self.rules[r + 1]) {
            return 0;
        }
        if has(work, i, self.rules[r + 3]) {
            return 0;
        }
        add(work, i, self.rules[r + 3]);
        1
    }

    // Takes the ε rules in order, once each, at the set of node i. Tells how many states are new.
    fn step_all(&self, i: usize, work: &mut [u16]) -> usize
        requires { Room work.old i }
        ensures { PassedAll self.now.rules.now work.old i work.new result }
    {
        let mut new = 0;
        for k in 0..self.rules.len() / paper::WIDTH {
            new += self.step_row(k, i, work);
        }
        new
    }

    // Adds to the set of node i all that ε steps reach from it.
    fn close(&self, i: usize, work: &mut [u16])
        requires { Room work.old i }
        ensures { ClosedAll self.now.rules.now work.old i work.new }
    {
        loop {
            let new = self.step_all(i, work);
            if new == 0 {
                return;
            }
        }
    }

    // Evaluates node i, all nodes before it being evaluated.
    fn settle(&self, i: usize, work: &mut [u16])
        requires i_in_bounds { 2 * i + 2 ≤ length self.now.nodes.now }
        requires going { Going self.now.rules.now self.now.nodes.now work.old i }
        ensures { Going self.now.rules.now self.now.nodes.now work.new (i + 1) }
    {
        self.gather(i, work);
        self.close(i, work);
    }

    // Evaluates all nodes.
    fn evaluate(&self, work: &mut [u16])
        requires { Going self.now.rules.now self.now.nodes.now work.old 0 }
        ensures { Evaluated self.now.rules.now self.now.nodes.now work.new }
    {
        for i in 0..self.nodes.len() / 2 {
            self.settle(i, work);
        }
    }
}

// Is q a final state, and in the set of node i?
fn is_final(marks: &[u16], work: &[u16], i: usize, q: usize) -> bool
    requires { (q < length marks.now) × (length marks.now ≤ span) × (i < limits.nodes) }
    ensures { Tells result (IsFinal span marks.now work.now i q) }
{
    if marks[q] % 2 != 1 {
        return false;
    }
    has(work, i, q as u16)
}

// Is a final state in the set of node i?
fn has_final(marks: &[u16], work: &[u16], i: usize) -> bool
    requires { (length marks.now ≤ span) × (i < limits.nodes) }
    ensures { Tells result (HasFinal span marks.now work.now i) }
{
    for q in 0..marks.len() {
        if is_final(marks, work, i, q) {
            return true;
        }
    }
    false
}

// Does the table accept the tree?
fn accepts(marks: &[u16], rules: &[u16], nodes: &[u16]) -> bool
    requires { Judgeable marks.now rules.now nodes.now }
    ensures { Tells result (AcceptsNodes limits marks.now rules.now nodes.now) }
{
    let mut work = [0u16; WORDS * paper::NODES];
    Input { rules, nodes }.evaluate(&mut work);
    has_final(marks, &work, nodes.len() / 2 - 1)
}

// Is the tree accepted by the table? The table is checked first, then the tree.
pub fn accept(symbols: u16, marks: &[u16], rules: &[u16], nodes: &[u16]) -> Result<bool, Refusal>
    ensures { Judged limits symbols marks.now rules.now nodes.now (told result) }
{
    table::check(symbols, marks, rules)?;
    tree::check(symbols, nodes)?;
    Ok(accepts(marks, rules, nodes))
}
