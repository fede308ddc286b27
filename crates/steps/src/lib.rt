// The steps of the search of the inclusion test: the pairs that the sender's leaf rules give, those that its ε rules give of pairs in the
// queue, and those that its join rules give of a pair and the pairs taken.
// specs/Runs has what each step does to any work slice, specs/Steps what that is in the slice of a search (proofs/StepLaws).
#![tactic(auto)]

ghost use Rattle.std.specs.Prelude.{◌/◌, length};
ghost use Rattle.paper.specs.Limits.{limits};
ghost use Rattle.pairs.specs.Work.{RowIn, Kept};
ghost use Rattle.steps.specs.Runs.{row_at, LeafStep, Leaves, EpsStep, EpsSteps, Closing, JoinStep, BothSteps, RowSteps, Joins};

use pairs::{Pair, Queue, Receiver, Sender};
use paper::RuleRow;

// Finds the pair of the sender's rule g, if it is a leaf rule.
fn leaf_row(s: &[u16], r: &[u16], queue: &mut Queue, g: usize)
    requires { RowIn limits.width s.now g }
    ensures step { LeafStep limits queue.old.sizes r.now (row_at limits s.now g)
        queue.old.work.now queue.old.count queue.new.work.now queue.new.count }
    ensures kept { Kept queue.old queue.new }
{
    let rule = pairs::rule_row(s, g);
    if rule.kind != paper::LEAF_RULE {
        return;
    }
    let n = queue.sizes.receivers;
    let q = moves::leaf_state(r, n, rule.left);
    let c = pairs::number(Sender(rule.to), q, n);
    queue.add(c, rule.left as usize, paper::LEAF as usize);
}

// Finds the pairs of the sender's leaf rules.
// Kept: three loops down the sender's rules, here, in eps_rows and in join_all; one over a closure would say each step's contract twice.
pub fn leaves(s: &[u16], r: &[u16], queue: &mut Queue)
    ensures steps { Leaves limits queue.old.sizes s.now r.now
        queue.old.work.now queue.old.count queue.new.work.now queue.new.count }
    ensures kept { Kept queue.old queue.new }
{
    for g in 0..s.len() / paper::WIDTH {
        leaf_row(s, r, queue, g);
    }
}

// Finds the pair that the sender's rule g gives of a pair, if it is an ε rule from its state.
fn eps_row(s: &[u16], queue: &mut Queue, g: usize, pair: Pair)
    requires { RowIn limits.width s.now g }
    ensures step { EpsStep queue.old.sizes pair (row_at limits s.now g)
        queue.old.work.now queue.old.count queue.new.work.now queue.new.count }
    ensures kept { Kept queue.old queue.new }
{
    let rule = pairs::rule_row(s, g);
    if rule.kind != paper::EPSILON_RULE {
        return;
    }
    if rule.left != pair.p.0 {
        return;
    }
    let q = pair.q;
    let n = queue.sizes.receivers;
    let a = pairs::number(Sender(rule.left), q, n);
    let c = pairs::number(Sender(rule.to), q, n);
    queue.add(c, a, pairs::EPSILON as usize);
}

// Finds the pairs that the sender's ε rules give of a pair.
fn eps_rows(s: &[u16], queue: &mut Queue, pair: Pair)
    ensures steps { EpsSteps limits queue.old.sizes s.now pair (length s.now / limits.width)
        queue.old.work.now queue.old.count queue.new.work.now queue.new.count }
    ensures kept { Kept queue.old queue.new }
{
    for g in 0..s.len() / paper::WIDTH {
        eps_row(s, queue, g, pair);
    }
}

// Uses the sender's ε rules on each pair of the queue from the place `from` on, also on those that come by it.
pub fn close_eps(s: &[u16], queue: &mut Queue, from: usize)
    ensures steps { Closing limits queue.old.sizes s.now from
        queue.old.work.now queue.old.count queue.new.work.now queue.new.count }
    ensures kept { Kept queue.old queue.new }
{
    for j in from..queue.sizes.pairs {
        if queue.count <= j {
            return;
        }
        let pair = queue.pair_at(j);
        eps_rows(s, queue, pair);
    }
}

// Joins two pairs by a rule of the sender, if both are taken: its left state's with x and its right state's with y.
fn join_one(r: &[u16], queue: &mut Queue, rule: RuleRow, x: Receiver, y: Receiver)
    ensures step { JoinStep limits queue.old.sizes r.now rule x.0 y.0
        queue.old.work.now queue.old.count queue.new.work.now queue.new.count }
    ensures kept { Kept queue.old queue.new }
{
    let z = queue.sizes;
    let a = pairs::number(Sender(rule.left), x, z.receivers);
    if !queue.is_taken(a) {
        return;
    }
    let b = pairs::number(Sender(rule.right), y, z.receivers);
    if !queue.is_taken(b) {
        return;
    }
    let q = moves::step(r, z, queue.slice(), x, y);
    let c = pairs::number(Sender(rule.to), q, z.receivers);
    queue.add(c, a, b);
}

// Joins a pair with the taken pair of y that fits, as the left part of the rule and as its right part.
fn join_both(r: &[u16], queue: &mut Queue, rule: RuleRow, pair: Pair, y: Receiver)
    ensures steps { BothSteps limits queue.old.sizes r.now rule pair y.0
        queue.old.work.now queue.old.count queue.new.work.now queue.new.count }
    ensures kept { Kept queue.old queue.new }
{
    let q = pair.q;
    if rule.left == pair.p.0 {
        join_one(r, queue, rule, q, y);
    }
    if rule.right == pair.p.0 {
        join_one(r, queue, rule, y, q);
    }
}

// Joins a pair with the taken pairs by the sender's rule g, if it is a join rule that names the pair's state.
fn join_row(s: &[u16], r: &[u16], queue: &mut Queue, g: usize, pair: Pair)
    requires { RowIn limits.width s.now g }
    ensures steps { RowSteps limits queue.old.sizes r.now pair (row_at limits s.now g)
        queue.old.work.now queue.old.count queue.new.work.now queue.new.count }
    ensures kept { Kept queue.old queue.new }
{
    let rule = pairs::rule_row(s, g);
    if rule.kind != paper::JOIN_RULE {
        return;
    }
    if rule.left != pair.p.0 {
        if rule.right != pair.p.0 {
            return;
        }
    }
    let states = queue.sizes.receivers as usize + 1;
    for y in 0..states {
        join_both(r, queue, rule, pair, Receiver(y as u16));
    }
}

// Joins a pair with the taken pairs by all join rules of the sender.
pub fn join_all(s: &[u16], r: &[u16], queue: &mut Queue, pair: Pair)
    ensures steps { Joins limits queue.old.sizes s.now r.now pair
        queue.old.work.now queue.old.count queue.new.work.now queue.new.count }
    ensures kept { Kept queue.old queue.new }
{
    for g in 0..s.len() / paper::WIDTH {
        join_row(s, r, queue, g, pair);
    }
}
