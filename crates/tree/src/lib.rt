// A tree as a lent list of nodes, two numbers each, and its check: refusal 12.
// specs/Tree has trees and the tree of a node list, specs/Nodes what is wrong with one.
#![tactic(auto)]

ghost use Rattle.std.specs.Prelude.{◌≡◌, ◌+◌, ◌*◌, ◌≤◌, length};
ghost use Rattle.paper.specs.Limits.{limits};
ghost use Rattle.paper.specs.Told.{Tells, check_told};
ghost use Rattle.tree.specs.Nodes.{BadNode, tree_checked};

use paper::{Checked, Fault, Refusal};

// Is node i a leaf with a symbol out of range, or a join with a child that is not earlier?
fn is_bad(symbols: u16, nodes: &[u16], i: usize) -> bool
    requires { 2 * i + 2 ≤ length nodes.now }
    ensures { Tells result (BadNode symbols nodes.now i) }
{
    let a = nodes[2 * i];
    let b = nodes[2 * i + 1];
    if b == paper::LEAF {
        return symbols <= a;
    }
    if i <= a as usize {
        return true;
    }
    i <= b as usize
}

// Checks a tree over so many symbols: its length, then node by node.
pub fn check(symbols: u16, nodes: &[u16]) -> Checked
    ensures { check_told result ≡ tree_checked limits symbols nodes.now }
{
    if nodes.len() % 2 == 1 {
        return Err(Refusal::at(Fault::Tree, 0));
    }
    if nodes.is_empty() {
        return Err(Refusal::at(Fault::Tree, 0));
    }
    if 2 * paper::NODES < nodes.len() {
        return Err(Refusal::at(Fault::Tree, 0));
    }
    for i in 0..nodes.len() / 2 {
        if is_bad(symbols, nodes, i) {
            return Err(Refusal::at(Fault::Tree, i + 1));
        }
    }
    Ok(())
}
