// The inclusion test of two tables: is every tree that the sender accepts accepted by the receiver? If not, a tree that is not is written
// to the lent witness slice. Refusals: the sender's table, the receiver's table, 7, 8, 9, 10, 11.
// specs/Inclusion has what the answer tells; search.rt finds the answer, by the steps of crate steps, witness.rt writes the tree;
// specs/Search, Trace and Write have what their functions do to the work memory.
#![tactic(auto)]

ghost use Rattle.std.specs.Prelude.{◌≤◌, Ok, length};
ghost use Rattle.paper.specs.Limits.{limits};
ghost use Rattle.inclusion.specs.Inclusion.{lent, Answered, Comparable, told};
ghost use Rattle.inclusion.specs.Prepare.{Laid, Prepared};

use pairs::Sizes;
use paper::{Fault, Refusal, Side};

mod search;
mod witness;

// The most pairs, and so many numbers has the work memory: those of the receiver's states, the index of its join rules, and four a pair.
const PAIRS: usize = paper::STATES * (paper::STATES + 1);

const WORK: usize = factorized::NUMBERS + paper::STATES + 1 + paper::RULES + pairs::PARTS * PAIRS;

// Where the parts of the work memory begin, for so many states of the sender and of the receiver and so many rules of the receiver.
fn lay(senders: usize, receivers: usize, rules: usize) -> Sizes
    requires { (senders ≤ limits.states) × (receivers ≤ limits.states) × (rules ≤ limits.rules) }
    ensures { Laid senders receivers rules result }
{
    let index = factorized::EACH * (receivers + 1);
    Sizes {
        receivers: receivers as u16,
        pairs: senders * (receivers + 1),
        index,
        base: index + receivers + 1 + rules,
    }
}

// Compares two tables that nothing is wrong with; first in the work memory stand the numbers of the receiver's states, and then zeros.
// Tells how many nodes the witness has, if there is one.
fn compare(
    symbols: u16,
    sender_marks: &[u16],
    sender_rules: &[u16],
    receiver_marks: &[u16],
    receiver_rules: &[u16],
    work: &mut [u16],
    witness: &mut [u16],
) -> Option<usize>
    requires { Comparable limits (lent symbols sender_marks.now sender_rules.now)
        (lent symbols receiver_marks.now receiver_rules.now) (length witness.old)
        × Prepared receiver_marks.now receiver_rules.now work.old }
    ensures { Answered limits (lent symbols sender_marks.now sender_rules.now)
        (lent symbols receiver_marks.now receiver_rules.now)
        witness.old witness.new (told (Ok result)) }
{
    let z = lay(
        sender_marks.len(),
        receiver_marks.len(),
        receiver_rules.len() / paper::WIDTH,
    );
    let index = z.index;
    joins::build(receiver_rules, receiver_marks.len(), &mut work[index..]);
    let i = search::search(sender_marks, sender_rules, receiver_rules, z, work)?;
    Some(witness::witness(z, work, witness, i))
}

// Is every tree that the sender's table accepts accepted by the receiver's? If not, a witness is written to the front of the slice, and
// the count of its nodes is told.
pub fn include(
    sender_symbols: u16,
    sender_marks: &[u16],
    sender_rules: &[u16],
    receiver_symbols: u16,
    receiver_marks: &[u16],
    receiver_rules: &[u16],
    witness: &mut [u16],
) -> Result<Option<usize>, Refusal>
    ensures { Answered limits (lent sender_symbols sender_marks.now sender_rules.now)
        (lent receiver_symbols receiver_marks.now receiver_rules.now)
        witness.old witness.new (told result) }
{
    if let Err(f) = table::check(sender_symbols, sender_marks, sender_rules) {
        return Err(f.of(Side::Sender));
    }
    let mut work = [0u16; WORK];
    let checked = factorized::factor(receiver_symbols, receiver_marks, receiver_rules, &mut work);
    if let Err(f) = checked {
        return Err(f.of(Side::Receiver));
    }
    if sender_symbols != receiver_symbols {
        return Err(Refusal::at(Fault::SymbolCounts, 0));
    }
    if witness.len() < 2 * (sender_marks.len() * (receiver_marks.len() + 1)) {
        return Err(Refusal::at(Fault::WitnessRoom, 0));
    }
    Ok(compare(
        sender_symbols,
        sender_marks,
        sender_rules,
        receiver_marks,
        receiver_rules,
        &mut work,
        witness,
    ))
}
