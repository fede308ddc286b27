// A table read in place: a struct holds its symbol count, its state marks and its rules, lent and not copied, and thin functions over it
// answer what the functions on plain slices answer. Those with plain parameters, whose names end in _of, make the struct and pass it on.
// Each promises what the function that does the work promises (table::check, factorized::check, accept::accept, inclusion::include), of
// what the struct's slices hold; specs/Shown has the struct and the table that it shows.
#![tactic(auto)]

ghost use Rattle.std.specs.Prelude.{◌≡◌};
ghost use Rattle.paper.specs.Limits.{limits};
ghost use Rattle.paper.specs.Told.{check_told};
ghost use Rattle.table.specs.Check.{table_checked};
ghost use Rattle.receiver.specs.Check.{ReceiverChecked};
ghost use Rattle.accept.specs.Accept.{Judged, told as judged_told};
ghost use Rattle.inclusion.specs.Inclusion.{lent, Answered, told};
ghost use Rattle.view.specs.Shown.{view_of, lent_of};

use paper::{Checked, Refusal};

// A table in place: how many symbols, one number a state, four numbers a rule.
#[derive(Drop)]
pub struct View<'a, 'b> {
    pub symbols: u16,
    pub marks: &'a [u16],
    pub rules: &'b [u16],
}

// The view of these slices.
pub fn new<'a, 'b>(symbols: u16, marks: &'a [u16], rules: &'b [u16]) -> View<'a, 'b>
    ensures { result ≡ view_of symbols marks.entry rules.entry }
{
    View {
        symbols,
        marks,
        rules,
    }
}

// Checks the table: its size, its slice's length, its marks in order, its rules in order.
pub fn check<'a, 'b>(t: View<'a, 'b>) -> Checked
    ensures { check_told result ≡ table_checked limits t.entry.symbols t.entry.marks.now
        t.entry.rules.now }
{
    table::check(t.symbols, t.marks, t.rules)
}

// The same for plain slices.
// Kept: both forms are promised, as of each function below (docs/DECISIONS.md, the forms that the scope names).
pub fn check_of(symbols: u16, marks: &[u16], rules: &[u16]) -> Checked
    ensures { check_told result ≡ table_checked limits symbols marks.now rules.now }
{
    check(new(symbols, marks, rules))
}

// Checks the table as a receiver's: the table's own refusals, then 7, 8 and 9.
pub fn check_receiver<'a, 'b>(t: View<'a, 'b>) -> Checked
    ensures { ReceiverChecked limits t.entry.symbols t.entry.marks.now t.entry.rules.now
        (check_told result) }
{
    factorized::check(t.symbols, t.marks, t.rules)
}

// The same for plain slices.
pub fn check_receiver_of(symbols: u16, marks: &[u16], rules: &[u16]) -> Checked
    ensures { ReceiverChecked limits symbols marks.now rules.now (check_told result) }
{
    check_receiver(new(symbols, marks, rules))
}

// Is the tree of these nodes accepted by the table? The table is checked first, then the tree.
pub fn accept<'a, 'b, 'c>(t: View<'a, 'b>, nodes: &'c [u16]) -> Result<bool, Refusal>
    ensures { Judged limits t.entry.symbols t.entry.marks.now t.entry.rules.now
        nodes.now (judged_told result) }
{
    accept::accept(t.symbols, t.marks, t.rules, nodes)
}

// The same for plain slices.
pub fn accept_of(symbols: u16, marks: &[u16], rules: &[u16], nodes: &[u16]) -> Result<bool, Refusal>
    ensures { Judged limits symbols marks.now rules.now nodes.now
        (judged_told result) }
{
    accept(new(symbols, marks, rules), nodes)
}

// Is every tree that the sender's table accepts accepted by the receiver's? If not, a witness is written to the front of the slice.
pub fn include<'a, 'b, 'c, 'd, 'w>(
    sender: View<'a, 'b>,
    receiver: View<'c, 'd>,
    witness: &'w mut [u16],
) -> Result<Option<usize>, Refusal>
    ensures { Answered limits (lent_of sender.entry) (lent_of receiver.entry) witness.old
        witness.new (told result) }
{
    inclusion::include(
        sender.symbols,
        sender.marks,
        sender.rules,
        receiver.symbols,
        receiver.marks,
        receiver.rules,
        witness,
    )
}

// The same for plain slices.
pub fn include_of(
    sender_symbols: u16,
    sender_marks: &[u16],
    sender_rules: &[u16],
    receiver_symbols: u16,
    receiver_marks: &[u16],
    receiver_rules: &[u16],
    witness: &mut [u16],
) -> Result<Option<usize>, Refusal>
    ensures { Answered limits (lent sender_symbols sender_marks.now sender_rules.now)
        (lent receiver_symbols receiver_marks.now receiver_rules.now)
        witness.old witness.new (told result) }
{
    include(
        new(sender_symbols, sender_marks, sender_rules),
        new(receiver_symbols, receiver_marks, receiver_rules),
        witness,
    )
}
