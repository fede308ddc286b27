// The check of a receiver's table: after the table's own refusals 7, 8 and 9, and the numbers of its states: which one it reaches that may
// stand left, which one that may stand right, whether it reaches a final one.
// specs/Factored has what `factor` tells and leaves, specs/Work what each private function does.
#![tactic(auto)]

ghost use Rattle.std.specs.Prelude.{◌≡◌, ◌+◌, ◌*◌, ◌/◌, ◌≤◌, ◌<◌, length, is_err};
ghost use Rattle.paper.specs.Limits.{limits};
ghost use Rattle.paper.specs.Told.{Tells, check_told};
ghost use Rattle.paper.specs.First.{FindsWrong};
ghost use Rattle.table.specs.Rules.{RulesOf, Row};
ghost use Rattle.receiver.specs.Receiver.{LeftSideAgain, BreaksSorts};
ghost use Rattle.receiver.specs.Numbers.{numbers_size};
ghost use Rattle.receiver.specs.Check.{ReceiverChecked};
ghost use Rattle.factorized.specs.Factored.{Factored};
ghost use Rattle.factorized.specs.Work.{Ranged, side_of, Seen, Looked, OnSide, Rowed, Passed, Closed};
ghost use Rattle.factorized.specs.Work.{StandsFlagged, TheOne, FinalFlagged, Numbered, AllNumbered, Received, Copied};

use paper::{Checked, Fault, Refusal, RuleRow};

// The sorts of the states that may stand left of a join, right of it, on both sides.
// Kept: numbers, as they stand in the marks that callers lend, twice a sort and the final mark.
const LEFT: u16 = 1;

const RIGHT: u16 = 2;

const BOTH: u16 = 3;

// So many numbers has a state, and so many have all states and the sink.
pub const EACH: usize = 3;

pub const NUMBERS: usize = EACH * (paper::STATES + 1);

// So many words has a set of left sides, one bit each.
const SIDE_WORDS: usize = (paper::SYMBOLS as usize + paper::STATES * paper::STATES) / bits::WORD
    + 1;

// Two states are reached that may stand on one side.
#[derive(Drop)]
struct NotOne;

// The number of a left side.
fn side(rule: RuleRow) -> usize
    ensures { result ≡ side_of limits rule.kind rule.left rule.right }
{
    if rule.kind == paper::LEAF_RULE {
        return rule.left as usize;
    }
    paper::SYMBOLS as usize + rule.left as usize * paper::STATES + rule.right as usize
}

// May a state with this mark stand on this side?
fn may_stand(mark: u16, side: u16) -> bool
    ensures { Tells result (OnSide mark side) }
{
    let sort = mark / 2;
    if sort == side {
        return true;
    }
    sort == BOTH
}

// A table whose rules name states that are there, and of those not too many.
#[derive(Drop)]
struct Table<'a> {
    marks: &'a [u16],
    rules: &'a [u16],
    ghost ranged: { Ranged limits marks.now rules.now },
}

impl<'a> Table<'a> {
    // The numbers of rule i.
    fn rule(&self, i: usize) -> RuleRow
        requires { i < length self.now.rules.now / limits.width }
        ensures { Row limits.width self.now.rules.now i result.kind result.left result.right result.to }
    {
        table::row_at(self.rules, i).unwrap()
    }

    // Has rule i, if no ε rule, a left side that was seen? If not, its own is put into the set.
    fn is_left_again(&self, i: usize, seen: &mut [u16]) -> bool
        requires i_in_bounds { i < length self.now.rules.now / limits.width }
        requires seen { Seen limits self.now.rules.now i seen.old }
        ensures { Looked limits self.now.rules.now i result seen.new }
    {
        let rule = self.rule(i);
        if rule.kind == paper::EPSILON_RULE {
            return false;
        }
        let s = side(rule);
        if bits::get(seen, s) {
            return true;
        }
        bits::put(seen, s);
        false
    }

    // The first rule with an earlier one's left side, if there is one.
    fn first_left_again(&self) -> Option<usize>
        ensures { FindsWrong (LeftSideAgain limits self.now.rules.now) (length self.now.rules.now / limits.width) result }
    {
        let mut seen = [0u16; SIDE_WORDS];
        for i in 0..self.rules.len() / paper::WIDTH {
            if self.is_left_again(i, &mut seen) {
                return Some(i);
            }
        }
        None
    }

    // Does rule i break the sorts?
    fn breaks_sorts(&self, i: usize) -> bool
        requires { i < length self.now.rules.now / limits.width }
        ensures { Tells result (BreaksSorts limits self.now.marks.now self.now.rules.now i) }
    {
        let rule = self.rule(i);
        if rule.kind != paper::JOIN_RULE {
            return false;
        }
        if may_stand(self.marks[rule.left as usize], LEFT) {
            return !may_stand(self.marks[rule.right as usize], RIGHT);
        }
        true
    }

    // The first rule that breaks the sorts, if there is one.
    fn first_unsorted(&self) -> Option<usize>
        ensures { FindsWrong (BreaksSorts limits self.now.marks.now self.now.rules.now) (length self.now.rules.now / limits.width) result }
    {
        for i in 0..self.rules.len() / paper::WIDTH {
            if self.breaks_sorts(i) {
                return Some(i);
            }
        }
        None
    }

    // Flags the target of rule k, if it is an ε rule from a flagged state. Tells how many are new.
    fn step_row(&self, k: usize, reached: &mut [bool]) -> usize
        requires reached { length self.now.marks.now < length reached.old }
        requires k_in_bounds { k < length self.now.rules.now / limits.width }
        ensures { Rowed limits.width self.now.rules.now k reached.old result reached.new }
    {
        // Kept: the kind by index, as the check took 11 of a hundred more where it was read with the whole row.
        if self.rules[k * paper::WIDTH] != paper::EPSILON_RULE {
            return 0;
        }
        let rule = self.rule(k);
        let from = rule.left as usize;
        let to = rule.to as usize;
        if !reached[from] {
            return 0;
        }
        if reached[to] {
            return 0;
        }
        reached[to] = true;
        1
    }

    // Takes the ε rules in order, once each. Tells how many states are newly flagged.
    fn step_all(&self, reached: &mut [bool]) -> usize
        requires { length self.now.marks.now < length reached.old }
        ensures { Passed limits.width self.now.rules.now (length self.now.rules.now / limits.width)
            reached.old result reached.new }
    {
        let mut new = 0;
        for k in 0..self.rules.len() / paper::WIDTH {
            new += self.step_row(k, reached);
        }
        new
    }

    // Flags all that ε steps reach from the flagged states.
    fn close(&self, reached: &mut [bool])
        requires { length self.now.marks.now < length reached.old }
        ensures { Closed (RulesOf limits.width self.now.rules.now)
            reached.old reached.new }
    {
        loop {
            let new = self.step_all(reached);
            if new == 0 {
                return;
            }
        }
    }

    // Is state q flagged, and may it stand on this side?
    fn stands(&self, reached: &[bool], side: u16, q: usize) -> bool
        requires { (q < length self.now.marks.now) × (q < length reached.now) }
        ensures { Tells result (StandsFlagged self.now.marks.now reached.now side q) }
    {
        if !reached[q] {
            return false;
        }
        may_stand(self.marks[q], side)
    }

    // The one flagged state that may stand on this side, if there is one.
    fn the_one(&self, reached: &[bool], side: u16) -> Result<Option<usize>, NotOne>
        requires { length self.now.marks.now < length reached.now }
        ensures { TheOne (StandsFlagged self.now.marks.now reached.now side) (length self.now.marks.now) result }
    {
        let mut one = None;
        for q in 0..self.marks.len() {
            if self.stands(reached, side, q) {
                if one.is_some() {
                    return Err(NotOne);
                }
                one = Some(q);
            }
        }
        Ok(one)
    }

    // Is a final state flagged?
    fn ends(&self, reached: &[bool]) -> bool
        requires { length self.now.marks.now < length reached.now }
        ensures { Tells result (FinalFlagged self.now.marks.now reached.now) }
    {
        for q in 0..self.marks.len() {
            if reached[q] {
                if self.marks[q] % 2 == 1 {
                    return true;
                }
            }
        }
        false
    }

    // Writes the numbers of state p, if its ε reach is single. The sink's number, which is the number of states, stands for no state.
    fn number_state(&self, p: usize, numbers: &mut [u16]) -> Result<(), NotOne>
        requires numbers { length numbers.old ≡ numbers_size limits.states }
        requires p_in_bounds { p ≤ length self.now.marks.now }
        ensures { Numbered limits self.now.marks.now self.now.rules.now p
            numbers.old (is_err result) numbers.new }
    {
        let mut reached = [false; paper::STATES + 1];
        reached[p] = true;
        self.close(&mut reached);
        let left = self.the_one(&reached, LEFT)?;
        let right = self.the_one(&reached, RIGHT)?;
        let place = EACH * p;
        numbers[place] = left.unwrap_or(self.marks.len()) as u16;
        numbers[place + 1] = right.unwrap_or(self.marks.len()) as u16;
        numbers[place + 2] = u16::from(self.ends(&reached));
        Ok(())
    }

    // Writes the numbers of all states, and of the sink as of one state more; the first state whose ε reach is not single ends it, and is told.
    fn number_states(&self, numbers: &mut [u16]) -> Option<usize>
        requires { length numbers.old ≡ numbers_size limits.states }
        ensures { AllNumbered limits self.now.marks.now self.now.rules.now result numbers.new }
    {
        for p in 0..=self.marks.len() {
            if self.number_state(p, numbers).is_err() {
                return Some(p);
            }
        }
        None
    }

    // Looks for 7, 8 and 9; where there is none of them, the numbers of all states are written.
    fn receive(&self, numbers: &mut [u16]) -> Checked
        requires { length numbers.old ≡ numbers_size limits.states }
        ensures { Received limits self.now.marks.now self.now.rules.now numbers.new (check_told result) }
    {
        if let Some(rule) = self.first_left_again() {
            return Err(Refusal::at(Fault::LeftSide, rule + 1));
        }
        if let Some(rule) = self.first_unsorted() {
            return Err(Refusal::at(Fault::Sorts, rule + 1));
        }
        if let Some(state) = self.number_states(numbers) {
            return Err(Refusal::at(Fault::Reaches, state + 1));
        }
        Ok(())
    }
}

// Copies the first n numbers to the front of another slice, if that has room for them.
fn copy(numbers: &[u16], n: usize, out: &mut [u16])
    requires { n ≤ length numbers.now }
    ensures { Copied numbers.now n out.old out.new }
{
    if out.len() < n {
        return;
    }
    out[..n].copy_from_slice(&numbers[..n]);
}

// Checks a receiver's table: the table's own refusals, then 7, 8 and 9.
pub fn check(symbols: u16, marks: &[u16], rules: &[u16]) -> Checked
    ensures { ReceiverChecked limits symbols marks.now rules.now (check_told result) }
{
    let mut numbers = [0u16; NUMBERS];
    factor(symbols, marks, rules, &mut numbers)
}

// The same check, which writes the numbers of the states, and of the sink, to the front of the lent slice if it has room for them.
pub fn factor(symbols: u16, marks: &[u16], rules: &[u16], numbers: &mut [u16]) -> Checked
    ensures { Factored limits symbols marks.now rules.now
        numbers.old numbers.new (check_told result) }
{
    table::check(symbols, marks, rules)?;
    let mut all = [0u16; NUMBERS];
    Table { marks, rules }.receive(&mut all)?;
    copy(&all, EACH * (marks.len() + 1), numbers);
    Ok(())
}
