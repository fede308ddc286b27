// The join rules of a table found by their left state: an index beside the rules, built, and a join rule's target looked up in it.
// specs/Index has what an index is, specs/Target what looking up tells, specs/Work what the private functions do.
#![tactic(auto)]

ghost use Rattle.std.specs.Prelude.{◌/◌, length};
ghost use Rattle.paper.specs.Limits.{limits};
ghost use Rattle.paper.specs.Told.{Tells};
ghost use Rattle.joins.specs.Index.{NoIndexRoom, Built};
ghost use Rattle.joins.specs.Target.{JoinOf, Finds};
ghost use Rattle.joins.specs.Work.{RowRoom, PutRow, ListRoom, PutList};

// Is there no room for the index of so many rules and states?
fn lacks_room(rules: usize, states: usize, size: usize) -> bool
    ensures { Tells result (NoIndexRoom rules states size) }
{
    if paper::MOST_NUMBER <= states {
        return true;
    }
    if paper::MOST_NUMBER - states <= rules {
        return true;
    }
    size < states + 1 + rules
}

// Puts the position of rule i at the place `end`, if it is a join rule with this left state; tells the next place.
fn put_row(rules: &[u16], i: usize, left: u16, index: &mut [u16], end: usize) -> usize
    requires { RowRoom limits.width rules.now i left index.old end }
    ensures { PutRow limits.width rules.now i left index.old end result index.new }
{
    let row = i * paper::WIDTH;
    if rules[row] != paper::JOIN_RULE {
        return end;
    }
    if rules[row + 1] != left {
        return end;
    }
    index[end] = i as u16;
    end + 1
}

// Puts the positions of the join rules with this left state from the place `from` on, rising; tells the place behind them.
fn put_list(rules: &[u16], left: u16, index: &mut [u16], from: usize) -> usize
    requires { ListRoom limits.width rules.now left index.old from }
    ensures { PutList limits.width rules.now left (length rules.now / limits.width)
        index.old from result index.new }
{
    let mut end = from;
    for i in 0..rules.len() / paper::WIDTH {
        end = put_row(rules, i, left, index, end);
    }
    end
}

// Writes the index of the rules for so many states to the front of the lent slice, and tells how many numbers it has; if there is no
// room, the slice is unchanged. Join rules whose left state is not below the states are left out.
pub fn build(rules: &[u16], states: usize, index: &mut [u16]) -> Option<usize>
    ensures { Built limits.width rules.now states index.old result index.new }
{
    if lacks_room(rules.len() / paper::WIDTH, states, index.len()) {
        return None;
    }
    let mut end = states + 1;
    index[0] = end as u16;
    for left in 0..states {
        end = put_list(rules, left as u16, index, end);
        index[left + 1] = end as u16;
    }
    Some(end)
}

// Is rule i a join rule of these two states? A row that is not whole inside the slice is none.
fn is_join(rules: &[u16], i: usize, left: u16, right: u16) -> bool
    ensures { Tells result (JoinOf limits.width rules.now i left right) }
{
    if rules.len() / paper::WIDTH <= i {
        return false;
    }
    let row = i * paper::WIDTH;
    if rules[row + 2] != right {
        return false;
    }
    if rules[row] != paper::JOIN_RULE {
        return false;
    }
    rules[row + 1] == left
}

// The target of the first join rule of the two states that the index names, if it names one. Any numbers may stand in the index.
pub fn target(rules: &[u16], index: &[u16], left: u16, right: u16) -> Option<u16>
    ensures { Finds limits.width rules.now index.now left right result }
{
    let next = left as usize + 1;
    if index.len() <= next {
        return None;
    }
    if index[0] as usize <= next {
        return None;
    }
    let end = (index[next] as usize).min(index.len());
    for k in index[left as usize] as usize..end {
        let i = index[k] as usize;
        if is_join(rules, i, left, right) {
            return Some(rules[i * paper::WIDTH + 3]);
        }
    }
    None
}
