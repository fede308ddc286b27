// The search for two like places: after one state two places can come next that bear one symbol. The search takes slices of any length:
// what is not there is no place.
#![tactic(auto)]

ghost use Rattle.std.specs.Prelude.{◌*◌, ◌+◌, ◌≢◌};
ghost use Rattle.paper.specs.Limits.{limits, at};
ghost use Rattle.paper.specs.Told.{Tells};
ghost use Rattle.model_clash.specs.Like.{Like, Finds, Clash};

// Can the place y come next after the state q?
fn comes_next(next: &[u16], q: usize, y: usize) -> bool
    ensures { Tells result (at next.now (q * limits.states + y) ≢ 0) }
{
    let len = next.len();
    if len / paper::STATES < q {
        return false;
    }
    let row = q * paper::STATES;
    if len - row <= y {
        return false;
    }
    next[row + y] != 0
}

// Are y and z places with one symbol that can come next after the state q?
fn are_alike(bears: &[u16], next: &[u16], q: usize, y: usize, z: usize) -> bool
    ensures { Tells result (Like limits.states bears.now next.now q y z) }
{
    if bears.len() <= y {
        return false;
    }
    if bears.len() <= z {
        return false;
    }
    if bears[y] != bears[z] {
        return false;
    }
    if comes_next(next, q, y) {
        return comes_next(next, q, z);
    }
    false
}

// Two like places, the earlier one first, if there are any among those from `from` on up to `to` that can come next after the state q.
fn like_places(
    bears: &[u16],
    next: &[u16],
    q: usize,
    from: usize,
    to: usize,
) -> Option<(usize, usize)>
    ensures { Finds limits.states bears.now next.now q from to result }
{
    let mut found = None;
    'search: for y in from..to {
        for z in from..y {
            if are_alike(bears, next, q, y, z) {
                found = Some((z, y));
                break 'search;
            }
        }
    }
    found
}

// Are there two like places after a state, all three from `from` on up to `to`?
pub fn clashes(bears: &[u16], next: &[u16], from: usize, to: usize) -> bool
    ensures { Tells result (Clash limits.states bears.now next.now from to) }
{
    for q in from..to {
        if like_places(bears, next, q, from, to).is_some() {
            return true;
        }
    }
    false
}
