// The pairs of a sender's state and a receiver's state, which are two types: a sender's state is never looked up in the receiver's table;
// and the work slice in which a search keeps them.
// specs/Memory has the work memory of the search, specs/State what is known of the pairs found, specs/Work what the functions do to it.
#![tactic(auto)]

ghost use Rattle.std.specs.Prelude.{◌≡◌, ◌+◌, ◌≤◌, ◌<◌, length};
ghost use Rattle.paper.specs.Limits.{limits};
ghost use Rattle.paper.specs.Told.{Tells};
ghost use Rattle.tree.specs.Tree.{leaf_mark};
ghost use Rattle.table.specs.Rules.{Final};
ghost use Rattle.pairs.specs.State.{code};
ghost use Rattle.pairs.specs.Work.{Room, RowRead, HasNumber, PlaceIn, PlaceRead, TakeRead, Fits, put_slice, Added, TakenAt, Kept};

use paper::RuleRow;

// The second number of a pair that was found by an ε rule; numbers of pairs are lower.
// Kept: a number, since it stands in that memory beside the numbers of pairs.
pub const EPSILON: u16 = 65534;

// How far a pair is: 0 at first, then found, then taken.
// Kept: numbers in one lent slice of four parts, as nothing is allocated and the search's memory is one array of 16-bit numbers.
const FOUND: u16 = 1;

const TAKEN: u16 = 2;

// So many parts of the work slice have a number for each pair: how far it is, the queue behind that, and then the two numbers that say
// where it came from, of which these are the first and the second.
pub const PARTS: usize = 4;

pub const FIRSTS: usize = 2;

pub const SECONDS: usize = 3;

// A state of the sender, and a state of the receiver.
#[derive(Clone, Copy)]
pub struct Sender(pub u16);

#[derive(Clone, Copy)]
pub struct Receiver(pub u16);

#[derive(Clone, Copy)]
pub struct Pair {
    pub p: Sender,
    pub q: Receiver,
}

// The sizes of a search: the receiver's states, the pairs, where in the work memory the index of the receiver's join rules begins, and
// where what is kept of the pairs.
#[derive(Clone, Copy)]
pub struct Sizes {
    pub receivers: u16,
    pub pairs: usize,
    pub index: usize,
    pub base: usize,
}

// The queue of the pairs found, in the work memory: how many it has.
#[derive(Drop)]
pub struct Queue<'a> {
    pub sizes: Sizes,
    pub work: &'a mut [u16],
    pub count: usize,
}

// The numbers of rule i, if it stands whole in the rules, or else zeros.
// Kept: zeros for none, a public promise (RowRead); `table::row_at` is what else is called.
pub fn rule_row(rules: &[u16], i: usize) -> RuleRow
    ensures { RowRead limits.width rules.now i result }
{
    match table::row_at(rules, i) {
        Some(row) => row,
        None => RuleRow {
            kind: 0,
            left: 0,
            right: 0,
            to: 0,
        },
    }
}

// The number of the pair of two states. The receiver has n states, and as its state n stands for none.
pub fn number(p: Sender, q: Receiver, n: u16) -> usize
    ensures { result ≡ code n p.0 q.0 }
{
    p.0 as usize * (n as usize + 1) + q.0 as usize
}

// The pair of a number.
pub fn pair_of(c: u16, n: u16) -> Pair
    ensures { HasNumber n c result }
{
    let wide = n as usize + 1;
    let p = c as usize / wide;
    let q = c as usize % wide;
    Pair {
        p: Sender(p as u16),
        q: Receiver(q as u16),
    }
}

// Is the sender's state final?
pub fn is_final(marks: &[u16], p: Sender) -> bool
    ensures { Tells result (Final marks.now p.0) }
{
    let i = p.0 as usize;
    if marks.len() <= i {
        return false;
    }
    marks[i] % 2 == 1
}

// Has a slice of so many numbers room for all pairs?
fn has_room(z: Sizes, size: usize) -> bool
    ensures { Tells result (Room z size) }
{
    if EPSILON as usize <= z.pairs {
        return false;
    }
    if size < z.base {
        return false;
    }
    PARTS * z.pairs <= size - z.base
}

// Has the queue a place i, and is i the number of a pair?
fn has_place(z: Sizes, size: usize, i: usize) -> bool
    ensures { Tells result (PlaceIn z size i) }
{
    if z.pairs <= i {
        return false;
    }
    has_room(z, size)
}

// The pair at place i of the queue in a work slice, or that of the number 0 where there is no such place.
pub fn pair_at(z: Sizes, work: &[u16], i: usize) -> Pair
    ensures { PlaceRead z work.now i result }
{
    if !has_place(z, work.len(), i) {
        return pair_of(0, z.receivers);
    }
    pair_of(work[z.base + z.pairs + i], z.receivers)
}

// Is the pair c taken, in a work slice?
pub fn is_taken(z: Sizes, work: &[u16], c: usize) -> bool
    ensures { Tells result (TakenAt z work.now c) }
{
    if !has_place(z, work.len(), c) {
        return false;
    }
    work[z.base + c] == TAKEN
}

impl<'a> Queue<'a> {
    // The work slice, to be read.
    pub fn slice(&self) -> &[u16]
        ensures { result.now ≡ self.now.work.now }
    {
        self.work
    }

    // The pair at place i, or that of the number 0 where there is no such place.
    pub fn pair_at(&self, i: usize) -> Pair
        ensures { PlaceRead self.now.sizes self.now.work.now i result }
    {
        pair_at(self.sizes, self.work, i)
    }

    // Takes the pair at place i.
    pub fn take(&mut self, i: usize) -> Pair
        ensures took { TakeRead self.old.sizes self.old.work.now i self.new.work.now result }
        ensures kept { Kept self.old self.new }
        ensures count { self.new.count ≡ self.old.count }
    {
        let z = self.sizes;
        let pair = self.pair_at(i);
        let p = pair.p;
        let q = pair.q;
        let c = number(p, q, z.receivers);
        if !has_place(z, self.work.len(), c) {
            return pair;
        }
        self.work[z.base + c] = TAKEN;
        pair
    }

    // Writes the pair c at the end, with its two numbers.
    fn put(&mut self, c: usize, a: usize, b: usize)
        requires { Room self.old.sizes (length self.old.work.now) × (self.old.count < self.old.sizes.pairs)
            × (c < self.old.sizes.pairs) × (a ≤ leaf_mark) × (b ≤ leaf_mark) }
        ensures put { self.new.work.now ≡ put_slice self.old.sizes self.old.work.now self.old.count c a b }
        ensures kept { Kept self.old self.new }
        ensures count { self.new.count ≡ self.old.count + 1 }
    {
        let z = self.sizes;
        self.work[z.base + c] = FOUND;
        self.work[z.base + z.pairs + self.count] = c as u16;
        self.work[z.base + FIRSTS * z.pairs + c] = a as u16;
        self.work[z.base + SECONDS * z.pairs + c] = b as u16;
        self.count += 1;
    }

    // May the pair c, with the numbers a and b, be put at the end?
    fn fits(&self, c: usize, a: usize, b: usize) -> bool
        ensures { Tells result (Fits self.now.sizes (length self.now.work.now) self.now.count c a b) }
    {
        let z = self.sizes;
        if z.pairs <= self.count {
            return false;
        }
        if z.pairs <= c {
            return false;
        }
        if paper::MOST_NUMBER < a {
            return false;
        }
        if paper::MOST_NUMBER < b {
            return false;
        }
        has_room(z, self.work.len())
    }

    // Puts the pair c at the end, with the two numbers that say where it came from, unless it is found.
    pub fn add(&mut self, c: usize, a: usize, b: usize)
        ensures added { Added self.old.sizes self.old.work.now self.old.count c a b self.new.work.now self.new.count }
        ensures kept { Kept self.old self.new }
    {
        if !self.fits(c, a, b) {
            return;
        }
        if self.work[self.sizes.base + c] != 0 {
            return;
        }
        self.put(c, a, b);
    }

    // Is the pair c taken?
    pub fn is_taken(&self, c: usize) -> bool
        ensures { Tells result (TakenAt self.now.sizes self.now.work.now c) }
    {
        is_taken(self.sizes, self.work, c)
    }
}
