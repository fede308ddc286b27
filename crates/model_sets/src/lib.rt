// The sets of one model, from its token field: what each place bears, at which positions of its words a word may end, and which place can
// come next at which position. One pass over the tokens, with a stack of the models so far: each covers a stretch of places, so one row
// of flags and one flag a position serve all of them at once.
#![tactic(auto)]

ghost use Rattle.std.specs.Prelude.{◌≡◌, ℕ, ◌+◌, ◌*◌, ◌-◌, ◌≤◌, ◌<◌, length, set};
ghost use Rattle.std.proofs.Math.Option.{some};
ghost use Rattle.paper.specs.Told.{Tells};
ghost use Rattle.paper.specs.Limits.{limits};
ghost use Rattle.model.specs.declared.Token.TheVariants.{Symbol, Comma};
ghost use Rattle.model.specs.Model.{Model};
ghost use Rattle.postfix.specs.Field.{model_in};
ghost use Rattle.model_sets.specs.Sets.{Room, Holds, Fills};
ghost use Rattle.model_sets.specs.Work.{Painted, Changed, cleared, corner, rowed, joined, Joinable};
ghost use Rattle.model_sets.specs.Stack.{Begun, Stepped, Same, Stays, bearing, Begins};

use model::Token;
use postfix::Reading;

// A model on the stack: its first place, and whether it can be empty.
#[derive(Clone, Copy)]
struct Part {
    pub start: u16,
    pub empty: bool,
}

// The models so far, the top last: so many, with so many places in them, and the flags of all of these.
#[derive(Drop)]
struct Stack<'a> {
    pub ends: &'a mut [u16],
    pub next: &'a mut [u16],
    pub models: [Part; paper::TOKENS],
    pub depth: usize,
    pub places: usize,
}

// Clears the flags from a to b, unless they are to be kept.
fn clear(flags: &mut [u16], kept: bool, a: usize, b: usize)
    requires { (a ≤ b) × (b ≤ length flags.old) }
    ensures { Painted 0 (cleared kept a b) flags.old flags.new }
{
    if !kept {
        flags[a..b].fill(0);
    }
}

// Clears the flags of p places at each of their positions.
fn clear_rows(next: &mut [u16], p: usize)
    requires { (p ≤ limits.states) × (p * limits.states + p ≤ length next.old) }
    ensures { Changed limits.states 0 (corner (p + 1) p) next.old next.new }
{
    for i in 0..p + 1 {
        let row = i * paper::STATES;
        clear(next, false, row, row + p);
    }
}

// Sets, in the row that begins at `row`, the flags from a to b that are set in the first row.
fn link_row(next: &mut [u16], row: usize, a: usize, b: usize)
    requires { (a ≤ b) × ((b ≤ row) × (row + b ≤ length next.old)) }
    ensures { Painted 1 (rowed next.old row a b) next.old next.new }
{
    for y in a..b {
        if next[y] != 0 {
            next[row + y] = 1;
        }
    }
}

// Whether slices of so many numbers have room for p places.
fn has_room(p: usize, bears: usize, ends: usize, next: usize) -> bool
    ensures { Tells result (Room limits.states p bears ends next) }
{
    if paper::STATES < p {
        return false;
    }
    if bears < p {
        return false;
    }
    if ends <= p {
        return false;
    }
    p * paper::STATES + p <= next
}

impl<'a> Stack<'a> {
    // Lets each place from a to b that can come first come next at each position from c to d where a word may end.
    fn link(&mut self, c: usize, d: usize, a: usize, b: usize)
        requires { Joinable limits self.old.ends.now self.old.next.now c d a b }
        ensures linked { Changed limits.states 1 (joined self.old.ends.now self.old.next.now c d a b)
            self.old.next.now self.new.next.now }
        ensures stays { Stays self.old self.new }
        ensures same { Same self.old self.new }
    {
        for i in c..d {
            if self.ends[i] != 0 {
                link_row(self.next, i * paper::STATES, a, b);
            }
        }
    }

    // Puts one more place on the stack, the first and the last of a model that cannot be empty.
    fn place(&mut self)
        requires { (a : ℕ) × Begun limits (Symbol a) self.old }
        ensures steps { (a : ℕ) → Stepped limits (Symbol a) self.old self.new }
        ensures same { Same self.old self.new }
    {
        let d = self.depth;
        let n = self.places;
        self.ends[n + 1] = 1;
        self.next[n] = 1;
        self.models[d] = Part {
            start: n as u16,
            empty: false,
        };
        self.depth = d + 1;
        self.places = n + 1;
    }

    // Makes a sequence of the two last models on the stack.
    fn sequence(&mut self)
        requires { Begun limits Comma self.old }
        ensures steps { Stepped limits Comma self.old self.new }
        ensures same { Same self.old self.new }
    {
        let n = self.places;
        let i = self.depth - 2;
        let left = self.models[i];
        let right = self.models[i + 1];
        let l = left.start as usize;
        let r = right.start as usize;
        self.link(l + 1, r + 1, r, n);
        clear(self.next, left.empty, r, n);
        clear(self.ends, right.empty, l + 1, r + 1);
        self.models[i].empty = left.empty && right.empty;
        self.depth = i + 1;
    }

    // Reads one more token: what it makes of the models on the stack.
    fn step(&mut self, token: Token)
        requires { Begun limits token self.old }
        ensures steps { Stepped limits token self.old self.new }
        ensures same { Same self.old self.new }
    {
        let d = self.depth;
        let n = self.places;
        match token {
            Token::Symbol(_) => self.place(),
            Token::Empty => {
                self.models[d] = Part {
                    start: n as u16,
                    empty: true,
                };
                self.depth = d + 1;
            }
            Token::Comma => self.sequence(),
            Token::Bar => {
                let left = self.models[d - 2].empty;
                let right = self.models[d - 1].empty;
                self.models[d - 2].empty = left || right;
                self.depth = d - 1;
            }
            Token::Star => {
                let m = self.models[d - 1].start as usize;
                self.link(m + 1, n + 1, m, n);
                self.models[d - 1].empty = true;
            }
            Token::Query => {
                self.models[d - 1].empty = true;
            }
            Token::Plus => {
                let m = self.models[d - 1].start as usize;
                self.link(m + 1, n + 1, m, n);
            }
        }
    }
}

// Writes down the symbol of the place that a token adds, if it adds one.
fn bear(bears: &mut [u16], token: Token, n: usize)
    requires { (a : ℕ) → token ≡ Symbol a → n < length bears.old }
    ensures { bears.new ≡ bearing token n bears.old }
{
    let Token::Symbol(a) = token else {
        return;
    };
    bears[n] = a;
}

// Reads the tokens of a field that writes a model, and sets its flags.
fn scan(field: &[u8], symbols: u16, bears: &mut [u16], ends: &mut [u16], next: &mut [u16])
    requires { Begins limits symbols field.now bears.old ends.old next.old }
    ensures { (m : Model) → model_in limits symbols field.now ≡ some m → Holds limits.states m
        bears.old ends.old next.old
        bears.new ends.new next.new }
{
    let bottom = Part {
        start: 0,
        empty: false,
    };
    let mut stack = Stack {
        ends,
        next,
        models: [bottom; paper::TOKENS],
        depth: 0,
        places: 0,
    };
    let mut at = 0;
    // Kept: a while, since a token has as many bytes as it likes.
    while at <= field.len() {
        let Reading::One(token, after) = postfix::read_token(field, at, symbols) else {
            return;
        };
        bear(bears, token, stack.places);
        stack.step(token);
        at = after;
    }
    stack.ends[0] = u16::from(stack.models[0].empty);
}

// Fills the sets of the model that a field writes over so many symbols, and answers how many places it has; with no model or no room
// nothing is changed.
pub fn fill_sets(
    field: &[u8],
    symbols: u16,
    bears: &mut [u16],
    ends: &mut [u16],
    next: &mut [u16],
) -> Option<usize>
    ensures { Fills limits symbols field.now
        bears.old ends.old next.old result
        bears.new ends.new next.new }
{
    let p = postfix::read_model(field, symbols)?;
    if !has_room(p, bears.len(), ends.len(), next.len()) {
        return None;
    }
    clear(ends, false, 0, p + 1);
    clear_rows(next, p);
    scan(field, symbols, bears, ends, next);
    Some(p)
}
