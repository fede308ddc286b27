// The paper's numbers, named once: the limits of tables, trees and texts, the refusals, and what a refusal tells.
// specs/ has what an answer can tell, which fault has which number, and what "the first fault" means.
#![tactic(auto)]

ghost use Rattle.std.specs.Prelude.{◌≡◌};
ghost use Rattle.paper.specs.Faults.{number_of, number_of_side};
ghost use Rattle.paper.specs.Limits.{leaf_kind, join_kind, eps_kind};

// At most so many symbols, states and rules has a table.
pub const SYMBOLS: u16 = 40;

pub const STATES: usize = 60;

pub const RULES: usize = 600;

// So many numbers has a rule, and a slice for as many rules as a table can have.
pub const WIDTH: usize = 4;

pub const RULE_NUMBERS: usize = RULES * WIDTH;

// The kinds of a rule.
// Kept: numbers, as the tables that callers lend hold four numbers a rule, of any kind (RowAt of table, RowRead of pairs).
pub const LEAF_RULE: u16 = 0;

pub const JOIN_RULE: u16 = 1;

pub const EPSILON_RULE: u16 = 2;

// At most so many nodes has a tree, two numbers each; the second number of a leaf is LEAF.
pub const NODES: usize = 3660;

pub const LEAF: u16 = 65535;

// So many bytes has a slice for a rule text.
pub const TEXT: usize = 8192;

// Programs read at most so many bytes of a text.
pub const INPUT: usize = 32768;

// At most so many tokens has a model.
pub const TOKENS: usize = 200;

// The greatest number that 16 bits hold.
pub const MOST_NUMBER: usize = 65535;

// What is wrong where something is refused: each fault has its number, from 1 on.
#[derive(Clone, Copy, PartialEq, Eq)]
pub enum Fault {
    Room,
    Shape,
    Order,
    Size,
    Range,
    Repeat,
    LeftSide,
    Sorts,
    Reaches,
    SymbolCounts,
    WitnessRoom,
    Tree,
    ModelText,
    Ambiguous,
    ModelStates,
    ModelRules,
}

impl From<Fault> for u16 {
    ghost from_gives = { λ fault n. n ≡ number_of fault };

    fn from(fault: Fault) -> u16 {
        match fault {
            Fault::Room => 1,
            Fault::Shape => 2,
            Fault::Order => 3,
            Fault::Size => 4,
            Fault::Range => 5,
            Fault::Repeat => 6,
            Fault::LeftSide => 7,
            Fault::Sorts => 8,
            Fault::Reaches => 9,
            Fault::SymbolCounts => 10,
            Fault::WitnessRoom => 11,
            Fault::Tree => 12,
            Fault::ModelText => 13,
            Fault::Ambiguous => 14,
            Fault::ModelStates => 15,
            Fault::ModelRules => 16,
        }
    }
}

// Whose a refusal is, if it is one side's.
#[derive(Clone, Copy, PartialEq, Eq)]
pub enum Side {
    Sender,
    Receiver,
}

impl From<Side> for u16 {
    ghost from_gives = { λ side n. n ≡ number_of_side side };

    fn from(side: Side) -> u16 {
        match side {
            Side::Sender => 1,
            Side::Receiver => 2,
        }
    }
}

// What a refusal tells: its number, whose it is (1 sender, 2 receiver, 0 neither), and its place (0 for the whole).
// Kept: numbers, as the paper tells them and C gets them, and as `answers::write_refused` takes every number and side.
#[derive(Clone, Copy, PartialEq, Eq)]
pub struct Refusal {
    pub number: u16,
    pub side: u16,
    pub place: usize,
}

impl Refusal {
    // The refusal of a fault at a place, of neither side.
    pub fn at(fault: Fault, place: usize) -> Refusal
        ensures { result ≡ record { number = number_of fault; side = 0; place = place } }
    {
        Refusal {
            number: u16::from(fault),
            side: 0,
            place,
        }
    }

    // The same refusal as one side's.
    pub fn of(self, side: Side) -> Refusal
        ensures { result ≡ record { number = self.number; side = number_of_side side; place = self.place } }
    {
        Refusal {
            number: self.number,
            side: u16::from(side),
            place: self.place,
        }
    }
}

// The numbers of a rule.
#[derive(Clone, Copy, PartialEq, Eq)]
pub struct RuleRow {
    pub kind: u16,
    pub left: u16,
    pub right: u16,
    pub to: u16,
}

impl RuleRow {
    // The rule of a leaf's symbol.
    pub fn leaf(symbol: u16, to: u16) -> RuleRow
        ensures { result ≡ record { kind = leaf_kind; left = symbol; right = 0; to = to } }
    {
        RuleRow {
            kind: LEAF_RULE,
            left: symbol,
            right: 0,
            to,
        }
    }

    // The rule of two states, a left one and a right one.
    pub fn join(left: u16, right: u16, to: u16) -> RuleRow
        ensures { result ≡ record { kind = join_kind; left = left; right = right; to = to } }
    {
        RuleRow {
            kind: JOIN_RULE,
            left,
            right,
            to,
        }
    }

    // The rule from one state to another.
    pub fn epsilon(from: u16, to: u16) -> RuleRow
        ensures { result ≡ record { kind = eps_kind; left = from; right = 0; to = to } }
    {
        RuleRow {
            kind: EPSILON_RULE,
            left: from,
            right: 0,
            to,
        }
    }
}

// What a check answers.
pub type Checked = Result<(), Refusal>;
