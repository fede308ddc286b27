// The states of a model text, kept in slices by their numbers: what each place bears, whom each state belongs to, where a word may end and
// what can come next. Every text is taken: refusals 13 and 15, an ambiguous model, or its sizes. specs/Kept has what the slices hold.
#![tactic(auto)]

ghost use Rattle.std.specs.Prelude.{◌≡◌, [], ◌<◌, ◌*◌, length};
ghost use Rattle.paper.specs.Limits.{limits};
ghost use Rattle.paper.specs.Told.{Tells};
ghost use Rattle.model_fill.specs.Work.{Adds, Ready, AddsAll};
ghost use Rattle.model_fill.specs.Fill.{FillsStates, refusal_of};
ghost use Rattle.model_clash.specs.Like.{Clash};
ghost use Rattle.model_fill.specs.Slices.{LongIn, KeptIn, Same};
ghost use Rattle.model_fill.specs.declared.Unfilled.TheVariants.{Refused};

use model_read::Survey;
use paper::{Fault, Refusal};

// What bears no symbol, or belongs to none, has this number in its place.
// Kept: a public promise, as fill_states fills lent slices of u16 with it.
pub const NO_SYMBOL: u16 = u16::MAX;

// The numbers of a slice of next places.
pub const NEXT: usize = paper::STATES * paper::STATES;

// The slices that the states of a text are kept in.
#[derive(Drop)]
struct Slices<'a> {
    pub bears: &'a mut [u16],
    pub owners: &'a mut [u16],
    pub ends: &'a mut [u16],
    pub next: &'a mut [u16],
}

// Why the states of a text are not filled in: the number of the first line with an ambiguous model; the text's refusal, 13 or 15; or the
// slices have other lengths than they must.
#[derive(Clone, Copy, PartialEq, Eq)]
pub enum Unfilled {
    Ambiguous(usize),
    Refused(Refusal),
    Unfit,
}

impl From<Refusal> for Unfilled {
    ghost from_gives = { λ refusal unfilled. unfilled ≡ Refused refusal };

    fn from(refusal: Refusal) -> Unfilled {
        Unfilled::Refused(refusal)
    }
}

// How it is refused: 14, the text's own refusal, or 1.
impl From<Unfilled> for Refusal {
    ghost from_gives = { λ unfilled refusal. refusal ≡ refusal_of unfilled };

    fn from(unfilled: Unfilled) -> Refusal {
        match unfilled {
            Unfilled::Ambiguous(line) => Refusal::at(Fault::Ambiguous, line),
            Unfilled::Refused(refusal) => refusal,
            Unfilled::Unfit => Refusal::at(Fault::Room, 0),
        }
    }
}

impl<'a> Slices<'a> {
    // Have the slices their lengths?
    fn are_long(&self) -> bool
        ensures { Tells result (LongIn limits.states self.now) }
    {
        if self.bears.len() != paper::STATES {
            return false;
        }
        if self.owners.len() != paper::STATES {
            return false;
        }
        if self.ends.len() != paper::STATES {
            return false;
        }
        self.next.len() == NEXT
    }

    // Leaves no state in the slices.
    fn clear(&mut self)
        requires { LongIn limits.states self.old }
        ensures kept { KeptIn limits.states [] self.new }
        ensures same { Same self.old self.new }
    {
        rows::fill(self.bears, 0, paper::STATES, NO_SYMBOL);
        rows::fill(self.owners, 0, paper::STATES, NO_SYMBOL);
        rows::fill(self.ends, 0, paper::STATES, 0);
        rows::fill(self.next, 0, NEXT, 0);
    }

    // Adds the states of the M line x, of which the first is `base`, and answers the first behind them.
    fn add_line(&mut self, x: &[u8], base: usize, symbols: u16) -> usize
        requires { (base < limits.states) × LongIn limits.states self.old }
        ensures adds { Adds limits symbols x.now
            self.old.bears.now self.old.owners.now self.old.ends.now self.old.next.now base result
            self.new.bears.now self.new.owners.now self.new.ends.now self.new.next.now }
        ensures same { Same self.old self.new }
    {
        let Some((symbol, from)) = model_line::split(x) else {
            return base;
        };
        let to = x.len() - 1;
        let place = base + 1;
        let row = base * paper::STATES + place;
        let sets = model_sets::fill_sets(
            &x[from..to],
            symbols,
            &mut self.bears[place..],
            &mut self.ends[base..],
            &mut self.next[row..],
        );
        let Some(places) = sets else {
            return base;
        };
        let behind = place + places;
        rows::fill(self.owners, base, behind, symbol);
        behind
    }

    // Are there two like places after a state, all three from `base` on up to `behind`?
    fn clashes(&self, base: usize, behind: usize) -> bool
        ensures { Tells result (Clash limits.states self.now.bears.now self.now.next.now base behind) }
    {
        model_clash::clashes(self.bears, self.next, base, behind)
    }

    // Adds the states of all M lines; answers the number of the first line whose model is ambiguous, if one is.
    fn add_lines(&mut self, text: &[u8], symbols: u16) -> Option<usize>
        requires { Ready limits text.now symbols × KeptIn limits.states [] self.old }
        ensures adds { AddsAll limits text.now result
            self.new.bears.now self.new.owners.now self.new.ends.now self.new.next.now }
        ensures same { Same self.old self.new }
    {
        let mut at = lines::line_end(text, 0);
        let mut k = 1;
        let mut base = symbols as usize;
        // Kept: a while, since a line's length varies.
        while at < text.len() {
            let end = lines::line_end(text, at);
            let behind = self.add_line(&text[at..end], base, symbols);
            k += 1;
            if self.clashes(base, behind) {
                return Some(k);
            }
            base = behind;
            at = end;
        }
        None
    }
}

// Reads a model text, and fills in what is known of its states.
pub fn fill_states(
    text: &[u8],
    bears: &mut [u16],
    owners: &mut [u16],
    ends: &mut [u16],
    next: &mut [u16],
) -> Result<Survey, Unfilled>
    ensures { FillsStates limits text.now bears.old owners.old ends.old
        next.old result bears.new owners.new ends.new next.new }
{
    let mut slices = Slices {
        bears,
        owners,
        ends,
        next,
    };
    if !slices.are_long() {
        return Err(Unfilled::Unfit);
    }
    let survey = model_read::survey_text(text)?;
    slices.clear();
    if let Some(line) = slices.add_lines(text, survey.symbols) {
        return Err(Unfilled::Ambiguous(line));
    }
    Ok(survey)
}
