//! The publications: a book of them that only grows, and the part of it that was seen.

ghost use Rattle.std.specs.Prelude.{◌≡◌, ◌⊎◌, ◌<◌, length, MatchBool};
ghost use Rattle.std.specs.Arc.{arc_value};
ghost use Rattle.logbook.specs.Pages.{may_write};
ghost use Rattle.ct_core.specs.Settlement.{Lawful};
ghost use Rattle.ct_core.specs.Core.{Extends};
ghost use Rattle.ct_house.specs.Publications.{head_of, series_of, IsBehind, IsRight};

use ct_core::Published;
use logbook::{Gain, Pen, Plain, Play, Rule, Seen, Start, Word};
use std::marker::Model;

/// An entry of the book: a state, the line that it belongs to, and the turn at which the line's next state is added. It models the book for
/// the prover: no value of it is made.
#[derive(Drop)]
pub struct Publication {
    line: u64,
    state: Published,
    turn: u64,
}

/// The rule of the book: in each line, each state is lawful and a prefix of the later ones, and only the line's announcer adds to it.
pub struct Law;

impl Rule<Publication, u64> for Law {
    ghost use Rattle.std.specs.Prelude.{[]};
    ghost use base.Fml.{ftrue};
    ghost use Rattle.ct_house.specs.Publications.{IsKept};

    ghost holds = { λ cells all. IsKept cells all };

    ghost first = { [] };

    ghost hinted = { λ n all. Unit {0} };

    ghost shows = { λ all. [] };

    ghost keeps = { λ names all. ftrue };

    ghost moves = { λ ask before after answer. Unit {0} };
}

// Nothing is exchanged in a step.
struct Nothing;

impl Gain<Publication, u64> for Nothing {
    ghost use base.Fml.{ftrue};

    ghost after = { λ names about answer. ftrue };
}

// The step that makes a right.
struct MakeRight;

impl Play<Publication, u64> for MakeRight {
    ghost use Rattle.ct_house.specs.Publications.{MakesRight};

    ghost then = { MakesRight };
}

impl Plain<(), Publication, u64> for MakeRight {
    ghost use Rattle.std.specs.Prelude.{None};
    ghost use Rattle.ct_house.specs.Publications.{no_publication};

    ghost ask = { λ about. no_publication };

    ghost state = { λ about. None };
}

// A state that will be added, and the right to add the next one.
#[derive(Drop)]
struct Announced<'a> {
    state: &'a Published,
    turn: &'a Pen,
}

// The step that checks whether a publication follows a turn's.
struct HoldTurn;

impl Play<Publication, u64> for HoldTurn {
    ghost use Rattle.ct_house.specs.Publications.{HoldsTurn};

    ghost then = { HoldsTurn };
}

impl Plain<(), Publication, u64> for HoldTurn {
    ghost use Rattle.std.specs.Prelude.{None};
    ghost use Rattle.ct_house.specs.Publications.{no_publication};

    ghost ask = { λ about. no_publication };

    ghost state = { λ about. None };
}

// The step that opens a line, and the step that adds to it.
struct Open;

struct Add;

impl Play<Publication, u64> for Open {
    ghost use Rattle.ct_house.specs.Publications.{OpensLine};

    ghost then = { OpensLine };
}

impl Play<Publication, u64> for Add {
    ghost use Rattle.ct_house.specs.Publications.{AddsToLine};

    ghost then = { AddsToLine };
}

impl<'a> Plain<Announced<'a>, Publication, u64> for Add {
    ghost use Rattle.std.specs.Prelude.{None};

    ghost ask = { λ about. record { line = 0; state = about.state.now; turn = about.turn.now.nib.key } };

    ghost state = { λ about. None };
}

/// The part of a line that was seen. It owns no memory.
#[derive(Drop)]
pub struct Reached {
    // The number of heads of the newest state.
    heads: usize,
    seen: Seen<Publication, u64, Law>,
}

impl Model for Reached {
    ghost use Rattle.std.specs.Prelude.{◌≡◌, length};
    ghost use Rattle.ct_core.specs.Settlement.{Lawful};
    ghost use Rattle.ct_house.specs.Publications.{Ends, Reach, newest};

    ghost Value = { Reach };

    ghost view = { λ r. record { book = r.seen.book; last = newest r.seen.log } };

    ghost invariant = { λ r. Ends r.seen.log (newest r.seen.log) × (r.heads ≡ length (newest r.seen.log).state.heads) × Lawful (newest r.seen.log).state };
}

/// The right to add to a line.
#[derive(Drop)]
pub struct Announcer {
    head: Word<Publication, u64, Law>,
    turn: Pen,
    reached: Reached,
}

impl Model for Announcer {
    ghost use Rattle.std.specs.Prelude.{◌≡◌};
    ghost use Rattle.ct_house.specs.Publications.{IsRight, Reach, head_of};

    ghost Value = { Reach };

    ghost view = { λ a. a.reached };

    ghost invariant = { λ a. (a.head ≡ head_of a.reached.book) × (a.turn.book ≡ a.reached.book) × IsRight a.turn.nib a.reached.last.turn };
}

// Returns a right that nobody else has.
fn make_right(head: &Word<Publication, u64, Law>, seen: &Seen<Publication, u64, Law>) -> Pen
    requires { head.now ≡ head_of seen.now.book }
    ensures { (result.book ≡ seen.now.book) × (result.nib.right ≡ may_write) }
{
    let mut seen = seen.again();
    let mut offer = seen.plain::<Nothing, (), MakeRight>(&());
    let mut pen = seen.no_pen();
    head.compare_exchange::<MakeRight, Nothing>(0, 0, &mut seen, &mut offer, &mut pen);
    let _word: Word<Publication, u64, Law> = Word::tracked(0, &mut pen);
    pen
}

impl Reached {
    /// Returns a copy.
    pub fn again(&self) -> Reached
        ensures { result ≡ self.now }
    {
        Reached {
            heads: self.heads,
            seen: self.seen.again(),
        }
    }

    /// Shows that the newest state that was seen is lawful.
    pub fn vouch(&self)
        ensures { Lawful self.now.last.state }
    {
        // The clause follows from the invariant of the type, which a look at a field brings in.
        let _ = &self.heads;
    }

    /// Merges in the part that another has seen: of the two newest states one is a prefix of the other, and the later one is seen from now
    /// on.
    pub fn learn(&mut self, other: &Reached)
        requires { series_of other.now ≡ series_of self.old }
        ensures series { series_of self.new ≡ series_of self.old }
        ensures one { Extends self.old.last.state other.now.last.state ⊎ Extends other.now.last.state self.old.last.state }
        ensures this { Extends self.old.last.state self.new.last.state }
        ensures that { Extends other.now.last.state self.new.last.state }
    {
        let mut both = self.seen.again();
        both.learn(&other.seen);
        if self.heads < other.heads {
            self.heads = other.heads;
            self.seen = other.seen.again();
        }
    }

    /// Advances to the other's newest state, unless that has fewer heads. Reports whether it did.
    pub fn follow(&mut self, other: &Reached) -> bool
        requires { series_of other.now ≡ series_of self.old }
        ensures { MatchBool result
            (Extends self.old.last.state other.now.last.state × (self.new ≡ other.now))
            (IsBehind other.now self.old × (self.new ≡ self.old)) }
    {
        let mut both = self.seen.again();
        both.learn(&other.seen);
        if other.heads < self.heads {
            return false;
        }
        self.heads = other.heads;
        self.seen = other.seen.again();
        true
    }

    // Shows that another's newest state of the line is a prefix of the state whose turn this is: nobody else adds to the line.
    fn vouch_for(&self, head: &Word<Publication, u64, Law>, turn: &mut Pen, other: &Reached)
        requires head { head.now ≡ head_of self.now.book }
        requires turn { (turn.old.book ≡ self.now.book) × IsRight turn.old.nib self.now.last.turn }
        requires series { series_of other.now ≡ series_of self.now }
        ensures turn { (turn.new.book ≡ turn.old.book) × (turn.new.nib ≡ turn.old.nib) }
        ensures begins { Extends other.now.last.state self.now.last.state }
    {
        let mut both = self.seen.again();
        both.learn(&other.seen);
        let mut offer = both.plain::<Nothing, (), HoldTurn>(&());
        head.compare_exchange::<HoldTurn, Nothing>(0, 0, &mut both, &mut offer, turn);
    }

    // Adds a state to the line at this turn, and makes the right to the next turn. It cannot fail, because nobody else has the turn.
    fn announce(&mut self, head: &Word<Publication, u64, Law>, turn: &mut Pen, next: &Published)
        requires head { head.now ≡ head_of self.old.book }
        requires turn { (turn.old.book ≡ self.old.book) × IsRight turn.old.nib self.old.last.turn }
        requires extends { Extends self.old.last.state next.now }
        requires newer { length self.old.last.state.heads < length next.now.heads }
        requires lawful { Lawful next.now }
        ensures series { series_of self.new ≡ series_of self.old }
        ensures state { self.new.last.state ≡ next.now }
        ensures turn { (turn.new.book ≡ self.new.book) × IsRight turn.new.nib self.new.last.turn }
    {
        let following = make_right(head, &self.seen);
        let announced = Announced {
            state: next,
            turn: &following,
        };
        let mut seen = self.seen.again();
        let mut offer = seen.plain::<Nothing, Announced, Add>(&announced);
        head.compare_exchange::<Add, Nothing>(0, 0, &mut seen, &mut offer, turn);
        self.heads = next.heads().len();
        self.seen = seen;
        *turn = following;
    }
}

impl Announcer {
    /// Returns a line with one state, in a book of its own.
    pub fn open(first: &Published) -> Announcer
        requires { Lawful first.now }
        ensures { result.last.state ≡ first.now }
    {
        let (mut seen, mut pen, _) = Seen::open(Start::alone(), 0, 0);
        let head = Word::tracked(0, &mut pen);
        let mut line = make_right(&head, &seen);
        let turn = make_right(&head, &seen);
        let announced = Announced {
            state: first,
            turn: &turn,
        };
        let mut offer = seen.plain::<Nothing, Announced, Add>(&announced);
        head.compare_exchange::<Open, Nothing>(0, 0, &mut seen, &mut offer, &mut line);
        let reached = Reached {
            heads: first.heads().len(),
            seen,
        };
        Announcer {
            head,
            turn,
            reached,
        }
    }

    /// Returns the part of the line that was announced so far.
    pub fn reached(&self) -> Reached
        ensures { result ≡ self.now }
    {
        self.reached.again()
    }

    /// Shows that another's newest state of the line is a prefix of the newest state: nobody else adds to the line.
    pub fn vouch_for(&mut self, other: &Reached)
        requires { series_of other.now ≡ series_of self.old }
        ensures same { self.new ≡ self.old }
        ensures begins { Extends other.now.last.state self.old.last.state }
    {
        let head = &self.head;
        self.reached.vouch_for(head, &mut self.turn, other);
    }

    /// Adds a state, which the newest one is a prefix of, with more heads.
    pub fn announce(&mut self, next: &Published)
        requires extends { Extends self.old.last.state next.now }
        requires newer { length self.old.last.state.heads < length next.now.heads }
        requires lawful { Lawful next.now }
        ensures series { series_of self.new ≡ series_of self.old }
        ensures state { self.new.last.state ≡ next.now }
    {
        let head = &self.head;
        self.reached.announce(head, &mut self.turn, next);
    }
}
