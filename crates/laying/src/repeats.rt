// The passes of a repeat: those that must be made, then the optional ones, each around a copy of the inner part.
ghost use Rattle.std.specs.Prelude.{◌≡◌, cond, ◌-◌, ◌≤◌, ◌<◌};
ghost use Rattle.laying.specs.Laid.{entry_of};
ghost use Rattle.laying.specs.Lent.{Writes};
ghost use Rattle.laying.specs.Room.{most_places};
ghost use Rattle.laying.specs.Repeats.{inner_start, Begun, BegunLaid, PassesAsked, PassesMade, PassesToMake, Passed, PassedInside};

use crate::copies::Shift;
use crate::{Place, Table, entered};
use pattern::PlaceKind;

// What every pass of a repeat has: where the inner part that it copies stands, its places, its first group and how many groups the pass clears.
#[derive(Clone, Copy)]
pub struct Pass {
    pub model: usize,
    pub places: usize,
    pub first: usize,
    pub groups: usize,
}

// The passes of a repeat: how many must be made and how many may, whether there is no upper end, the mode, where they stand and what follows them.
// What is asked of them stays a clause: some of them are made of others by `..`, which takes no struct with ghost fields.
#[derive(Clone, Copy)]
pub struct Passes {
    pub pass: Pass,
    pub must: usize,
    pub may: usize,
    // no `Option` in place of this and `may`: without an upper end there is one optional pass, counted as any other, and only its end leads back
    pub endless: bool,
    pub mode: usize,
    pub base: usize,
    pub next: usize,
}

// The places of what a repeat repeats, by those of the whole repeat.
pub fn inner_places(all: usize, least: usize, may: usize) -> usize
    requires { Passed all least may }
    ensures { PassedInside all least may result }
{
    let inside = all - least - 3 * may;
    let passes = least + may;
    // a division costs as much as several places
    if passes == 1 { inside } else { inside / passes }
}

// Where the inner part of the first of some passes starts: behind its begin, which has a fork before it where the pass is optional.
pub fn inner_start(must: usize, base: usize) -> usize
    requires { base ≤ most_places }
    ensures { result ≡ inner_start must base }
{
    if must == 0 { base + 2 } else { base + 1 }
}

impl Pass {
    // A begin of a pass, and the inner part behind it.
    fn begun(self, table: &mut Table, kind: u16, base: usize, next: usize)
        requires { Begun self.model self.places kind self.first self.groups base next }
        ensures { Writes (BegunLaid self.model self.places kind self.first self.groups base next) table.old table.new }
    {
        let to = base + 1;
        let count = self.places;
        let begin = Place {
            kind,
            next: entered(count, to, next),
            a: self.first,
            n: self.groups,
        };
        table.put(base, begin);
        // The part that the others copy may stand here already, and lead where it should.
        if self.model != to || next != to + count {
            Shift {
                from: self.model,
                count,
                to,
                next,
            }
            .copied(table);
        }
    }
}

impl Passes {
    // Where the end of an optional pass leads, which others follow.
    fn pass_end(self, others: usize, base: usize, after: usize) -> usize
        ensures { result ≡ cond self.endless base (entry_of others after self.next) }
    {
        if self.endless {
            base
        } else {
            entered(others, after, self.next)
        }
    }

    // The passes that must be made, one after another; answers where the optional ones start.
    fn must_passes(self, table: &mut Table) -> usize
        requires { PassesAsked self }
        ensures { Writes (PassesToMake self 0 self.may result) table.old table.new }
    {
        let mut from = self.base;
        for left in (0..self.must).rev() {
            let after = from + 1 + self.pass.places;
            let out = entered(left + self.may, after, self.next);
            self.pass.begun(table, PlaceKind::Begin as u16, from, out);
            from = after;
        }
        from
    }

    // The optional passes, one after another; without an upper end there is one, whose end leads back.
    fn may_passes(self, table: &mut Table)
        requires none { self.must ≡ 0 }
        requires asked { PassesAsked self }
        ensures { Writes (PassesMade self) table.old table.new }
    {
        let mut from = self.base;
        for left in (0..self.may).rev() {
            let begin = from + 1;
            let end = begin + 1 + self.pass.places;
            let after = end + 1;
            let out = self.pass_end(left, from, after);
            table.pass_fork(from, self.mode, begin, self.next);
            self.pass
                .begun(table, PlaceKind::BeginOptional as u16, begin, end);
            table.put(end, Place::plain(PlaceKind::End, out));
            from = after;
        }
    }

    // The passes: those that must be made, then the optional ones.
    pub fn lay(self, table: &mut Table)
        requires { PassesAsked self }
        ensures { Writes (PassesMade self) table.old table.new }
    {
        let base = self.must_passes(table);
        Passes {
            must: 0,
            base,
            ..self
        }
        .may_passes(table);
    }
}
