// Laying a place, and the passes of a repeat, into a lent table, four numbers a place (01, "The list machine", paragraph 1).
// `places` walks over a pattern's records and calls these.
#![tactic(auto)]

mod copies;
pub mod repeats;
mod table;

ghost use Rattle.std.specs.Prelude.{◌≡◌};
ghost use Rattle.paper.specs.Tables.{fork_place};
ghost use Rattle.pattern.specs.Kinds.{place_number};
ghost use Rattle.laying.specs.Laid.{entry_of};
ghost use Rattle.laying.specs.Places.{four_numbers, Fits, Puts};
ghost use Rattle.laying.specs.Lent.{Writes};
ghost use Rattle.laying.specs.Single.{Fitting, Put, Forked, Ranged, RangedLaid, Star, StarLaid};

use pattern::{Pattern, PlaceKind};
pub use table::Table;

// The four numbers of a place: its kind, which may be any number as a copy hands on what stands in the table, its follower, and two that its kind gives a meaning.
#[derive(Clone, Copy)]
pub struct Place {
    pub kind: u16,
    pub next: usize,
    pub a: usize,
    pub n: usize,
}

impl Place {
    // A place of a kind whose one number is its follower.
    pub fn plain(kind: PlaceKind, next: usize) -> Place
        ensures { result ≡ four_numbers (place_number kind) next 0 0 }
    {
        Place {
            kind: kind as u16,
            next,
            a: 0,
            n: 0,
        }
    }

    // A fork: the follower that it prefers, and the other.
    pub fn fork(preferred: usize, other: usize) -> Place
        ensures { result ≡ four_numbers fork_place preferred other 0 }
    {
        Place {
            kind: PlaceKind::Fork as u16,
            next: preferred,
            a: other,
            n: 0,
        }
    }

    // Writes the four numbers.
    pub fn write(self, numbers: &mut [u16], x: usize)
        requires { Fitting numbers.old x self.next self.a self.n }
        ensures { Put numbers.old x self.kind self.next self.a self.n numbers.new }
    {
        // four stores, as an array that is copied in would need the same casts
        let b = PlaceKind::NUMBERS * x;
        numbers[b] = self.kind;
        numbers[b + 1] = self.next as u16;
        numbers[b + 2] = self.a as u16;
        numbers[b + 3] = self.n as u16;
    }
}

// Where an expression of so many places is entered: at its first, or at what follows it where it has none.
pub fn entered(places: usize, base: usize, next: usize) -> usize
    ensures { result ≡ entry_of places base next }
{
    if places == 0 { next } else { base }
}

impl Table<'_> {
    // Lays a place.
    pub fn put(&mut self, x: usize, place: Place)
        requires { Fits x place self.old.numbers.now }
        ensures { Writes (Puts x place) self.old self.new }
    {
        place.write(self.numbers, x);
    }

    // The fork before an optional pass: greedy prefers the pass, lazy what follows.
    fn pass_fork(&mut self, x: usize, mode: usize, pass: usize, out: usize)
        requires { Fitting self.old.numbers.now x pass out 0 }
        ensures { Writes (λ before after. Forked before x mode pass out after) self.old self.new }
    {
        if mode == Pattern::GREEDY {
            self.put(x, Place::fork(pass, out));
        } else {
            self.put(x, Place::fork(out, pass));
        }
    }

    // The place of a set: a single range stands in the place's own numbers, so that a step reads no pattern; more are found by their offset.
    pub fn set_place(&mut self, pattern: &[u8], start: usize, stop: usize, base: usize, next: usize)
        requires { Ranged pattern.now start stop base next }
        ensures { Writes (RangedLaid pattern.now start stop base next) self.old self.new }
    {
        let (kind, a, n) = if stop - start == 2 {
            let low = usize::from(pattern[start]);
            let high = usize::from(pattern[start + 1]);
            (PlaceKind::Range as u16, low, high)
        } else {
            (PlaceKind::Set as u16, start, (stop - start) / 2)
        };
        self.put(base, Place { kind, next, a, n });
    }

    // The four places of a repeat without an upper end over any byte, as a search has before and behind its pattern.
    pub fn any_star(&mut self, base: usize, mode: usize, next: usize, first: usize)
        requires { Star self.old.numbers.now base next first }
        ensures { Writes (StarLaid base mode next first) self.old self.new }
    {
        let inside = base + 1 + 1;
        let end = inside + 1;
        let begin = Place {
            kind: PlaceKind::BeginOptional as u16,
            next: inside,
            a: first,
            n: 0,
        };
        let range = Place {
            kind: PlaceKind::Range as u16,
            next: end,
            a: 0,
            n: 255,
        };
        self.pass_fork(base, mode, base + 1, next);
        self.put(base + 1, begin);
        self.put(inside, range);
        self.put(end, Place::plain(PlaceKind::End, base));
    }
}
