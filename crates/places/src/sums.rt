// What records that stand one after another add up to: their places, their groups and how many they are.
ghost use Rattle.std.specs.Prelude.{◌≡◌, ◌+◌, ◌-◌, ◌*◌, ◌≤◌, length};
ghost use Rattle.std.specs.Iterator.{at_most};
ghost use Rattle.paper.specs.Limits.{pattern_bytes, row_count};
ghost use Rattle.paper.specs.Check.{body_end};
ghost use Rattle.places.specs.Sums.{number_of, KindAt, most_own, inside_start, own_places, OwnPlaces, own_groups};
ghost use Rattle.places.specs.Rowed.{Waiting, Goes, Alone, AddsUp, OneAddsUp};

use pattern::{Kind, Pattern, counts};
use records::number_at;

// What records that stand one after another add up to. Places are counted up to the pattern's limit, as `pattern` counts them.
#[derive(Clone, Copy)]
pub struct Sums {
    pub places: usize,
    pub groups: usize,
    pub records: usize,
}

// Records of an accepted pattern that stand one after another, up to the end of their holder.
#[derive(Clone, Copy)]
pub struct Records<'a> {
    pub pattern: &'a [u8],
    pub at: usize,
    pub stop: usize,
}

// One of them.
#[derive(Clone, Copy)]
pub struct Record<'a> {
    pub pattern: &'a [u8],
    pub at: usize,
    pub end: usize,
}

impl<'a> Iterator for Records<'a> {
    type Item = Record<'a>;

    ghost can_next = { Waiting };

    ghost next_gives = { Goes };

    ghost remaining = { λ s. at_most (s.stop - s.at) };

    fn next(&mut self) -> Option<Record<'a>> {
        if self.stop <= self.at {
            return None;
        }
        let at = self.at;
        let end = at + 4 + number_at(self.pattern, at);
        self.at = end;
        Some(Record {
            pattern: self.pattern,
            at,
            end,
        })
    }
}

impl Records<'_> {
    // What they add up to.
    #[cycle(counting)]
    fn sums(self) -> Sums
        requires { Waiting self }
        ensures { AddsUp self.entry result }
    {
        let mut sums = Sums {
            places: 0,
            groups: 0,
            records: 0,
        };
        for record in self {
            let own = record.sums();
            sums = Sums {
                places: counts::sum(sums.places, own.places),
                groups: sums.groups + own.groups,
                records: sums.records + 1,
            };
        }
        sums
    }
}

// The kind of a record of an accepted pattern.
pub fn known_kind(pattern: &[u8], at: usize) -> Kind
    requires { at + 4 ≤ length pattern.now }
    ensures { KindAt pattern.now at result }
{
    Kind::try_from(number_at(pattern, at + 2)).unwrap_or(Kind::Nothing)
}

// Where the records inside a record start: at its end where its kind has none inside.
fn inside_start(kind: Kind, start: usize, end: usize) -> usize
    requires { start ≤ 2 * pattern_bytes }
    ensures { result ≡ inside_start (number_of kind) start end }
{
    match kind {
        Kind::Nothing | Kind::Empty | Kind::Bytes => end,
        Kind::Group | Kind::Sequence | Kind::Alternation => start,
        Kind::Repeat => start + 6,
    }
}

// The places of a record by its kind and what the records inside it add up to.
fn own_places(pattern: &[u8], kind: Kind, start: usize, inside: Sums) -> usize
    requires { OwnPlaces pattern.now (number_of kind) start inside.places inside.records }
    ensures { (result ≡ own_places pattern.now (number_of kind) start inside.places inside.records) × (result ≤ most_own) }
{
    match kind {
        Kind::Nothing | Kind::Bytes => 1,
        Kind::Empty => 0,
        Kind::Group => inside.places + 2,
        Kind::Sequence => inside.places,
        Kind::Alternation => inside.places + (inside.records - 1),
        Kind::Repeat => {
            let least = number_at(pattern, start);
            let optional = counts::optional(least, number_at(pattern, start + 2));
            counts::passes(least, optional, inside.places)
        }
    }
}

// The groups of a record by its kind and those inside it.
fn own_groups(kind: Kind, groups: usize) -> usize
    requires { groups ≤ row_count }
    ensures { (result ≡ own_groups (number_of kind) groups) × (result ≤ row_count + 1) }
{
    if kind == Kind::Group {
        groups + 1
    } else {
        groups
    }
}

impl Record<'_> {
    // What it adds up to alone, by what the records inside it add up to.
    #[cycle(counting)]
    #[inline(never)]
    fn counted(self) -> Sums
        requires { Alone self }
        ensures { OneAddsUp self.entry result }
    {
        let kind = known_kind(self.pattern, self.at);
        let start = self.at + 4;
        let inner = Records {
            pattern: self.pattern,
            at: inside_start(kind, start, self.end),
            stop: self.end,
        };
        let inside = inner.sums();
        let own = own_places(self.pattern, kind, start, inside);
        Sums {
            places: own.min(Pattern::PLACES),
            groups: own_groups(kind, inside.groups),
            records: 1,
        }
    }

    // The same, without a call where no record is inside, as in most: laying `grown (\d+) factory (\d+)` took 340 ns so, and 385 with a call.
    #[cycle(counting)]
    pub fn sums(self) -> Sums
        requires { Alone self }
        ensures { OneAddsUp self.entry result }
    {
        match known_kind(self.pattern, self.at) {
            Kind::Nothing | Kind::Bytes => Sums {
                places: 1,
                groups: 0,
                records: 1,
            },
            Kind::Empty => Sums {
                places: 0,
                groups: 0,
                records: 1,
            },
            _ => self.counted(),
        }
    }
}
