// The walk over the records of a pattern: each is laid by its kind, outer before inner and left to right.
ghost use Rattle.std.specs.Prelude.{◌≡◌, ◌+◌, ◌≤◌, length};
ghost use Rattle.paper.specs.Limits.{pattern_bytes};
ghost use Rattle.paper.specs.Check.{body_end, kind_at};
ghost use Rattle.laying.specs.Lent.{Writes};
ghost use Rattle.places.specs.Walk.{Joining, Joined, OneAsked, OneMade, GroupAsked, GroupMade, RowAsked, RowMade, RepeatAsked, RepeatMade};

use crate::sums::{Record, known_kind};
use laying::repeats::{Pass, Passes, inner_places, inner_start};
use laying::{Place, Table, entered};
use pattern::{Kind, Pattern, PlaceKind, counts};
use records::number_at;

// Records that are laid: where they stand and end, the number of their first group, how many places and groups they have,
// where their places stand and what follows them.
#[derive(Clone, Copy)]
pub struct Part<'a> {
    pub pattern: &'a [u8],
    pub at: usize,
    pub stop: usize,
    pub first: usize,
    pub places: usize,
    pub groups: usize,
    pub base: usize,
    pub next: usize,
}

// Where the record at an offset ends.
fn record_end(pattern: &[u8], at: usize) -> usize
    requires header { at + 4 ≤ length pattern.now }
    requires short { length pattern.now ≤ pattern_bytes }
    ensures { result ≡ body_end pattern.now at }
{
    at + 4 + number_at(pattern, at)
}

impl Part<'_> {
    // The places of a group: its open, what it holds, its close. The part is what it holds, and its places begin with the open.
    #[cycle(walking)]
    pub fn captured(&self, table: &mut Table, group: usize)
        requires { GroupAsked self.now group }
        ensures { Writes (GroupMade self.now group) table.old table.new }
    {
        let base = self.base + 1;
        let close = base + self.places;
        let open = Place {
            kind: PlaceKind::Open as u16,
            next: entered(self.places, base, close),
            a: group,
            n: 0,
        };
        let end = Place {
            kind: PlaceKind::Close as u16,
            next: self.next,
            a: group,
            n: 0,
        };
        table.put(self.base, open);
        Part {
            base,
            next: close,
            ..*self
        }
        .one(table);
        table.put(close, end);
    }

    // The places of one repeat: the inner part of its first pass, and the passes around it and its copies.
    #[cycle(walking)]
    #[inline(never)]
    fn repeated(&self, table: &mut Table)
        requires { RepeatAsked self.now }
        ensures { Writes (RepeatMade self.now) table.old table.new }
    {
        let start = self.at + 4;
        let must = number_at(self.pattern, start);
        let most = number_at(self.pattern, start + 2);
        let mode = number_at(self.pattern, start + 4);
        let may = counts::optional(must, most);
        let places = inner_places(self.places, must, may);
        let model = inner_start(must, self.base);
        let inner = Part {
            at: start + 6,
            places,
            base: model,
            next: model + places,
            ..*self
        };
        let passes = Passes {
            pass: Pass {
                model,
                places,
                first: self.first,
                groups: self.groups,
            },
            must,
            may,
            endless: most == Pattern::NO_UPPER_END,
            mode,
            base: self.base,
            next: self.next,
        };
        inner.one(table);
        passes.lay(table);
    }

    // The places of one record. What lays the records inside it stands apart: most records hold none, and theirs is the shorter way.
    #[cycle(walking)]
    pub fn one(&self, table: &mut Table)
        requires { OneAsked self.now }
        ensures { Writes (OneMade self.now) table.old table.new }
    {
        if self.places == 0 {
            return;
        }
        match known_kind(self.pattern, self.at) {
            Kind::Nothing => table.put(self.base, Place::plain(PlaceKind::Stop, 0)),
            Kind::Empty => {}
            Kind::Bytes => table.set_place(
                self.pattern,
                self.at + 4,
                self.stop,
                self.base,
                self.next,
            ),
            Kind::Group => self.group(table),
            Kind::Sequence => self.row(table, false),
            Kind::Alternation => self.row(table, true),
            Kind::Repeat => self.repeated(table),
        }
    }

    // The places of a group.
    #[cycle(walking)]
    #[inline(never)]
    fn group(&self, table: &mut Table)
        requires one { OneAsked self.now }
        requires group { kind_at self.now.pattern.now self.now.at ≡ 3 }
        ensures { Writes (OneMade self.now) table.old table.new }
    {
        let held = Part {
            at: self.at + 4,
            first: self.first + 1,
            places: self.places - 2,
            groups: self.groups - 1,
            ..*self
        };
        held.captured(table, self.first);
    }

    // Where a record of so many places leads that others follow, `rest` places from `second` on: in a sequence to the next that has places,
    // in an alternation to what follows the row, and then a fork stands before the record.
    fn joined(
        &self,
        table: &mut Table,
        forks: bool,
        places: usize,
        second: usize,
        rest: usize,
    ) -> usize
        requires { Joining forks self.now.base second self.now.next }
        ensures { Writes (Joined forks self.now.base places second rest self.now.next result) table.old table.new }
    {
        let other = entered(rest, second, self.next);
        if forks {
            let preferred = entered(places, self.base + 1, self.next);
            table.put(self.base, Place::fork(preferred, other));
            self.next
        } else {
            other
        }
    }

    // The places of the records inside one, as a sequence or with the forks of an alternation, one before each record but the last.
    // No `for` over `Records`: the last record is not counted, it has what is left, and each would be asked whether it is the last.
    #[cycle(walking)]
    #[inline(never)]
    fn row(&self, table: &mut Table, forks: bool)
        requires { RowAsked self.now forks }
        ensures { Writes (RowMade self.now forks) table.old table.new }
    {
        let head = usize::from(forks);
        let pattern = self.pattern;
        let at = self.at + 4;
        let mut left = Part { at, ..*self };
        let mut end = record_end(pattern, at);
        while end != self.stop {
            let at = left.at;
            let own = Record { pattern, at, end }.sums();
            let base = left.base + head;
            let second = base + own.places;
            let rest = left.places - head - own.places;
            let next = left.joined(table, forks, own.places, second, rest);
            let one = Part {
                stop: end,
                places: own.places,
                groups: own.groups,
                base,
                next,
                ..left
            };
            one.one(table);
            left = Part {
                at: end,
                first: left.first + own.groups,
                places: rest,
                groups: left.groups - own.groups,
                base: second,
                ..left
            };
            end = record_end(pattern, end);
        }
        left.one(table);
    }
}
