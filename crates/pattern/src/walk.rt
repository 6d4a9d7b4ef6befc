// The walk over a pattern's records, outer before inner and left to right. Each function answers with the first fault or with what it counted.
ghost use Rattle.std.specs.Prelude.{◌≡◌, ◌+◌, ◌≤◌, ◌<◌, length};
ghost use Rattle.paper.specs.Limits.{pattern_bytes, pattern_levels, pattern_groups};
ghost use Rattle.paper.specs.Layout.{group_kind, repeat_kind};
ghost use Rattle.paper.specs.Check.{body_start, body_end, single, body, walk_record};
ghost use Rattle.pattern.specs.Kinds.{kind_of};
ghost use Rattle.pattern.specs.Walk.{leaf_of, members_of, several_found, Tells, TellsAll, Held};

use crate::{Kind, Pattern, Refusal, Refused, counts, sets};
use records::{Header, header_at, number_at};

// The bytes of a repeat's three numbers.
const REPEAT_HEAD: usize = 6;

// What the walk of a record counts: where it ends, its places up to the limit, its depth, and the groups up to its end.
#[derive(Clone, Copy)]
pub struct Walked {
    pub end: usize,
    pub places: usize,
    pub depth: usize,
    pub groups: usize,
}

// What the walk of the records in a holder counts: how many there are, their places up to the limit, their depth, and the groups up to their end.
// Not a pattern's `Numbers` inside: here places are counted up to the limit, without the accepting one.
#[derive(Clone, Copy)]
pub struct Members {
    pub count: usize,
    pub places: usize,
    pub depth: usize,
    pub groups: usize,
}

// A record that is all there: its own offset, where its body starts and ends, and how many levels are left inside it.
// How many groups there were before stays beside it: it grows from record to record, and `..` takes no struct with ghost fields.
#[derive(Clone, Copy)]
pub struct Body<'a> {
    s: &'a [u8],
    at: usize,
    start: usize,
    end: usize,
    left: usize,
    ghost starts: { start ≡ body_start at },
    ghost ends: { end ≡ body_end s.now at },
    ghost inside: { end ≤ length s.now },
    ghost few_bytes: { length s.now ≤ pattern_bytes },
    ghost few_levels: { left < pattern_levels },
}

// The record at an offset, of a holder that ends at `stop`: 2, 3 and 6, then by its kind.
#[cycle(reading)]
pub fn any_record(
    s: &[u8],
    at: usize,
    stop: usize,
    levels: usize,
    before: usize,
) -> Result<Walked, Refused>
    requires { Held s.now at stop levels before }
    ensures { Tells stop levels (body_end s.now at) before (walk_record levels s.now at stop before) result }
{
    let Some(Header { kind, start, end }) = header_at(s, at, stop) else {
        return Err(Refusal::BrokenRecord.at(at));
    };
    let Ok(kind) = Kind::try_from(kind) else {
        return Err(Refusal::UnknownKind.at(at));
    };
    if levels == 0 {
        return Err(Refusal::TooDeep.at(at));
    }
    let body = Body {
        s,
        at,
        start,
        end,
        left: levels - 1,
    };
    body.walk(kind, before)
}

impl Body<'_> {
    // By its kind, then what it holds.
    #[cycle(reading)]
    #[inline(always)]
    fn walk(self, kind: Kind, before: usize) -> Result<Walked, Refused>
        requires { before ≤ pattern_groups }
        ensures { Tells self.entry.end (self.entry.left + 1) self.entry.end before (body (kind_of kind) (walk_record self.entry.left self.entry.s.now) self.entry.s.now self.entry.at before) result }
    {
        let empty = self.start == self.end;
        match kind {
            Kind::Nothing => self.leaf(empty, Refusal::BrokenRecord, 1, before),
            Kind::Empty => self.leaf(empty, Refusal::BrokenRecord, 0, before),
            Kind::Bytes => self.leaf(
                sets::right(&self.s[self.start..self.end]),
                Refusal::SetWrong,
                1,
                before,
            ),
            Kind::Group => self.group(before),
            Kind::Sequence => self.several(false, before),
            Kind::Alternation => self.several(true, before),
            Kind::Repeat => self.repeat(before),
        }
    }

    // A record that holds no other.
    #[inline(always)]
    fn leaf(
        self,
        right: bool,
        refusal: Refusal,
        places: usize,
        before: usize,
    ) -> Result<Walked, Refused>
        ensures { result ≡ leaf_of right refusal self.entry.at self.entry.end places before }
    {
        if !right {
            return Err(refusal.at(self.at));
        }
        Ok(Walked {
            end: self.end,
            places,
            depth: 0,
            groups: before,
        })
    }

    // A group: 7, then the one record inside. Its two ends are two places more.
    #[cycle(reading)]
    #[inline(always)]
    fn group(self, before: usize) -> Result<Walked, Refused>
        requires { before ≤ pattern_groups }
        ensures { Tells self.entry.end (self.entry.left + 1) self.entry.end before (body group_kind (walk_record self.entry.left self.entry.s.now) self.entry.s.now self.entry.at before) result }
    {
        if Pattern::GROUPS <= before {
            return Err(Refusal::TooManyGroups.at(self.at));
        }
        let inner = self.one(self.start, before + 1)?;
        Ok(Walked {
            places: counts::sum(inner.places, 2),
            ..inner
        })
    }

    // A repeat: its three numbers, then the one record inside.
    #[cycle(reading)]
    #[inline(always)]
    fn repeat(self, before: usize) -> Result<Walked, Refused>
        requires { before ≤ pattern_groups }
        ensures { Tells self.entry.end (self.entry.left + 1) self.entry.end before (body repeat_kind (walk_record self.entry.left self.entry.s.now) self.entry.s.now self.entry.at before) result }
    {
        if self.end - self.start < REPEAT_HEAD {
            return Err(Refusal::BrokenRecord.at(self.at));
        }
        let least = number_at(self.s, self.start);
        let most = number_at(self.s, self.start + 2);
        let mode = number_at(self.s, self.start + 4);
        if !counts::right(least, most, mode) {
            return Err(Refusal::RepeatWrong.at(self.at));
        }
        let inner = self.one(self.start + REPEAT_HEAD, before)?;
        let optional = counts::optional(least, most);
        Ok(Walked {
            places: counts::passes(least, optional, inner.places),
            depth: inner.depth + usize::from(0 < optional),
            ..inner
        })
    }

    // A sequence or an alternation: two records at least, and in an alternation a fork before each but the last.
    #[cycle(reading)]
    #[inline(always)]
    fn several(self, forks: bool, before: usize) -> Result<Walked, Refused>
        requires { before ≤ pattern_groups }
        ensures { Tells self.entry.end (self.entry.left + 1) self.entry.end before (several_found forks (walk_record self.entry.left self.entry.s.now) self.entry.s.now self.entry.at before) result }
    {
        let members = self.all(before)?;
        if members.count < 2 {
            return Err(Refusal::BrokenRecord.at(self.at));
        }
        let forked = if forks { members.count - 1 } else { 0 };
        Ok(Walked {
            end: self.end,
            places: counts::sum(members.places, forked),
            depth: members.depth,
            groups: members.groups,
        })
    }

    // The one record inside a group or a repeat, from an offset on: bytes left over behind it are a fault of the holder.
    #[cycle(reading)]
    #[inline(always)]
    fn one(self, from: usize, before: usize) -> Result<Walked, Refused>
        requires { (before ≤ pattern_groups) × (from ≤ self.end) }
        ensures { Tells self.entry.end self.entry.left self.entry.end before (single (walk_record self.entry.left self.entry.s.now) self.entry.s.now self.entry.at from before) result }
    {
        let inner = any_record(self.s, from, self.end, self.left, before)?;
        if inner.end < self.end {
            return Err(Refusal::BrokenRecord.at(self.at));
        }
        Ok(inner)
    }

    // All the records inside a sequence or an alternation, left to right.
    #[cycle(reading)]
    #[inline(always)]
    fn all(self, before: usize) -> Result<Members, Refused>
        requires { before ≤ pattern_groups }
        ensures { TellsAll self.entry.left before (members_of (walk_record self.entry.left self.entry.s.now) self.entry.s.now self.entry.at before) result }
    {
        // no iterator: only the walk of a record tells where the next one starts, and a fault ends it
        let mut next = self.start;
        let mut count = 0;
        let mut places = 0;
        let mut depth = 0;
        let mut groups = before;
        while next < self.end {
            let record = any_record(self.s, next, self.end, self.left, groups)?;
            next = record.end;
            count += 1;
            places = counts::sum(places, record.places);
            depth = depth.max(record.depth);
            groups = record.groups;
        }
        Ok(Members {
            count,
            places,
            depth,
            groups,
        })
    }
}
