// A pattern's places in words, one a line, so that a person can follow how a pattern runs.
ghost use Rattle.std.specs.Prelude.{◌≤◌};
ghost use Rattle.printer.specs.Gathered.{Gathered};

use crate::words::labelled;
use pattern::PlaceKind;
use printer::Printer;

// The four numbers of a place as they stand in the table; `moves` and `laying` have theirs as indices, and the crates do not use one another.
#[derive(Clone, Copy)]
struct Place {
    kind: u16,
    next: u16,
    a: u16,
    many: u16,
}

// A byte: as its character in quotes, or in digits where it has none that can be seen.
fn letter(p: &mut Printer, b: u8)
    ensures { Gathered p.old p.new }
{
    if b.is_ascii_graphic() {
        p.bytes(&[b'\'', b, b'\'']);
    } else {
        p.bytes(b"0x");
        p.hex(b);
    }
}

// A range of a set: its one byte, or its first and last.
fn range(p: &mut Printer, low: u8, high: u8)
    ensures { Gathered p.old p.new }
{
    p.bytes(b" ");
    letter(p, low);
    if low != high {
        p.bytes(b"-");
        letter(p, high);
    }
}

// The ranges of a set.
fn ranges(p: &mut Printer, pairs: &[u8])
    ensures { Gathered p.old p.new }
{
    p.bytes(b"set");
    let (pairs, _) = pairs.as_chunks::<2>();
    for &[low, high] in pairs {
        range(p, low, high);
    }
}

// A set, whose ranges stand in the pattern from an offset on.
fn set(p: &mut Printer, pattern: &[u8], offset: u16, count: u16)
    ensures { Gathered p.old p.new }
{
    let start = usize::from(offset);
    match pattern.get(start..start + 2 * usize::from(count)) {
        Some(pairs) => ranges(p, pairs),
        None => p.bytes(b"set outside the pattern"),
    }
}

// A set of one range, whose least and greatest byte are the place's numbers. A search has two places that take every byte.
fn single(p: &mut Printer, low: u16, high: u16)
    ensures { Gathered p.old p.new }
{
    if low == 0 && high == 255 {
        p.bytes(b"any byte");
    } else {
        let ([low, _], [high, _]) = (low.to_le_bytes(), high.to_le_bytes());
        ranges(p, &[low, high]);
    }
}

// A begin of a pass, and the groups that it makes absent.
fn begin(p: &mut Printer, words: &[u8], first: u16, count: u16)
    ensures { Gathered p.old p.new }
{
    p.bytes(words);
    match count {
        0 => {}
        1 => labelled(p, b", clears group ", u64::from(first)),
        _ => {
            labelled(p, b", clears groups ", u64::from(first));
            labelled(p, b" to ", u64::from(first) + u64::from(count) - 1);
        }
    }
}

impl Place {
    // What a place does that has one follower.
    fn action(self, p: &mut Printer, pattern: &[u8])
        ensures { Gathered p.old p.new }
    {
        match PlaceKind::try_from(self.kind) {
            Ok(PlaceKind::Open) => labelled(p, b"open ", u64::from(self.a)),
            Ok(PlaceKind::Close) => labelled(p, b"close ", u64::from(self.a)),
            Ok(PlaceKind::Begin) => begin(p, b"begin", self.a, self.many),
            Ok(PlaceKind::BeginOptional) => begin(p, b"begin optional", self.a, self.many),
            Ok(PlaceKind::End) => p.bytes(b"end"),
            Ok(PlaceKind::Set) => set(p, pattern, self.a, self.many),
            _ => single(p, self.a, self.many),
        }
    }

    // What a place does and where it leads.
    fn deed(self, p: &mut Printer, pattern: &[u8])
        ensures { Gathered p.old p.new }
    {
        match PlaceKind::try_from(self.kind) {
            Ok(PlaceKind::Fork) => {
                labelled(p, b"fork, prefers ", u64::from(self.next));
                labelled(p, b", else ", u64::from(self.a));
            }
            Ok(PlaceKind::Stop) => p.bytes(b"stop"),
            Ok(PlaceKind::Accept) => p.bytes(b"accept"),
            _ => {
                self.action(p, pattern);
                labelled(p, b", then ", u64::from(self.next));
            }
        }
    }
}

// The places whose numbers stand in a table, in order.
pub fn places(p: &mut Printer, pattern: &[u8], code: &[u16])
    ensures { Gathered p.old p.new }
{
    let (places, _) = code.as_chunks::<{ PlaceKind::NUMBERS }>();
    for (number, &[kind, next, a, many]) in places.iter().enumerate() {
        labelled(p, b"    ", number as u64);
        p.bytes(b" ");
        Place {
            kind,
            next,
            a,
            many,
        }
        .deed(p, pattern);
        p.bytes(b"\n");
    }
}
