// Little-endian numbers and record headers out of a slice: what patterns, templates and jobs are all read by (01, "Pattern records", paragraph 1).
#![tactic(auto)]

ghost use Rattle.std.specs.Prelude.{◌≡◌, ◌+◌, ◌≤◌, ◌<◌, length};
ghost use Rattle.paper.specs.Check.{number_at};
ghost use Rattle.records.specs.Header.{Shows};

// The bytes before a body: its length and its kind.
pub const BEFORE_BODY: usize = 4;

// A record that is all there: its kind's number, as patterns, templates and jobs have kinds of their own, and where its body starts and ends.
#[derive(Clone, Copy, Debug, PartialEq, Eq)]
pub struct Header {
    pub kind: usize,
    pub start: usize,
    pub end: usize,
}

// The number in the two bytes at an offset, the lower one first.
pub fn number_at(s: &[u8], at: usize) -> usize
    requires { at + 2 ≤ length s.now }
    ensures { (result ≡ number_at s.now at) × (result < 65536) }
{
    usize::from(u16::from_le_bytes([s[at], s[at + 1]]))
}

// The header at an offset, unless the record ends behind `stop`. Four bytes are read only where they stand before `stop`.
pub fn header_at(s: &[u8], at: usize, stop: usize) -> Option<Header>
    requires { (at ≤ stop) × (stop ≤ length s.now) }
    ensures { Shows s.now at stop result }
{
    if stop - at < BEFORE_BODY {
        return None;
    }
    let start = at + BEFORE_BODY;
    let long = number_at(s, at);
    if stop - start < long {
        return None;
    }
    Some(Header {
        kind: number_at(s, at + 2),
        start,
        end: start + long,
    })
}
