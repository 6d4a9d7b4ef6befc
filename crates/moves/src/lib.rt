// The move at a place (01, "The list machine", paragraph 2): where it leads at once, or what it carries to the next position, or that it wins.
#![tactic(auto)]

ghost use Rattle.std.specs.Prelude.{◌≡◌, ◌&&◌, ◌+◌, ◌*◌, ◌≤◌, ◌<◌, ◌^◌, leb, length};
ghost use Rattle.paper.specs.Reading.{in_set};
ghost use Rattle.paper.specs.Check.{ranges_of, part};
ghost use Rattle.paper.specs.Tables.{place_numbers, fork_place, set_place, place_kind_at, place_next_at, place_first_at, place_many_at};
ghost use Rattle.threads.specs.Memory.{SameMemory};
ghost use Rattle.moves.specs.Moves.{Slots, Eats, Leads, Settling, Settles};

use pattern::{PlaceKind, Spans};
use threads::Carried;

// The kinds of place, as numbers: `settle` takes any number from SET on. Those before SET lead on at once: a fork to two places, the others to one.
pub const FORK: usize = PlaceKind::Fork as usize;

const OPEN: usize = PlaceKind::Open as usize;

const CLOSE: usize = PlaceKind::Close as usize;

const BEGIN_OPTIONAL: usize = PlaceKind::BeginOptional as usize;

const END: usize = PlaceKind::End as usize;

pub const SET: usize = PlaceKind::Set as usize;

const RANGE: usize = PlaceKind::Range as usize;

const ACCEPT: usize = PlaceKind::Accept as usize;

// A position of the line, with the byte that stands there, if one does.
#[derive(Clone, Copy)]
pub struct Position {
    pub at: u16,
    pub ahead: Option<u8>,
}

// The four numbers of a place as they are read, each an index; `laying` has those that are written, which have yet to fit.
#[derive(Clone, Copy)]
pub struct Place {
    pub kind: usize,
    pub next: usize,
    pub a: usize,
    pub n: usize,
}

// The place at an index of a table.
pub fn place_at(code: &[u16], index: usize) -> Place
    requires { place_numbers * index + 3 < length code.now }
    ensures { (result.kind ≡ place_kind_at code.now index) × (result.next ≡ place_next_at code.now index) × (result.a ≡ place_first_at code.now index) × (result.n ≡ place_many_at code.now index) }
{
    let b = PlaceKind::NUMBERS * index;
    Place {
        kind: usize::from(code[b]),
        next: usize::from(code[b + 1]),
        a: usize::from(code[b + 2]),
        n: usize::from(code[b + 3]),
    }
}

// Whether a byte lies between two numbers.
fn in_range(low: usize, high: usize, byte: u8) -> bool
    ensures { result ≡ (leb low byte && leb byte high) }
{
    (low..=high).contains(&usize::from(byte))
}

// Whether ranges of the pattern, left to right, hold a byte. By a `for`, since `any` over pairs is not proved.
fn in_set(pattern: &[u8], offset: usize, count: usize, byte: u8) -> bool
    requires { offset + 2 * count ≤ length pattern.now }
    ensures { result ≡ in_set (ranges_of (part pattern.now offset (offset + 2 * count))) byte }
{
    let (ranges, _) = pattern[offset..offset + 2 * count].as_chunks::<2>();
    for &[low, high] in ranges {
        if in_range(usize::from(low), usize::from(high), byte) {
            return true;
        }
    }
    false
}

// Whether a place takes the byte ahead: it has a range, or a set of the pattern.
fn eats(pattern: &[u8], ahead: Option<u8>, here: Place) -> bool
    requires { here.kind ≡ set_place → here.a + 2 * here.n ≤ length pattern.now }
    ensures { Eats pattern.now ahead here.kind here.a here.n result }
{
    let Some(byte) = ahead else {
        return false;
    };
    match here.kind {
        RANGE => in_range(here.a, here.n, byte),
        SET => in_set(pattern, here.a, here.n, byte),
        _ => false,
    }
}

// A place that leads on at once, after FORK up to END: open, close, begin, begin optional, end. It changes the rows where they stand.
// The floor of the level that it leads to, unless it is an end above level 0, which leads nowhere.
pub fn lead(
    here: Place,
    at: u16,
    floor: usize,
    places: usize,
    rows: &mut [u16; Spans::NUMBERS],
) -> Option<usize>
    requires { (fork_place < here.kind) × (here.kind < set_place) × (floor + places < 2 ^ 64) × (0 < places) × Slots here.kind here.a here.n }
    ensures { Leads here.kind here.a here.n at places floor rows.old result rows.new }
{
    match here.kind {
        OPEN => {
            rows[2 * here.a] = at;
            Some(floor)
        }
        CLOSE => {
            rows[2 * here.a + 1] = at;
            Some(floor)
        }
        END => (floor == 0).then_some(0),
        _ => {
            threads::clear_rows(rows, here.a, here.n);
            let raised = here.kind == BEGIN_OPTIONAL;
            Some(if raised { floor + places } else { floor })
        }
    }
}

// A place that leads nowhere at once, from SET on: a set, stop, accept. Whether the thread wins.
pub fn settle(
    pattern: &[u8],
    carried: &mut Carried,
    here: Place,
    position: Position,
    rows: [u16; Spans::NUMBERS],
) -> bool
    requires { Settling pattern.now position.at here.kind here.next here.a here.n carried.old.taken.now carried.old.list.now carried.old.count }
    ensures same_memory { SameMemory carried.old carried.new }
    ensures settles { Settles pattern.now position.ahead position.at here.kind here.next here.a here.n rows carried.old.taken.now carried.old.list.now carried.old.count carried.new.taken.now carried.new.list.now carried.new.count result }
{
    if eats(pattern, position.ahead, here) {
        carried.carry(here.next, position.at + 1, rows);
        return false;
    }
    if here.kind == ACCEPT && position.ahead.is_none() {
        carried.win(rows);
        return true;
    }
    false
}
