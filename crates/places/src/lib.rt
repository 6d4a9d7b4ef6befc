// Building: the places of an accepted pattern into a lent table (01, "The list machine", paragraph 1). A walk over its records lays them, and counts
// the places of a record ahead where another follows it.
#![tactic(auto)]

mod sums;
mod walk;

ghost use Rattle.std.specs.Prelude.{◌≤◌, length};
ghost use Rattle.laying.specs.Room.{table_room};
ghost use Rattle.places.specs.Built.{Accepted, BuiltMatch, BuiltSearch};

use laying::{Place, Table};
use pattern::{Pattern, PlaceKind};
use walk::Part;

// Builds an accepted pattern's places for a whole match, and answers how many they are. Checking has told the pattern's own places and its groups.
pub fn build_match(pattern: &[u8], table: &mut [u16], places: usize, groups: usize) -> usize
    requires accepted { Accepted pattern.now places groups }
    requires room { table_room ≤ length table.old }
    ensures { BuiltMatch pattern.now table.old table.new result }
{
    let mut lent = Table { numbers: table };
    let whole = Part {
        pattern,
        at: 0,
        stop: pattern.len(),
        first: 1,
        places,
        groups,
        base: 0,
        next: places,
    };
    whole.one(&mut lent);
    lent.put(places, Place::plain(PlaceKind::Accept, 0));
    places + 1
}

// Builds an accepted pattern's places for a search, with those of the wrap around it, and answers how many they are.
pub fn build_search(pattern: &[u8], table: &mut [u16], places: usize, groups: usize) -> usize
    requires accepted { Accepted pattern.now places groups }
    requires room { table_room ≤ length table.old }
    ensures { BuiltSearch pattern.now table.old table.new result }
{
    let second = places + 6;
    let end = second + 4;
    let whole = Part {
        pattern,
        at: 0,
        stop: pattern.len(),
        first: 1,
        places,
        groups,
        base: 4,
        next: second,
    };
    let mut lent = Table { numbers: table };
    lent.any_star(0, Pattern::LAZY, 4, 0);
    whole.captured(&mut lent, 0);
    lent.any_star(second, Pattern::GREEDY, end, groups + 1);
    lent.put(end, Place::plain(PlaceKind::Accept, 0));
    end + 1
}
