// A pattern's machine (01, "The list machine"): built once for a whole match or for a search, and run on many lines.
#![tactic(auto)]

ghost use Rattle.std.specs.Prelude.{◌≡◌, Bool, true, false, ◌≤◌, length};
ghost use Rattle.paper.specs.Limits.{line_bytes};
ghost use Rattle.laying.specs.Room.{table_room};
ghost use Rattle.machine.specs.Machine.{Builds, Ready, RunsFrom, MatchGives, SearchGives, FoundGives};
ghost use Rattle.machine.specs.Scratch.{Runnable, Lasts};

mod scratch;

use pattern::{Numbers, Pattern, PlaceKind, Refused};
use run::Ran;
pub use scratch::{LargeScratch, OwnScratch, Scratch, Small, SmallScratch, is_small};
use visit::Table;

// A machine as `build` leaves it: its pattern, its table, whether it is for a search, and how many places it has and how deep they are.
#[derive(Clone, Copy)]
pub struct Machine<'a> {
    pub pattern: &'a [u8],
    pub code: &'a [u16],
    pub searches: bool,
    pub places: usize,
    pub depth: usize,
    pub ghost ready: { ∥ Ready pattern.now code.now searches places depth ∥₁ },
}

// Checks a pattern, and builds its machine for a whole match or for a search into a lent table: the machine's places and depth, and the pattern's groups.
pub fn build(pattern: &[u8], searches: bool, code: &mut [u16]) -> Result<Numbers, Refused>
    requires { table_room ≤ length code.old }
    ensures { Builds pattern.now searches code.old code.new result }
{
    let numbers = pattern::check(pattern)?;
    let last = numbers.places - 1;
    if searches {
        Ok(Numbers {
            places: places::build_search(pattern, code, last, numbers.groups),
            depth: numbers.depth.max(1),
            ..numbers
        })
    } else {
        Ok(Numbers {
            places: places::build_match(pattern, code, last, numbers.groups),
            ..numbers
        })
    }
}

impl Machine<'_> {
    // the sizes of the tables for the largest pattern with a search's wrap around it, which has ten places
    pub const PLACES: usize = Pattern::PLACES + 10;
    // four numbers a place
    pub const CODE: usize = PlaceKind::NUMBERS * Machine::PLACES;
    // a pair of a place and a level: the depth is below the levels of the records
    pub const PAIRS: usize = Machine::PLACES * Pattern::LEVELS;
    // two lists of threads, each with one more for the winner
    pub const LISTS: usize = 2 * threads::THREAD * (Machine::PLACES + 1);
    // the branches that wait: at most two for each place
    pub const PENDING: usize = threads::BRANCH * 2 * Machine::PLACES;
    // the most steps that can be told
    pub const STEPS: usize = 4294967295;

    // The machine on a line from a position on. `Runnable`, here and below, speaks of machine, line and scratch at once, of which no one struct is made:
    // a machine is run on many lines, and scratch is lent from call to call.
    pub fn run_built(self, line: &[u8], from: usize, scratch: &mut Scratch) -> Ran
        requires { Runnable self.places self.depth line.now from scratch.old }
        ensures runs { RunsFrom self.entry.pattern.now self.entry.code.now line.now self.entry.places self.entry.depth from result }
        ensures lasts { Lasts scratch.old scratch.new }
    {
        let places = self.places;
        let table = Table {
            code: self.code,
            pattern: self.pattern,
            places,
        };
        run::run(
            table,
            line,
            from as u16,
            &mut scratch.seen[..places * (self.depth + 1)],
            &mut scratch.taken[..places],
            scratch.lists,
            scratch.pending,
        )
    }

    // A whole match by a machine built for it. Row 0 is the whole line.
    pub fn match_rows(self, line: &[u8], scratch: &mut Scratch) -> Ran
        requires built { self.searches ≡ false }
        requires runnable { Runnable self.places self.depth line.now 0 scratch.old }
        ensures gives { MatchGives self.entry.pattern.now line.now result }
        ensures lasts { Lasts scratch.old scratch.new }
    {
        let mut ran = self.run_built(line, 0, scratch);
        if let Some(rows) = &mut ran.rows {
            rows[0] = 0;
            rows[1] = line.len() as u16;
        }
        ran
    }

    // A search from a position on by a machine built for it. The rows are places in the whole line.
    pub fn search_rows(self, line: &[u8], from: usize, scratch: &mut Scratch) -> Ran
        requires built { self.searches ≡ true }
        requires runnable { Runnable self.places self.depth line.now from scratch.old }
        ensures gives { SearchGives self.entry.pattern.now line.now from result }
        ensures lasts { Lasts scratch.old scratch.new }
    {
        self.run_built(line, from, scratch)
    }

    // A whole match, or a search from the line's start, as the machine was built for.
    pub fn find_in(self, line: &[u8], scratch: &mut Scratch) -> Ran
        requires { Runnable self.places self.depth line.now 0 scratch.old }
        ensures gives { FoundGives self.entry.searches self.entry.pattern.now line.now result }
        ensures lasts { Lasts scratch.old scratch.new }
    {
        if self.searches {
            self.search_rows(line, 0, scratch)
        } else {
            self.match_rows(line, scratch)
        }
    }

    // The same in scratch of its own, as large as the machine asks for. Both sizes are written out, as in `replacer`: nothing is known of what a closure
    // leaves in scratch that it is lent, so its caller could not be proved.
    pub fn find(self, line: &[u8]) -> Ran
        requires { length line.now ≤ line_bytes }
        ensures { FoundGives self.entry.searches self.entry.pattern.now line.now result }
    {
        if is_small(self.places, self.depth) {
            self.find_in(line, &mut SmallScratch::new().lend())
        } else {
            self.find_in(line, &mut LargeScratch::new().lend())
        }
    }
}
