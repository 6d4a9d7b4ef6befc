// One turn of replace-all's scan (01, "Replace-all"): what a search that was made asks to copy and to put in, and where the scan goes on.
#![tactic(auto)]

pub mod output;
mod putting;

ghost use Rattle.std.specs.Prelude.{◌≡◌, Some, not, ◌≤◌, length};
ghost use Rattle.paper.specs.Limits.{line_bytes};
ghost use Rattle.paper.specs.Replace.{suppressed};
ghost use Rattle.paper.specs.ScanTurn.{turn_of, turn_bytes, TurnFits};
ghost use Rattle.turns.specs.Turn.{option_of, Finds, as_turn};
ghost use Rattle.turns.specs.Accepted.{pieces_of, Right};

use output::Output;
use pattern::Spans;
pub use putting::Sources;

// Up to where the line is copied first, the rows of the match that was found, whether the template is put in for it, up to where the line is
// copied then, from where the scan goes on, where the last non-empty match ended, and the search's steps. A match that is suppressed has its rows too.
#[derive(Clone, Copy)]
pub struct Turn {
    pub start: usize,
    pub found: Option<[u16; Spans::NUMBERS]>,
    pub put: bool,
    pub upto: usize,
    pub goes: Option<usize>,
    pub last: Option<usize>,
    pub steps: u32,
}

// Whether a match is replaced: an empty one that stands where the last non-empty match ended is not.
fn is_replaced(start: usize, end: usize, last: Option<usize>) -> bool
    ensures { result ≡ not (suppressed start end (option_of last)) }
{
    start != end || last != Some(start)
}

// The turn of a match, by its rows.
fn match_turn(size: usize, last: Option<usize>, rows: [u16; Spans::NUMBERS], steps: u32) -> Turn
    requires { Finds size (Some rows) }
    ensures { (as_turn result ≡ turn_of size (option_of last) (option_of (Some rows))) × (result.steps ≡ steps) }
{
    let start = usize::from(rows[0]);
    let end = usize::from(rows[1]);
    let put = is_replaced(start, end, last);
    let (upto, goes, last) = if start < end {
        (start, Some(end), Some(end))
    } else if start < size {
        (start + 1, Some(start + 1), last)
    } else {
        (start, None, last)
    };
    Turn {
        start,
        found: Some(rows),
        put,
        upto,
        goes,
        last,
        steps,
    }
}

// The turn of a search, by the rows that it found: with no match the rest of the line is copied, and the scan ends.
pub fn turn_of(
    size: usize,
    last: Option<usize>,
    found: Option<[u16; Spans::NUMBERS]>,
    steps: u32,
) -> Turn
    requires { Finds size found }
    ensures { (as_turn result ≡ turn_of size (option_of last) (option_of found)) × (result.steps ≡ steps) }
{
    match found {
        Some(rows) => match_turn(size, last, rows, steps),
        None => Turn {
            start: size,
            found: None,
            put: false,
            upto: size,
            goes: None,
            last,
            steps,
        },
    }
}

impl Turn {
    // Appends what a turn from a position writes.
    pub fn write<O: Output>(self, sources: Sources, from: usize, output: &mut O)
        requires { TurnFits (length sources.line.now) from (as_turn self) × O.has_room output.old (turn_bytes sources.template.now sources.line.now (pieces_of sources.template.now) from (as_turn self)) }
        ensures { O.appends output.old (turn_bytes sources.entry.template.now sources.entry.line.now (pieces_of sources.entry.template.now) from (as_turn self)) output.new }
    {
        output.append(&sources.line[from..self.start]);
        if self.put {
            sources.put(self.found.unwrap_or(Spans::absent_table()), output);
        }
        output.append(&sources.line[self.start..self.upto]);
    }
}
