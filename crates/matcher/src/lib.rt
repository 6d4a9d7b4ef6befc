// The public calls whole match and search (01, "The ordered reading"): their refusals, the machine's answer, and its rows in the lent table.
#![tactic(auto)]

ghost use Rattle.std.specs.Prelude.{◌≡◌, ◌++◌, ◌≤◌, length, drop};
ghost use Rattle.paper.specs.Limits.{table_numbers};
ghost use Rattle.matcher.specs.Answer.{TellsSteps};
ghost use Rattle.matcher.specs.Promise.{Matches, Searches, Answers};

use machine::Machine;
use pattern::{Numbers, Refusal, Refused, Spans};

// What a whole match or a search finds: whether there is a match, whose rows stand in the lent table, and the steps.
#[derive(Clone, Copy, Debug, PartialEq, Eq)]
pub struct Found {
    pub matched: bool,
    pub steps: u32,
}

// Writes rows to the front of a table.
pub fn fill(table: &mut [u16], rows: [u16; Spans::NUMBERS])
    requires { table_numbers ≤ length table.old }
    ensures { table.new ≡ rows ++ drop table_numbers table.old }
{
    table[..Spans::NUMBERS].copy_from_slice(&rows);
}

// What tells the steps, refused by 14 where they are too many to tell. Of an accepted pattern and a line within the limits they never are.
pub fn told(matched: bool, steps: u32) -> Result<Found, Refused>
    ensures { TellsSteps matched steps result }
{
    if Machine::STEPS < steps as usize {
        return Err(Refusal::TooManySteps.at(0));
    }
    Ok(Found { matched, steps })
}

// Refusals 11 and 12, else what the machine finds, its rows in the table.
fn finish(machine: Machine, line: &[u8], table: &mut [u16]) -> Result<Found, Refused>
    ensures { Answers machine.entry.searches machine.entry.pattern.now line.now table.old result table.new }
{
    pattern::lent(line, table)?;
    let ran = machine.find(line);
    fill(table, ran.rows.unwrap_or(Spans::absent_table()));
    told(ran.rows.is_some(), ran.steps)
}

// A whole match or a search: refusals 1 to 8, then the rest.
fn call(pattern: &[u8], searches: bool, line: &[u8], table: &mut [u16]) -> Result<Found, Refused>
    ensures { Answers searches pattern.now line.now table.old result table.new }
{
    let mut code = [0u16; Machine::CODE];
    let Numbers { places, depth, .. } = machine::build(pattern, searches, &mut code)?;
    let machine = Machine {
        pattern,
        code: &code,
        searches,
        places,
        depth,
    };
    finish(machine, line, table)
}

// Whole match: the first outcome of the ordered reading that ends at the line's end. Its rows go to the table, and the answer tells the steps.
pub fn whole_match(pattern: &[u8], line: &[u8], table: &mut [u16]) -> Result<Found, Refused>
    ensures { Matches pattern.now line.now table.old result table.new }
{
    call(pattern, false, line, table)
}

// Search: the first place in the line where the pattern matches, by the whole match of the pattern with the wrap around it.
pub fn search(pattern: &[u8], line: &[u8], table: &mut [u16]) -> Result<Found, Refused>
    ensures { Searches pattern.now line.now table.old result table.new }
{
    call(pattern, true, line, table)
}
