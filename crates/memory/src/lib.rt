// A machine in lent memory, built once and run on many lines: its head and its table in one memory, and its scratch in four (01, "The list machine").
#![tactic(auto)]

ghost use Rattle.std.specs.Prelude.{◌≡◌, ◌≤◌, min, length};
ghost use Rattle.memory.specs.Memory.{machine_numbers, scratch_numbers, memories, shortest, MachineOf, BuildsIn, RunsIn};

use machine::{Machine, Scratch};
use matcher::Found;
use pattern::{Numbers, Refused, Spans};

// The memory of a machine.
#[derive(Clone, Copy)]
pub struct Memory {}

impl Memory {
    // its places, its depth, and whether it searches
    pub const HEAD: usize = 3;
}

// Builds a machine behind its head, and then the head.
pub fn build_in(pattern: &[u8], searches: bool, machine: &mut [u16]) -> Result<Numbers, Refused>
    requires { machine_numbers ≤ length machine.old }
    ensures { BuildsIn pattern.now searches machine.old machine.new result }
{
    let numbers = machine::build(pattern, searches, &mut machine[Memory::HEAD..])?;
    machine[0] = numbers.places as u16;
    machine[1] = numbers.depth as u16;
    machine[2] = u16::from(searches);
    Ok(numbers)
}

// Refusals 11 and 12, which touch nothing, else what the machine finds, its rows in the table. The four memories come one by one, as C lends them
// (`toj_run`).
pub fn run_in(
    pattern: &[u8],
    machine: &[u16],
    line: &[u8],
    seen: &mut [u16],
    taken: &mut [u16],
    lists: &mut [u16],
    pending: &mut [u16],
    table: &mut [u16],
) -> Result<Found, Refused>
    requires { (machine_numbers ≤ length machine.now) × MachineOf pattern.now machine.now × (scratch_numbers ≤ shortest (memories seen.old taken.old lists.old pending.old)) }
    ensures { RunsIn pattern.now machine.now line.now (memories seen.old taken.old lists.old pending.old) (memories seen.new taken.new lists.new pending.new) table.old table.new result }
{
    pattern::lent(line, table)?;
    let built = Machine {
        pattern,
        code: &machine[Memory::HEAD..],
        searches: machine[2] == 1,
        places: usize::from(machine[0]),
        depth: usize::from(machine[1]),
    };
    let mut scratch = Scratch {
        seen,
        taken,
        lists,
        pending,
    };
    let ran = built.find_in(line, &mut scratch);
    matcher::fill(table, ran.rows.unwrap_or(Spans::absent_table()));
    matcher::told(ran.rows.is_some(), ran.steps)
}

// The least of the lengths of the four memories that a machine is run in, which `toj_run` tests before it lends them.
pub fn least_of_four(seen: usize, taken: usize, lists: usize, pending: usize) -> usize
    ensures { result ≡ min (min seen taken) (min lists pending) }
{
    seen.min(taken).min(lists.min(pending))
}
