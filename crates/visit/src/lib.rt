// One position of the line (01, "The list machine", paragraph 2): a thread with all that it leads to there, in the order of the forks. The tables are lent;
// nothing is allocated.
#![tactic(auto)]

ghost use Rattle.visit.specs.Visits.{Arrives, SameTables, Visits};

use moves::Position;
use threads::{Carried, Thread, Waiting};

// A table of places, with the pattern that its sets stand in.
#[derive(Clone, Copy)]
pub struct Table<'a> {
    pub code: &'a [u16],
    pub pattern: &'a [u8],
    pub places: usize,
}

// A state of the machine at a position: the pairs that were met, the threads that are carried, and the steps so far.
#[derive(Drop)]
pub struct State<'a> {
    pub seen: &'a mut [u16],
    pub carried: Carried<'a>,
    pub steps: u32,
}

// A thread on level 0, with all that it leads to at this position; whether a thread wins. A fork's other branch waits until the preferred one has come to its end.
// One function: in two, a thread's way and the taking of the next branch, it runs 6 % slower (docs/DECISIONS.md, 35).
pub fn visit(
    table: Table,
    position: Position,
    start: Thread,
    state: &mut State,
    pending: &mut [u16],
) -> bool
    requires { Arrives table.code.now table.pattern.now table.places position.at start.place state.old.seen.now state.old.carried.taken.now state.old.carried.list.now pending.old state.old.carried.count state.old.steps }
    ensures same_tables { SameTables state.old state.new }
    ensures visits { Visits table.entry.code.now table.entry.pattern.now position.ahead table.entry.places position.at start.place start.rows state.old.seen.now state.old.carried.taken.now state.old.carried.list.now state.old.carried.count state.old.steps state.new.seen.now state.new.carried.taken.now state.new.carried.list.now state.new.carried.count state.new.steps result }
{
    // Not in one Thread: rows that stand alone are aligned (0.91 of plain C in place of 1.03).
    let mut place = start.place;
    let mut floor = 0;
    let mut rows = start.rows;
    let mut waiting = Waiting {
        numbers: pending,
        count: 0,
    };
    // no iterator: what comes next is where this place leads, or the branch on top
    loop {
        if threads::mark(state.seen, floor + place, position.at + 1) {
            state.steps += 1;
            let here = moves::place_at(table.code, place);
            if here.kind == moves::FORK {
                let (preferred, other) = (here.next, here.a);
                waiting.push(Thread {
                    place: other,
                    floor,
                    rows,
                });
                place = preferred;
                continue;
            }
            if here.kind < moves::SET {
                let led = moves::lead(here, position.at, floor, table.places, &mut rows);
                if let Some(level) = led {
                    floor = level;
                    place = here.next;
                    continue;
                }
            } else if moves::settle(table.pattern, &mut state.carried, here, position, rows) {
                return true;
            }
        }
        // The thread has come to its end: the branch on top goes on.
        let Some(branch) = waiting.pop() else {
            return false;
        };
        place = branch.place;
        floor = branch.floor;
        rows = branch.rows;
    }
}
