// The positions of the line one after the other: the threads of a list visited in order, and those that they carry.
#![tactic(auto)]

ghost use Rattle.std.specs.Prelude.{◌≡◌, length};
ghost use Rattle.visit.specs.Visits.{SameTables};
ghost use Rattle.run.specs.Steps.{Stepping, Steps, Running, Runs};

use moves::Position;
use pattern::Spans;
use std::mem;
use threads::Carried;
use visit::{State, Table};

// How the machine stopped: the steps made, and the winner's rows where it matched.
#[derive(Clone, Copy)]
pub struct Ran {
    pub steps: u32,
    pub rows: Option<[u16; Spans::NUMBERS]>,
}

// The first threads of a list, so many, at one position, in order, until one wins; whether one does. The list has room behind them, as the other has for a winner.
fn step(
    table: Table,
    position: Position,
    threads: &[u16],
    number: usize,
    state: &mut State,
    pending: &mut [u16],
) -> bool
    requires none_carried { state.old.carried.count ≡ 0 }
    requires stepping { Stepping table.code.now table.pattern.now table.places position.at state.old.seen.now state.old.carried.taken.now threads.now number state.old.carried.list.now pending.old state.old.steps }
    ensures same_tables { SameTables state.old state.new }
    ensures steps { Steps table.entry.code.now table.entry.pattern.now position.ahead table.entry.places position.at state.old.seen.now threads.now number state.old.steps state.new.seen.now state.new.carried.taken.now state.new.carried.list.now state.new.carried.count state.new.steps result }
{
    for i in 0..number {
        let thread = threads::thread_at(threads, i);
        if visit::visit(table, position, thread, state, pending) {
            return true;
        }
    }
    false
}

// The machine from a position of the line on, started with one thread at the first place. The threads that one position carries are the next one's.
// The four memories are not one struct: a struct of lent parts of two others gets no proof.
pub fn run<'a>(
    table: Table,
    line: &[u8],
    start: u16,
    seen: &'a mut [u16],
    taken: &'a mut [u16],
    lists: &'a mut [u16],
    pending: &mut [u16],
) -> Ran
    requires { Running table.code.now table.pattern.now line.now table.places start seen.old taken.old lists.old pending.old }
    ensures { Runs table.entry.code.now table.entry.pattern.now line.now table.entry.places start (length seen.old) result.steps result.rows }
{
    seen.fill(0);
    taken.fill(0);
    let long = threads::THREAD * (table.places + 1);
    let (mut current, list) = lists.split_at_mut(long);
    threads::store(current, 0, 0, [Spans::ABSENT; Spans::NUMBERS]);
    let mut number = 1;
    let mut state = State {
        seen,
        carried: Carried {
            taken,
            list,
            count: 0,
        },
        steps: 0,
    };
    for p in usize::from(start)..=line.len() {
        let position = Position {
            at: p as u16,
            ahead: line.get(p).copied(),
        };
        let wins = step(table, position, current, number, &mut state, pending);
        let carried = &mut state.carried;
        mem::swap(&mut current, &mut carried.list);
        number = carried.count;
        carried.count = 0;
        if wins {
            let winner = threads::thread_at(current, number);
            return Ran {
                steps: state.steps,
                rows: Some(winner.rows),
            };
        }
        if number == 0 {
            break;
        }
    }
    Ran {
        steps: state.steps,
        rows: None,
    }
}
