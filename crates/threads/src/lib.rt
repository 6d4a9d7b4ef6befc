// Threads in lent memory (01, "The list machine", paragraph 2): a list of them, the branches of forks that wait, the stamps of what a position has met,
// and a thread's rows made absent.
#![tactic(auto)]

ghost use Rattle.std.specs.Prelude.{◌≡◌, not, ◌+◌, ◌*◌, ◌≤◌, ◌<◌, ◌^◌, eqb, length, get_or, set};
ghost use Rattle.paper.specs.Limits.{row_count};
ghost use Rattle.paper.specs.Rows.{clear};
ghost use Rattle.threads.specs.Threads.{thread_numbers, branch_numbers, place_in, rows_in, stored, waited, rows_from, Carries, Pops};

use pattern::Spans;

// The numbers of a thread in a list: its place, and its rows.
pub const THREAD: usize = Spans::NUMBERS + 1;

// The numbers of a branch that waits: its place, the first entry of its level, and its rows.
pub const BRANCH: usize = Spans::NUMBERS + 2;

// Makes as many rows as its constant says, from one on, absent.
fn clear_some<const N: usize>(rows: &mut [u16; Spans::NUMBERS], first: usize)
    requires { first + N ≤ row_count }
    ensures { rows.new ≡ clear first N rows.old }
{
    for k in first..first + N {
        rows[2 * k] = Spans::ABSENT;
        rows[2 * k + 1] = Spans::ABSENT;
    }
}

// Makes a row absent, or none.
fn clear_under_two(rows: &mut [u16; Spans::NUMBERS], first: usize, count: usize)
    requires { (count < 2) × (first + count ≤ row_count) }
    ensures { rows.new ≡ clear first count rows.old }
{
    if count == 1 {
        clear_some::<1>(rows, first);
    }
}

// Makes up to three rows from one on absent.
fn clear_under_four(rows: &mut [u16; Spans::NUMBERS], first: usize, count: usize)
    requires { (count < 4) × (first + count ≤ row_count) }
    ensures { rows.new ≡ clear first count rows.old }
{
    if count < 2 {
        clear_under_two(rows, first, count);
    } else {
        clear_some::<2>(rows, first);
        clear_under_two(rows, first + 2, count - 2);
    }
}

// Makes as many rows from the first on absent, the usual none or one first, in parts of a constant length: a loop of so many turns becomes a call,
// which every step of the machine pays for (0.09 of plain C).
pub fn clear_rows(rows: &mut [u16; Spans::NUMBERS], first: usize, count: usize)
    requires { first + count ≤ row_count }
    ensures { rows.new ≡ clear first count rows.old }
{
    if count < 2 {
        clear_under_two(rows, first, count);
    } else if count < 4 {
        clear_under_four(rows, first, count);
    } else if count < 8 {
        clear_some::<4>(rows, first);
        clear_under_four(rows, first + 4, count - 4);
    } else {
        clear_some::<8>(rows, first);
        clear_under_four(rows, first + 8, count - 8);
    }
}

// Writes a thread at an offset of a list. By a loop: copy_from_slice tests for overlap and copies twice (1.22 of plain C, and 1.03 without).
pub fn store(list: &mut [u16], offset: usize, place: u16, rows: [u16; Spans::NUMBERS])
    requires { offset + thread_numbers ≤ length list.old }
    ensures { list.new ≡ stored list.old offset place rows }
{
    list[offset] = place;
    for j in 0..Spans::NUMBERS {
        list[offset + 1 + j] = rows[j];
    }
}

// The rows of the thread at an offset of a list, by a loop for the same reason.
pub fn load(list: &[u16], offset: usize) -> [u16; Spans::NUMBERS]
    requires { offset + thread_numbers ≤ length list.now }
    ensures { result ≡ rows_from list.now offset }
{
    let b = offset + 1;
    let mut rows = [0; Spans::NUMBERS];
    for j in 0..Spans::NUMBERS {
        rows[j] = list[b + j];
    }
    rows
}

// The thread at an index of a list, on level 0.
pub fn thread_at(list: &[u16], index: usize) -> Thread
    requires { thread_numbers * index + thread_numbers ≤ length list.now }
    ensures { (result.place ≡ place_in list.now index) × (result.floor ≡ 0) × (result.rows ≡ rows_in list.now index) }
{
    let b = THREAD * index;
    Thread {
        place: usize::from(list[b]),
        floor: 0,
        rows: load(list, b),
    }
}

// Stamps an entry of a table; whether it had another stamp.
pub fn mark(table: &mut [u16], index: usize, stamp: u16) -> bool
    requires { index < length table.old }
    ensures { (result ≡ not (eqb (get_or table.old index 0) stamp)) × (table.new ≡ set table.old index stamp) }
{
    let fresh = table[index] != stamp;
    table[index] = stamp;
    fresh
}

// The threads carried to the next position: the stamps of the followers that have one, and the threads in order with how many they are.
#[derive(Drop)]
pub struct Carried<'a> {
    pub taken: &'a mut [u16],
    pub list: &'a mut [u16],
    pub count: usize,
}

impl Carried<'_> {
    ghost use Rattle.threads.specs.Memory.{SameMemory};

    // Carries a thread to a follower that none is carried to yet.
    pub fn carry(&mut self, next: usize, stamp: u16, rows: [u16; Spans::NUMBERS])
        requires { (next < length self.old.taken.now) × (next < 2 ^ 16) × (thread_numbers * self.old.count + thread_numbers ≤ length self.old.list.now) }
        ensures same_memory { SameMemory self.old self.new }
        ensures carries { Carries self.old.taken.now self.old.list.now next stamp rows self.old.count self.new.taken.now self.new.list.now self.new.count }
    {
        if mark(self.taken, next, stamp) {
            store(self.list, THREAD * self.count, next as u16, rows);
            self.count += 1;
        }
    }

    // Puts the winner behind the carried threads, uncounted.
    pub fn win(&mut self, rows: [u16; Spans::NUMBERS])
        requires { thread_numbers * self.old.count + thread_numbers ≤ length self.old.list.now }
        ensures same_memory { SameMemory self.old self.new }
        ensures wins { (self.new.taken.now ≡ self.old.taken.now) × (self.new.count ≡ self.old.count) × (self.new.list.now ≡ stored self.old.list.now (thread_numbers * self.old.count) 0 rows) }
    {
        store(self.list, THREAD * self.count, 0, rows);
    }
}

// A thread, with the first entry of its level in place of the level.
#[derive(Clone, Copy)]
pub struct Thread {
    pub place: usize,
    pub floor: usize,
    pub rows: [u16; Spans::NUMBERS],
}

// The branches of forks that wait, in lent memory, the last on top.
#[derive(Drop)]
pub struct Waiting<'a> {
    pub numbers: &'a mut [u16],
    pub count: usize,
}

impl Waiting<'_> {
    // Puts a branch on top of those that wait.
    pub fn push(&mut self, branch: Thread)
        requires { (branch_numbers * self.old.count + branch_numbers ≤ length self.old.numbers.now) × (branch.floor < 2 ^ 16) × (branch.place < 2 ^ 16) }
        ensures same_memory { self.new.numbers.ghost_name ≡ self.old.numbers.ghost_name }
        ensures pushed { (self.new.numbers.now ≡ waited self.old.numbers.now self.old.count branch.floor branch.place branch.rows) × (self.new.count ≡ self.old.count + 1) }
    {
        let b = BRANCH * self.count;
        self.numbers[b] = branch.floor as u16;
        store(self.numbers, b + 1, branch.place as u16, branch.rows);
        self.count += 1;
    }

    // Takes the branch on top, if one waits.
    pub fn pop(&mut self) -> Option<Thread>
        requires { branch_numbers * self.old.count ≤ length self.old.numbers.now }
        ensures same_memory { (self.new.numbers.ghost_name ≡ self.old.numbers.ghost_name) × (self.new.numbers.now ≡ self.old.numbers.now) }
        ensures popped { Pops self.old.numbers.now self.old.count self.new.count result }
    {
        if self.count == 0 {
            return None;
        }
        self.count -= 1;
        let b = BRANCH * self.count;
        let numbers = &mut *self.numbers;
        Some(Thread {
            place: usize::from(numbers[b + 1]),
            floor: usize::from(numbers[b]),
            rows: load(numbers, b + 1),
        })
    }
}
