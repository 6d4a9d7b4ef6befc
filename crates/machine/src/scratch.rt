// The scratch that a machine runs in: lent, or of a call's own in one of two sizes.
ghost use Rattle.std.specs.Prelude.{◌≡◌, ◌*◌, ◌^◌, ◌<◌, length, replicate};
ghost use Rattle.machine.specs.Scratch.{fits_small};

use crate::Machine;

// Four lent memories: the stamps of the pairs seen and of the places taken, the two lists of threads, and the branches that wait.
#[derive(Drop)]
pub struct Scratch<'a> {
    pub seen: &'a mut [u16],
    pub taken: &'a mut [u16],
    pub lists: &'a mut [u16],
    pub pending: &'a mut [u16],
}

// The sizes of the scratch for a machine of few places and levels, as most patterns have: a call that owns its scratch has less to clear.
// The sums are those of `Machine`: an array's length is not computed from a const parameter.
#[derive(Clone, Copy)]
pub struct Small {}

impl Small {
    pub const PLACES: usize = 64;

    pub const LEVELS: usize = 4;

    pub const PAIRS: usize = Small::PLACES * Small::LEVELS;

    pub const LISTS: usize = 2 * threads::THREAD * (Small::PLACES + 1);

    pub const PENDING: usize = threads::BRANCH * 2 * Small::PLACES;
}

// Whether small scratch is enough for a machine.
pub fn is_small(places: usize, depth: usize) -> bool
    ensures { result ≡ fits_small places depth }
{
    places <= Small::PLACES && depth < Small::LEVELS
}

// Scratch of a call's own.
#[derive(Drop)]
pub struct OwnScratch<
    const PAIRS: usize,
    const PLACES: usize,
    const LISTS: usize,
    const PENDING: usize,
> {
    pub seen: [u16; PAIRS],
    pub taken: [u16; PLACES],
    pub lists: [u16; LISTS],
    pub pending: [u16; PENDING],
}

pub type LargeScratch = OwnScratch<
    { Machine::PAIRS },
    { Machine::PLACES },
    { Machine::LISTS },
    { Machine::PENDING },
>;

pub type SmallScratch = OwnScratch<
    { Small::PAIRS },
    { Small::PLACES },
    { Small::LISTS },
    { Small::PENDING },
>;

impl<const PAIRS: usize, const PLACES: usize, const LISTS: usize, const PENDING: usize> OwnScratch<
    PAIRS,
    PLACES,
    LISTS,
    PENDING,
> {
    // Clear.
    pub fn new() -> Self
        requires { (PAIRS < 2 ^ 32) × (PLACES < 2 ^ 32) × (LISTS < 2 ^ 32) × (PENDING < 2 ^ 32) }
        ensures seen { result.seen ≡ replicate PAIRS 0 }
        ensures taken { result.taken ≡ replicate PLACES 0 }
        ensures lists { result.lists ≡ replicate LISTS 0 }
        ensures pending { result.pending ≡ replicate PENDING 0 }
    {
        OwnScratch {
            seen: [0; PAIRS],
            taken: [0; PLACES],
            lists: [0; LISTS],
            pending: [0; PENDING],
        }
    }

    // Lent to one run or to several.
    pub fn lend(&mut self) -> Scratch<'_>
        requires { (PAIRS < 2 ^ 32) × (PLACES < 2 ^ 32) × (LISTS < 2 ^ 32) × (PENDING < 2 ^ 32) }
        ensures seen { length result.seen.now ≡ PAIRS }
        ensures taken { length result.taken.now ≡ PLACES }
        ensures lists { length result.lists.now ≡ LISTS }
        ensures pending { length result.pending.now ≡ PENDING }
    {
        Scratch {
            seen: &mut self.seen,
            taken: &mut self.taken,
            lists: &mut self.lists,
            pending: &mut self.pending,
        }
    }
}
