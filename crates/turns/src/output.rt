// Where the bytes of an output go, one run after another: they are counted, or written into a buffer.
ghost use Rattle.std.specs.Prelude.{ℕ, ◌≡◌, ◌+◌, ◌<◌, ◌≤◌, ◌^◌, List, [], ◌++◌, length};
ghost use Rattle.turns.specs.Appended.{Appended};

// What takes an output's bytes.
pub trait Output {
    // there is room for these bytes
    ghost has_room: { Self → List ℕ → Type 0 };

    // these bytes were appended
    ghost appends: { Self → List ℕ → Self → Type 0 };

    // Takes the bytes behind those that it took before.
    fn append(&mut self, bytes: &[u8])
        requires { has_room self.old bytes.now }
        ensures { appends self.old bytes.now self.new };

    // to append nothing changes nothing
    ghost appends_none: { (s : Self) → appends s [] s };

    // one after another are both
    ghost appends_both: { (s t u : Self) (first second : List ℕ) → appends s first t → appends t second u → appends s (first ++ second) u };

    // where both have room, so has the first, and then the second
    ghost room_first: { (s : Self) (first second : List ℕ) → has_room s (first ++ second) → has_room s first };

    ghost room_second: { (s t : Self) (first second : List ℕ) → has_room s (first ++ second) → appends s first t → has_room t second };
}

// An output that is only counted.
#[derive(Clone, Copy, Debug, PartialEq, Eq)]
pub struct Length {
    pub bytes: usize,
}

impl Output for Length {
    ghost use Rattle.turns.specs.Output.{CountRoom, Counts};
    ghost use Rattle.turns.specs.OutputLaws.{counts_none, counts_both, count_room_first, count_room_second};

    ghost has_room = { CountRoom };

    ghost appends = { Counts };

    ghost appends_none = { counts_none };

    ghost appends_both = { counts_both };

    ghost room_first = { count_room_first };

    ghost room_second = { count_room_second };

    fn append(&mut self, bytes: &[u8]) {
        self.bytes += bytes.len();
    }
}

// An output that is written from the front of a buffer on, so far up to end.
#[derive(Drop)]
pub struct Buffer<'a> {
    pub bytes: &'a mut [u8],
    pub end: usize,
}

impl<'a> Output for Buffer<'a> {
    ghost use Rattle.turns.specs.Output.{WriteRoom, Writes};
    ghost use Rattle.turns.specs.OutputLaws.{writes_none, writes_both, write_room_first, write_room_second};

    ghost has_room = { WriteRoom };

    ghost appends = { Writes };

    ghost appends_none = { writes_none };

    ghost appends_both = { writes_both };

    ghost room_first = { write_room_first };

    ghost room_second = { write_room_second };

    // By a loop: for copy_from_slice the archive would ask C for memmove, and it asks for memset alone.
    fn append(&mut self, bytes: &[u8]) {
        let at = self.end;
        for i in 0..bytes.len() {
            self.bytes[at + i] = bytes[i];
        }
        self.end = at + bytes.len();
    }
}
