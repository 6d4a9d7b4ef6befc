// Copies of places: a pass of a repeat has the places of the first one, its followers moved.
ghost use Rattle.std.specs.Prelude.{◌≡◌, ◌≤◌, ◌<◌};
ghost use Rattle.laying.specs.Lent.{Writes};
ghost use Rattle.laying.specs.Room.{most_places, most_number};
ghost use Rattle.laying.specs.Copies.{moved_to, moved_other, Moving, PutMoved, Copied};

use crate::{Place, Table};
use pattern::PlaceKind;

// Places to be copied: where they stand, how many they are, where the copy stands and what follows it. There is room for the copy.
#[derive(Clone, Copy)]
pub struct Shift {
    pub from: usize,
    pub count: usize,
    pub to: usize,
    pub next: usize,
    pub ghost moving: { ∥ Moving from count to next ∥₁ },
}

impl Shift {
    // Where a follower leads in the copy: one of the copied places to its copy, any other to what follows the copy.
    fn moved(self, x: usize) -> usize
        ensures { (result ≡ moved_to self.from self.count self.to self.next x) × (result ≤ most_places) }
    {
        if x < self.from {
            return self.next;
        }
        let inside = x - self.from;
        if inside < self.count {
            self.to + inside
        } else {
            self.next
        }
    }

    // The third number of a place in the copy: a fork's is its other follower.
    fn moved_other(self, kind: u16, a: usize) -> usize
        requires { a ≤ most_number }
        ensures { (result ≡ moved_other self.from self.count self.to self.next kind a) × (result ≤ most_number) }
    {
        if kind == PlaceKind::Fork as u16 {
            self.moved(a)
        } else {
            a
        }
    }

    // Copies one of the places, its followers moved.
    fn place_copied(self, table: &mut Table, k: usize)
        requires { k < self.count }
        ensures { Writes (PutMoved self.from self.count self.to self.next k) table.old table.new }
    {
        let b = PlaceKind::NUMBERS * (self.from + k);
        let kind = table.numbers[b];
        let next = self.moved(usize::from(table.numbers[b + 1]));
        let a = self.moved_other(kind, usize::from(table.numbers[b + 2]));
        let n = usize::from(table.numbers[b + 3]);
        table.put(self.to + k, Place { kind, next, a, n });
    }

    // Copies places, their followers moved. The copy may stand where they do: then only what follows them changes.
    pub fn copied(self, table: &mut Table)
        ensures { Writes (Copied self.from self.count self.to self.next self.count) table.old table.new }
    {
        for k in 0..self.count {
            self.place_copied(table, k);
        }
    }
}
