// The table that places are laid into.
ghost use Rattle.std.specs.Prelude.{◌≤◌, length};
ghost use Rattle.laying.specs.Room.{table_room};

// A table that is lent for a pattern's places, with room for the largest pattern and a search's wrap around it.
#[derive(Drop)]
pub struct Table<'a> {
    pub numbers: &'a mut [u16],
    ghost room: { table_room ≤ length numbers.now },
}
