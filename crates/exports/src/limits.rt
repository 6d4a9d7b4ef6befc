// The limits, and how long lent memory has to be.
ghost use Rattle.std.specs.Prelude.{◌≡◌};
ghost use Rattle.paper.specs.Limits.{pattern_bytes, template_bytes, line_bytes, row_count, table_numbers};
ghost use Rattle.memory.specs.Memory.{machine_numbers, scratch_numbers};

use machine::Machine;
use memory::Memory;
use pattern::{Line, Pattern, Spans, Template};

// Lent memory: how long that of the built variants has to be, and the status where any is too short.
#[derive(Clone, Copy)]
pub struct Lent {}

impl Lent {
    // a machine's head, and its table
    pub const MACHINE: usize = Memory::HEAD + Machine::CODE;
    // the branches that wait, which are the longest thing that a run needs
    pub const SCRATCH: usize = Machine::PENDING;

    // a number, as C is told it
    pub const TOO_SHORT: u32 = 255;
}

// The longest pattern.
#[unsafe(no_mangle)]
pub extern "C" fn toj_pattern_bytes() -> usize
    ensures { result ≡ pattern_bytes }
{
    Pattern::BYTES
}

// The longest template.
#[unsafe(no_mangle)]
pub extern "C" fn toj_template_bytes() -> usize
    ensures { result ≡ template_bytes }
{
    Template::BYTES
}

// The longest line.
#[unsafe(no_mangle)]
pub extern "C" fn toj_line_bytes() -> usize
    ensures { result ≡ line_bytes }
{
    Line::BYTES
}

// The rows of a span table.
#[unsafe(no_mangle)]
pub extern "C" fn toj_rows() -> usize
    ensures { result ≡ row_count }
{
    Spans::ROWS
}

// The numbers of a span table.
#[unsafe(no_mangle)]
pub extern "C" fn toj_table_numbers() -> usize
    ensures { result ≡ table_numbers }
{
    Spans::NUMBERS
}

// The numbers of a built machine.
#[unsafe(no_mangle)]
pub extern "C" fn toj_machine_numbers() -> usize
    ensures { result ≡ machine_numbers }
{
    Lent::MACHINE
}

// The numbers of each of the four memories that a machine is run in.
#[unsafe(no_mangle)]
pub extern "C" fn toj_scratch_numbers() -> usize
    ensures { result ≡ scratch_numbers }
{
    Lent::SCRATCH
}
