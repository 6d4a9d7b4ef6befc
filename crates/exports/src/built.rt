// Building a machine into lent memory, and running it on many lines.
ghost use Rattle.std.specs.Prelude.{ltb};
ghost use Rattle.memory.specs.Memory.{memories, Runs};
ghost use Rattle.exports.specs.Replies.{BuildReplies, RunReplies};

use crate::limits::Lent;
use telling::tell;

// Builds the machine of a pattern for search or for whole matches, and tells its places and depth and the pattern's groups.
#[unsafe(no_mangle)]
pub extern "C" fn toj_build(
    pattern: &[u8],
    search: u32,
    machine: &mut [u16],
    out: &mut [u64],
) -> u32
    ensures { BuildReplies pattern.now (ltb 0 search) machine.old machine.new out.old result out.new }
{
    if out.len() < 3 || machine.len() < Lent::MACHINE {
        return Lent::TOO_SHORT;
    }
    tell(memory::build_in(pattern, 0 < search, machine), out)
}

// Runs a machine that was built for a pattern over a line, in four lent memories, and tells what it finds.
#[unsafe(no_mangle)]
pub extern "C" fn toj_run(
    pattern: &[u8],
    machine: &[u16],
    line: &[u8],
    seen: &mut [u16],
    taken: &mut [u16],
    lists: &mut [u16],
    pending: &mut [u16],
    table: &mut [u16],
    out: &mut [u64],
) -> u32
    requires { Runs pattern.now machine.now }
    ensures { RunReplies pattern.now machine.now line.now (memories seen.old taken.old lists.old pending.old) (memories seen.new taken.new lists.new pending.new) table.old table.new out.old result out.new }
{
    if out.len() < 2 || machine.len() < Lent::MACHINE {
        return Lent::TOO_SHORT;
    }
    if memory::least_of_four(seen.len(), taken.len(), lists.len(), pending.len()) < Lent::SCRATCH {
        return Lent::TOO_SHORT;
    }
    tell(
        memory::run_in(pattern, machine, line, seen, taken, lists, pending, table),
        out,
    )
}
