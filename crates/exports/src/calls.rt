// Checking, whole match, search and piece. Lent memory that is too short is refused first, and then nothing is touched.
// The functions are alike, and each is one of the C interface: the test of `out` has to come before the call that writes.
ghost use Rattle.exports.specs.Replies.{CheckReplies, MatchReplies, SearchReplies, ReplaceReplies, PieceReplies};

use crate::limits::Lent;
use telling::tell;

// Checks a pattern, and tells its places, depth and groups.
#[unsafe(no_mangle)]
pub extern "C" fn toj_check(pattern: &[u8], out: &mut [u64]) -> u32
    ensures { CheckReplies pattern.now out.old result out.new }
{
    if out.len() < 3 {
        return Lent::TOO_SHORT;
    }
    tell(pattern::check(pattern), out)
}

// Matches the whole line, and tells whether it matches and the steps.
#[unsafe(no_mangle)]
pub extern "C" fn toj_match(pattern: &[u8], line: &[u8], table: &mut [u16], out: &mut [u64]) -> u32
    ensures { MatchReplies pattern.now line.now table.old table.new out.old result out.new }
{
    if out.len() < 2 {
        return Lent::TOO_SHORT;
    }
    tell(matcher::whole_match(pattern, line, table), out)
}

// Searches the line for the first match, and tells whether there is one and the steps.
#[unsafe(no_mangle)]
pub extern "C" fn toj_search(pattern: &[u8], line: &[u8], table: &mut [u16], out: &mut [u64]) -> u32
    ensures { SearchReplies pattern.now line.now table.old table.new out.old result out.new }
{
    if out.len() < 2 {
        return Lent::TOO_SHORT;
    }
    tell(matcher::search(pattern, line, table), out)
}

// Replaces every match in the line by the template, and tells the output's length, the replacements and the steps.
#[unsafe(no_mangle)]
pub extern "C" fn toj_replace(
    pattern: &[u8],
    template: &[u8],
    line: &[u8],
    buffer: &mut [u8],
    out: &mut [u64],
) -> u32
    ensures { ReplaceReplies pattern.now template.now line.now buffer.old buffer.new out.old result out.new }
{
    if out.len() < 3 {
        return Lent::TOO_SHORT;
    }
    tell(replacer::replace_all(pattern, template, line, buffer), out)
}

// Tells which bytes a template record puts in: their source, start and end.
#[unsafe(no_mangle)]
pub extern "C" fn toj_piece(
    template: &[u8],
    line: &[u8],
    table: &[u16],
    number: usize,
    out: &mut [u64],
) -> u32
    ensures { PieceReplies template.now line.now table.now number out.old result out.new }
{
    if out.len() < 3 {
        return Lent::TOO_SHORT;
    }
    tell(template::piece(template, line, table, number), out)
}
