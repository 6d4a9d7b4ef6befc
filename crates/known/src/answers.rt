// The answers of the calls: the call is made and what it answers is printed, to the end of the line.
ghost use Rattle.std.specs.Prelude.{◌≤◌};
ghost use Rattle.printer.specs.Gathered.{Gathered};

use crate::words;
use pattern::Spans;
use printer::Printer;

// The longest output of a replace-all.
const OUTPUT: usize = 24;

// A whole match or a search, in a table of just the numbers that it asks for; `groups` rows behind row 0 are printed.
pub fn found(p: &mut Printer, searches: bool, pattern: &[u8], line: &[u8], groups: usize)
    ensures { Gathered p.old p.new }
{
    let mut table = Spans::absent_table();
    let answer = if searches {
        matcher::search(pattern, line, &mut table)
    } else {
        matcher::whole_match(pattern, line, &mut table)
    };
    p.found(answer, table, groups);
    words::end_line(p);
}

// Replace-all: its output and the numbers that it answers. Not inlined: what replace-all keeps on the stack would be `main`'s, through all other calls.
#[inline(never)]
pub fn replaced(p: &mut Printer, pattern: &[u8], template: &[u8], line: &[u8])
    ensures { Gathered p.old p.new }
{
    let mut buffer = [0; OUTPUT];
    match replacer::replace_all(pattern, template, line, &mut buffer) {
        Err(refused) => job::print_refused(p, refused.refusal.number(), refused.place),
        Ok(done) => {
            if let Some(output) = buffer.get(..done.length) {
                words::quoted(p, output);
            }
            words::labelled(p, b" length ", done.length as u64);
            words::labelled(p, b" replacements ", done.replacements as u64);
            words::labelled(p, b" steps ", done.steps);
            words::end_line(p);
        }
    }
}
