// The scan over the line, search by search.
ghost use Rattle.std.specs.Prelude.{◌≡◌, Bool};
ghost use Rattle.machine.specs.Scratch.{Roomy, Runnable, Lasts};
ghost use Rattle.replacer.specs.Given.{whole_of};
ghost use Rattle.replacer.specs.Scans.{Turns, Counts};

use machine::{Machine, Scratch};
use turns::output::Output;
use turns::{Sources, Turn};

// What is scanned, by what, and what is put in: a machine built for searching, and a line and a template.
#[derive(Clone, Copy)]
pub struct Scan<'m, 't, 'l> {
    pub machine: Machine<'m>,
    pub sources: Sources<'t, 'l>,
    pub ghost built: { machine.searches ≡ Bool.true },
}

// What a scan gives beside its output: the replacements and the sum of all searches' steps.
#[derive(Clone, Copy)]
pub struct Scanned {
    pub replacements: usize,
    pub steps: u64,
}

impl Scan<'_, '_, '_> {
    // The turn of the search from a position on.
    fn turn(self, scratch: &mut Scratch, from: usize, last: Option<usize>) -> Turn
        requires { Runnable self.machine.places self.machine.depth self.sources.line.now from scratch.old }
        ensures turns { Turns self.entry.machine.pattern.now self.entry.sources.line.now from last result }
        ensures lasts { Lasts scratch.old scratch.new }
    {
        let ran = self.machine.search_rows(self.sources.line, from, scratch);
        turns::turn_of(self.sources.line.len(), last, ran.rows, ran.steps)
    }

    // Appends what the scan of the whole line writes to the output. No `for`: where the next search starts is what the turn says.
    pub fn append_to<O: Output>(self, scratch: &mut Scratch, output: &mut O) -> Scanned
        requires roomy { Roomy self.machine.places self.machine.depth scratch.old }
        requires room { O.has_room output.old (whole_of self.machine.pattern.now self.sources.template.now self.sources.line.now).output }
        ensures written { O.appends output.old (whole_of self.entry.machine.pattern.now self.entry.sources.template.now self.entry.sources.line.now).output output.new }
        ensures counts { Counts self.entry.machine.pattern.now self.entry.sources.template.now self.entry.sources.line.now result }
        ensures lasts { Lasts scratch.old scratch.new }
    {
        let mut goes = Some(0);
        let mut last = None;
        let mut replacements = 0;
        let mut steps: u64 = 0;
        while let Some(from) = goes {
            let turn = self.turn(scratch, from, last);
            turn.write(self.sources, from, output);
            replacements += usize::from(turn.put);
            steps += u64::from(turn.steps);
            goes = turn.goes;
            last = turn.last;
        }
        Scanned {
            replacements,
            steps,
        }
    }
}
