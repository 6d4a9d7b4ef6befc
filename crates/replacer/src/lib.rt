// Replace-all: the line with the template put in for each match (01, "Replace-all"), over a machine that is built once.
#![tactic(auto)]

mod scans;

ghost use Rattle.machine.specs.Scratch.{Roomy};
ghost use Rattle.replacer.specs.Given.{Low};
ghost use Rattle.replacer.specs.Promise.{Replaces};

use machine::{LargeScratch, Machine, Scratch, SmallScratch};
use pattern::{Line, Refusal, Refused};
use scans::Scan;
use turns::Sources;
use turns::output::{Buffer, Length};

// What replace-all answers: the output's length, the replacements and the sum of all searches' steps.
#[derive(Clone, Copy, Debug, PartialEq, Eq)]
pub struct Replaced {
    pub length: usize,
    pub replacements: usize,
    pub steps: u64,
}

impl Scan<'_, '_, '_> {
    // Refusal 13, else the output in the buffer, in lent scratch: the scan is measured before the first byte is written.
    fn replace_in(self, scratch: &mut Scratch, buffer: &mut [u8]) -> Result<Replaced, Refused>
        requires roomy { Roomy self.machine.places self.machine.depth scratch.old }
        requires low { Low self.machine.pattern.now self.sources.template.now }
        ensures { Replaces self.entry.machine.pattern.now self.entry.sources.template.now self.entry.sources.line.now buffer.old result buffer.new }
    {
        let mut length = Length { bytes: 0 };
        let scanned = self.append_to(scratch, &mut length);
        if buffer.len() < length.bytes {
            return Err(Refusal::OutputTooLong.at(0));
        }
        let mut written = Buffer {
            bytes: buffer,
            end: 0,
        };
        self.append_to(scratch, &mut written);
        Ok(Replaced {
            length: length.bytes,
            replacements: scanned.replacements,
            steps: scanned.steps,
        })
    }

    // The same in scratch as large as the machine asks for.
    fn replace(self, buffer: &mut [u8]) -> Result<Replaced, Refused>
        requires { Low self.machine.pattern.now self.sources.template.now }
        ensures { Replaces self.entry.machine.pattern.now self.entry.sources.template.now self.entry.sources.line.now buffer.old result buffer.new }
    {
        if machine::is_small(self.machine.places, self.machine.depth) {
            self.replace_in(&mut SmallScratch::new().lend(), buffer)
        } else {
            self.replace_in(&mut LargeScratch::new().lend(), buffer)
        }
    }
}

// Replace-all: each match of the pattern in the line replaced by what the template puts in for it, into the buffer. Refusals 1 to 8, 9, 10, 11
// and 13 leave the buffer as it was.
pub fn replace_all(
    pattern: &[u8],
    template: &[u8],
    line: &[u8],
    buffer: &mut [u8],
) -> Result<Replaced, Refused>
    ensures { Replaces pattern.now template.now line.now buffer.old result buffer.new }
{
    let mut code = [0u16; Machine::CODE];
    let numbers = machine::build(pattern, true, &mut code)?;
    template::references_within(template, numbers.groups)?;
    // 11 alone, without `lent`: no table is lent here
    if Line::BYTES < line.len() {
        return Err(Refusal::LineTooLong.at(0));
    }
    let machine = Machine {
        pattern,
        code: &code,
        searches: true,
        places: numbers.places,
        depth: numbers.depth,
    };
    let sources = Sources { template, line };
    Scan { machine, sources }.replace(buffer)
}
