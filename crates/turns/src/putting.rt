// What a template puts in for a match, record by record.
ghost use Rattle.std.specs.Prelude.{◌≡◌, ◌≤◌, length};
ghost use Rattle.std.proofs.Props.{props};
ghost use Rattle.paper.specs.Limits.{line_bytes, pattern_groups};
ghost use Rattle.paper.specs.Rows.{RowsFit};
ghost use Rattle.paper.specs.Replace.{row_bytes, put_in};
ghost use Rattle.turns.specs.Accepted.{pieces_of, Right};

use crate::output::Output;
use pattern::Spans;
use template::{Record, Records};

// The two sources of an output's bytes: a template that was accepted, and a line within the limit.
#[derive(Clone, Copy)]
pub struct Sources<'t, 'l> {
    pub template: &'t [u8],
    pub line: &'l [u8],
    pub ghost right: { Right template.now } by { Prim.hlevel props },
    pub ghost short: { length line.now ≤ line_bytes },
}

impl<'t, 'l> Sources<'t, 'l> {
    // What a row holds; an absent one nothing.
    fn row_bytes(self, rows: [u16; Spans::NUMBERS], row: usize) -> &'l [u8]
        requires { RowsFit (length self.line.now) rows × (row ≤ pattern_groups) }
        ensures { result.now ≡ row_bytes self.entry.line.now rows row }
    {
        let start = rows[2 * row];
        if start == Spans::ABSENT {
            return &self.line[..0];
        }
        &self.line[usize::from(start)..usize::from(rows[2 * row + 1])]
    }

    // Appends what the template puts in for a match with these rows.
    pub fn put<O: Output>(self, rows: [u16; Spans::NUMBERS], output: &mut O)
        requires { RowsFit (length self.line.now) rows × O.has_room output.old (put_in self.template.now self.line.now rows (pieces_of self.template.now)) }
        ensures { O.appends output.old (put_in self.entry.template.now self.entry.line.now rows (pieces_of self.entry.template.now)) output.new }
    {
        for (_, record) in Records::new(self.template) {
            match record {
                Record::Literal { start, end } => output.append(&self.template[start..end]),
                Record::Reference { row, .. } => output.append(self.row_bytes(rows, row)),
            }
        }
    }
}
