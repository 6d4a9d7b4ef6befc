// Words, numbers and byte strings, as every part of the program prints them.
ghost use Rattle.std.specs.Prelude.{◌≤◌};
ghost use Rattle.printer.specs.Gathered.{Gathered};

use printer::Printer;

// A title, on a line of its own behind an empty one.
pub fn heading(p: &mut Printer, title: &[u8])
    ensures { Gathered p.old p.new }
{
    end_line(p);
    p.bytes(title);
    end_line(p);
}

pub fn end_line(p: &mut Printer)
    ensures { Gathered p.old p.new }
{
    p.bytes(b"\n");
}

// Words, and a number behind them.
pub fn labelled(p: &mut Printer, words: &[u8], number: u64)
    ensures { Gathered p.old p.new }
{
    p.bytes(words);
    p.decimal(number);
}

// Bytes in quotes, as they are.
pub fn quoted(p: &mut Printer, s: &[u8])
    ensures { Gathered p.old p.new }
{
    p.bytes(b"\"");
    p.bytes(s);
    p.bytes(b"\"");
}
