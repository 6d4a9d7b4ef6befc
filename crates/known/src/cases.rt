// The fifteen known answers of 01: of each the pattern in ordinary notation, its records, the line, and the call that answers.
use crate::{answers, show, words};
use printer::Printer;

// A call on a pattern and a line.
#[derive(Clone, Copy)]
enum Call {
    Match,
    Search,
    Replace { template: &'static [u8] },
}

// A case: the pattern in ordinary notation with what is done to it, its records, the line, and the call.
#[derive(Clone, Copy)]
struct Case {
    title: &'static [u8],
    pattern: &'static [u8],
    line: &'static [u8],
    call: Call,
}

static CASES: [Case; 15] = [
    Case {
        title: b"1. empty on \"\"",
        pattern: b"\0\0\x01\0",
        line: b"",
        call: Call::Match,
    },
    Case {
        title: b"2. empty on \"a\"",
        pattern: b"\0\0\x01\0",
        line: b"a",
        call: Call::Match,
    },
    Case {
        title: b"3. nothing on \"\"",
        pattern: b"\0\0\0\0",
        line: b"",
        call: Call::Match,
    },
    Case {
        title: b"4. a on \"a\"",
        pattern: b"\x02\0\x02\0aa",
        line: b"a",
        call: Call::Match,
    },
    Case {
        title: b"5. a* on \"\"",
        pattern: b"\x0c\0\x06\0\0\0\xff\xff\0\0\x02\0\x02\0aa",
        line: b"",
        call: Call::Match,
    },
    Case {
        title: b"6. a* on \"a\"",
        pattern: b"\x0c\0\x06\0\0\0\xff\xff\0\0\x02\0\x02\0aa",
        line: b"a",
        call: Call::Match,
    },
    Case {
        title: b"7. (a*?)* on \"aaa\"",
        pattern: b"\x1a\0\x06\0\0\0\xff\xff\0\0\x10\0\x03\0\x0c\0\x06\0\0\0\xff\xff\x01\0\x02\0\x02\0aa",
        line: b"aaa",
        call: Call::Match,
    },
    Case {
        title: b"8. a+|(a*) on \"aa\"",
        pattern: b"$\0\x05\0\x0c\0\x06\0\x01\0\xff\xff\0\0\x02\0\x02\0aa\x10\0\x03\0\x0c\0\x06\0\0\0\xff\xff\0\0\x02\0\x02\0aa",
        line: b"aa",
        call: Call::Match,
    },
    Case {
        title: b"9. ((a)|b)* on \"ab\"",
        pattern: b"\x1e\0\x06\0\0\0\xff\xff\0\0\x14\0\x03\0\x10\0\x05\0\x06\0\x03\0\x02\0\x02\0aa\x02\0\x02\0bb",
        line: b"ab",
        call: Call::Match,
    },
    Case {
        title: b"10. (a*)+ on \"\"",
        pattern: b"\x1a\0\x06\0\x01\0\xff\xff\0\0\x10\0\x03\0\x0c\0\x06\0\0\0\xff\xff\0\0\x02\0\x02\0aa",
        line: b"",
        call: Call::Match,
    },
    Case {
        title: b"11. (a*)* on \"\"",
        pattern: b"\x1a\0\x06\0\0\0\xff\xff\0\0\x10\0\x03\0\x0c\0\x06\0\0\0\xff\xff\0\0\x02\0\x02\0aa",
        line: b"",
        call: Call::Match,
    },
    Case {
        title: b"12. (a|ab)(c|bcd)(d*) on \"abcd\"",
        pattern: b"V\0\x04\0\x1a\0\x03\0\x16\0\x05\0\x02\0\x02\0aa\x0c\0\x04\0\x02\0\x02\0aa\x02\0\x02\0bb \0\x03\0\x1c\0\x05\0\x02\0\x02\0cc\x12\0\x04\0\x02\0\x02\0bb\x02\0\x02\0cc\x02\0\x02\0dd\x10\0\x03\0\x0c\0\x06\0\0\0\xff\xff\0\0\x02\0\x02\0dd",
        line: b"abcd",
        call: Call::Match,
    },
    Case {
        title: b"13. (a+?)(b*) searched in \"xaabb\"",
        pattern: b"(\0\x04\0\x10\0\x03\0\x0c\0\x06\0\x01\0\xff\xff\x01\0\x02\0\x02\0aa\x10\0\x03\0\x0c\0\x06\0\0\0\xff\xff\0\0\x02\0\x02\0bb",
        line: b"xaabb",
        call: Call::Search,
    },
    Case {
        title: b"14. ([A-Za-z]+) ([A-Za-z]+) by \"$2, $1\" in \"Don Knuth; Alan Turing\"",
        pattern: b"2\0\x04\0\x12\0\x03\0\x0e\0\x06\0\x01\0\xff\xff\0\0\x04\0\x02\0AZaz\x02\0\x02\0  \x12\0\x03\0\x0e\0\x06\0\x01\0\xff\xff\0\0\x04\0\x02\0AZaz",
        line: b"Don Knuth; Alan Turing",
        call: Call::Replace {
            template: b"\x02\0!\0\x02\0\x02\0 \0, \x02\0!\0\x01\0",
        },
    },
    Case {
        title: b"15. b* by \"-\" in \"abc\"",
        pattern: b"\x0c\0\x06\0\0\0\xff\xff\0\0\x02\0\x02\0bb",
        line: b"abc",
        call: Call::Replace {
            template: b"\x01\0 \0-",
        },
    },
];

impl Case {
    // The case with its pattern laid open: the records, the places that are built from them, and below them the answer.
    fn show(self, p: &mut Printer) {
        words::heading(p, self.title);
        p.bytes(b"records ");
        p.byte_string(self.pattern);
        words::end_line(p);
        match self.call {
            Call::Match => {
                let groups = show::built(p, self.pattern, false);
                answers::found(p, false, self.pattern, self.line, groups);
            }
            Call::Search => {
                let groups = show::built(p, self.pattern, true);
                answers::found(p, true, self.pattern, self.line, groups);
            }
            Call::Replace { template } => {
                show::built(p, self.pattern, true);
                answers::replaced(p, self.pattern, template, self.line);
            }
        }
    }
}

// All of them, in order.
pub fn all(p: &mut Printer) {
    p.bytes(b"Known answers\n");
    for case in &CASES {
        case.show(p);
    }
}
