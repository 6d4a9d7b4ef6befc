// The cases: each a call, with what it is made on.
use crate::fields::Fields;

// The longest line that is read, the most bytes that its digits can stand for, and the most numbers of a table.
pub const LINE: usize = 300_000;

const STORE: usize = LINE / 2;

const TABLE: usize = STORE / 2;

// The greatest buffer of a replace case.
const ROOM: usize = 300_000;

// What the arguments of a case are kept in.
#[derive(Drop)]
pub struct Memory {
    store: [u8; STORE],
    table: [u16; TABLE],
    room: [u8; ROOM],
}

impl Memory {
    pub fn new() -> Memory {
        Memory {
            store: [0; STORE],
            table: [0; TABLE],
            room: [0; ROOM],
        }
    }
}

// The two calls that look for a pattern in a line.
#[derive(Clone, Copy)]
pub enum Call {
    WholeMatch,
    Search,
}

// A case: the call by its name in docs/CASES.md, and what it is made on.
#[derive(Drop)]
pub enum Case<'a> {
    Check {
        pattern: &'a [u8],
    },
    Find {
        call: Call,
        pattern: &'a [u8],
        line: &'a [u8],
    },
    FindIn {
        call: Call,
        pattern: &'a [u8],
        line: &'a [u8],
        table: &'a mut [u16],
    },
    Replace {
        pattern: &'a [u8],
        template: &'a [u8],
        line: &'a [u8],
        buffer: &'a mut [u8],
    },
    Piece {
        template: &'a [u8],
        line: &'a [u8],
        table: &'a [u16],
        number: usize,
    },
    Pick {
        job: &'a [u8],
    },
}

impl<'a> Case<'a> {
    // The case that a query is, if it is one.
    pub fn read(query: &[u8], memory: &'a mut Memory) -> Option<Case<'a>> {
        let Memory { store, table, room } = memory;
        let mut fields = Fields::new(query, store);
        let case = match fields.word()? {
            b"check" => Case::Check {
                pattern: fields.bytes()?,
            },
            b"match" => Case::find(Call::WholeMatch, &mut fields)?,
            b"search" => Case::find(Call::Search, &mut fields)?,
            b"tmatch" => Case::find_in(Call::WholeMatch, &mut fields, table)?,
            b"tsearch" => Case::find_in(Call::Search, &mut fields, table)?,
            b"replace" => Case::Replace {
                pattern: fields.bytes()?,
                template: fields.bytes()?,
                line: fields.bytes()?,
                buffer: room.get_mut(..fields.number()?)?,
            },
            b"piece" => Case::Piece {
                template: fields.bytes()?,
                line: fields.bytes()?,
                table: numbers(fields.bytes()?, table),
                number: fields.number()?,
            },
            b"pick" => Case::Pick {
                job: fields.bytes()?,
            },
            _ => return None,
        };
        if fields.ended() { Some(case) } else { None }
    }

    fn find(call: Call, fields: &mut Fields<'_, 'a>) -> Option<Case<'a>> {
        Some(Case::Find {
            call,
            pattern: fields.bytes()?,
            line: fields.bytes()?,
        })
    }

    fn find_in(call: Call, fields: &mut Fields<'_, 'a>, table: &'a mut [u16]) -> Option<Case<'a>> {
        Some(Case::FindIn {
            call,
            pattern: fields.bytes()?,
            line: fields.bytes()?,
            table: numbers(fields.bytes()?, table),
        })
    }
}

// The numbers whose bytes stand in a slice, the lower byte of each first, put into a table: as many as it has room for.
fn numbers<'a>(bytes: &[u8], table: &'a mut [u16]) -> &'a mut [u16] {
    let (pairs, _) = bytes.as_chunks::<2>();
    let count = pairs.len().min(table.len());
    let numbers = &mut table[..count];
    for (number, pair) in numbers.iter_mut().zip(pairs) {
        *number = u16::from_le_bytes(*pair);
    }
    numbers
}
