// Checking a pattern, and the limits that everything else names (01, "Pattern records" and "Numbered refusals and their order").
#![tactic(auto)]

pub mod counts;
mod sets;
mod walk;

ghost use Rattle.std.specs.Prelude.{◌≡◌, [], ◌∷◌, map};
ghost use Rattle.paper.specs.Limits.{pattern_bytes, pattern_levels, pattern_groups, pattern_places, set_pairs, repeat_count, no_upper_end, template_bytes, line_bytes, row_count, table_numbers, absent};
ghost use Rattle.paper.specs.Refusal.{pattern_too_long, broken_record, unknown_kind, set_wrong, repeat_wrong, too_deep, too_many_groups, too_many_places, template_wrong, reference_too_high, line_too_long, table_too_short, output_too_long, too_many_steps, row_wrong, no_such_piece};
ghost use Rattle.paper.specs.Pattern.{greedy, lazy};
ghost use Rattle.paper.specs.Layout.{kinds, kind_number, mode_number};
ghost use Rattle.paper.specs.Match.{line_and_table};
ghost use Rattle.paper.specs.Rows.{no_rows};
ghost use Rattle.paper.specs.Tables.{fork_place, open_place, close_place, begin_place, begin_optional_place, end_place, set_place, range_place, stop_place, accept_place};
ghost use Rattle.pattern.specs.Answer.{Checks};
ghost use Rattle.pattern.specs.Kinds.{IsKind, IsPlace};
ghost use Rattle.pattern.specs.Refusals.{number_of, checked_of};

// The limits of a pattern.
#[derive(Clone, Copy)]
pub struct Pattern {}

impl Pattern {
    pub const BYTES: usize = 4096;

    pub const LEVELS: usize = 16;

    pub const GROUPS: usize = 9;
    // the accepting place counted
    pub const PLACES: usize = 500;

    pub const SET_PAIRS: usize = 32;

    pub const REPEAT_COUNT: usize = 255;
    // what stands for no upper end in a repeat; with the modes a number of the format, of which `counts::right` and `optional` take any
    pub const NO_UPPER_END: usize = 65535;
    // the modes of a repeat, as numbers: laying's `any_star` may be asked with any number, and an enum would ask more
    pub const GREEDY: usize = 0;

    pub const LAZY: usize = 1;

    // The numbers above are `paper`'s.
    pub fn limits() -> [usize; 9]
        ensures { result ≡ pattern_bytes ∷ pattern_levels ∷ pattern_groups ∷ pattern_places ∷ set_pairs ∷ repeat_count ∷ no_upper_end ∷ mode_number greedy ∷ mode_number lazy ∷ [] }
    {
        [
            Pattern::BYTES,
            Pattern::LEVELS,
            Pattern::GROUPS,
            Pattern::PLACES,
            Pattern::SET_PAIRS,
            Pattern::REPEAT_COUNT,
            Pattern::NO_UPPER_END,
            Pattern::GREEDY,
            Pattern::LAZY,
        ]
    }
}

// The limits of a template.
#[derive(Clone, Copy)]
pub struct Template {}

impl Template {
    pub const BYTES: usize = 1024;

    // The number above is `paper`'s.
    pub fn limits() -> [usize; 1]
        ensures { result ≡ template_bytes ∷ [] }
    {
        [Template::BYTES]
    }
}

// The limits of a line.
#[derive(Clone, Copy)]
pub struct Line {}

impl Line {
    pub const BYTES: usize = 65534;

    // The number above is `paper`'s.
    pub fn limits() -> [usize; 1]
        ensures { result ≡ line_bytes ∷ [] }
    {
        [Line::BYTES]
    }
}

// The shape of a span table.
#[derive(Clone, Copy)]
pub struct Spans {}

impl Spans {
    // the match and each group
    pub const ROWS: usize = Pattern::GROUPS + 1;
    // a start and an end for each row
    pub const NUMBERS: usize = 2 * Spans::ROWS;
    // both numbers of a row that is absent; a table is flat numbers, as C lends it
    pub const ABSENT: u16 = 65535;

    // A span table whose rows are all absent.
    pub fn absent_table() -> [u16; Spans::NUMBERS]
        ensures { result ≡ no_rows }
    {
        [Spans::ABSENT; Spans::NUMBERS]
    }

    // The counts above are `paper`'s.
    pub fn limits() -> [usize; 2]
        ensures { result ≡ row_count ∷ table_numbers ∷ [] }
    {
        [Spans::ROWS, Spans::NUMBERS]
    }
}

// The kinds of record, by their numbers.
#[derive(Clone, Copy, Debug, PartialEq, Eq)]
pub enum Kind {
    Nothing,
    Empty,
    Bytes,
    Group,
    Sequence,
    Alternation,
    Repeat,
}

impl Kind {
    // The numbers above are `paper`'s.
    pub fn all() -> [usize; 7]
        ensures { result ≡ map kind_number kinds }
    {
        [
            Kind::Nothing as usize,
            Kind::Empty as usize,
            Kind::Bytes as usize,
            Kind::Group as usize,
            Kind::Sequence as usize,
            Kind::Alternation as usize,
            Kind::Repeat as usize,
        ]
    }
}

// A number that no kind of record has.
#[derive(Clone, Copy, Debug, PartialEq, Eq)]
pub struct UnknownKind;

impl TryFrom<usize> for Kind {
    type Error = UnknownKind;

    ghost try_from_gives = { IsKind };

    fn try_from(number: usize) -> Result<Self, UnknownKind> {
        match number {
            0 => Ok(Kind::Nothing),
            1 => Ok(Kind::Empty),
            2 => Ok(Kind::Bytes),
            3 => Ok(Kind::Group),
            4 => Ok(Kind::Sequence),
            5 => Ok(Kind::Alternation),
            6 => Ok(Kind::Repeat),
            _ => Err(UnknownKind),
        }
    }
}

// The kinds of place, as their numbers stand in a table of places. Those before `Set` lead on at once; the others do not.
#[derive(Clone, Copy, Debug, PartialEq, Eq)]
pub enum PlaceKind {
    Fork = 0,
    Open,
    Close,
    Begin,
    BeginOptional,
    End,
    Set,
    Range,
    Stop,
    Accept,
}

impl PlaceKind {
    // How many numbers a place has in a table: its kind, its follower, and two more.
    pub const NUMBERS: usize = 4;

    // The kinds above are `paper`'s.
    pub fn all() -> [u16; 10]
        ensures { result ≡ fork_place ∷ open_place ∷ close_place ∷ begin_place ∷ begin_optional_place ∷ end_place ∷ set_place ∷ range_place ∷ stop_place ∷ accept_place ∷ [] }
    {
        [
            PlaceKind::Fork as u16,
            PlaceKind::Open as u16,
            PlaceKind::Close as u16,
            PlaceKind::Begin as u16,
            PlaceKind::BeginOptional as u16,
            PlaceKind::End as u16,
            PlaceKind::Set as u16,
            PlaceKind::Range as u16,
            PlaceKind::Stop as u16,
            PlaceKind::Accept as u16,
        ]
    }
}

// A number that no kind of place has.
#[derive(Clone, Copy, Debug, PartialEq, Eq)]
pub struct UnknownPlace;

impl TryFrom<u16> for PlaceKind {
    type Error = UnknownPlace;

    ghost try_from_gives = { IsPlace };

    fn try_from(number: u16) -> Result<Self, UnknownPlace> {
        match number {
            0 => Ok(PlaceKind::Fork),
            1 => Ok(PlaceKind::Open),
            2 => Ok(PlaceKind::Close),
            3 => Ok(PlaceKind::Begin),
            4 => Ok(PlaceKind::BeginOptional),
            5 => Ok(PlaceKind::End),
            6 => Ok(PlaceKind::Set),
            7 => Ok(PlaceKind::Range),
            8 => Ok(PlaceKind::Stop),
            9 => Ok(PlaceKind::Accept),
            _ => Err(UnknownPlace),
        }
    }
}

// The refusals, by their numbers.
#[derive(Clone, Copy, Debug, PartialEq, Eq)]
pub enum Refusal {
    PatternTooLong = 1,
    BrokenRecord,
    UnknownKind,
    SetWrong,
    RepeatWrong,
    TooDeep,
    TooManyGroups,
    TooManyPlaces,
    TemplateWrong,
    ReferenceTooHigh,
    LineTooLong,
    TableTooShort,
    OutputTooLong,
    TooManySteps,
    RowWrong,
    NoSuchPiece,
}

impl Refusal {
    // Its number.
    pub fn number(self) -> usize
        ensures { result ≡ number_of self }
    {
        self as usize
    }

    // This refusal, found at a place.
    pub fn at(self, place: usize) -> Refused
        ensures { result ≡ record { refusal = self; place = place } }
    {
        Refused {
            refusal: self,
            place,
        }
    }

    // The numbers above are `paper`'s.
    pub fn all() -> [usize; 16]
        ensures { result ≡ pattern_too_long ∷ broken_record ∷ unknown_kind ∷ set_wrong ∷ repeat_wrong ∷ too_deep ∷ too_many_groups ∷ too_many_places ∷ template_wrong ∷ reference_too_high ∷ line_too_long ∷ table_too_short ∷ output_too_long ∷ too_many_steps ∷ row_wrong ∷ no_such_piece ∷ [] }
    {
        [
            Refusal::PatternTooLong,
            Refusal::BrokenRecord,
            Refusal::UnknownKind,
            Refusal::SetWrong,
            Refusal::RepeatWrong,
            Refusal::TooDeep,
            Refusal::TooManyGroups,
            Refusal::TooManyPlaces,
            Refusal::TemplateWrong,
            Refusal::ReferenceTooHigh,
            Refusal::LineTooLong,
            Refusal::TableTooShort,
            Refusal::OutputTooLong,
            Refusal::TooManySteps,
            Refusal::RowWrong,
            Refusal::NoSuchPiece,
        ]
        .map(Refusal::number)
    }
}

// A refusal, and the place where the fault is.
#[derive(Clone, Copy, Debug, PartialEq, Eq)]
pub struct Refused {
    pub refusal: Refusal,
    pub place: usize,
}

// The numbers of a pattern: its places with the accepting one, its depth and its groups.
#[derive(Clone, Copy, Debug, PartialEq, Eq)]
pub struct Numbers {
    pub places: usize,
    pub depth: usize,
    pub groups: usize,
}

// Refusals 1 to 8 in their order, or the pattern's places, depth and groups.
pub fn check(pattern: &[u8]) -> Result<Numbers, Refused>
    ensures { Checks pattern.now result }
{
    let long = pattern.len();
    if Pattern::BYTES < long {
        return Err(Refusal::PatternTooLong.at(0));
    }
    let found = walk::any_record(pattern, 0, long, Pattern::LEVELS, 0)?;
    if found.end < long {
        return Err(Refusal::BrokenRecord.at(found.end));
    }
    if Pattern::PLACES <= found.places {
        return Err(Refusal::TooManyPlaces.at(0));
    }
    Ok(Numbers {
        places: found.places + 1,
        depth: found.depth,
        groups: found.groups,
    })
}

// Refusals 11 and 12 in their order: a line that is too long, and a table that is too short for a span table.
pub fn lent(line: &[u8], table: &[u16]) -> Result<(), Refused>
    ensures { checked_of (λ (u : Unit {0}). u) result ≡ line_and_table line.now table.now }
{
    if Line::BYTES < line.len() {
        return Err(Refusal::LineTooLong.at(0));
    }
    if table.len() < Spans::NUMBERS {
        return Err(Refusal::TableTooShort.at(0));
    }
    Ok(())
}
