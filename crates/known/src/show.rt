// A pattern laid open: its numbers, and the places that are built from its records.
use crate::listing;
use machine::Machine;
use pattern::PlaceKind;
use printer::Printer;

// A pattern's numbers and places, as they are built for a whole match or for a search, or its refusal. Answers how many groups it has, or 0.
pub fn built(p: &mut Printer, pattern: &[u8], searches: bool) -> usize {
    let mut code = [0u16; Machine::CODE];
    match machine::build(pattern, searches, &mut code) {
        Ok(numbers) => {
            job::print_numbers(p, numbers);
            listing::places(p, pattern, &code[..PlaceKind::NUMBERS * numbers.places]);
            numbers.groups
        }
        Err(refused) => {
            job::print_refused(p, refused.refusal.number(), refused.place);
            0
        }
    }
}
