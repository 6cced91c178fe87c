// The parts that commands are made of. Each function takes one from the front of the bytes and answers it with what follows.
#![tactic(auto, unfolding(crate::specs::Reader::read_byte, crate::specs::Reader::read_counted, crate::specs::Reader::read_house, crate::specs::Reader::read_person, crate::specs::Reader::read_mark, crate::specs::Reader::read_flag))]

ghost use Rattle.std.specs.Prelude.{◌≡◌, nat_le, nat_lt};
ghost use Rattle.commands.specs.Lent.{and_rest, lent_and_rest};
ghost use Rattle.commands.specs.Reader.{only, read_number, read_byte, read_counted, read_name, read_letter, read_house, read_person, read_mark, read_flag};

// Houses, people and marks are numbered from 0. This crate knows nothing of houses, so it has these bounds of its own.
const HOUSES: u64 = 16;

const PEOPLE: u64 = 64;

const MARKS: u8 = 8;

// How many bytes a number takes.
const NUMBER_BYTES: usize = 8;

// In bytes; bounds of its own, as those above.
const LONGEST_NAME: usize = 64;

const LONGEST_LETTER: usize = 65_000;

// A number of eight bytes, the highest first.
pub fn number(bytes: &[u8]) -> Option<(u64, &[u8])>
    ensures { and_rest result ≡ read_number bytes.now }
{
    let (digits, rest) = bytes.split_first_chunk::<NUMBER_BYTES>()?;
    Some((u64::from_be_bytes(*digits), rest))
}

// A number, if it is below a limit. One line, as the next one: a closure for the comparison would be longer.
fn number_below(bytes: &[u8], limit: u64) -> Option<(u64, &[u8])>
    ensures { and_rest result ≡ only (λ n. nat_lt n limit) read_number bytes.now }
{
    number(bytes).filter(|(value, _)| *value < limit)
}

// A number, if it is at most so much.
pub fn number_up_to(bytes: &[u8], most: u64) -> Option<(u64, &[u8])>
    ensures { and_rest result ≡ only (λ n. nat_le n most) read_number bytes.now }
{
    number(bytes).filter(|(value, _)| *value <= most)
}

// The number of a house, below 16.
pub fn house(bytes: &[u8]) -> Option<(u64, &[u8])>
    ensures { and_rest result ≡ read_house bytes.now }
{
    number_below(bytes, HOUSES)
}

// The number of a person, below 64.
pub fn person(bytes: &[u8]) -> Option<(u64, &[u8])>
    ensures { and_rest result ≡ read_person bytes.now }
{
    number_below(bytes, PEOPLE)
}

// Bytes with their count before them.
fn counted(bytes: &[u8]) -> Option<(&[u8], &[u8])>
    ensures { lent_and_rest result ≡ read_counted bytes.now }
{
    let (count, rest) = number(bytes)?;
    rest.split_at_checked(count as usize)
}

// Bytes with their count before them, from 1 to 64.
pub fn name(bytes: &[u8]) -> Option<(&[u8], &[u8])>
    ensures { lent_and_rest result ≡ read_name bytes.now }
{
    counted(bytes).filter(|(name, _)| (1..=LONGEST_NAME).contains(&name.len()))
}

// Bytes with their count before them, up to 65,000.
pub fn letter(bytes: &[u8]) -> Option<(&[u8], &[u8])>
    ensures { lent_and_rest result ≡ read_letter bytes.now }
{
    counted(bytes).filter(|(letter, _)| letter.len() <= LONGEST_LETTER)
}

// The first byte.
fn byte(bytes: &[u8]) -> Option<(u8, &[u8])>
    ensures { and_rest result ≡ read_byte bytes.now }
{
    bytes.split_first().map(|(byte, rest)| (*byte, rest))
}

// A byte that is the number of a mark, below 8.
pub fn mark(bytes: &[u8]) -> Option<(u8, &[u8])>
    ensures { and_rest result ≡ read_mark bytes.now }
{
    byte(bytes).filter(|(mark, _)| *mark < MARKS)
}

// A byte that is 1 for yes and 0 for no.
pub fn flag(bytes: &[u8]) -> Option<(bool, &[u8])>
    ensures { and_rest result ≡ read_flag bytes.now }
{
    let (flag, rest) = byte(bytes)?;
    match flag {
        0 => Some((false, rest)),
        1 => Some((true, rest)),
        _ => None,
    }
}
