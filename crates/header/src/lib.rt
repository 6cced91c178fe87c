// Reading a letter's head, over lent bytes: the first value of a field, and whether some value of it holds a text or is one. It promises the
// values of the plain definition for every letter, name and text; it keeps nothing and copies only the value that is asked for.
#![tactic(auto)]

ghost use Rattle.std.specs.Prelude.{◌≡◌, Some, MatchResult};
ghost use Rattle.model.specs.Mail.{any, holds, same, smalls, field};
ghost use Rattle.header.specs.Entry.{FieldSays, FirstValueWritten, NotLookedFor, refusal};
ghost use Rattle.header.specs.Refusals.{number, words};

mod head;
mod text;

use head::Values;
use std::error::Error;
use std::fmt;

// This enum and the signature of `field_of` are agreed on with the caller as they stand; `first_value_into` says the same as a Result.
#[derive(Clone, Copy, PartialEq, Eq, Debug)]
pub enum Reply {
    // The first value, so long.
    Value(u64),
    // There is no such field.
    None,
    // The number of the refusal.
    Refused(u64),
}

// Why a field is not looked for; the number is what the caller is told.
#[derive(Clone, Copy, PartialEq, Eq, Debug)]
pub enum Refusal {
    LetterTooLong = 1,
    // It has no bytes, or too many.
    NameLength = 2,
    // Shorter than the letter, so that a value might not fit.
    RowTooShort = 3,
}

impl From<Refusal> for u64 {
    ghost from_gives = { λ refusal n. n ≡ number refusal };

    fn from(refusal: Refusal) -> u64 {
        refusal as u64
    }
}

// By hand, since of a text that is derived nothing is promised.
impl fmt::Display for Refusal {
    ghost output = { λ refusal. Some (words refusal) };

    fn fmt<W: fmt::Write>(&self, f: &mut fmt::Formatter<W>) -> fmt::Result {
        f.write_str(match self {
            Refusal::LetterTooLong => "the letter is too long",
            Refusal::NameLength => "the field's name is empty or too long",
            Refusal::RowTooShort => "the row is shorter than the letter",
        })
    }
}

impl Error for Refusal {}

// A longer letter is refused; none that is handed in has more than 65,000 bytes.
const MAX_LETTER: usize = 65_535;

// As many bytes as any name in a house may have; this crate knows nothing of houses, so it has the bound of its own.
const MAX_NAME: usize = 64;

// Whether the field can be looked for, and any value of it written to the row.
fn admitted(letter: &[u8], name: &[u8], row: &[u8]) -> Result<(), Refusal>
    ensures { MatchResult result (λ _. refusal letter.now name.now row.now ≡ 0) (λ e. refusal letter.now name.now row.now ≡ number e) }
{
    if letter.len() > MAX_LETTER {
        return Err(Refusal::LetterTooLong);
    }
    if name.is_empty() || name.len() > MAX_NAME {
        return Err(Refusal::NameLength);
    }
    if row.len() < letter.len() {
        return Err(Refusal::RowTooShort);
    }
    Ok(())
}

// Writes the first value of a field to the front of the row, in small letters and without blanks before it; how long it is, if there is one.
pub fn first_value_into(
    letter: &[u8],
    name: &[u8],
    out: &mut [u8],
) -> Result<Option<usize>, Refusal>
    ensures { MatchResult result
        (λ n. FirstValueWritten letter.now name.now out.old n out.new)
        (λ e. NotLookedFor letter.now name.now out.old e out.new) }
{
    admitted(letter, name, out)?;
    let Some(value) = Values::new(letter, name).next() else {
        return Ok(None);
    };
    text::copy_lowercase(value, out);
    Ok(Some(value.len()))
}

// The first value of a field, as `first_value_into` writes it, in the words that are agreed on.
pub fn field_of(letter: &[u8], name: &[u8], out: &mut [u8]) -> Reply
    ensures { FieldSays letter.now name.now out.old (refusal letter.now name.now out.old) result out.new }
{
    match first_value_into(letter, name, out) {
        Ok(Some(length)) => Reply::Value(length as u64),
        Ok(None) => Reply::None,
        Err(refusal) => Reply::Refused(refusal.into()),
    }
}

// Whether some value of the field holds `text`.
pub fn field_holds(letter: &[u8], name: &[u8], text: &[u8]) -> bool
    ensures { result ≡ any (holds (smalls text.now)) (field name.now letter.now) }
{
    Values::new(letter, name).any(|value| text::contains(value, text))
}

// Whether some value of the field is `text`.
pub fn field_equals(letter: &[u8], name: &[u8], text: &[u8]) -> bool
    ensures { result ≡ any (same (smalls text.now)) (field name.now letter.now) }
{
    Values::new(letter, name).any(|value| text::equals(value, text))
}

#[cfg(test)]
mod tests {
    use super::*;
    use std::process::Abort;
    use std::test::Fail;

    const ROW: usize = 64;

    // The first value of the field is `value`, and nothing past it is written.
    fn told(rt: &impl Abort, letter: &[u8], name: &[u8], value: &[u8]) {
        let mut row = [b'#'; ROW];
        assert_eq!(rt;
            field_of(letter, name, &mut row),
            Reply::Value(value.len() as u64)
        );
        assert!(rt; value.len() < ROW);
        assert!(rt; &row[0..value.len()] == value && row[value.len()] == b'#');
    }

    // The reply is this one, and nothing is written.
    fn not_told(rt: &impl Abort, letter: &[u8], name: &[u8], reply: Reply) {
        let mut row = [b'#'; ROW];
        assert_eq!(rt; field_of(letter, name, &mut row), reply);
        assert!(rt; row[0] == b'#' && row[ROW - 1] == b'#');
    }

    #[test]
    fn first_values(rt: HostRuntime) {
        let plain = b"Subject: Bill for ice\nFrom: Works\n\nTo: nobody\n";
        told(&rt, plain, b"subject", b"bill for ice");
        told(&rt, plain, b"FROM", b"works");
        told(&rt, b"SUBJECT:x", b"Subject", b"x");
        told(&rt, b"to: a\nto: b\n", b"to", b"a");
        told(&rt, b"to:    \n", b"to", b"");
        told(&rt, b"to::b", b"to", b":b");
    }

    #[test]
    fn no_values(rt: HostRuntime) {
        not_told(&rt, b"", b"to", Reply::None);
        not_told(&rt, b"\nto: a\n", b"to", Reply::None);
        not_told(&rt, b"subject\nto\n", b"to", Reply::None);
        not_told(&rt, b"to : a\n to: b\n", b"to", Reply::None);
        not_told(&rt, b"to: a", b"", Reply::Refused(2));
        not_told(&rt, b"to: a", &[b't'; 65], Reply::Refused(2));
        not_told(&rt, &[b't'; 65], b"to", Reply::Refused(3));
        not_told(&rt, &[b't'; 65_536], b"to", Reply::Refused(1));
    }

    #[test]
    fn long_lines(rt: HostRuntime) {
        let mut letter = [b'A'; 65_000];
        let mut row = [b'#'; 65_000];
        assert_eq!(rt; field_of(&letter, b"a", &mut row), Reply::None);
        letter[1] = b':';
        assert_eq!(rt; field_of(&letter, b"a", &mut row), Reply::Value(64_998));
        assert!(rt; row[0] == b'a' && row[64_997] == b'a' && row[64_998] == b'#');
    }

    #[test]
    fn as_results(rt: HostRuntime) {
        let letter = b"To: Anna\nRe:\n";
        let mut row = [b'#'; ROW];
        assert_eq!(rt; first_value_into(letter, b"from", &mut row), Ok(None));
        assert_eq!(rt;
            first_value_into(letter, b"", &mut row),
            Err(Refusal::NameLength)
        );
        assert_eq!(rt;
            first_value_into(letter, b"to", &mut row[..4]),
            Err(Refusal::RowTooShort)
        );
        assert!(rt; row == [b'#'; ROW]);
        assert_eq!(rt; first_value_into(letter, b"to", &mut row), Ok(Some(4)));
        assert!(rt; row.starts_with(b"anna#"));
        assert_eq!(rt; first_value_into(letter, b"re", &mut row), Ok(Some(0)));
        assert!(rt; row.starts_with(b"anna#"));
    }

    #[test]
    fn refusals(rt: HostRuntime) -> Result<(), Fail> {
        assert_eq!(rt; u64::from(Refusal::LetterTooLong), 1);
        assert_eq!(rt; u64::from(Refusal::NameLength), 2);
        assert_eq!(rt; u64::from(Refusal::RowTooShort), 3);
        let text = format!(in rt.alloc(); "{}", Refusal::LetterTooLong)?;
        assert_eq!(rt; text.as_str(), "the letter is too long");
        Ok(())
    }

    // Whether some value of the field holds the text, and whether one is it.
    fn tested(rt: &impl Abort, letter: &[u8], name: &[u8], text: &[u8], holds: bool, equals: bool) {
        assert_eq!(rt; field_holds(letter, name, text), holds);
        assert_eq!(rt; field_equals(letter, name, text), equals);
    }

    #[test]
    fn texts(rt: HostRuntime) {
        let letter = b"to: Anna, Bo\nTO: cai\nre:\n\nto: dora";
        tested(&rt, letter, b"to", b"BO", true, false);
        tested(&rt, letter, b"To", b"Cai", true, true);
        tested(&rt, letter, b"to", b"anna, bo", true, true);
        tested(&rt, letter, b"to", b"", true, false);
        tested(&rt, letter, b"re", b"", true, true);
        tested(&rt, letter, b"from", b"", false, false);
        tested(&rt, letter, b"to", b"bo\nto", false, false);
        tested(&rt, letter, b"to", b"dora", false, false);
    }
}
