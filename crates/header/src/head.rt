// The walk over a letter's head: its lines up to the first empty one, and the values of a field among them. Lines and values are parts of the
// lent letter.
ghost use Rattle.std.specs.Prelude.{◌≡◌, false, MatchOption};
ghost use Rattle.std.specs.Iterator.{YieldsFirstRef, YieldsFirstBy, item_count};
ghost use Rattle.model.specs.Mail.{line_of, after_line, smalls, field};
ghost use Rattle.header.specs.Head.{lines_left, values_left, of_field, LineValue};

use crate::text::{equals, without_blanks};
use memchr::memchr;

// The first line, and what follows it.
fn first_line(bytes: &[u8]) -> (&[u8], &[u8])
    ensures line { result.0.now ≡ line_of bytes.now }
    ensures rest { result.1.now ≡ after_line bytes.now }
{
    match memchr(b'\n', bytes) {
        Some(end) => (&bytes[..end], &bytes[end + 1..]),
        None => (bytes, &[]),
    }
}

// The lines of a head, from those that are left on. An iterator of its own: with a closure in it its type could not be named in `Values`.
#[derive(Drop)]
struct Lines<'a> {
    left: &'a [u8],
}

impl<'a> Iterator for Lines<'a> {
    type Item = &'a [u8];

    ghost next_gives = { YieldsFirstRef lines_left };

    ghost remaining = { item_count lines_left };

    // None if the line is empty, since the head ends there.
    fn next(&mut self) -> Option<&'a [u8]> {
        let (line, rest) = first_line(self.left);
        if line.is_empty() {
            return None;
        }
        self.left = rest;
        Some(line)
    }
}

// The value in a line "name: value", without blanks before it.
fn value_in<'a>(line: &'a [u8], name: &[u8]) -> Option<&'a [u8]>
    ensures { MatchOption result (of_field name.now line.now ≡ false) (λ v. LineValue name.now line.now v.now) }
{
    let (front, rest) = line.split_at_checked(name.len())?;
    if !equals(front, name) {
        return None;
    }
    Some(without_blanks(rest.strip_prefix(b":")?))
}

// The values of a field, with their letters as they stand.
#[derive(Drop)]
pub struct Values<'a> {
    lines: Lines<'a>,
    name: &'a [u8],
}

impl<'a> Values<'a> {
    // The values of the field of this name, from the first line on.
    pub fn new(letter: &'a [u8], name: &'a [u8]) -> Values<'a>
        ensures value { values_left result ≡ field name.now letter.now }
    {
        Values {
            lines: Lines { left: letter },
            name,
        }
    }
}

impl<'a> Iterator for Values<'a> {
    type Item = &'a [u8];

    ghost next_gives = { YieldsFirstBy (λ v. smalls v.now) values_left };

    ghost remaining = { item_count values_left };

    // A loop, since the contract of `find_map` does not say that no line is left after its None.
    fn next(&mut self) -> Option<&'a [u8]> {
        while let Some(line) = self.lines.next() {
            if let Some(value) = value_in(line, self.name) {
                return Some(value);
            }
        }
        None
    }
}
