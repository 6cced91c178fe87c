// What a house is told, and how that is read off a kind and some bytes.
ghost use Rattle.std.specs.Prelude.{◌≡◌, ◌-◌, ◌<◌, ◌≤◌, ◌++◌, length, take, drop, slice_index, MatchOption, MatchResult};
ghost use Rattle.model.specs.Device.{zeros};
ghost use Rattle.house.specs.Entry.{from_eight, event_of};
ghost use Rattle.house.specs.Told.{event_meant, kind_number};

use super::kind;
use pages::bytes::WORD_BYTES;
use std::array;

// Which house it is: its number, how many houses there are, and how many pages it has.
#[derive(Clone, Copy, PartialEq, Eq, Debug)]
pub struct Identity {
    pub house: u64,
    pub houses: u64,
    pub pages: u64,
}

// What a house is told.
#[derive(Clone, Copy, PartialEq, Eq, Debug)]
pub enum Event<'a> {
    // Power is there.
    Power(Identity),
    // A command was said.
    Said(&'a [u8]),
    // The page that was asked for.
    Page(&'a [u8]),
    // The last act is done.
    Next,
    // A letter came by radio.
    Heard(&'a [u8]),
    // There is no line to the other house any more.
    Lost,
}

// The kinds of event, in the order of their numbers.
#[derive(Clone, Copy, PartialEq, Eq, Debug)]
enum Kind {
    Power,
    Said,
    Page,
    Next,
    Heard,
    Lost,
}

// A number that stands for no kind.
#[derive(Clone, Copy, PartialEq, Eq, Debug)]
struct UnknownKind;

impl TryFrom<u64> for Kind {
    type Error = UnknownKind;

    ghost try_from_gives = { λ number r. MatchResult r (λ kind. number ≡ kind_number kind) (λ e. 5 < number) };

    fn try_from(number: u64) -> Result<Kind, UnknownKind> {
        match number {
            kind::POWER => Ok(Kind::Power),
            kind::SAID => Ok(Kind::Said),
            kind::PAGE => Ok(Kind::Page),
            kind::NEXT => Ok(Kind::Next),
            kind::HEARD => Ok(Kind::Heard),
            kind::LOST => Ok(Kind::Lost),
            _ => Err(UnknownKind),
        }
    }
}

// The byte at a place of eight, where at most eight bytes stand behind zeros.
fn padded_byte(bytes: &[u8], k: usize) -> u8
    requires { (length bytes.now ≤ 8) × (k < 8) }
    ensures { result ≡ slice_index (zeros (8 - length bytes.now) ++ bytes.now) k }
{
    let missing = WORD_BYTES - bytes.len();
    if k < missing { 0 } else { bytes[k - missing] }
}

// The number that at most eight bytes spell, the highest first. Put together byte by byte, since a copy of so many bytes as there are would
// call for `memcpy`.
fn number(bytes: &[u8]) -> u64
    requires { length bytes.now ≤ 8 }
    ensures { result ≡ from_eight 0 bytes.now }
{
    u64::from_be_bytes(array::from_fn(|k| padded_byte(bytes, k)))
}

// Eight bytes from a place on, or as many as there are.
fn eight_from(bytes: &[u8], from: usize) -> &[u8]
    ensures are { result.now ≡ take 8 (drop from bytes.now) }
    ensures few { length result.now ≤ 8 }
{
    let start = from.min(bytes.len());
    let rest = &bytes[start..];
    &rest[..rest.len().min(WORD_BYTES)]
}

impl Event<'_> {
    // The event that a kind and some bytes tell; none where there is no such kind.
    #[tactic(auto, unfolding(crate::specs::Entry::event_of))]
    pub fn of(kind: u64, bytes: &[u8]) -> Option<Event<'_>>
        ensures { MatchOption result (5 < kind) (λ e. (kind ≤ 5) × (event_meant e ≡ event_of kind bytes.now)) }
    {
        match Kind::try_from(kind).ok()? {
            Kind::Power => Some(Event::Power(Identity {
                house: number(eight_from(bytes, 0)),
                houses: number(eight_from(bytes, 8)),
                pages: number(eight_from(bytes, 16)),
            })),
            Kind::Said => Some(Event::Said(bytes)),
            Kind::Page => Some(Event::Page(bytes)),
            Kind::Next => Some(Event::Next),
            Kind::Heard => Some(Event::Heard(bytes)),
            Kind::Lost => Some(Event::Lost),
        }
    }
}
