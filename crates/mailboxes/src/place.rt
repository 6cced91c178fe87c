// Where records lie: people first, and the boxes behind them and the ways.
ghost use Rattle.std.specs.Prelude.{◌≡◌, ◌^◌, ◌<◌};
ghost use Rattle.mailboxes.specs.Directory.{person_place, box_place};
ghost use Rattle.mailboxes.specs.Room.{people_room, box_room};

use pages::places;

// The record of a person or of a box has so many words.
pub const RECORD_WORDS: usize = places::RECORD_WORDS as usize;

// A house has at most this many people.
pub const MOST_PEOPLE: u64 = 64;

// Records of 64 people and 16 ways of 6 words lie before the boxes.
const BOXES_PLACE: usize = places::BOXES_PLACE as usize;

// Where a person's record begins.
pub(crate) fn person_place(person: u64) -> usize
    requires { person < 64 }
    ensures { result ≡ person_place person }
{
    RECORD_WORDS * person as usize
}

// Where a box's record begins.
pub(crate) fn box_place(index: u64) -> usize
    requires { box_place index < 2 ^ 64 }
    ensures { result ≡ box_place index }
{
    BOXES_PLACE + RECORD_WORDS * index as usize
}

// How many people so many words have room for.
pub(crate) fn people_room(words: usize) -> u64
    ensures { result ≡ people_room words }
{
    MOST_PEOPLE.min((words / RECORD_WORDS) as u64)
}

// How many boxes so many words have room for.
pub(crate) fn box_room(words: usize) -> u64
    ensures { result ≡ box_room words }
{
    (words.saturating_sub(BOXES_PLACE) / RECORD_WORDS) as u64
}
