// One person or one box more: their records are written behind the others. Where there is no room, nothing is written.
ghost use Rattle.std.specs.Prelude.{◌≡◌, ◌≤◌, ◌↔◌, length, is_ok, IsOk, OnOk, OnErr, Some, codes};
ghost use Rattle.mailboxes.specs.Directory.{with_person, with_box, first_directory};
ghost use Rattle.mailboxes.specs.Room.{room_for};

use crate::kept::new_record;
use crate::name::NAME_BYTES;
use crate::place::{MOST_PEOPLE, RECORD_WORDS, box_place, box_room, person_place};
use std::error::Error;
use std::fmt;

// Every house begins with a person of this name.
const POSTMASTER: &[u8] = b"post";

// Every person begins with a box of this name.
const FIRST_BOX: &[u8] = b"in";

// The number that the first letter of a box gets.
const FIRST_NUMBER: u64 = 1;

// There is no such owner, the name is too long, or no words are left for the record.
#[derive(Clone, Copy, Debug, PartialEq, Eq)]
pub struct NoRoom;

// By hand, since of a text that is derived nothing is promised.
impl fmt::Display for NoRoom {
    ghost output = { λ _. Some (codes "no room in the directory") };

    fn fmt<W: fmt::Write>(&self, f: &mut fmt::Formatter<W>) -> fmt::Result {
        write!(f, "no room in the directory")
    }
}

impl Error for NoRoom {}

// Whether there is room for one box more.
fn has_room(words: usize, boxes: u64, owner: u64, name: &[u8]) -> bool
    ensures { result ≡ room_for words boxes owner name.now }
{
    owner < MOST_PEOPLE && name.len() <= NAME_BYTES && boxes < box_room(words)
}

// A new box of a person, empty and behind all others. Words and counts come one by one, here and in `add_person`: the house keeps the
// counts in its registers, and a lent Directory could not be written to.
pub fn add_box(words: &mut [u64], boxes: u64, person: u64, name: &[u8]) -> Result<(), NoRoom>
    ensures fits { is_ok result ≡ room_for (length words.old) boxes person name.now }
    ensures written { OnOk result (words.new ≡ with_box boxes words.old person name.now) }
    ensures kept { OnErr result (words.new ≡ words.old) }
{
    if !has_room(words.len(), boxes, person, name) {
        return Err(NoRoom);
    }
    let at = box_place(boxes);
    words[at..at + RECORD_WORDS].copy_from_slice(&new_record(person, name, FIRST_NUMBER));
    Ok(())
}

// A new person, with the box that everybody has.
pub fn add_person(words: &mut [u64], people: u64, boxes: u64, name: &[u8]) -> Result<(), NoRoom>
    ensures fits { is_ok result ≡ room_for (length words.old) boxes people name.now }
    ensures written { OnOk result (words.new ≡ with_person people boxes words.old name.now) }
    ensures kept { OnErr result (words.new ≡ words.old) }
{
    if !has_room(words.len(), boxes, people, name) {
        return Err(NoRoom);
    }
    let at = person_place(people);
    words[at..at + RECORD_WORDS].copy_from_slice(&new_record(0, name, 0));
    add_box(words, boxes, people, FIRST_BOX)
}

// The directory at first: the postmaster.
#[tactic(auto, unfolding(crate::specs::Directory::first_directory))]
pub fn first(words: &mut [u64]) -> Result<(), NoRoom>
    ensures fits { IsOk result ↔ (876 ≤ length words.old) }
    ensures written { OnOk result (words.new ≡ first_directory words.old) }
    ensures kept { OnErr result (words.new ≡ words.old) }
{
    add_person(words, 0, 0, POSTMASTER)
}
