// Reading a directory: people and boxes found by name, counted, and gone through, over lent words.
ghost use Rattle.std.specs.Prelude.{◌≡◌, ◌<◌, ◌≤◌, min, length};
ghost use Rattle.model.specs.House.{box_row};
ghost use Rattle.pages.specs.Words.{part};
ghost use Rattle.mailboxes.specs.Directory.{find_person, find_box, count_boxes, next_box, box_of, owns, person_place, box_place};
ghost use Rattle.mailboxes.specs.Room.{people_room, box_room};
ghost use Rattle.mailboxes.specs.Row.{row_fits, row_said, row_over};

use crate::kept::Record;
use crate::name::Wanted;
use crate::place::{box_place, box_room, people_room, person_place};

// Lent words with so many people and boxes in them, which they have room for.
#[derive(Clone, Copy)]
pub struct Directory<'a> {
    pub words: &'a [u64],
    pub people: u64,
    pub boxes: u64,
    ghost fits: { (people ≤ people_room (length words.now)) × (boxes ≤ box_room (length words.now)) },
}

impl<'a> Directory<'a> {
    // Of people and boxes that the words have no room for, only as many as they have room for are there.
    pub fn new(words: &'a [u64], people: u64, boxes: u64) -> Directory<'a>
        ensures lent { result.words.now ≡ words.now }
        ensures counted { (result.people ≡ min people (people_room (length words.now))) × (result.boxes ≡ min boxes (box_room (length words.now))) }
    {
        Directory {
            words,
            people: people.min(people_room(words.len())),
            boxes: boxes.min(box_room(words.len())),
        }
    }

    // The record of a person.
    fn person_record(&self, person: u64) -> Record<'a>
        requires { person < self.now.people }
        ensures { result.words.now ≡ part self.now.words.now (person_place person) 12 }
    {
        Record::at(self.words, person_place(person))
    }

    // The record of a box.
    fn box_record(&self, index: u64) -> Record<'a>
        requires { index < self.now.boxes }
        ensures { result.words.now ≡ part self.now.words.now (box_place index) 12 }
    {
        Record::at(self.words, box_place(index))
    }

    // Whether a box is this person's.
    fn owns(&self, person: u64, index: u64) -> bool
        requires { index < self.now.boxes }
        ensures { result ≡ owns self.now.words.now person index }
    {
        self.box_record(index).owner() == person
    }

    // The person of this name.
    pub fn find_person(&self, name: &[u8]) -> Option<u64>
        ensures { result ≡ find_person self.now.people self.now.words.now name.now }
    {
        let name = Wanted::new(name);
        (0..self.people).find(|person| self.person_record(*person).has_name(&name))
    }

    // The box of a person by this name.
    pub fn find_box(&self, person: u64, name: &[u8]) -> Option<u64>
        ensures { result ≡ find_box self.now.boxes self.now.words.now person name.now }
    {
        let name = Wanted::new(name);
        (0..self.boxes).find(|index| {
            self.owns(person, *index) && self.box_record(*index).has_name(&name)
        })
    }

    // How many boxes a person has. A loop, since the count of a filter takes nearly twice its time.
    pub fn count_boxes(&self, person: u64) -> u64
        ensures { result ≡ count_boxes self.now.boxes self.now.words.now person }
    {
        let mut count = 0;
        for index in 0..self.boxes {
            if self.owns(person, index) {
                count += 1;
            }
        }
        count
    }

    // The next box of a person, from a place on.
    pub fn next_box(&self, person: u64, from: u64) -> Option<u64>
        ensures { result ≡ next_box self.now.boxes self.now.words.now person from }
    {
        (from..self.boxes).find(|index| self.owns(person, *index))
    }

    // Writes the row that shows a box to the front of `out`, leaves the rest of it, and says how long the row is. Where there is no such box, or
    // no room for its row, nothing is written.
    pub fn box_row(&self, index: u64, out: &mut [u8]) -> Option<u64>
        ensures says { result ≡ row_said (row_fits self.now.boxes self.now.words.now index out.old) (box_row (box_of self.now.words.now index)) }
        ensures written { out.new ≡ row_over (row_fits self.now.boxes self.now.words.now index out.old) (box_row (box_of self.now.words.now index)) out.old }
    {
        if index >= self.boxes {
            return None;
        }
        self.box_record(index).put_row(out)
    }
}
