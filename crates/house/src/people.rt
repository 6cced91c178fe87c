// The commands on people and boxes: join, new box and boxes.
ghost use Rattle.std.specs.Prelude.{◌≡◌, ◌<◌, ◌≤◌, false, not, length};
ghost use Rattle.house.specs.Memory.{people_of};
ghost use Rattle.house.specs.Machine.{no_room, person_added, joins, box_added, makes_box, shows_boxes};
ghost use Rattle.house.specs.Does.{Ready, Lends, Does, told_result, boxes_asked};

use super::commit::{commit, touch_record};
use super::memory::{BOXES, Memory, PEOPLE, TO_SHOW, WEIGHT, directory_range, directory_words};
use super::phase::Phase;
use super::{Refusal, Row, Told};
use mailboxes::{Directory, MOST_PEOPLE};
use pages::places::{BOXES_PLACE, Geometry, RECORD_WORDS};

// A person has at most so many boxes.
const MOST_BOXES_EACH: u64 = 256;

// What a person with the box "in" weighs, and what a box does.
pub const PERSON_WEIGHT: u64 = 776;

const BOX_WEIGHT: u64 = 256;

// Of each page a quarter may be kept.
const KEPT_OF_PAGE: u64 = 128;

// A name that was read, so it has at most 64 bytes.
#[derive(Clone, Copy)]
pub struct Name<'a> {
    pub bytes: &'a [u8],
    ghost short: { length bytes.now ≤ 64 },
}

// The directory in the memory.
fn directory<'a>(memory: &'a Memory, geometry: &Geometry) -> Directory<'a>
    requires { Ready geometry.now.pages memory.now }
    ensures { Lends geometry.now.pages memory.now result.words.now result.people result.boxes }
{
    Directory::new(
        &memory[directory_range(geometry)],
        memory[PEOPLE],
        memory[BOXES],
    )
}

// Whether so much more can be kept, and there is a place for one more box.
fn room(memory: &Memory, geometry: &Geometry, more: u64) -> bool
    requires { (Ready geometry.now.pages memory.now) × (more ≤ 776) }
    ensures { not result ≡ no_room geometry.now.pages more memory.now }
{
    let most = KEPT_OF_PAGE * geometry.page_count();
    if memory[WEIGHT] > most - more {
        return false;
    }
    BOXES_PLACE + RECORD_WORDS * (memory[BOXES] + 1) <= directory_words(geometry) as u64
}

// Writes a new person's records, and what the commit is to write and to show.
fn add_person(memory: &mut Memory, geometry: &Geometry, name: Name<'_>)
    requires { (Ready geometry.now.pages memory.old) × ((people_of memory.old < 64) × (no_room geometry.now.pages 776 memory.old ≡ false)) }
    ensures { memory.new ≡ person_added geometry.now.pages name.entry.bytes.now memory.old }
{
    let (people, boxes, weight) = (memory[PEOPLE], memory[BOXES], memory[WEIGHT]);
    mailboxes::add_person(
        &mut memory[directory_range(geometry)],
        people,
        boxes,
        name.bytes,
    )
    .unwrap();
    touch_record(memory, geometry, RECORD_WORDS * people);
    touch_record(memory, geometry, BOXES_PLACE + RECORD_WORDS * boxes);
    memory[PEOPLE] = people + 1;
    memory[BOXES] = boxes + 1;
    memory[WEIGHT] = weight + PERSON_WEIGHT;
    memory[TO_SHOW] = people + 1;
}

// A new person with the box "in"; their number is shown after the commit. Each test leaves with its refusal, here and in `new_box` and `boxes`:
// it hands on no value, so there is nothing for a question mark.
pub fn join(
    memory: &mut Memory,
    geometry: &Geometry,
    name: Name<'_>,
    out: &mut Row,
) -> Result<Told, Refusal>
    requires { Ready geometry.now.pages memory.old }
    ensures { Does (joins geometry.now.pages name.entry.bytes.now memory.old) (told_result result) out.old memory.new out.new }
{
    if directory(memory, geometry)
        .find_person(name.bytes)
        .is_some()
    {
        return Err(Refusal::Taken);
    }
    if memory[PEOPLE] >= MOST_PEOPLE {
        return Err(Refusal::TooMany);
    }
    if !room(memory, geometry, PERSON_WEIGHT) {
        return Err(Refusal::NoRoom);
    }
    add_person(memory, geometry, name);
    Ok(commit(memory, geometry, 0, out))
}

// Writes a new box's record, and what the commit is to write.
fn add_box(memory: &mut Memory, geometry: &Geometry, person: u64, name: Name<'_>)
    requires { (Ready geometry.now.pages memory.old) × ((person < 64) × (no_room geometry.now.pages 256 memory.old ≡ false)) }
    ensures { memory.new ≡ box_added geometry.now.pages person name.entry.bytes.now memory.old }
{
    let (boxes, weight) = (memory[BOXES], memory[WEIGHT]);
    mailboxes::add_box(
        &mut memory[directory_range(geometry)],
        boxes,
        person,
        name.bytes,
    )
    .unwrap();
    touch_record(memory, geometry, BOXES_PLACE + RECORD_WORDS * boxes);
    memory[BOXES] = boxes + 1;
    memory[WEIGHT] = weight + BOX_WEIGHT;
    memory[TO_SHOW] = 0;
}

// A new box of a person, empty and behind all others.
pub fn new_box(
    memory: &mut Memory,
    geometry: &Geometry,
    person: u64,
    name: Name<'_>,
    out: &mut Row,
) -> Result<Told, Refusal>
    requires { Ready geometry.now.pages memory.old }
    ensures { Does (makes_box geometry.now.pages person name.entry.bytes.now memory.old) (told_result result) out.old memory.new out.new }
{
    if person >= memory[PEOPLE] {
        return Err(Refusal::NotThere);
    }
    let kept = directory(memory, geometry);
    if kept.find_box(person, name.bytes).is_some() {
        return Err(Refusal::Taken);
    }
    if kept.count_boxes(person) >= MOST_BOXES_EACH {
        return Err(Refusal::TooMany);
    }
    if !room(memory, geometry, BOX_WEIGHT) {
        return Err(Refusal::NoRoom);
    }
    add_box(memory, geometry, person, name);
    Ok(commit(memory, geometry, 0, out))
}

// The row of the next box of a person from a place on; after the last one the command is done.
pub fn show_box(
    memory: &mut Memory,
    geometry: &Geometry,
    person: u64,
    from: u64,
    out: &mut Row,
) -> Told
    requires { Ready geometry.now.pages memory.old }
    ensures { Does (shows_boxes geometry.now.pages person from memory.old) result out.old memory.new out.new }
{
    let kept = directory(memory, geometry);
    let Some(index) = kept.next_box(person, from) else {
        Phase::Idle.store(memory);
        return Told::Done;
    };
    let len = kept.box_row(index, out).unwrap();
    Phase::ShowBoxes(person, index + 1).store(memory);
    Told::Shows(len)
}

// The boxes of a person, one row after the other.
pub fn boxes(
    memory: &mut Memory,
    geometry: &Geometry,
    person: u64,
    out: &mut Row,
) -> Result<Told, Refusal>
    requires { Ready geometry.now.pages memory.old }
    ensures { Does (boxes_asked geometry.now.pages person memory.old) (told_result result) out.old memory.new out.new }
{
    if person >= memory[PEOPLE] {
        return Err(Refusal::NotThere);
    }
    Ok(show_box(memory, geometry, person, 0, out))
}
