// The plain house: people with boxes, as lists. It says what a command shows, how it ends and what is afterwards, and knows nothing of
// pages.
use super::command::{Command, Speller};
use std::alloc::{AllocError, AllocFailed, Global};
use std::fmt;

// Bounds and weights of its own, as docs/COMMANDS.md has them: what is compared with a house is not told them by it.
pub const MOST_PEOPLE: usize = 64;

const MOST_BOXES: usize = 256;

// What there is to keep, in bytes: for each person, with the count of rules, for each box and for each house.
const PERSON_WEIGHT: u64 = 512 + 8;

const BOX_WEIGHT: u64 = 256;

const HOUSE_WEIGHT: u64 = 64;

// The plain house has its own list, as docs/COMMANDS.md has it: what it is compared with must not tell it the numbers.
#[derive(Clone, Copy, PartialEq, Eq)]
pub enum Refusal {
    NoCommand = 1,
    Unknown = 2,
    NotThere = 3,
    Taken = 4,
    NoHouse = 5,
    NotAllowed = 6,
    TooMany = 7,
    NoRoom = 8,
    NoLine = 9,
}

// How a command ended. A refusal is here by its number, since a house may tell a number that no refusal has.
#[derive(Clone, Copy, Debug, PartialEq, Eq)]
pub enum End {
    Done,
    Refused(u64),
    // Power was lost before.
    Cut,
}

impl From<Refusal> for End {
    fn from(refusal: Refusal) -> End {
        End::Refused(refusal as u64)
    }
}

impl fmt::Display for End {
    fn fmt<W: fmt::Write>(&self, f: &mut fmt::Formatter<W>) -> fmt::Result {
        match self {
            End::Done => write!(f, "done"),
            End::Refused(number) => write!(f, "refused {number}"),
            End::Cut => write!(f, "cut off"),
        }
    }
}

pub type Rows = Vec<Vec<u8>>;

// What a command shows, and how it ends.
#[derive(PartialEq, Eq, Drop)]
pub struct Turn {
    pub rows: Rows,
    pub end: End,
}

// Why a command shows nothing. By hand: an error that is derived has texts, and a refusal here has none.
#[derive(Drop)]
enum Failed {
    NoMemory,
    Refused(Refusal),
}

impl From<AllocError> for Failed {
    fn from(_e: AllocError) -> Failed {
        Failed::NoMemory
    }
}

impl<T: Drop> From<AllocFailed<T>> for Failed {
    fn from(_e: AllocFailed<T>) -> Failed {
        Failed::NoMemory
    }
}

impl From<Refusal> for Failed {
    fn from(refusal: Refusal) -> Failed {
        Failed::Refused(refusal)
    }
}

// A box with a name.
#[derive(Clone, Drop)]
struct Mailbox {
    name: Vec<u8>,
    // The number that the next letter gets.
    next: u64,
    letters: u64,
}

impl Mailbox {
    // An empty box.
    fn new(heap: Global, name: &[u8]) -> Result<Mailbox, AllocError> {
        Ok(Mailbox {
            name: Vec::from_slice(heap, name)?,
            next: 1,
            letters: 0,
        })
    }

    // The row that tells of it.
    fn row(&self) -> Result<Vec<u8>, AllocError> {
        let mut row = Speller::new(*self.name.allocator());
        row.counted(self.name.as_slice())?;
        row.number(self.next)?;
        row.number(self.letters)?;
        Ok(row.finish())
    }
}

// Somebody with boxes.
#[derive(Clone, Drop)]
struct Person {
    name: Vec<u8>,
    boxes: Vec<Mailbox>,
}

impl Person {
    // Somebody who just joined.
    fn new(heap: Global, name: &[u8]) -> Result<Person, AllocError> {
        Ok(Person {
            name: Vec::from_slice(heap, name)?,
            boxes: vec![in heap; Mailbox::new(heap, b"in")?]?,
        })
    }

    // Whether there is a box of this name.
    fn has_box(&self, name: &[u8]) -> bool {
        self.boxes
            .iter()
            .any(|mailbox| mailbox.name.as_slice() == name)
    }

    // A row for each box.
    fn rows(&self) -> Result<Rows, AllocError> {
        let heap = *self.boxes.allocator();
        self.boxes
            .iter()
            .map(|mailbox| mailbox.row())
            .try_collect(heap)
    }

    // What there is to keep of somebody, in bytes.
    fn weight(&self) -> u64 {
        let boxes = self.boxes.len() as u64;
        PERSON_WEIGHT.saturating_add(boxes.saturating_mul(BOX_WEIGHT))
    }
}

// One of so many houses, and its people.
#[derive(Clone, Drop)]
pub struct PlainHouse {
    heap: Global,
    houses: u64,
    people: Vec<Person>,
}

// What should come of a command: what it shows, how it ends, and the house afterwards.
#[derive(Drop)]
pub struct Due {
    pub turn: Turn,
    pub after: PlainHouse,
}

impl PlainHouse {
    // A house at first, one of so many: the postmaster is there.
    pub fn new(heap: Global, houses: u64) -> Result<PlainHouse, AllocError> {
        Ok(PlainHouse {
            heap,
            houses,
            people: vec![in heap; Person::new(heap, b"post")?]?,
        })
    }

    // What there is to keep of the house, in bytes.
    pub fn weight(&self) -> u64 {
        let houses = self.houses.saturating_mul(HOUSE_WEIGHT);
        self.people
            .iter()
            .fold(houses, |sum, person| sum.saturating_add(person.weight()))
    }

    // Whether somebody has this name.
    fn has_name(&self, name: &[u8]) -> bool {
        self.people
            .iter()
            .any(|person| person.name.as_slice() == name)
    }

    // Somebody joins: the row is the number that the new one gets.
    fn join(&mut self, name: &[u8]) -> Result<Rows, Failed> {
        if self.has_name(name) {
            return Err(Failed::Refused(Refusal::Taken));
        }
        if self.people.len() >= MOST_PEOPLE {
            return Err(Failed::Refused(Refusal::TooMany));
        }
        let mut row = Speller::new(self.heap);
        row.number(self.people.len() as u64)?;
        self.people.push(Person::new(self.heap, name)?)?;
        Ok(vec![in self.heap; row.finish()]?)
    }

    // The rows of somebody's boxes.
    fn rows_of(&self, person: u64) -> Result<Rows, Failed> {
        let person = self.people.get(person as usize);
        Ok(person.ok_or(Refusal::NotThere)?.rows()?)
    }

    // Somebody gets a box more.
    fn new_box(&mut self, person: u64, name: &[u8]) -> Result<Rows, Failed> {
        let heap = self.heap;
        let person = self.people.get_mut(person as usize);
        let person = person.ok_or(Refusal::NotThere)?;
        if person.has_box(name) {
            return Err(Failed::Refused(Refusal::Taken));
        }
        if person.boxes.len() >= MOST_BOXES {
            return Err(Failed::Refused(Refusal::TooMany));
        }
        person.boxes.push(Mailbox::new(heap, name)?)?;
        Ok(Vec::new(heap))
    }

    // The turn of a command that shows these rows, or fails.
    fn turn_of(&self, rows: Result<Rows, Failed>) -> Result<Turn, AllocError> {
        match rows {
            Ok(rows) => Ok(Turn {
                rows,
                end: End::Done,
            }),
            Err(Failed::Refused(refusal)) => Ok(Turn {
                rows: Vec::new(self.heap),
                end: refusal.into(),
            }),
            Err(Failed::NoMemory) => Err(AllocError),
        }
    }

    // What the boxes of somebody show.
    pub fn boxes(&self, person: u64) -> Result<Turn, AllocError> {
        self.turn_of(self.rows_of(person))
    }

    // Carries out a command, or refuses it if it is not known yet.
    fn carry_out(&mut self, command: &Command) -> Result<Rows, Failed> {
        match command {
            Command::Join { name } => self.join(name.as_slice()),
            Command::Boxes { person } => self.rows_of(*person),
            Command::NewBox { person, name } => self.new_box(*person, name.as_slice()),
            _ => Err(Failed::Refused(Refusal::Unknown)),
        }
    }

    // What should come of a text that spells this command, or none: a text that spells none is refused.
    pub fn due(&self, command: Option<&Command>) -> Result<Due, AllocError> {
        let mut after = self.clone()?;
        let rows = match command {
            Some(command) => after.carry_out(command),
            None => Err(Failed::Refused(Refusal::NoCommand)),
        };
        Ok(Due {
            turn: self.turn_of(rows)?,
            after,
        })
    }
}
