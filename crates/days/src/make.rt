// Makes days by chance: what is said, when power comes, and when it goes.
ghost use Rattle.std.specs.Prelude.{◌≡◌, ◌<◌, length, Contains, IfOk, OnOk};
ghost use Rattle.days.specs.Played.{Fitting, all_said};

use super::command::{Command, Kind, Speller, spelled};
use super::device::Leaves;
use super::hex::Hex;
use super::machine::MOST_ACTS;
use super::plain::MOST_PEOPLE;
use super::random::Random;
use house::Identity;
use std::alloc::{AllocError, Global};
use std::fmt;

// Days have bounds of their own, as docs/COMMANDS.md has them: what they are played on must not tell them these.
const MOST_HOUSES: u64 = 16;

const LONGEST_NAME: u64 = 64;

// Letters are shorter than this.
const LETTER_LIMIT: u64 = 1200;

// The numbers of pages that days are played on: the fewest that a house can have, some that divide badly, and more room.
const SIZES: [u64; 4] = [256, 257, 300, 1024];

// A stop is told of so many waiting writes; of those after them nothing is left.
const TOLD_WRITES: usize = 24;

// At most so many power-ups are cut off before power stays.
const MOST_CUT_POWERS: u64 = 4;

// What is said to the house: a text, and the command that it spells, if it spells one.
#[derive(Drop)]
pub struct Saying {
    pub command: Option<Command>,
    pub text: Vec<u8>,
}

// Power goes after so many acts, or after the end if none are said; of each waiting write so much is left.
#[derive(Drop)]
pub struct Stop {
    pub acts: Option<u64>,
    pub leaves: Vec<Leaves>,
}

// Power comes, or something is said; where there is a stop, it is cut off.
#[derive(Drop)]
pub enum Item {
    Power(Option<Stop>),
    Said(Saying, Option<Stop>),
}

// A house, and what happens to it one after another.
#[derive(Drop)]
pub struct Day {
    pub identity: Identity,
    pub items: Vec<Item>,
}

impl Stop {
    // At most so many acts are done before power goes.
    pub(super) fn limit(&self) -> u64 {
        self.acts.unwrap_or(MOST_ACTS)
    }
}

impl fmt::Display for Leaves {
    fn fmt<W: fmt::Write>(&self, f: &mut fmt::Formatter<W>) -> fmt::Result {
        match self {
            Leaves::Nothing => write!(f, "nothing"),
            Leaves::All => write!(f, "all"),
            Leaves::Half => write!(f, "half"),
        }
    }
}

impl fmt::Display for Saying {
    fn fmt<W: fmt::Write>(&self, f: &mut fmt::Formatter<W>) -> fmt::Result {
        let text = Hex(self.text.as_slice());
        match &self.command {
            Some(command) => write!(f, "{}: {text}", command.kind()),
            None => write!(f, "no command: {text}"),
        }
    }
}

impl fmt::Display for Stop {
    fn fmt<W: fmt::Write>(&self, f: &mut fmt::Formatter<W>) -> fmt::Result {
        match self.acts {
            Some(acts) => write!(f, "; power goes after {acts} acts, leaving")?,
            None => write!(f, "; power goes after the end, leaving")?,
        }
        for leaves in &self.leaves {
            write!(f, " {leaves}")?;
        }
        Ok(())
    }
}

impl fmt::Display for Item {
    fn fmt<W: fmt::Write>(&self, f: &mut fmt::Formatter<W>) -> fmt::Result {
        let stop = match self {
            Item::Power(stop) => {
                write!(f, "power")?;
                stop
            }
            Item::Said(saying, stop) => {
                write!(f, "{saying}")?;
                stop
            }
        };
        match stop {
            Some(stop) => write!(f, "{stop}"),
            None => Ok(()),
        }
    }
}

// What a day is mostly about: some of everything, many people, or many boxes.
#[derive(Clone, Copy, PartialEq, Eq)]
enum Mood {
    Mixed,
    Joining,
    Boxing,
}

// What a day is made with.
#[derive(Drop)]
struct Maker {
    heap: Global,
    random: Random,
    mood: Mood,
    // How many names there are to choose from.
    names: u64,
}

// How a command is spoilt so that its text spells none.
#[derive(Clone, Copy)]
enum Spoilt {
    Shorter,
    Longer,
    Kind,
    Argument,
}

const SPOILT: [Spoilt; 4] = [
    Spoilt::Shorter,
    Spoilt::Longer,
    Spoilt::Kind,
    Spoilt::Argument,
];

// The kinds of commands that are said seldom.
const OTHER_KINDS: [Kind; 10] = [
    Kind::HandIn,
    Kind::DropBox,
    Kind::List,
    Kind::Get,
    Kind::SetMark,
    Kind::ToBox,
    Kind::Clear,
    Kind::Rules,
    Kind::Find,
    Kind::Push,
];

impl Random {
    // One of some things.
    fn one_of<T: Copy>(&mut self, all: &[T]) -> T
        requires { 0 < length all.now }
        ensures { Contains all.now result }
    {
        all[self.below(all.len() as u64) as usize]
    }
}

impl Maker {
    // For the day of a number, with so many commands.
    fn new(heap: Global, number: u64, length: u64) -> Maker {
        let mut random = Random::new(number);
        let mood = random.one_of(&[Mood::Joining, Mood::Boxing, Mood::Mixed, Mood::Mixed]);
        Maker {
            heap,
            random,
            mood,
            names: length.saturating_mul(2).saturating_add(8),
        }
    }

    // Which house it is, and on how many pages.
    fn identity(&mut self, pages: Option<u64>) -> Identity
        ensures { Fitting pages result }
    {
        let houses = self.random.below(MOST_HOUSES).saturating_add(1);
        let house = self.random.below(houses);
        let chosen = self.random.one_of(&SIZES);
        Identity {
            house,
            houses,
            pages: pages.unwrap_or(chosen),
        }
    }

    // A name out of few, so that some are said twice, and now and then a long one. The arms draw again, here and in `person`, `kind` and `acts`, or
    // have unlike shares: a table to draw from would be longer.
    fn name(&mut self) -> Result<Vec<u8>, AllocError> {
        match self.random.below(12) {
            0 => Vec::from_slice(self.heap, b"in"),
            1 => Vec::from_slice(self.heap, b"post"),
            2 => self.long_name(),
            3 => Vec::from_slice(self.heap, b"a"),
            _ => self.numbered_name(),
        }
    }

    // A name with a number.
    fn numbered_name(&mut self) -> Result<Vec<u8>, AllocError> {
        let number = self.random.below(self.names);
        Ok(format!(in self.heap; "x{number}")?.into_bytes())
    }

    // A name of any length, of one byte again and again.
    fn long_name(&mut self) -> Result<Vec<u8>, AllocError> {
        let len = self.random.below(LONGEST_NAME).saturating_add(1);
        self.of_one_byte(len)
    }

    // One byte, drawn once, so many times.
    fn of_one_byte(&mut self, len: u64) -> Result<Vec<u8>, AllocError> {
        let byte = self.random.byte();
        self.repeated(byte, len)
    }

    // A byte so many times.
    fn repeated(&self, byte: u8, len: u64) -> Result<Vec<u8>, AllocError> {
        vec![in self.heap; byte; len as usize]
    }

    // Somebody, mostly one of the first.
    fn person(&mut self) -> u64 {
        match self.random.below(16) {
            0 => self.random.below(MOST_PEOPLE as u64),
            1..=8 => self.random.below(4),
            _ => self.random.below(2),
        }
    }

    // The kind of a command, by the mood of the day.
    fn kind(&mut self) -> Kind {
        let roll = self.random.below(16);
        match roll {
            0 | 1 => self.random.one_of(&OTHER_KINDS),
            2 | 3 => Kind::Boxes,
            4 | 5 => Kind::Join,
            6 | 7 => Kind::NewBox,
            _ => match self.mood {
                Mood::Mixed => { if roll < 11 { Kind::Join } else { Kind::NewBox } }
                Mood::Joining => Kind::Join,
                Mood::Boxing => Kind::NewBox,
            },
        }
    }

    // One rule that keeps every letter, as it is spelled.
    fn rules(&mut self) -> Result<Vec<u8>, AllocError> {
        let mut rules = Speller::new(self.heap);
        rules.number(1)?;
        rules.byte(0)?;
        rules.number(1)?;
        rules.byte(0)?;
        Ok(rules.finish())
    }

    // A letter of any length, of one byte again and again.
    fn letter(&mut self) -> Result<Vec<u8>, AllocError> {
        let len = self.random.below(LETTER_LIMIT);
        self.of_one_byte(len)
    }

    // A command of one person alone. Person and name are drawn for each of these kinds, so that a number goes on making the same day.
    fn personal(&mut self, kind: Kind) -> Result<Command, AllocError> {
        let person = self.person();
        let name = self.name()?;
        match kind {
            Kind::Boxes => Ok(Command::Boxes { person }),
            Kind::DropBox => Ok(Command::DropBox { person, name }),
            Kind::Clear => Ok(Command::Clear {
                person,
                mailbox: name,
            }),
            Kind::Rules => Ok(Command::Rules {
                person,
                rules: self.rules()?,
            }),
            Kind::Find => Ok(Command::Find {
                person,
                mailbox: name,
                test: Vec::from_slice(self.heap, &[0])?,
            }),
            _ => Ok(Command::NewBox { person, name }),
        }
    }

    // A command on the letters of a box. What all have is drawn for each of these kinds, so that a number goes on making the same day.
    fn of_letters(&mut self, kind: Kind) -> Result<Command, AllocError> {
        let person = self.person();
        let mailbox = self.name()?;
        let number = self.random.below(8);
        match kind {
            Kind::List => Ok(Command::List {
                person,
                mailbox,
                from: number,
                count: self.random.below(1000).saturating_add(1),
            }),
            Kind::Get => Ok(Command::Get {
                person,
                mailbox,
                number,
                from: self.random.below(600),
                count: self.random.below(65_537),
            }),
            Kind::SetMark => Ok(Command::SetMark {
                person,
                mailbox,
                number,
                mark: self.random.byte() % 8,
                on: self.random.once_in(2),
            }),
            _ => Ok(Command::ToBox {
                person,
                mailbox,
                number,
                other: self.name()?,
            }),
        }
    }

    // A command that is spelled well.
    fn command(&mut self) -> Result<Command, AllocError> {
        let kind = self.kind();
        match kind {
            Kind::Join => Ok(Command::Join { name: self.name()? }),
            Kind::HandIn => Ok(Command::HandIn {
                house: self.random.below(MOST_HOUSES),
                person: self.person(),
                letter: self.letter()?,
            }),
            Kind::Push => Ok(Command::Push {
                house: self.random.below(MOST_HOUSES),
            }),
            Kind::List | Kind::Get | Kind::SetMark | Kind::ToBox => self.of_letters(kind),
            _ => self.personal(kind),
        }
    }

    // A command with a person, a house or a name that there can't be.
    fn impossible(&mut self) -> Result<Command, AllocError> {
        let person = self.random.next().saturating_add(MOST_PEOPLE as u64);
        match self.random.below(5) {
            0 => Ok(Command::Boxes { person }),
            1 => Ok(Command::NewBox {
                person,
                name: self.name()?,
            }),
            2 => Ok(Command::Join {
                name: Vec::new(self.heap),
            }),
            3 => Ok(Command::Join {
                name: self.repeated(b'x', LONGEST_NAME + 1)?,
            }),
            _ => Ok(Command::Push {
                house: self.random.next().saturating_add(MOST_HOUSES),
            }),
        }
    }

    // A text that is no command. Every command says how long it is, so that no other begins with it.
    fn misspelled(&mut self) -> Result<Vec<u8>, AllocError> {
        let mut text = spelled(self.heap, &self.command()?)?;
        match self.random.one_of(&SPOILT) {
            Spoilt::Shorter => {
                let len = self.random.below(text.len() as u64);
                text.truncate(len as usize);
            }
            Spoilt::Longer => text.push(self.random.byte())?,
            Spoilt::Kind => {
                let byte = self.random.byte();
                if let Some(first) = text.first_mut() {
                    *first = if Kind::try_from(byte).is_ok() {
                        0
                    } else {
                        byte
                    };
                }
            }
            Spoilt::Argument => return spelled(self.heap, &self.impossible()?),
        }
        Ok(text)
    }

    // What is said: a command mostly, and now and then none.
    fn saying(&mut self) -> Result<Saying, AllocError> {
        if self.random.once_in(10) {
            return Ok(Saying {
                command: None,
                text: self.misspelled()?,
            });
        }
        let command = self.command()?;
        let text = spelled(self.heap, &command)?;
        Ok(Saying {
            command: Some(command),
            text,
        })
    }

    // After few acts or many, or at rest after the end.
    fn acts(&mut self) -> Option<u64> {
        let limit = match self.random.below(8) {
            0 => return None,
            1 => 4,
            2 => 200,
            3 | 4 => 60,
            _ => 16,
        };
        Some(self.random.below(limit))
    }

    // A stop, and what it leaves.
    fn stop(&mut self) -> Result<Stop, AllocError> {
        let acts = self.acts();
        let random = &mut self.random;
        let leaves = (0..TOLD_WRITES)
            .map(|_| random.one_of(&Leaves::EVERY))
            .collect(self.heap)?;
        Ok(Stop { acts, leaves })
    }

    // Now and then power goes.
    fn stop_or_not(&mut self) -> Result<Option<Stop>, AllocError> {
        if !self.random.once_in(4) {
            return Ok(None);
        }
        Ok(Some(self.stop()?))
    }

    // Power, now and then after power-ups that are cut off.
    #[tactic(auto, using(crate::proofs::Said::said_push))]
    fn power(&mut self, items: &mut Vec<Item>) -> Result<(), AllocError>
        ensures { OnOk result (all_said items.new.items ≡ all_said items.old.items) }
    {
        for _ in 0..MOST_CUT_POWERS {
            if let Some(stop) = self.stop_or_not()? {
                items.push(Item::Power(Some(stop)))?;
            }
        }
        items.push(Item::Power(None))?;
        Ok(())
    }
}

// The day of a number, with so many commands, on so many pages or on as many as the number says.
#[tactic(auto, using(crate::proofs::Said::said_none, crate::proofs::Said::said_push))]
pub fn make_day(
    heap: Global,
    number: u64,
    length: u64,
    pages: Option<u64>,
) -> Result<Day, AllocError>
    ensures { IfOk result (λ d. Fitting pages d.identity × (all_said d.items.items ≡ length)) }
{
    let mut maker = Maker::new(heap, number, length);
    let identity = maker.identity(pages);
    let mut items = Vec::new(heap);
    // Whether power is there is carried from one item to the next, so the items are made in a loop.
    let mut up = false;
    for _ in 0..length {
        if !up {
            maker.power(&mut items)?;
        }
        let saying = maker.saying()?;
        let stop = maker.stop_or_not()?;
        up = stop.is_none();
        items.push(Item::Said(saying, stop))?;
    }
    Ok(Day { identity, items })
}
