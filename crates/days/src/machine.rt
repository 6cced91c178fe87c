// The real house at work on a device: a host's machine, which does one act after another, until the end or until power goes.
ghost use Rattle.std.specs.Prelude.{◌≡◌, IfOk};
ghost use Rattle.house.specs.Machine.{own};
ghost use Rattle.days.specs.Played.{more_by};

use super::command::{Command, spelled};
use super::device::Device;
use super::plain::{End, MOST_PEOPLE, PlainHouse, Rows, Turn};
use super::shown::Shown;
use host::{Answer, Refused, World, answer};
use house::{Identity, Told};
use std::alloc::{AllocError, Global};
use std::ops::AddAssign;
use thiserror::Error;

// No command and no power-up takes so many acts: whatever does has no end.
pub const MOST_ACTS: u64 = 1 << 20;

// Numbers from here on were never meant as refusals.
const FIRST_NO_REFUSAL: u64 = 1000;

// What a house must never do.
#[derive(Debug, Drop, Error)]
pub enum Fault {
    // This is no fault of the house.
    #[error("there is no memory left to play on")]
    NoMemory(#[from(alloc)] AllocError),
    #[error("the house asked for page {0}, which is not there")]
    NoSuchPage(u64),
    #[error("the house showed a row of {0} bytes")]
    LongRow(u64),
    #[error("the house refused with {0}, which is no refusal's number")]
    NoRefusal(u64),
    #[error("the house came to no end")]
    Endless,
}

// Pages and rows are kept in memory here, and nothing else can fail in them.
impl From<host::Fault> for Fault {
    fn from(fault: host::Fault) -> Fault {
        match fault {
            host::Fault::Io(_) => Fault::NoMemory(AllocError),
            host::Fault::NoSuchPage(page) => Fault::NoSuchPage(page),
            host::Fault::LongRow(len) => Fault::LongRow(len),
            host::Fault::Endless => Fault::Endless,
        }
    }
}

// How many acts of each sort were done.
#[derive(Clone, Copy, Default)]
pub struct Acts {
    pub reads: u64,
    pub writes: u64,
    pub flushes: u64,
    pub others: u64,
}

impl Acts {
    // One act more.
    fn count(&mut self, told: Told) {
        let count = match told {
            Told::Read(_) => &mut self.reads,
            Told::Write(_) => &mut self.writes,
            Told::Flush => &mut self.flushes,
            _ => &mut self.others,
        };
        *count = count.saturating_add(1);
    }
}

impl AddAssign for Acts {
    ghost add_assign_gives = { λ a b r. (r.reads ≡ more_by a.reads b.reads) × (r.writes ≡ more_by a.writes b.writes) × (r.flushes ≡ more_by a.flushes b.flushes) × (r.others ≡ more_by a.others b.others) };

    fn add_assign(&mut self, other: Acts) {
        self.reads = self.reads.saturating_add(other.reads);
        self.writes = self.writes.saturating_add(other.writes);
        self.flushes = self.flushes.saturating_add(other.flushes);
        self.others = self.others.saturating_add(other.others);
    }
}

// How a command or a power-up went.
#[derive(Drop)]
pub struct Ran {
    pub turn: Turn,
    pub acts: Acts,
}

impl Ran {
    // It must have come to its end.
    fn whole(self) -> Result<Ran, Fault> {
        if self.turn.end == End::Cut {
            return Err(Fault::Endless);
        }
        Ok(self)
    }
}

// The end of a command with this answer.
fn end_of(answer: Answer) -> Result<End, Fault> {
    match answer {
        Ok(()) => Ok(End::Done),
        Err(Refused(number)) if (1..FIRST_NO_REFUSAL).contains(&number) => Ok(End::Refused(number)),
        Err(Refused(number)) => Err(Fault::NoRefusal(number)),
    }
}

// A house, and the heap for what it shows.
#[derive(Drop)]
pub struct Machine {
    heap: Global,
    house: host::Machine,
}

impl Machine {
    // A house without power.
    pub fn new(heap: Global) -> Result<Machine, AllocError>
        ensures { IfOk result (λ m. m.house.memory.items ≡ own.start) }
    {
        Ok(Machine {
            heap,
            house: host::Machine::new(heap)?,
        })
    }

    // Takes over the memory of another.
    pub fn take_memory(&mut self, other: &Machine)
        ensures { self.new.house.memory.items ≡ other.now.house.memory.items }
    {
        self.house.take_memory(&other.house);
    }

    // Goes on from an act to the end, or until so many acts are done. The host's `finish` neither counts acts nor stops after so many of them.
    fn run(&mut self, first: Told, device: &mut Device, limit: u64) -> Result<Ran, Fault> {
        let mut world = World {
            disk: &mut *device,
            rows: Shown(Vec::new(self.heap)),
        };
        let mut told = first;
        let mut acts = Acts::default();
        let mut end = End::Cut;
        for _ in 0..limit {
            acts.count(told);
            if let Some(answer) = answer(told) {
                end = end_of(answer)?;
                break;
            }
            told = self.house.act(told, &mut world)?;
        }
        let World { rows, .. } = world;
        Ok(Ran {
            turn: Turn { rows: rows.0, end },
            acts,
        })
    }

    // Power comes, and goes again after so many acts.
    pub fn power(
        &mut self,
        identity: Identity,
        device: &mut Device,
        limit: u64,
    ) -> Result<Ran, Fault> {
        let first = self.house.wake(identity);
        self.run(first, device, limit)
    }

    // A command is said, and power goes after so many acts of it.
    pub fn say(&mut self, text: &[u8], device: &mut Device, limit: u64) -> Result<Ran, Fault> {
        let first = self.house.say(text);
        self.run(first, device, limit)
    }

    // A power-up to its end.
    pub fn power_whole(&mut self, identity: Identity, device: &mut Device) -> Result<Ran, Fault> {
        self.power(identity, device, MOST_ACTS)?.whole()
    }

    // A command to its end.
    pub fn say_whole(&mut self, text: &[u8], device: &mut Device) -> Result<Ran, Fault> {
        self.say(text, device, MOST_ACTS)?.whole()
    }

    // Whether a house with power is as the plain one: all that can be asked is asked. A loop, since `all` can't hand on a fault.
    pub fn is_as(&mut self, device: &mut Device, plain: &PlainHouse) -> Result<bool, Fault> {
        for person in 0..MOST_PEOPLE as u64 {
            let text = spelled(self.heap, &Command::Boxes { person })?;
            let expected = plain.boxes(person)?;
            let ran = self.say_whole(text.as_slice(), device)?;
            if ran.turn != expected {
                return Ok(false);
            }
        }
        Ok(true)
    }
}
