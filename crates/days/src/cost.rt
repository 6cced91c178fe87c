// What commands and power-ups cost: the acts that a house asks for, on pages in memory.
ghost use Rattle.std.specs.Prelude.{◌≡◌, [], IfOk, OnOk};
ghost use Rattle.model.specs.Device.{blank};
ghost use Rattle.days.specs.Held.{device_of};
ghost use Rattle.days.specs.Played.{more_by, series_len};

use super::command::{Command, Kind, spelled};
use super::device::Device;
use super::machine::{Acts, Fault, Machine};
use super::plain::End;
use house::Identity;
use std::alloc::{AllocError, Global};

// So many people join, and each of them gets so many boxes.
const PEOPLE: u64 = 40;

const BOXES: u64 = 12;

// A house that is measured.
#[derive(Drop)]
pub struct Measured {
    heap: Global,
    identity: Identity,
    device: Device,
    machine: Machine,
}

// What some commands of a kind, or one power-up, took.
#[derive(Clone, Copy, Default)]
pub struct Cost {
    pub commands: u64,
    pub done: u64,
    pub acts: Acts,
}

impl Cost {
    // One command more, that ended so and took these acts.
    fn count(&mut self, end: End, acts: Acts)
        ensures { self.new.commands ≡ more_by self.old.commands 1 }
    {
        self.commands = self.commands.saturating_add(1);
        if end == End::Done {
            self.done = self.done.saturating_add(1);
        }
        self.acts += acts;
    }
}

impl Measured {
    // The only house, on so many empty pages.
    pub fn new(heap: Global, pages: u64) -> Result<Measured, Fault>
        ensures { IfOk result (λ m. (m.identity ≡ record { house = 0; houses = 1; pages = pages }) × (device_of m.device ≡ record { pages = blank pages; queue = [] })) }
    {
        let size = usize::try_from(pages).map_err(|_| AllocError)?;
        Ok(Measured {
            heap,
            identity: Identity {
                house: 0,
                houses: 1,
                pages,
            },
            device: Device::new(heap, size)?,
            machine: Machine::new(heap)?,
        })
    }

    // A power-up.
    pub fn power(&mut self) -> Result<Cost, Fault>
        ensures { IfOk result (λ c. c.commands ≡ 1) }
    {
        let mut cost = Cost::default();
        let ran = self.machine.power_whole(self.identity, &mut self.device)?;
        cost.count(ran.turn.end, ran.acts);
        Ok(cost)
    }

    // A name of its own for each number.
    fn name(&self, number: u64) -> Result<Vec<u8>, Fault> {
        Ok(format!(in self.heap; "name{number}")?.into_bytes())
    }

    // The command of a kind that comes as this one: of the three kinds that are measured; any other is measured as boxes.
    fn command(&self, kind: Kind, number: u64) -> Result<Command, Fault> {
        let person = number % PEOPLE;
        match kind {
            Kind::Join => Ok(Command::Join {
                name: self.name(number)?,
            }),
            Kind::NewBox => Ok(Command::NewBox {
                person,
                name: self.name(number)?,
            }),
            _ => Ok(Command::Boxes { person }),
        }
    }

    // A command, said to its end and counted.
    fn say(&mut self, command: &Command, cost: &mut Cost) -> Result<(), Fault>
        ensures { OnOk result (cost.new.commands ≡ more_by cost.old.commands 1) }
    {
        let text = spelled(self.heap, command)?;
        let ran = self.machine.say_whole(text.as_slice(), &mut self.device)?;
        cost.count(ran.turn.end, ran.acts);
        Ok(())
    }

    // The commands of a kind, one after another: of the three kinds that are measured; any other is measured as boxes.
    pub fn series(&mut self, kind: Kind) -> Result<Cost, Fault>
        ensures { IfOk result (λ c. c.commands ≡ series_len kind) }
    {
        let count = match kind {
            Kind::Join => PEOPLE,
            _ => PEOPLE * BOXES,
        };
        let mut cost = Cost::default();
        for number in 0..count {
            let command = self.command(kind, number)?;
            self.say(&command, &mut cost)?;
        }
        Ok(cost)
    }
}
