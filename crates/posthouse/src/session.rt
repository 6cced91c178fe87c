// One sitting of a house: power, and then a command for each line of standard input.
use hexadecimal::{from_hex, to_hex};
use host::{Fault, Machine, Rows, World};
use pagefile::PageFile;
use std::io;
use std::io::{BufRead, BufReader};

// Rows go to standard output, in hexadecimal; no contract can say what is printed.
#[derive(Drop)]
pub struct Printed<'a> {
    pub rt: &'a HostRuntime,
}

impl Rows for Printed<'_> {
    ghost showed = { λ _ _ _. Unit {0} };

    fn show(&mut self, row: &[u8]) -> io::Result<()> {
        let text = to_hex(self.rt.alloc(), row)?;
        self.rt.println(text.as_str())
    }
}

// A house with power, or about to get it, and what it works on: a file of pages, and standard output for its rows.
#[derive(Drop)]
pub struct Session<'a> {
    pub rt: &'a HostRuntime,
    pub machine: Machine,
    pub world: World<PageFile, Printed<'a>>,
}

impl Session<'_> {
    // Tells the house a command, and prints how it ended.
    fn say(&mut self, text: &[u8]) -> Result<(), Fault> {
        match self.machine.command(text, &mut self.world)? {
            Ok(()) => println!(self.rt; "done")?,
            Err(refused) => println!(self.rt; "{refused}")?,
        }
        Ok(())
    }

    // One line: a command, or a complaint that it is none. A carriage return at its end does not count.
    fn line(&mut self, line: &[u8], number: u64) -> Result<(), Fault> {
        let digits = line.strip_suffix(b"\r").unwrap_or(line);
        match from_hex(self.rt.alloc(), digits)? {
            Some(text) => self.say(text.as_slice()),
            None => {
                eprintln!(self.rt;
                    "posthouse: line {number} is not hexadecimal (two digits for each byte); it is passed over"
                )?;
                Ok(())
            }
        }
    }

    // Power, and then every line until there is no more. A house that refuses power refuses each command after it.
    pub fn run(&mut self, house: u64, houses: u64) -> Result<(), Fault> {
        let _ = self.machine.power(house, houses, &mut self.world)?;
        let heap = self.rt.alloc();
        let lines = BufReader::new(heap, self.rt.stdin())?;
        for (line, number) in lines.split(heap, b'\n').zip(1..=u64::MAX) {
            self.line(line?.as_slice(), number)?;
        }
        Ok(())
    }
}
