// How commands are spelled.
pub use commands::Kind;
use std::alloc::{AllocError, Global};

// A command with bytes of its own: it is made here, and there is no text yet to lend them from. Rules and a test are held as they are spelled,
// since nothing is done with them yet.
pub type Command = commands::Command<Vec<u8>>;

// Bytes that are written one part after another.
#[derive(Drop)]
pub struct Speller {
    text: Vec<u8>,
}

impl Speller {
    // Nothing written yet.
    pub fn new(heap: Global) -> Speller {
        Speller {
            text: Vec::new(heap),
        }
    }

    // One byte.
    pub fn byte(&mut self, byte: u8) -> Result<(), AllocError> {
        self.text.push(byte)?;
        Ok(())
    }

    // Eight bytes, the highest first.
    pub fn number(&mut self, n: u64) -> Result<(), AllocError> {
        self.text.extend_from_slice(&n.to_be_bytes())
    }

    // Bytes as they stand.
    pub fn bytes(&mut self, bytes: &[u8]) -> Result<(), AllocError> {
        self.text.extend_from_slice(bytes)
    }

    // Bytes with their count before them.
    pub fn counted(&mut self, bytes: &[u8]) -> Result<(), AllocError> {
        self.number(bytes.len() as u64)?;
        self.bytes(bytes)
    }

    // A number, and bytes with their count.
    fn numbered(&mut self, number: u64, bytes: &[u8]) -> Result<(), AllocError> {
        self.number(number)?;
        self.counted(bytes)
    }

    // What was written.
    pub fn finish(self) -> Vec<u8> {
        let Speller { text } = self;
        text
    }

    // What stands after the kind.
    fn arguments(&mut self, command: &Command) -> Result<(), AllocError> {
        match command {
            Command::Join { name } => self.counted(name.as_slice()),
            Command::HandIn {
                house,
                person,
                letter,
            } => {
                self.number(*house)?;
                self.numbered(*person, letter.as_slice())
            }
            Command::Boxes { person } => self.number(*person),
            Command::NewBox { person, name } => self.numbered(*person, name.as_slice()),
            Command::DropBox { person, name } => self.numbered(*person, name.as_slice()),
            Command::List {
                person,
                mailbox,
                from,
                count,
            } => {
                self.numbered(*person, mailbox.as_slice())?;
                self.numbers(&[*from, *count])
            }
            Command::Get {
                person,
                mailbox,
                number,
                from,
                count,
            } => {
                self.numbered(*person, mailbox.as_slice())?;
                self.numbers(&[*number, *from, *count])
            }
            Command::SetMark {
                person,
                mailbox,
                number,
                mark,
                on,
            } => {
                self.numbered(*person, mailbox.as_slice())?;
                self.number(*number)?;
                self.bytes(&[*mark, u8::from(*on)])
            }
            Command::ToBox {
                person,
                mailbox,
                number,
                other,
            } => {
                self.numbered(*person, mailbox.as_slice())?;
                self.numbered(*number, other.as_slice())
            }
            Command::Clear { person, mailbox } => self.numbered(*person, mailbox.as_slice()),
            Command::Rules { person, rules } => {
                self.number(*person)?;
                self.bytes(rules.as_slice())
            }
            Command::Find {
                person,
                mailbox,
                test,
            } => {
                self.numbered(*person, mailbox.as_slice())?;
                self.bytes(test.as_slice())
            }
            Command::Push { house } => self.number(*house),
        }
    }

    // Numbers, one after another.
    fn numbers(&mut self, all: &[u64]) -> Result<(), AllocError> {
        all.iter().try_for_each(|n| self.number(*n))
    }
}

// The text that spells a command.
pub fn spelled(heap: Global, command: &Command) -> Result<Vec<u8>, AllocError> {
    let mut speller = Speller::new(heap);
    speller.byte(command.kind() as u8)?;
    speller.arguments(command)?;
    Ok(speller.finish())
}
