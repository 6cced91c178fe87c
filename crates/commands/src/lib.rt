// Reads a command from lent bytes, without copying any of them. It promises that what it answers is the command that the bytes spell, and
// that it answers none just where they spell none. It knows nothing of houses, and does nothing with a command.
#![tactic(auto)]

ghost use Rattle.std.specs.Prelude.{◌≡◌};
ghost use Rattle.model.specs.Promise.{SpelledOnce};
ghost use Rattle.commands.specs.Meaning.{Answers, kind_of};
ghost use Rattle.commands.specs.Reader.{command_of};
ghost use Rattle.commands.specs.Reads.{Reads};

mod kind;
mod parts;
mod rules;
mod texts;

pub use kind::{Kind, UnknownKind};

// A command, over its bytes: lent ones, which stay where they lie in the text, or ones of its own. Rules and a test are held as the text
// spells them, and are known to be so where the command was read.
#[derive(Clone, Copy, PartialEq, Eq, Debug, Drop)]
pub enum Command<B> {
    Join {
        name: B,
    },
    HandIn {
        house: u64,
        person: u64,
        letter: B,
    },
    Boxes {
        person: u64,
    },
    NewBox {
        person: u64,
        name: B,
    },
    DropBox {
        person: u64,
        name: B,
    },
    List {
        person: u64,
        mailbox: B,
        from: u64,
        count: u64,
    },
    Get {
        person: u64,
        mailbox: B,
        number: u64,
        from: u64,
        count: u64,
    },
    SetMark {
        person: u64,
        mailbox: B,
        number: u64,
        mark: u8,
        on: bool,
    },
    ToBox {
        person: u64,
        mailbox: B,
        number: u64,
        other: B,
    },
    Clear {
        person: u64,
        mailbox: B,
    },
    Rules {
        person: u64,
        rules: B,
    },
    Find {
        person: u64,
        mailbox: B,
        test: B,
    },
    Push {
        house: u64,
    },
}

impl<B> Command<B> {
    // The kind of a command, whatever else is in it.
    pub fn kind(&self) -> Kind
        ensures { result ≡ kind_of self.now }
    {
        match self {
            Command::Join { .. } => Kind::Join,
            Command::HandIn { .. } => Kind::HandIn,
            Command::Boxes { .. } => Kind::Boxes,
            Command::NewBox { .. } => Kind::NewBox,
            Command::DropBox { .. } => Kind::DropBox,
            Command::List { .. } => Kind::List,
            Command::Get { .. } => Kind::Get,
            Command::SetMark { .. } => Kind::SetMark,
            Command::ToBox { .. } => Kind::ToBox,
            Command::Clear { .. } => Kind::Clear,
            Command::Rules { .. } => Kind::Rules,
            Command::Find { .. } => Kind::Find,
            Command::Push { .. } => Kind::Push,
        }
    }
}

// The command that a text spells, if all of it spells one: a command is read just where it is said, and no two are spelled alike.
pub fn read(text: &[u8]) -> Option<Command<&[u8]>>
    ensures answers { Answers result (command_of text.now) }
    ensures reads { Reads }
    ensures spelled_once { SpelledOnce }
{
    texts::command(text)
}

#[cfg(test)]
mod tests;
