// The kinds of commands, and the byte and the words of each.
ghost use Rattle.std.specs.Prelude.{◌++◌, Some, codes, decimal};
ghost use Rattle.commands.specs.Kind.{Decodes, word_of};

use std::error::Error;
use std::fmt;

// A kind of command, with the byte that each command of that kind begins with.
#[derive(Clone, Copy, PartialEq, Eq, Debug)]
pub enum Kind {
    Join = 1,
    HandIn = 2,
    Boxes = 3,
    NewBox = 4,
    DropBox = 5,
    List = 6,
    Get = 7,
    SetMark = 8,
    ToBox = 9,
    Clear = 10,
    Rules = 11,
    Find = 12,
    Push = 13,
}

// A byte that stands for no kind.
#[derive(Clone, Copy, PartialEq, Eq, Debug)]
pub struct UnknownKind(pub u8);

// The number stands twice: an enum is made from a number by a match alone.
impl TryFrom<u8> for Kind {
    type Error = UnknownKind;

    ghost try_from_gives = { Decodes };

    fn try_from(byte: u8) -> Result<Kind, UnknownKind> {
        match byte {
            1 => Ok(Kind::Join),
            2 => Ok(Kind::HandIn),
            3 => Ok(Kind::Boxes),
            4 => Ok(Kind::NewBox),
            5 => Ok(Kind::DropBox),
            6 => Ok(Kind::List),
            7 => Ok(Kind::Get),
            8 => Ok(Kind::SetMark),
            9 => Ok(Kind::ToBox),
            10 => Ok(Kind::Clear),
            11 => Ok(Kind::Rules),
            12 => Ok(Kind::Find),
            13 => Ok(Kind::Push),
            _ => Err(UnknownKind(byte)),
        }
    }
}

impl fmt::Display for Kind {
    ghost output = { λ kind. Some (word_of kind) };

    fn fmt<W: fmt::Write>(&self, f: &mut fmt::Formatter<W>) -> fmt::Result {
        f.write_str(match self {
            Kind::Join => "join",
            Kind::HandIn => "hand in",
            Kind::Boxes => "boxes",
            Kind::NewBox => "new box",
            Kind::DropBox => "drop box",
            Kind::List => "list",
            Kind::Get => "get",
            Kind::SetMark => "mark",
            Kind::ToBox => "to box",
            Kind::Clear => "clear",
            Kind::Rules => "rules",
            Kind::Find => "find",
            Kind::Push => "push",
        })
    }
}

// By hand, since of a text that is derived nothing is promised.
impl fmt::Display for UnknownKind {
    ghost output = { λ e. Some (codes "no kind has the byte " ++ decimal e.0) };

    fn fmt<W: fmt::Write>(&self, f: &mut fmt::Formatter<W>) -> fmt::Result {
        write!(f, "no kind has the byte {}", self.0)
    }
}

impl Error for UnknownKind {}
