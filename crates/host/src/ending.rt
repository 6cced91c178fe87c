// How a command ends, and what can keep it from its end.
ghost use Rattle.std.specs.Prelude.{◌≡◌};
ghost use Rattle.host.specs.Goes.{answer_of};

use house::Told;
use std::alloc::AllocError;
use std::io;
use thiserror::Error;

// The house refused the command, and told this number: it may be any, so it is no enum.
#[derive(Clone, Copy, Debug, PartialEq, Eq, Error)]
#[error("refused {0}")]
pub struct Refused(pub u64);

// The answer to a command that came to its end: it was done, or refused.
pub type Answer = Result<(), Refused>;

// The answer that an act is, where a command ends with it.
pub fn answer(told: Told) -> Option<Answer>
    ensures { result ≡ answer_of told }
{
    match told {
        Told::Done => Some(Ok(())),
        Told::No(number) => Some(Err(Refused(number))),
        _ => None,
    }
}

// What keeps a command from its end.
#[derive(Debug, Drop, Error)]
pub enum Fault {
    #[error("{0}")]
    Io(#[from] io::Error),
    #[error("the house asked for page {0}, which is not there")]
    NoSuchPage(u64),
    // The house showed more bytes than the row has.
    #[error("the house showed a row of {0} bytes")]
    LongRow(u64),
    #[error("the command did not end")]
    Endless,
}

// No memory is told as what reading and writing tell of it.
impl From<AllocError> for Fault {
    fn from(e: AllocError) -> Fault {
        Fault::Io(io::Error::from(e))
    }
}
