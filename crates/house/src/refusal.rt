// Why a command is refused, and the number that is said for it.
ghost use Rattle.std.specs.Prelude.{◌≡◌};
ghost use Rattle.house.specs.declared.Told.TheVariants.{No};
ghost use Rattle.house.specs.Told.{refusal_number};

use super::Told;

// The reasons, each with its number.
#[derive(Clone, Copy, PartialEq, Eq, Debug)]
pub enum Refusal {
    // The bytes are no command, or it is told out of turn.
    NoCommand = 1,
    // The command is not known yet.
    Unknown = 2,
    // The person, or their box or letter, is not there.
    NotThere = 3,
    // Somebody has the name, or there is such a box.
    Taken = 4,
    // There are as many as there may be.
    TooMany = 7,
    // More would be kept than there is room for.
    NoRoom = 8,
}

impl From<Refusal> for u64 {
    ghost from_gives = { λ refusal number. number ≡ refusal_number refusal };

    fn from(refusal: Refusal) -> u64 {
        refusal as u64
    }
}

impl From<Refusal> for Told {
    ghost from_gives = { λ refusal told. told ≡ No (refusal_number refusal) };

    fn from(refusal: Refusal) -> Told {
        Told::No(refusal.into())
    }
}
