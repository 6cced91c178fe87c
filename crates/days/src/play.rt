// Plays a day on the real house and beside it on a plain one, and finds where they differ.
ghost use Rattle.std.specs.Prelude.{◌≡◌, OnOk};
ghost use Rattle.days.specs.Played.{Played, Both, IsAt, more_by, counted};
ghost use Rattle.days.specs.declared.play.DayError.TheVariants.{NoMemory};

use super::device::Device;
use super::hex::Hex;
use super::machine::{Fault, Machine, Ran};
use super::make::{Day, Item, Saying, Stop};
use super::plain::{Due, End, PlainHouse, Refusal, Rows, Turn};
use house::Identity;
use std::alloc::{AllocError, Global};
use std::ops::AddAssign;
use std::{array, fmt};
use thiserror::Error;

// A house keeps at least so many bytes for each of its pages before it may say that there is no room: a bound of its own, as the plain house's.
const ROOM_OF_PAGE: u64 = 128;

// The refusals that are counted one by one have numbers below this.
const REFUSALS: usize = 10;

// Where the real house is not as the plain one.
#[derive(Debug, Drop, Error)]
pub enum Difference {
    #[error(transparent)]
    Fault(Fault),
    #[error("a power-up showed something, or did not end well: {0}")]
    PowerUp(End),
    #[error("the end is '{got}' and should be '{expected}'")]
    Ended { expected: End, got: End },
    #[error("the house shows{}\n  and should show{}", ShownRows(.got), ShownRows(.expected))]
    Showed { expected: Rows, got: Rows },
    // There was room, and the house said that there was none.
    #[error("the house has no room for {weight} bytes, which fit")]
    Room { weight: u64 },
    // After a command that was cut off the house is neither as before it nor as after it.
    #[error("after the stop the house is neither as before the command nor as after it")]
    Neither,
    // After a stop something is not as it was.
    #[error("after the stop something is not as it was")]
    Lost,
}

// Rows as they are printed: each on a line of its own.
#[derive(Clone, Copy)]
struct ShownRows<'a>(&'a Rows);

impl<'a> fmt::Display for ShownRows<'a> {
    fn fmt<W: fmt::Write>(&self, f: &mut fmt::Formatter<W>) -> fmt::Result {
        for row in self.0 {
            write!(f, "\n    {}", Hex(row.as_slice()))?;
        }
        Ok(())
    }
}

// What ends a day before its time.
#[derive(Debug, Drop, Error)]
pub enum Trouble {
    #[error(transparent)]
    NoMemory(#[from(alloc)] AllocError),
    #[error(transparent)]
    Differs(#[from] Difference),
}

// That there is no memory is no difference.
impl From<Fault> for Trouble {
    fn from(fault: Fault) -> Trouble {
        match fault {
            Fault::NoMemory(e) => Trouble::NoMemory(e),
            _ => Trouble::Differs(Difference::Fault(fault)),
        }
    }
}

// Why a day did not come to its end: there was no memory, or an item of it came out otherwise.
#[derive(Drop)]
pub enum DayError {
    NoMemory,
    Differs { item: usize, difference: Difference },
}

// By hand: a contract needs to know what it makes, and a derived From says nothing.
impl From<AllocError> for DayError {
    ghost from_gives = { λ _ e. e ≡ NoMemory };

    fn from(_e: AllocError) -> DayError {
        DayError::NoMemory
    }
}

impl Trouble {
    // Trouble at this item of a day.
    fn at(self, item: usize) -> DayError
        ensures { IsAt item result }
    {
        match self {
            Trouble::NoMemory(_) => DayError::NoMemory,
            Trouble::Differs(difference) => DayError::Differs { item, difference },
        }
    }
}

// How the commands of a day ended.
#[derive(Default, Drop)]
pub struct Ends {
    pub commands: u64,
    pub done: u64,
    // By the number that the house told.
    pub refused: [u64; REFUSALS],
}

// How often power was lost, at rest or in a command, and how many power-ups were cut off.
#[derive(Default, Drop)]
pub struct Losses {
    pub stops: u64,
    pub cut_powers: u64,
}

// What happened in a day.
#[derive(Default, Drop)]
pub struct Tally {
    pub ends: Ends,
    pub losses: Losses,
}

impl Ends {
    // One command more, that ended so.
    fn count(&mut self, end: End)
        ensures { self.new.commands ≡ more_by self.old.commands 1 }
    {
        self.commands = self.commands.saturating_add(1);
        match end {
            End::Done => self.done = self.done.saturating_add(1),
            End::Refused(number) => {
                if let Some(count) = self.refused.get_mut(number as usize) {
                    *count = count.saturating_add(1);
                }
            }
            End::Cut => {}
        }
    }
}

impl Losses {
    // Power was lost once more.
    pub(super) fn stop(&mut self) {
        self.stops = self.stops.saturating_add(1);
    }

    // One power-up more was cut off.
    pub(super) fn cut_power(&mut self) {
        self.cut_powers = self.cut_powers.saturating_add(1);
    }
}

// What happened in both.
impl<'a> AddAssign<&'a Tally> for Tally {
    ghost add_assign_gives = { λ t u v. Both t u.now v };

    fn add_assign(&mut self, other: &'a Tally) {
        let ends = &mut self.ends;
        ends.commands = ends.commands.saturating_add(other.ends.commands);
        ends.done = ends.done.saturating_add(other.ends.done);
        // By number, since what `iter_mut` writes inside a `zip` is lost to a proof.
        let counts = ends.refused;
        ends.refused = array::from_fn(|k| counts[k].saturating_add(other.ends.refused[k]));
        let losses = &mut self.losses;
        losses.stops = losses.stops.saturating_add(other.losses.stops);
        losses.cut_powers = losses.cut_powers.saturating_add(other.losses.cut_powers);
    }
}

impl fmt::Display for Tally {
    fn fmt<W: fmt::Write>(&self, f: &mut fmt::Formatter<W>) -> fmt::Result {
        let Ends {
            commands,
            done,
            refused,
        } = &self.ends;
        let Losses { stops, cut_powers } = &self.losses;
        write!(f, "{commands} commands, {done} done, refused")?;
        for (number, count) in refused.iter().enumerate().filter(|(_, count)| **count > 0) {
            write!(f, " {number}:{count}")?;
        }
        write!(f, ", {stops} stops, {cut_powers} power-ups cut off")
    }
}

// What the house may be after a stop.
#[derive(Drop)]
pub struct Allowed {
    pub before: Option<PlainHouse>,
    pub after: PlainHouse,
}

// As which house stopped pages came up.
#[derive(Clone, Copy)]
pub enum Found {
    Before,
    After,
}

// The real house and the plain one, side by side. `spare` is a second memory, in which it is looked up what a stop has left.
#[derive(Drop)]
pub struct Pair {
    pub heap: Global,
    pub identity: Identity,
    pub device: Device,
    pub machine: Machine,
    pub spare: Machine,
    pub plain: PlainHouse,
    pub losses: Losses,
}

// A power-up shows nothing, and ends with done, or is cut off.
pub fn powered(ran: &Ran) -> Result<(), Difference> {
    match ran.turn.end {
        End::Done | End::Cut if ran.turn.rows.is_empty() => Ok(()),
        end => Err(Difference::PowerUp(end)),
    }
}

// Where what a command showed, and how it ended, is not what it should be.
fn unlike(expected: Turn, got: Turn) -> Difference {
    if expected.end != got.end {
        return Difference::Ended {
            expected: expected.end,
            got: got.end,
        };
    }
    Difference::Showed {
        expected: expected.rows,
        got: got.rows,
    }
}

impl Pair {
    // Both without power, on empty pages.
    pub fn new(heap: Global, identity: Identity) -> Result<Pair, AllocError> {
        let pages = usize::try_from(identity.pages).map_err(|_| AllocError)?;
        Ok(Pair {
            heap,
            identity,
            device: Device::new(heap, pages)?,
            machine: Machine::new(heap)?,
            spare: Machine::new(heap)?,
            plain: PlainHouse::new(heap, identity.houses)?,
            losses: Losses::default(),
        })
    }

    // Whether the house may say that it has no room for what the plain house would be afterwards.
    pub fn no_room(&self, after: &PlainHouse) -> bool {
        let weight = after.weight();
        weight > self.plain.weight() && weight > self.identity.pages.saturating_mul(ROOM_OF_PAGE)
    }

    // A command came to its end: it must show and end as is due, or say that there is no room where there is none.
    // Answers the plain house from now on.
    pub fn judged(&self, due: Due, got: Turn) -> Result<PlainHouse, Trouble> {
        let Due {
            turn: expected,
            after,
        } = due;
        if got == expected {
            return Ok(after);
        }
        if got.end == Refusal::NoRoom.into() && expected.end == End::Done && got.rows.is_empty() {
            if self.no_room(&after) {
                return Ok(self.plain.clone()?);
            }
            let weight = after.weight();
            return Err(Trouble::Differs(Difference::Room { weight }));
        }
        Err(Trouble::Differs(unlike(expected, got)))
    }

    // Power comes, and stays.
    pub fn power(&mut self) -> Result<(), Trouble> {
        let ran = self.machine.power_whole(self.identity, &mut self.device)?;
        Ok(powered(&ran)?)
    }

    // Looks at a copy of stopped pages, by a house that gets power in the spare memory: is it as this plain house?
    pub fn look(&mut self, stopped: &Device, plain: &PlainHouse) -> Result<bool, Trouble> {
        let mut pages = stopped.clone()?;
        let ran = self.spare.power_whole(self.identity, &mut pages)?;
        powered(&ran)?;
        Ok(self.spare.is_as(&mut pages, plain)?)
    }

    // What the house may be once power was lost, where a command has shown this and ended so: as before or as after if it was cut off, and
    // otherwise as the command has left it.
    pub fn allowed(&self, due: Due, got: Turn) -> Result<Allowed, Trouble> {
        if got.end != End::Cut {
            return Ok(Allowed {
                before: None,
                after: self.judged(due, got)?,
            });
        }
        let Due {
            turn: Turn { rows: expected, .. },
            after,
        } = due;
        if !expected.as_slice().starts_with(got.rows.as_slice()) {
            return Err(Trouble::Differs(Difference::Showed {
                expected,
                got: got.rows,
            }));
        }
        Ok(Allowed {
            before: Some(self.plain.clone()?),
            after,
        })
    }

    // Stopped pages come up as one of the houses that are allowed: says which.
    // The pages are others each time while what is allowed stays, so a struct of both would be made anew at each call.
    pub fn comes_up(&mut self, pages: &Device, allowed: &Allowed) -> Result<Found, Trouble> {
        if let Some(before) = &allowed.before
            && self.look(pages, before)?
        {
            return Ok(Found::Before);
        }
        if self.look(pages, &allowed.after)? {
            return Ok(Found::After);
        }
        Err(Trouble::Differs(match allowed.before {
            Some(_) => Difference::Neither,
            None => Difference::Lost,
        }))
    }

    // A power-up that is cut off changes nothing.
    fn power_stops(&mut self, stop: &Stop) -> Result<(), Trouble> {
        let ran = self
            .machine
            .power(self.identity, &mut self.device, stop.limit())?;
        powered(&ran)?;
        self.losses.cut_power();
        self.device.stop(stop.leaves.as_slice());
        let pages = self.device.clone()?;
        let allowed = Allowed {
            before: None,
            after: self.plain.clone()?,
        };
        self.comes_up(&pages, &allowed)?;
        Ok(())
    }

    // A command to its end. Says how it ended, as each of those below.
    pub fn whole(&mut self, saying: &Saying) -> Result<End, Trouble> {
        let due = self.plain.due(saying.command.as_ref())?;
        let Ran { turn, .. } = self
            .machine
            .say_whole(saying.text.as_slice(), &mut self.device)?;
        let end = turn.end;
        self.plain = self.judged(due, turn)?;
        Ok(end)
    }

    // A command that is cut off.
    fn stops(&mut self, saying: &Saying, stop: &Stop) -> Result<End, Trouble> {
        let due = self.plain.due(saying.command.as_ref())?;
        let Ran { turn, .. } = self
            .machine
            .say(saying.text.as_slice(), &mut self.device, stop.limit())?;
        let end = turn.end;
        self.losses.stop();
        self.device.stop(stop.leaves.as_slice());
        let allowed = self.allowed(due, turn)?;
        let pages = self.device.clone()?;
        match self.comes_up(&pages, &allowed)? {
            Found::Before => {}
            Found::After => self.plain = allowed.after,
        }
        Ok(end)
    }

    // The manner is a word of the command line, and with the stop it picks the step: functions handed in would be picked the same way.
    fn power_item(&mut self, stop: Option<&Stop>, manner: Manner) -> Result<(), Trouble> {
        match (manner, stop) {
            (Manner::AsMade, None) => self.power(),
            (Manner::AsMade, Some(stop)) => self.power_stops(stop),
            (Manner::EveryAct, None) => self.power_at_rest(),
            (Manner::EveryAct, Some(_)) => Ok(()),
        }
    }

    // Something is said, and the manner and the stop pick the step, as above.
    fn said(
        &mut self,
        saying: &Saying,
        stop: Option<&Stop>,
        manner: Manner,
    ) -> Result<End, Trouble> {
        match (manner, stop) {
            (Manner::AsMade, None) => self.whole(saying),
            (Manner::AsMade, Some(stop)) => self.stops(saying, stop),
            (Manner::EveryAct, _) => self.every_cut(saying),
        }
    }
}

// How a day is played: as it was made, or with a stop at every act of its commands in place of those that it was made with.
#[derive(Clone, Copy, PartialEq, Eq)]
pub enum Manner {
    AsMade,
    EveryAct,
}

// A day that is being played.
#[derive(Drop)]
struct Play {
    pair: Pair,
    manner: Manner,
    ends: Ends,
}

impl Play {
    // One item of the day.
    fn item(&mut self, item: &Item) -> Result<(), Trouble>
        ensures { OnOk result (self.new.ends.commands ≡ counted item.now self.old.ends.commands) }
    {
        match item {
            Item::Power(stop) => self.pair.power_item(stop.as_ref(), self.manner),
            Item::Said(saying, stop) => {
                let end = self.pair.said(saying, stop.as_ref(), self.manner)?;
                self.ends.count(end);
                Ok(())
            }
        }
    }
}

// Plays a day to its end, or to the item where the two differ.
#[tactic(auto, using(crate::proofs::Said::said_none, crate::proofs::Said::played_more))]
pub fn play_day(heap: Global, day: &Day, manner: Manner) -> Result<Tally, DayError>
    ensures { Played day.now result }
{
    let mut play = Play {
        pair: Pair::new(heap, day.identity)?,
        manner,
        ends: Ends::default(),
    };
    for (place, item) in day.items.iter().enumerate() {
        play.item(item).map_err(|trouble| trouble.at(place))?;
    }
    Ok(Tally {
        ends: play.ends,
        losses: play.pair.losses,
    })
}
