// A stop at every act: before a command is carried out, it is tried what a stop at each of its acts would leave, for every choice of what
// comes of the waiting writes.
ghost use Rattle.std.specs.Prelude.{◌≡◌, ℕ, List, IfOk};
ghost use Rattle.model.specs.Device.{stopped as left_by};
ghost use Rattle.days.specs.Held.{device_of};

use super::device::{Device, Leaves};
use super::machine::{MOST_ACTS, Ran};
use super::make::Saying;
use super::plain::End;
use super::play::{Allowed, Pair, Trouble, powered};
use super::random::Random;
use std::alloc::AllocError;
use std::iter::successors;

// Of so many waiting writes, the last ones, all choices are tried; for those before them one is taken by chance.
const TRIED_WRITES: usize = 4;

// How many choices there are for one write.
const CHOICES: u64 = Leaves::EVERY.len() as u64;

// The choice that has this number.
fn choice(number: u64) -> Leaves {
    Leaves::EVERY[(number % CHOICES) as usize]
}

// How many ways are tried in which so many waiting writes can end.
fn ways(waiting: usize) -> u64 {
    CHOICES.saturating_pow(waiting.min(TRIED_WRITES) as u32)
}

// Cuts off after 0 acts, 1, 2 and so on, until it came to its end. A loop, since `any` can't hand on trouble.
fn until_ended<F: FnMut(u64) -> Result<bool, Trouble>>(mut cut: F) -> Result<(), Trouble>
    requires { F.IsAlwaysCallable cut }
{
    for acts in 0..MOST_ACTS {
        if cut(acts)? {
            break;
        }
    }
    Ok(())
}

impl Device {
    // What is left of each waiting write in one of the ways: of the first ones by chance, of the last ones by the way's number.
    fn way(&self, number: u64) -> Result<Vec<Leaves>, AllocError> {
        let waiting = self.waiting();
        let tried = waiting.min(TRIED_WRITES);
        let mut random = Random::new(number);
        let by_chance = (tried..waiting).map(|_| choice(random.next()));
        let in_turn = successors(Some(number), |rest| Some(rest / CHOICES))
            .take(tried)
            .map(choice);
        by_chance.chain(in_turn).collect(self.heap())
    }

    // The pages as a stop leaves them in one of the ways.
    fn stopped(&self, number: u64) -> Result<Device, AllocError>
        ensures { IfOk result (λ d. (choices : List ℕ) × (device_of d ≡ left_by (device_of self.now) choices)) }
    {
        let mut pages = self.clone()?;
        let leaves = self.way(number)?;
        pages.stop(leaves.as_slice());
        Ok(pages)
    }
}

impl Pair {
    // Stopped pages must come up as a house that is allowed; the stop is counted.
    fn must_come_up(&mut self, pages: &Device, allowed: &Allowed) -> Result<(), Trouble> {
        self.losses.stop();
        self.comes_up(pages, allowed)?;
        Ok(())
    }

    // A power-up that is cut off after so many acts changes nothing, whatever is left of what it wrote. Says whether it came to its end.
    fn power_cut(&mut self, pages: &Device, acts: u64, allowed: &Allowed) -> Result<bool, Trouble> {
        let mut trial = pages.clone()?;
        let ran = self.spare.power(self.identity, &mut trial, acts)?;
        powered(&ran)?;
        self.losses.cut_power();
        for number in 0..ways(trial.waiting()) {
            let left = trial.stopped(number)?;
            self.must_come_up(&left, allowed)?;
        }
        Ok(ran.turn.end == End::Done)
    }

    // A power-up on stopped pages, cut off at each of its acts. One that writes nothing leaves the pages as they are.
    fn every_power(&mut self, pages: &Device, allowed: &Allowed) -> Result<(), Trouble> {
        let mut trial = pages.clone()?;
        let ran = self.spare.power_whole(self.identity, &mut trial)?;
        if ran.acts.writes == 0 {
            return Ok(());
        }
        until_ended(|acts| self.power_cut(pages, acts, allowed))
    }

    // What waits when power is lost is left in every way.
    // As in `power_cut`, but each of these is tried by power-ups too: a closure would borrow the pair twice.
    fn every_way(&mut self, trial: &Device, allowed: &Allowed) -> Result<(), Trouble> {
        for number in 0..ways(trial.waiting()) {
            let left = trial.stopped(number)?;
            self.must_come_up(&left, allowed)?;
            self.every_power(&left, allowed)?;
        }
        Ok(())
    }

    // A command that is cut off after so many acts. Says whether it came to its end.
    fn cut(&mut self, saying: &Saying, acts: u64) -> Result<bool, Trouble> {
        let due = self.plain.due(saying.command.as_ref())?;
        let mut trial = self.device.clone()?;
        self.spare.take_memory(&self.machine);
        let Ran { turn, .. } = self.spare.say(saying.text.as_slice(), &mut trial, acts)?;
        let ended = turn.end != End::Cut;
        let allowed = self.allowed(due, turn)?;
        self.every_way(&trial, &allowed)?;
        Ok(ended)
    }

    // A command to its end, after a stop at each of its acts was tried.
    pub fn every_cut(&mut self, saying: &Saying) -> Result<End, Trouble> {
        until_ended(|acts| self.cut(saying, acts))?;
        self.whole(saying)
    }

    // Power, after a stop at rest.
    pub fn power_at_rest(&mut self) -> Result<(), Trouble> {
        self.device.stop(&[]);
        self.power()
    }
}
