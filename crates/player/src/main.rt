// Plays days of a house, made from numbers, with power lost at any act, and says what happened in each. Where the house is not as the
// plain house, the day is printed, and the program ends with status 1.
#![tactic(auto)]

mod bench;
mod options;

use anyhow::anyhow;
use days::{Day, DayError, Difference, Identity, Tally, make_day, play_day};
use options::{Options, Wish};
use std::alloc::AllocError;
use std::env;
use std::process::ExitCode;

const HELP: &str = "player: plays days of a post house, and says where it is not as it should be

usage: player days FIRST COUNT LENGTH [PAGES]
       player every-act FIRST COUNT LENGTH [PAGES]
       player bench
       player --help

  days       each day is made from its number: LENGTH commands, well-spelled and not, power lost after
             any number of acts, and of each waiting write nothing, all or the first half left
  every-act  a day's commands, and before each of them a stop at every one of its acts
  bench      what commands and power-ups cost, for houses of four sizes
  FIRST      the number of the first day
  COUNT      how many days
  LENGTH     how many commands a day has
  PAGES      how many pages the house has, 256 to 1048576 (the day's number chooses unless said)

A day that differs is printed with the words that play it again, and the status is 1.";

// A line of progress is written after so many days.
const PROGRESS: u64 = 100;

// Prints a day up to the item that came out otherwise.
fn tell_day(rt: &HostRuntime, day: &Day, last: usize) -> anyhow::Result<()> {
    for (place, item) in day.items.iter().enumerate().take(last.saturating_add(1)) {
        println!(rt; "  {place}: {item}")?;
    }
    Ok(())
}

// Prints where a day differs, the day so far, and the words that play it again: among the days on standard output, so the error only makes the status.
fn tell_difference(
    rt: &HostRuntime,
    options: &Options,
    number: u64,
    day: &Day,
    item: usize,
    difference: &Difference,
) -> anyhow::Result<()> {
    let Identity {
        house,
        houses,
        pages,
    } = day.identity;
    println!(rt; "day {number} differs at item {item}: {difference}")?;
    println!(rt; "the house is {house} of {houses} and has {pages} pages; the day so far:")?;
    tell_day(rt, day, item)?;
    let mode = options.mode();
    let length = options.length;
    println!(rt; "play it again by: player {mode} {number} 1 {length} {pages}")?;
    Err(anyhow!("a day differs"))
}

// Plays one day, and adds what happened to the sum.
fn one_day(
    rt: &HostRuntime,
    options: &Options,
    number: u64,
    sum: &mut Tally,
) -> anyhow::Result<()> {
    let heap = rt.alloc();
    let day = make_day(heap, number, options.length, options.pages)?;
    match play_day(heap, &day, options.manner) {
        Ok(tally) => {
            let pages = day.identity.pages;
            println!(rt; "day {number}, {pages} pages: {tally}")?;
            *sum += &tally;
            Ok(())
        }
        Err(DayError::Differs { item, difference }) => tell_difference(
            rt,
            options,
            number,
            &day,
            item,
            &difference,
        ),
        Err(DayError::NoMemory) => Err(AllocError.into()),
    }
}

// Plays the days one after another, and says what happened in all.
fn play_days(rt: &HostRuntime, options: &Options) -> anyhow::Result<()> {
    let mut sum = Tally::default();
    for passed in 0..options.days {
        one_day(rt, options, options.first.wrapping_add(passed), &mut sum)?;
        if passed % PROGRESS == PROGRESS - 1 {
            eprintln!(rt; "player: {sum}")?;
        }
    }
    println!(rt; "in all: {sum}")?;
    Ok(())
}

// Does what the command line asks for.
fn start(rt: &HostRuntime) -> anyhow::Result<()> {
    match options::read(env::args(rt)?) {
        Ok(Wish::Help) => Ok(rt.println(HELP)?),
        Ok(Wish::Play(options)) => play_days(rt, &options),
        Ok(Wish::Bench) => bench::print(rt),
        Err(wrong) => {
            eprintln!(rt; "player: {wrong}")?;
            Err(wrong.into())
        }
    }
}

// A complaint was printed where it came up, so only the status is left; reading, writing or memory that failed here shows in the status alone.
fn main(rt: HostRuntime) -> ExitCode {
    match start(&rt) {
        Ok(()) => ExitCode::SUCCESS,
        Err(_) => ExitCode::FAILURE,
    }
}
