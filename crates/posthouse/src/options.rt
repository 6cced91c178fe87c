// What is asked for on the command line.
ghost use Rattle.std.specs.Prelude.{◌≡◌, IfOk};
ghost use Rattle.posthouse.specs.Proper.{Pages, Proper, pages_of};

use host::MOST_HOUSES;
use pagefile::{LEAST_PAGES, MOST_PAGES};
use std::env::Args;
use thiserror::Error;

// How many pages a new file has unless another number is said.
const USUAL_PAGES: u64 = 65_536;

// A house and its file of pages, and how many pages the file has or gets, if a number is said.
#[derive(Drop)]
pub struct Options {
    pub path: String,
    pub house: u64,
    pub houses: u64,
    pub pages: Option<u64>,
}

// What the words ask for.
#[derive(Drop)]
pub enum Wish {
    Help,
    House(Options),
}

// What is wrong with the words.
#[derive(Clone, Copy, Debug, PartialEq, Eq, Error)]
pub enum UsageError {
    #[error("FILE, HOUSE and HOUSES are needed; --help says more")]
    FewWords,
    #[error("there is a word too many; --help says more")]
    ManyWords,
    #[error("HOUSES is a number from 1 to 16")]
    Houses,
    #[error("HOUSE is a number from 0 to one less than HOUSES")]
    House,
    #[error("PAGES is a number from 256 to 1048576")]
    Pages,
}

impl Options {
    // How many pages a new file gets.
    pub fn new_pages(&self) -> u64
        ensures { result ≡ pages_of self.now.pages }
    {
        self.pages.unwrap_or(USUAL_PAGES)
    }
}

// The number that a word spells. The player reads numbers for itself too: a crate for two short functions would be longer.
fn number(word: &str) -> Option<u64> {
    word.parse().ok()
}

// The number of pages that a word says, where there is one.
fn pages(word: Option<String>) -> Result<Option<u64>, UsageError>
    ensures { IfOk result Pages }
{
    let Some(word) = word else {
        return Ok(None);
    };
    let pages = number(word.as_str())
        .filter(|n| (LEAST_PAGES..=MOST_PAGES).contains(n))
        .ok_or(UsageError::Pages)?;
    Ok(Some(pages))
}

// The words after the program's name. What is asked for can be had.
pub fn read(mut words: Args) -> Result<Wish, UsageError>
    ensures { IfOk result Proper }
{
    let _program = words.next();
    let path = words.next().ok_or(UsageError::FewWords)?;
    if matches!(path.as_str(), "--help" | "-h") {
        return Ok(Wish::Help);
    }
    let house = words.next().ok_or(UsageError::FewWords)?;
    let houses = words.next().ok_or(UsageError::FewWords)?;
    let asked = words.next();
    if words.next().is_some() {
        return Err(UsageError::ManyWords);
    }
    let houses = number(houses.as_str())
        .filter(|n| (1..=MOST_HOUSES).contains(n))
        .ok_or(UsageError::Houses)?;
    let house = number(house.as_str())
        .filter(|n| *n < houses)
        .ok_or(UsageError::House)?;
    let pages = pages(asked)?;
    Ok(Wish::House(Options {
        path,
        house,
        houses,
        pages,
    }))
}
