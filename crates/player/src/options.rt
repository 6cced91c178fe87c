// What is asked for on the command line.
use days::Manner;
use pages::places::Geometry;
use std::env::Args;
use thiserror::Error;

// Which days are played, and how.
#[derive(Clone, Copy)]
pub struct Options {
    pub manner: Manner,
    pub first: u64,
    pub days: u64,
    pub length: u64,
    pub pages: Option<u64>,
}

impl Options {
    // The word that asks for the manner of playing. Here and not a Display of days, which does not know how it is asked for.
    pub fn mode(&self) -> &'static str {
        match self.manner {
            Manner::AsMade => "days",
            Manner::EveryAct => "every-act",
        }
    }
}

// What the program is to do.
#[derive(Clone, Copy)]
pub enum Wish {
    Help,
    Play(Options),
    Bench,
}

// What is wrong with the words.
#[derive(Debug, Drop, Error)]
pub enum UsageError {
    #[error("'days', 'every-act' or 'bench' comes first; --help says more")]
    NoMode,
    #[error("FIRST, COUNT and LENGTH are needed, as numbers; --help says more")]
    FewWords,
    #[error("PAGES is a number from 256 to 1048576")]
    BadPages,
    #[error("there is a word too many; --help says more")]
    ManyWords,
}

// The number that a word is.
// The two programs read their words each for itself; a crate for two short functions would be longer.
fn number(word: String) -> Option<u64> {
    word.as_str().parse().ok()
}

// As many pages as a house can have, if they are said.
fn pages(word: Option<String>) -> Result<Option<u64>, UsageError> {
    let Some(word) = word else {
        return Ok(None);
    };
    number(word)
        .filter(|n| Geometry::of(*n).is_some())
        .map(Some)
        .ok_or(UsageError::BadPages)
}

// The words after the mode.
fn played(manner: Manner, mut words: Args) -> Result<Wish, UsageError> {
    let first = words.next().and_then(number);
    let days = words.next().and_then(number);
    let length = words.next().and_then(number);
    let asked = pages(words.next());
    if words.next().is_some() {
        return Err(UsageError::ManyWords);
    }
    let pages = asked?;
    Ok(Wish::Play(Options {
        manner,
        first: first.ok_or(UsageError::FewWords)?,
        days: days.ok_or(UsageError::FewWords)?,
        length: length.ok_or(UsageError::FewWords)?,
        pages,
    }))
}

// The words after the program's name.
pub fn read(mut words: Args) -> Result<Wish, UsageError> {
    let _program = words.next();
    let word = words.next().ok_or(UsageError::NoMode)?;
    match word.as_str() {
        "--help" | "-h" => Ok(Wish::Help),
        "days" => played(Manner::AsMade, words),
        "every-act" => played(Manner::EveryAct, words),
        "bench" => Ok(Wish::Bench),
        _ => Err(UsageError::NoMode),
    }
}
