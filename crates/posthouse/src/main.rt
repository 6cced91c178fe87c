// A house on a file of pages: commands come on standard input, one to a line in hexadecimal, and what the house shows goes to standard
// output, each row on a line, then "done" or "refused" with a number.
#![tactic(auto)]

mod options;
mod session;

use host::{Disk, Fault, Machine, World};
use options::{Options, UsageError, Wish};
use pagefile::{OpenError, PageFile};
use session::{Printed, Session};
use std::process::ExitCode;
use std::{env, fs, io};
use thiserror::Error;

const HELP: &str = "posthouse: a post house on a file of pages

usage: posthouse FILE HOUSE HOUSES [PAGES]
       posthouse --help

  FILE    the file of pages; it is made if it isn't there
  HOUSE   the number of this house, from 0
  HOUSES  how many houses there are, 1 to 16
  PAGES   how many pages of 512 bytes a new file gets, 256 to 1048576 (65536 unless said)

Commands are read from standard input, one to a line, spelled in hexadecimal. Rows that a command
shows are printed in hexadecimal, each on a line, then 'done' or 'refused N':
  1 no command   2 not known yet   3 not there   4 the name is taken   5 no such house
  6 not allowed  7 too many        8 no room     9 no line";

// Opens the file of pages, or makes it.
fn open(rt: &HostRuntime, options: &Options) -> Result<PageFile, OpenError> {
    let path = options.path.as_str();
    if fs::exists(rt, path)? {
        PageFile::open(rt, path)
    } else {
        PageFile::create(rt, path, options.new_pages())
    }
}

// What stops the program.
#[derive(Debug, Drop, Error)]
enum Trouble {
    #[error(transparent)]
    Usage(#[from] UsageError),
    #[error("can't open '{path}': {error}")]
    Open { path: String, error: OpenError },
    #[error("'{path}' has {has} pages, not {pages}: leave the number out, or name another file")]
    OtherPages { path: String, has: u64, pages: u64 },
    #[error("the house stopped: {0}; what was answered with 'done' is kept, so start it again")]
    Stopped(#[from] Fault),
    // Reading, writing or memory that failed before the house had power: it shows in the status alone.
    #[error(transparent)]
    Unsaid(#[from] io::Error),
}

// One sitting, from power to the last line.
fn keep_house(rt: &HostRuntime, options: Options) -> Result<(), Trouble> {
    // A match, since a closure would take the path, which is needed further on.
    let disk = match open(rt, &options) {
        Ok(disk) => disk,
        Err(error) => {
            return Err(Trouble::Open {
                path: options.path,
                error,
            });
        }
    };
    let has = disk.pages();
    if let Some(pages) = options.pages
        && pages != has
    {
        return Err(Trouble::OtherPages {
            path: options.path,
            has,
            pages,
        });
    }
    let machine = Machine::new(rt.alloc()).map_err(io::Error::from)?;
    let rows = Printed { rt };
    let mut session = Session {
        rt,
        machine,
        world: World { disk, rows },
    };
    session.run(options.house, options.houses)?;
    Ok(())
}

// Does what the command line asks for.
fn start(rt: &HostRuntime) -> Result<(), Trouble> {
    match options::read(env::args(rt)?)? {
        Wish::Help => rt.println(HELP)?,
        Wish::House(options) => keep_house(rt, options)?,
    }
    Ok(())
}

// Says what stops the program; where that fails too, it shows in the status alone.
fn main(rt: HostRuntime) -> ExitCode {
    match start(&rt) {
        Ok(()) => return ExitCode::SUCCESS,
        Err(Trouble::Unsaid(_)) => {}
        Err(trouble) => {
            let _ = eprintln!(rt; "posthouse: {trouble}");
        }
    }
    ExitCode::FAILURE
}
