// The house as a machine: one step takes a memory and an event to the memory afterwards and one act. The step is the definition `own`, for
// every memory and every event, and of that definition the promise of the whole post is proved. It knows no files, no clock and no chance.
#![tactic(auto)]

mod commit;
mod event;
mod export;
pub mod kind;
mod memory;
mod people;
mod phase;
mod power;
mod refusal;
#[cfg(test)]
mod tests;

ghost use Rattle.std.specs.Prelude.{◌≡◌, length};
ghost use Rattle.model.specs.Promise.{Whole};
ghost use Rattle.model.specs.Run.{said as said_event, page as page_event, next as next_event};
ghost use Rattle.commands.specs.Reader.{command_of};
ghost use Rattle.house.specs.Entry.{StepSays, step_fits};
ghost use Rattle.house.specs.Knows.{known};
ghost use Rattle.house.specs.Machine.{obeys, own, stepped};
ghost use Rattle.house.specs.Told.{Responds, TellSays, tell_fits, event_meant};
ghost use Rattle.house.specs.Does.{Ready, Does, Quietly, told_result};

use commands::Command;
pub use event::{Event, Identity};
pub use memory::{MEMORY_LEN, MOST_HOUSES};
use memory::{Memory, Page, sensible};
pub use pages::PAGE_LEN;
use pages::places::Geometry;
use people::Name;
// Public, since the definition of a step names it.
pub use phase::Phase;
pub use refusal::Refusal;

// How many bytes the lent row for pages, rows and radio letters has at least.
pub const OUT_LEN: usize = 131_072;

type Row = [u8; OUT_LEN];

// The act that a step asks for; the bytes that go with it stand at the beginning of the lent row.
// Its numbers are agreed on with hosts as they stand: of a refusal the number, and `No(0)` where what was told does not fit.
#[derive(Clone, Copy, PartialEq, Eq, Debug)]
pub enum Told {
    Read(u64),
    Write(u64),
    Flush,
    // A row of so many bytes.
    Shows(u64),
    // 4,097 times the house and so many bytes.
    Send(u64),
    Done,
    No(u64),
}

// A command, at rest. A struct that lends memory, geometry and row would need a clause in each contract that it still lends the same ones.
fn obey(
    memory: &mut Memory,
    geometry: &Geometry,
    text: &[u8],
    out: &mut Row,
) -> Result<Told, Refusal>
    requires { Ready geometry.now.pages memory.old }
    ensures { Does (obeys geometry.now.pages (command_of text.now) memory.old) (told_result result) out.old memory.new out.new }
{
    match commands::read(text).ok_or(Refusal::NoCommand)? {
        Command::Join { name } => people::join(memory, geometry, Name { bytes: name }, out),
        Command::Boxes { person } => people::boxes(memory, geometry, person, out),
        Command::NewBox { person, name } => {
            people::new_box(memory, geometry, person, Name { bytes: name }, out)
        }
        _ => Err(Refusal::Unknown),
    }
}

// A command is heard at rest only.
fn told_command(memory: &mut Memory, text: &[u8], out: &mut Row) -> Result<Told, Refusal>
    ensures { Does (stepped memory.old (said_event text.now)) (told_result result) out.old memory.new out.new }
{
    let geometry = sensible(memory).ok_or(Refusal::NoCommand)?;
    let Phase::Idle = Phase::load(memory) else {
        return Err(Refusal::NoCommand);
    };
    obey(memory, &geometry, text, out)
}

// A page that was asked for, in a phase that asked for one.
fn told_page(memory: &mut Memory, page: &[u8]) -> Result<Told, Refusal>
    ensures { Quietly (stepped memory.old (page_event page.now)) (told_result result) memory.new }
{
    let geometry = sensible(memory).ok_or(Refusal::NoCommand)?;
    let page: &Page = page.as_array().ok_or(Refusal::NoCommand)?;
    match Phase::load(memory) {
        Phase::ReadHeader => power::header_read(memory, &geometry, page),
        Phase::ReadSelectors(q) => power::selectors_read(memory, &geometry, q, page),
        Phase::ReadDirectory(t) => power::directory_read(memory, &geometry, t, page),
        _ => Err(Refusal::NoCommand),
    }
}

// The last act is done. The phase lies in the memory as numbers, so no function for the next step can be kept there.
fn told_next(memory: &mut Memory, out: &mut Row) -> Result<Told, Refusal>
    ensures { Does (stepped memory.old next_event) (told_result result) out.old memory.new out.new }
{
    let geometry = sensible(memory).ok_or(Refusal::NoCommand)?;
    match Phase::load(memory) {
        Phase::ShowBoxes(person, from) => {
            Ok(people::show_box(memory, &geometry, person, from, out))
        }
        Phase::WriteTable(from) => Ok(commit::commit(memory, &geometry, from, out)),
        Phase::WriteSelectors(q) => Ok(commit::selectors_next(memory, &geometry, q, out)),
        Phase::WriteHeader => Ok(commit::write_header(memory, out)),
        Phase::FlushHeader => {
            Phase::Committed.store(memory);
            Ok(Told::Flush)
        }
        Phase::Committed => Ok(commit::committed(memory, &geometry, out)),
        Phase::Shown => {
            Phase::Idle.store(memory);
            Ok(Told::Done)
        }
        _ => Err(Refusal::NoCommand),
    }
}

// What the house does with an event. What is told out of turn is refused and changes nothing.
fn respond(memory: &mut Memory, event: Event<'_>, out: &mut Row) -> Result<Told, Refusal>
    ensures says { Responds memory.old (event_meant event.entry) (told_result result) out.old memory.new out.new }
    ensures long { length out.new ≡ 131072 }
{
    match event {
        Event::Power(identity) => power::begin(memory, identity),
        Event::Said(text) => told_command(memory, text, out),
        Event::Page(page) => told_page(memory, page),
        Event::Next => told_next(memory, out),
        Event::Heard(_) | Event::Lost => Err(Refusal::NoCommand),
    }
}

// One step of the house. A memory of another length and a row that is too short are answered with number 0, and then nothing changes.
pub fn tell(memory: &mut [u64], event: Event<'_>, out: &mut [u8]) -> Told
    ensures says { TellSays memory.old (event_meant event.entry) out.old (tell_fits memory.old out.old) result memory.new out.new }
    ensures whole { Whole known own }
{
    let Some(memory) = memory.as_mut_array() else {
        return Told::No(0);
    };
    let Some(row) = out.first_chunk_mut() else {
        return Told::No(0);
    };
    respond(memory, event, row).unwrap_or_else(Told::from)
}

// The same for an event that a kind and some bytes tell. A kind that there isn't is answered with number 0 too.
pub fn step(memory: &mut [u64], kind: u64, bytes: &[u8], out: &mut [u8]) -> Told
    ensures says { StepSays memory.old kind bytes.now out.old (step_fits memory.old kind bytes.now out.old) result memory.new out.new }
    ensures whole { Whole known own }
{
    match Event::of(kind, bytes) {
        Some(event) => tell(memory, event, out),
        None => Told::No(0),
    }
}
