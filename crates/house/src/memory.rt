// Which numbers of the memory hold what, and whether they make sense together.
ghost use Rattle.std.specs.Prelude.{◌≡◌, ◌+◌, ◌*◌, ◌<◌, ◌≤◌, is_some, IfSome};
ghost use Rattle.pages.specs.Words.{part};
ghost use Rattle.pages.specs.Geometry.{selector_pages, directory_pages, table_place};
ghost use Rattle.house.specs.Memory.{pages_count, coming_of, sensible};
ghost use Rattle.house.specs.Does.{Ready};

use mailboxes::MOST_PEOPLE;
use pages::places::{AREAS, BOXES_PLACE, Geometry, RECORD_WORDS};
use pages::{PAGE_LEN, PAGE_WORDS};
use std::ops::Range;

// How many numbers a house's memory has.
pub const MEMORY_LEN: usize = 262_144;

pub type Memory = [u64; MEMORY_LEN];

pub type Page = [u8; PAGE_LEN];

// Registers, since a host lends the memory as one row of numbers: the phase takes the first three.
pub const HOUSE: usize = 3;

pub const HOUSES: usize = 4;

pub const PAGES: usize = 5;

// The memory is numbers only, so what is shown after a commit is 0 for nothing, or one more than the number.
pub const TO_SHOW: usize = 6;

// The header as it will be written: its version, area, counts and weight.
pub const HEADER: usize = 64;

pub const HEADER_WORDS: usize = 32;

pub const VERSION: usize = 64;

pub const AREA: usize = 65;

pub const PEOPLE: usize = 66;

pub const BOXES: usize = 67;

pub const WEIGHT: usize = 70;

// The selector words that count, those that are to count, and the directory.
pub const COUNTING: usize = 96;

pub const COMING: usize = 1184;

pub const DIRECTORY: usize = 2272;

// There are at most so many houses.
pub const MOST_HOUSES: u64 = 16;

// How many selector words there are.
pub fn selector_words(geometry: &Geometry) -> usize
    ensures is { result ≡ 64 * selector_pages geometry.now.pages }
    ensures most { result ≤ 1088 }
{
    PAGE_WORDS * geometry.selector_pages() as usize
}

// How many words the directory has.
pub fn directory_words(geometry: &Geometry) -> usize
    ensures is { result ≡ 64 * directory_pages geometry.now.pages }
    ensures some { 896 ≤ result }
    ensures most { result ≤ 197504 }
{
    PAGE_WORDS * geometry.directory_pages() as usize
}

// Which words of the memory are the directory.
pub fn directory_range(geometry: &Geometry) -> Range<usize>
    ensures start { result.start ≡ 2272 }
    ensures end { result.end ≡ 2272 + 64 * directory_pages geometry.now.pages }
    ensures some { 3168 ≤ result.end }
    ensures most { result.end ≤ 199776 }
{
    DIRECTORY..DIRECTORY + directory_words(geometry)
}

// The selector words from a place on: those that count, or those that are to count.
pub fn selectors_at<'a>(memory: &'a Memory, geometry: &Geometry, place: usize) -> &'a [u64]
    requires { place + 1088 ≤ 262144 }
    ensures { result.now ≡ part memory.now place (64 * selector_pages geometry.now.pages) }
{
    &memory[place..place + selector_words(geometry)]
}

// Where the twin of a page of the directory lies that is to count. A page's number has a clause here and where it is written and read: a type for it
// would have to lend the geometry.
pub fn coming_place(memory: &Memory, geometry: &Geometry, t: u64) -> u64
    requires { t < directory_pages geometry.now.pages }
    ensures { result ≡ table_place geometry.now.pages (coming_of geometry.now.pages memory.now) t }
{
    geometry
        .table_place(selectors_at(memory, geometry, COMING), t)
        .unwrap()
}

// The geometry of a memory that a step can work on: its counts have room in its regions.
// What makes sense of a memory stands in the contracts: a memory that is written through can't carry it in its type.
pub fn sensible(memory: &Memory) -> Option<Geometry>
    ensures known { is_some result ≡ sensible memory.now }
    ensures ready { IfSome result (λ g. (g.pages ≡ pages_count memory.now) × Ready g.pages memory.now) }
{
    let geometry = Geometry::of(memory[PAGES])?;
    let (houses, area, people, boxes) = (
        memory[HOUSES],
        memory[AREA],
        memory[PEOPLE],
        memory[BOXES],
    );
    if houses > MOST_HOUSES || area >= AREAS || people > MOST_PEOPLE {
        return None;
    }
    if boxes > (directory_words(&geometry) as u64 - BOXES_PLACE) / RECORD_WORDS {
        return None;
    }
    Some(geometry)
}
