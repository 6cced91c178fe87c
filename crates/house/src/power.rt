// Power-up: the header is read, then the selector pages of its area, then the directory. Nothing is written.
ghost use Rattle.std.specs.Prelude.{◌≡◌, ◌+◌, ◌<◌, ◌≤◌, length};
ghost use Rattle.pages.specs.Words.{words_in, patched};
ghost use Rattle.pages.specs.Geometry.{directory_pages};
ghost use Rattle.house.specs.Memory.{houses_count, area_of};
ghost use Rattle.house.specs.Machine.{powered_up, first_house_made, header_read, selectors_read, directory_read};
ghost use Rattle.house.specs.Does.{Quietly, directory_asked, told_result};

use super::commit::touch_record;
use super::memory::{
    AREA, COMING, COUNTING, DIRECTORY, HEADER, HEADER_WORDS, HOUSE, HOUSES, MOST_HOUSES, Memory,
    PAGES, Page, TO_SHOW, VERSION, coming_place, directory_range,
};
use super::people::PERSON_WEIGHT;
use super::phase::Phase;
use super::{Identity, Refusal, Told};
use pages::PAGE_WORDS;
use pages::bytes::load;
use pages::places::{BOXES_PLACE, Geometry};

// What the way to a house weighs.
const WAY_WEIGHT: u64 = 64;

// How many words of the header say anything: the version, the area, the people, the boxes, the slots and bodies in use, and the weight.
const FIRST_WORDS: usize = 7;

// The version of the header's form; 0 stands where nothing was ever committed.
const FIRST_VERSION: u64 = 1;

// Where the first records lie in the directory.
const FIRST_PERSON: u64 = 0;

const FIRST_BOX: u64 = BOXES_PLACE;

// Power is there: which house it is is kept, and the header is asked for.
pub fn begin(memory: &mut Memory, identity: Identity) -> Result<Told, Refusal>
    ensures { Quietly (powered_up identity.house identity.houses identity.pages memory.old) (told_result result) memory.new }
{
    let Identity {
        house,
        houses,
        pages,
    } = identity;
    if house >= houses || houses > MOST_HOUSES {
        return Err(Refusal::NoCommand);
    }
    if Geometry::of(pages).is_none() {
        return Err(Refusal::NoCommand);
    }
    Phase::ReadHeader.store(memory);
    memory[HOUSE] = house;
    memory[HOUSES] = houses;
    memory[PAGES] = pages;
    memory[TO_SHOW] = 0;
    Ok(Told::Read(0))
}

// Before the first commit: the postmaster with the box "in", whose pages the first commit is to write.
fn make_first_house(memory: &mut Memory, geometry: &Geometry)
    requires { houses_count memory.old ≤ 16 }
    ensures { memory.new ≡ first_house_made geometry.now.pages memory.old }
{
    let weight = PERSON_WEIGHT + WAY_WEIGHT * memory[HOUSES];
    memory[HEADER..HEADER + FIRST_WORDS].copy_from_slice(&[FIRST_VERSION, 0, 1, 1, 0, 0, weight]);
    mailboxes::first(&mut memory[directory_range(geometry)]).unwrap();
    touch_record(memory, geometry, FIRST_PERSON);
    touch_record(memory, geometry, FIRST_BOX);
}

// The header: where its version is 0 nothing was ever committed, and otherwise the selector pages of its area are asked for.
pub fn header_read(memory: &mut Memory, geometry: &Geometry, page: &Page) -> Result<Told, Refusal>
    requires { houses_count memory.old ≤ 16 }
    ensures { Quietly (header_read geometry.now.pages page.now memory.old) (told_result result) memory.new }
{
    let mut header = [0u64; HEADER_WORDS];
    load(page, &mut header).unwrap();
    if header[VERSION - HEADER] == 0 {
        make_first_house(memory, geometry);
        Phase::Idle.store(memory);
        return Ok(Told::Done);
    }
    let place = geometry
        .selector_place(header[AREA - HEADER], 0)
        .ok_or(Refusal::NoCommand)?;
    memory[HEADER..HEADER + HEADER_WORDS].copy_from_slice(&header);
    Phase::ReadSelectors(0).store(memory);
    Ok(Told::Read(place))
}

// Asks for a page of the directory.
fn read_directory(memory: &mut Memory, geometry: &Geometry, t: u64) -> Told
    requires { t < directory_pages geometry.now.pages }
    ensures { Quietly (directory_asked geometry.now.pages t memory.old) result memory.new }
{
    let place = coming_place(memory, geometry, t);
    Phase::ReadDirectory(t).store(memory);
    Told::Read(place)
}

// Reads the words of a page into the memory: a function of its own, so that the contract says it in the definition's words.
fn load_page(memory: &mut Memory, at: usize, page: &Page)
    requires { at + 64 ≤ 262144 }
    ensures { memory.new ≡ patched memory.old at (words_in 64 page.now) }
{
    load(page, &mut memory[at..at + PAGE_WORDS]).unwrap();
}

// A selector page: it counts, and is what is to count too. Then the next one is asked for, or the directory.
pub fn selectors_read(
    memory: &mut Memory,
    geometry: &Geometry,
    q: u64,
    page: &Page,
) -> Result<Told, Refusal>
    requires { area_of memory.old < 2 }
    ensures { Quietly (selectors_read geometry.now.pages q page.now memory.old) (told_result result) memory.new }
{
    if q >= geometry.selector_pages() {
        return Err(Refusal::NoCommand);
    }
    let area = memory[AREA];
    load_page(memory, COUNTING + PAGE_WORDS * q as usize, page);
    load_page(memory, COMING + PAGE_WORDS * q as usize, page);
    match geometry.selector_place(area, q + 1) {
        Some(place) => {
            Phase::ReadSelectors(q + 1).store(memory);
            Ok(Told::Read(place))
        }
        None => Ok(read_directory(memory, geometry, 0)),
    }
}

// A page of the directory: the next one is asked for, and after the last the house is up.
pub fn directory_read(
    memory: &mut Memory,
    geometry: &Geometry,
    t: u64,
    page: &Page,
) -> Result<Told, Refusal>
    ensures { Quietly (directory_read geometry.now.pages t page.now memory.old) (told_result result) memory.new }
{
    let pages = geometry.directory_pages();
    if t >= pages {
        return Err(Refusal::NoCommand);
    }
    load_page(memory, DIRECTORY + PAGE_WORDS * t as usize, page);
    if t + 1 < pages {
        return Ok(read_directory(memory, geometry, t + 1));
    }
    Phase::Idle.store(memory);
    Ok(Told::Done)
}
