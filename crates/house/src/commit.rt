// Commit: touched pages of the directory go onto their other twins, the selector pages into the other area, and after a flush the header
// decides; it is flushed too.
ghost use Rattle.std.specs.Prelude.{◌≡◌, ◌<◌, ◌≤◌, length, Some};
ghost use Rattle.model.specs.Device.{zeros};
ghost use Rattle.pages.specs.Words.{patched};
ghost use Rattle.pages.specs.Geometry.{selector_pages, directory_pages};
ghost use Rattle.house.specs.Memory.{area_of, coming_of};
ghost use Rattle.house.specs.Machine.{touch_record, commit, table_written, selectors_written, selectors_next, header_written, committed};
ghost use Rattle.house.specs.Does.{Does, page_touched};

use super::memory::{
    AREA, COMING, COUNTING, DIRECTORY, HEADER, HEADER_WORDS, Memory, TO_SHOW, coming_place,
    selector_words, selectors_at,
};
use super::phase::Phase;
use super::{Row, Told};
use pages::bytes::{WORD_BYTES, store};
use pages::places::{Geometry, RECORD_WORDS};
use pages::selectors::{next_touched, touch};
use pages::{PAGE_LEN, PAGE_WORDS};

// Words of a page, in the type of a place in the directory.
const WORDS: u64 = PAGE_WORDS as u64;

// The pages on which a record lies that begins at a word of the directory are to change.
pub fn touch_record(memory: &mut Memory, geometry: &Geometry, at: u64)
    requires { at < 262144 }
    ensures { memory.new ≡ touch_record geometry.now.pages at memory.old }
{
    touch_page(memory, geometry, at / WORDS);
    touch_page(memory, geometry, (at + RECORD_WORDS - 1) / WORDS);
}

// The bit of a page that is to count is turned away from the one that counts, unless it has been already.
fn touch_page(memory: &mut Memory, geometry: &Geometry, t: u64)
    ensures { memory.new ≡ page_touched geometry.now.pages t memory.old }
{
    let words = selector_words(geometry);
    let (front, rest) = memory.split_at_mut(COMING);
    touch(&front[COUNTING..COUNTING + words], &mut rest[..words], t);
}

// Writes the next touched page of the directory from one on, or else the first selector page.
// Of a memory that was written to only this is needed further on: its area is one of the two.
pub fn commit(memory: &mut Memory, geometry: &Geometry, from: u64, out: &mut Row) -> Told
    requires { area_of memory.old < 2 }
    ensures { Does (commit geometry.now.pages from memory.old) result out.old memory.new out.new }
{
    let touched = next_touched(
        selectors_at(memory, geometry, COUNTING),
        selectors_at(memory, geometry, COMING),
        from,
        geometry.directory_pages(),
    );
    match touched {
        None => write_selectors(memory, geometry, 0, out),
        Some(t) => write_table(memory, geometry, t, out),
    }
}

// Writes a page of the directory onto the twin that is to count.
fn write_table(memory: &mut Memory, geometry: &Geometry, t: u64, out: &mut Row) -> Told
    requires { t < directory_pages geometry.now.pages }
    ensures { Does (table_written geometry.now.pages (Some t) memory.old) result out.old memory.new out.new }
{
    let place = coming_place(memory, geometry, t);
    let at = DIRECTORY + PAGE_WORDS * t as usize;
    store(&memory[at..at + PAGE_WORDS], out).unwrap();
    Phase::WriteTable(t + 1).store(memory);
    Told::Write(place)
}

// Writes a selector page into the other area. As in `write_table` the end is alike; what differs is what each promises.
fn write_selectors(memory: &mut Memory, geometry: &Geometry, q: u64, out: &mut Row) -> Told
    requires { (area_of memory.old < 2) × (q < selector_pages geometry.now.pages) }
    ensures { Does (selectors_written geometry.now.pages q memory.old) result out.old memory.new out.new }
{
    let place = geometry.selector_place(1 - memory[AREA], q).unwrap();
    let at = COMING + PAGE_WORDS * q as usize;
    store(&memory[at..at + PAGE_WORDS], out).unwrap();
    Phase::WriteSelectors(q + 1).store(memory);
    Told::Write(place)
}

// The next selector page, or the flush before the header.
pub fn selectors_next(memory: &mut Memory, geometry: &Geometry, q: u64, out: &mut Row) -> Told
    requires { area_of memory.old < 2 }
    ensures { Does (selectors_next geometry.now.pages q memory.old) result out.old memory.new out.new }
{
    if q < geometry.selector_pages() {
        return write_selectors(memory, geometry, q, out);
    }
    Phase::WriteHeader.store(memory);
    Told::Flush
}

// Writes zeros: a function of its own, so that the contract says it in the definition's words.
fn blank(bytes: &mut [u8])
    ensures { bytes.new ≡ zeros (length bytes.old) }
{
    bytes.fill(0);
}

// The header says that the other area counts. Only the first half of its page means anything.
pub fn write_header(memory: &mut Memory, out: &mut Row) -> Told
    requires { area_of memory.old < 2 }
    ensures { Does (header_written memory.old) result out.old memory.new out.new }
{
    memory[AREA] = 1 - memory[AREA];
    store(&memory[HEADER..HEADER + HEADER_WORDS], out).unwrap();
    blank(&mut out[PAGE_LEN / 2..PAGE_LEN]);
    Phase::FlushHeader.store(memory);
    Told::Write(0)
}

// What was to count counts.
fn count_coming(memory: &mut Memory, geometry: &Geometry)
    ensures { memory.new ≡ patched memory.old 96 (coming_of geometry.now.pages memory.old) }
{
    memory.copy_within(COMING..COMING + selector_words(geometry), COUNTING);
}

// After the commit a number may be left to show.
pub fn committed(memory: &mut Memory, geometry: &Geometry, out: &mut Row) -> Told
    ensures { Does (committed geometry.now.pages memory.old) result out.old memory.new out.new }
{
    let to_show = memory[TO_SHOW].checked_sub(1);
    count_coming(memory, geometry);
    let Some(number) = to_show else {
        Phase::Idle.store(memory);
        return Told::Done;
    };
    out[..WORD_BYTES].copy_from_slice(&number.to_be_bytes());
    Phase::Shown.store(memory);
    Told::Shows(WORD_BYTES as u64)
}
