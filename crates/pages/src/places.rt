// Where things lie on a device of so many pages: the header on page 0, two areas of selector pages, the twins of each table page, and the bodies.
ghost use Rattle.std.specs.Prelude.{◌≡◌, ◌+◌, ◌*◌, ◌/◌, ◌≤◌, ◌&&◌, is_some, IfSome, Some, None, nat_le, nat_lt};
ghost use Rattle.model.specs.Mail.{pick};
ghost use Rattle.pages.specs.Geometry.{most_boxes, directory_pages, table_pages, selector_pages, selector_place, table_place, body_place};

use crate::selectors;

// Below the least the regions would not fit; the most is as many pages as the largest device has.
pub const LEAST_PAGES: u64 = 256;

pub const MOST_PAGES: u64 = 1 << 20;

// There are two areas of selector pages.
pub const AREAS: u64 = 2;

// The directory has people, then ways, then boxes; a person and a box have a record of so many words.
pub const BOXES_PLACE: u64 = 864;

pub const RECORD_WORDS: u64 = 12;

// The numbers of boxes end where the directory still fits into memory.
const MOST_BOXES: u64 = 16384;

const PAGE_WORDS: u64 = crate::PAGE_WORDS as u64;

const PAGE_SLOTS: u64 = 8;

const PAGE_BITS: u64 = 4096;

// A device that has room for every region.
#[derive(Clone, Copy)]
pub struct Geometry {
    pages: u64,
    ghost least: { 256 ≤ pages },
    ghost most: { pages ≤ 1048576 },
}

impl Geometry {
    // The geometry of a device, unless it has too few pages or too many. A closure that made it would not know what was tested, so the test returns.
    pub fn of(pages: u64) -> Option<Geometry>
        ensures known { is_some result ≡ (nat_le 256 pages && nat_le pages 1048576) }
        ensures sized { IfSome result (λ g. g.pages ≡ pages) }
    {
        if pages < LEAST_PAGES || MOST_PAGES < pages {
            return None;
        }
        Some(Geometry { pages })
    }

    // How many pages the device has.
    pub fn page_count(&self) -> u64
        ensures { result ≡ self.now.pages }
    {
        self.pages
    }

    // How many bodies there are, and how many slots.
    pub fn bodies(&self) -> u64
        ensures { result ≡ self.now.pages / 2 }
    {
        self.page_count() / 2
    }

    // How many boxes there may be: as many as bodies, up to where the numbers of boxes end.
    pub fn most_boxes(&self) -> u64
        ensures { result ≡ most_boxes self.now.pages }
    {
        self.bodies().min(MOST_BOXES)
    }

    // How many pages the directory takes.
    pub fn directory_pages(&self) -> u64
        ensures { result ≡ directory_pages self.now.pages }
    {
        (BOXES_PLACE + RECORD_WORDS * self.most_boxes()).div_ceil(PAGE_WORDS)
    }

    // How many table pages there are: those of the directory, and behind them those of the slots.
    pub fn table_pages(&self) -> u64
        ensures { result ≡ table_pages self.now.pages }
    {
        self.directory_pages() + self.bodies().div_ceil(PAGE_SLOTS)
    }

    // Pages of one of the two areas.
    pub fn selector_pages(&self) -> u64
        ensures { result ≡ selector_pages self.now.pages }
    {
        self.table_pages().div_ceil(PAGE_BITS)
    }

    // Where a selector page of the first area, 0, or the second, 1, lies. The area is as callers read it from a page, so it may be any number.
    pub fn selector_place(&self, area: u64, q: u64) -> Option<u64>
        ensures { result ≡ pick (nat_lt area 2 && nat_lt q (selector_pages self.now.pages)) (Some (selector_place self.now.pages area q)) None }
    {
        let pages = self.selector_pages();
        (area < AREAS && q < pages).then(|| 1 + area * pages + q)
    }

    // Where the table begins: behind the header and both areas.
    fn table_start(&self) -> u64
        ensures { result ≡ 1 + 2 * selector_pages self.now.pages }
    {
        1 + AREAS * self.selector_pages()
    }

    // Where the twin of a table page that the bits point at lies.
    #[tactic(auto, using(crate::proofs::Bits::bit_lt))]
    pub fn table_place(&self, selectors: &[u64], t: u64) -> Option<u64>
        ensures { result ≡ pick (nat_lt t (table_pages self.now.pages)) (Some (table_place self.now.pages selectors.now t)) None }
    {
        (t < self.table_pages()).then(|| self.table_start() + 2 * t + selectors::bit(selectors, t))
    }

    // Where a body lies, if there are so many: the bodies begin behind both twins of every table page.
    pub fn body_place(&self, body: u64) -> Option<u64>
        ensures { result ≡ pick (nat_lt body (self.now.pages / 2)) (Some (body_place self.now.pages body)) None }
    {
        (body < self.bodies()).then(|| self.table_start() + 2 * self.table_pages() + body)
    }
}
