// Pages in memory, on which a write waits until a flush, and of which a stop leaves what it is told to leave: the device of the model.
ghost use Rattle.std.specs.Prelude.{◌≡◌, ◌<◌, ◌↔◌, [], length, IfOk, IsSome, IfSome};
ghost use Rattle.model.specs.Mail.{each};
ghost use Rattle.model.specs.Device.{blank, read_page, flushed, stopped};
ghost use Rattle.model.specs.Run.{queued};
ghost use Rattle.days.specs.Held.{device_of, leaves_number, write_of, placed, left_of, Wrote};

use host::{Disk, PAGE_LEN};
use std::alloc::{AllocError, Global};
use std::io;

pub type Page = [u8; PAGE_LEN];

// A stop in the middle of a write can leave so many of its bytes.
const HALF_LEN: usize = PAGE_LEN / 2;

// What a stop leaves of a write that waits.
#[derive(Clone, Copy, PartialEq, Eq)]
pub enum Leaves {
    Nothing,
    All,
    Half,
}

// A write that waits: a whole page, and its place.
#[derive(Clone, Copy)]
pub struct Waiting {
    pub page: usize,
    pub bytes: Page,
}

// Pages, and the writes to them that wait, the oldest first.
#[derive(Drop)]
pub struct Device {
    pages: Vec<Page>,
    waiting: Vec<Waiting>,
}

impl Leaves {
    // All that can be left of a write.
    pub const EVERY: [Leaves; 3] = [Leaves::Nothing, Leaves::All, Leaves::Half];

    // So much of a write comes onto its page.
    fn put(self, new: &Page, page: &mut Page)
        ensures { page.new ≡ left_of self new.now page.old }
    {
        match self {
            Leaves::Nothing => {}
            Leaves::All => *page = *new,
            Leaves::Half => page[..HALF_LEN].copy_from_slice(&new[..HALF_LEN]),
        }
    }
}

// So much of a write comes onto its page; where there is no such page, nothing changes.
// A Vec, since what a slice's `get_mut` lends is lost to a proof.
fn place(pages: &mut Vec<Page>, write: &Waiting, leaves: Leaves)
    ensures { pages.new.items ≡ placed leaves (write_of write.now) pages.old.items }
{
    if let Some(page) = pages.get_mut(write.page) {
        leaves.put(&write.bytes, page);
    }
}

impl Device {
    // So many pages, all 0.
    pub fn new(heap: Global, pages: usize) -> Result<Device, AllocError>
        ensures { IfOk result (λ d. device_of d ≡ record { pages = blank pages; queue = [] }) }
    {
        let mut empty = Vec::with_capacity(heap, pages)?;
        empty.resize(pages, [0; PAGE_LEN])?;
        Ok(Device {
            pages: empty,
            waiting: Vec::new(heap),
        })
    }

    // The heap on which it is kept.
    pub(super) fn heap(&self) -> Global {
        *self.waiting.allocator()
    }

    // How many writes wait.
    pub fn waiting(&self) -> usize
        ensures { result ≡ length (device_of self.now).queue }
    {
        self.waiting.len()
    }

    // The page as whoever reads sees it, with what waits, if there is such a page.
    fn read(&self, page: usize) -> Option<&Page>
        ensures there { IsSome result ↔ page < length (device_of self.now).pages }
        ensures seen { IfSome result (λ p. p.now ≡ read_page (device_of self.now) page) }
    {
        let kept = self.pages.get(page)?;
        let waits = self.waiting.iter().rev().find(|write| write.page == page);
        Some(waits.map_or(kept, |write| &write.bytes))
    }

    // A write waits from now on; without memory nothing changes.
    fn write(&mut self, page: usize, bytes: &Page) -> Result<(), AllocError>
        ensures { Wrote (device_of self.old) page bytes.now result (device_of self.new) }
    {
        let write = Waiting {
            page,
            bytes: *bytes,
        };
        self.waiting.push(write)?;
        Ok(())
    }

    // Brings all that waits onto the pages. Of a flush there are no choices, and it and a stop have each a definition of its own.
    fn flush(&mut self)
        ensures { device_of self.new ≡ flushed (device_of self.old) }
    {
        for write in &self.waiting {
            place(&mut self.pages, write, Leaves::All);
        }
        self.waiting.clear();
    }

    // Power is lost: of each write that waits, in turn, so much comes onto its page; of those not spoken of, nothing.
    pub fn stop(&mut self, choices: &[Leaves])
        ensures { device_of self.new ≡ stopped (device_of self.old) (each leaves_number choices.now) }
    {
        for (write, leaves) in self.waiting.iter().zip(choices) {
            place(&mut self.pages, write, *leaves);
        }
        self.waiting.clear();
    }
}

// By hand, since pages are copied in one go: a derived `clone` goes byte by byte.
impl Clone for Device {
    ghost is_clone = { λ d e. device_of e ≡ device_of d };

    fn clone(&self) -> Result<Device, AllocError> {
        let heap = self.heap();
        Ok(Device {
            pages: Vec::from_slice(heap, self.pages.as_slice())?,
            waiting: Vec::from_slice(heap, self.waiting.as_slice())?,
        })
    }
}

// What a device gives, takes and keeps is what the model says of one.
impl Disk for Device {
    ghost size = { λ d. length (device_of d).pages };

    ghost gave = { λ d k p e. (p ≡ read_page (device_of d) k) × (device_of e ≡ device_of d) };

    ghost took = { λ d k p e. device_of e ≡ queued (device_of d) k p };

    ghost kept = { λ d e. device_of e ≡ flushed (device_of d) };

    fn pages(&self) -> u64 {
        self.pages.len() as u64
    }

    fn read_page(&mut self, page: u64, into: &mut Page) -> io::Result<()> {
        *into = *self.read(page as usize).unwrap();
        Ok(())
    }

    fn write_page(&mut self, page: u64, bytes: &Page) -> io::Result<()> {
        self.write(page as usize, bytes)?;
        Ok(())
    }

    fn sync(&mut self) -> io::Result<()> {
        self.flush();
        Ok(())
    }
}
