// What a house's pages are to a host.
ghost use Rattle.std.specs.Prelude.{◌≡◌, ℕ, ◌<◌, List, OnOk};

use super::{Fault, PAGE_LEN};
use std::io;

// What keeps pages: `size` is how many there are, and a page is asked for only if it is one of them. What it is to give a page, to take one and to keep
// what was taken, each disk says itself, as relations between the disk before and after.
pub trait Disk {
    ghost size: { Self → ℕ };

    ghost gave: { Self → ℕ → List ℕ → Self → Type 0 };

    ghost took: { Self → ℕ → List ℕ → Self → Type 0 };

    ghost kept: { Self → Self → Type 0 };

    fn pages(&self) -> u64
        ensures { result ≡ size self.now };

    fn read_page(&mut self, page: u64, into: &mut [u8; PAGE_LEN]) -> io::Result<()>
        requires { page < size self.old }
        ensures gave { OnOk result (gave self.old page into.new self.new) }
        ensures size { size self.new ≡ size self.old };

    fn write_page(&mut self, page: u64, bytes: &[u8; PAGE_LEN]) -> io::Result<()>
        requires { page < size self.old }
        ensures took { OnOk result (took self.old page bytes.now self.new) }
        ensures size { size self.new ≡ size self.old };

    // Brings what was written to where it lasts.
    fn sync(&mut self) -> io::Result<()>
        ensures kept { OnOk result (kept self.old self.new) }
        ensures size { size self.new ≡ size self.old };
}

// A disk that is lent is a disk: what is done to it is done to the one that was lent.
impl<D: Disk> Disk for &mut D {
    ghost size = { λ d. D.size d.now };

    ghost gave = { λ d k p e. D.gave d.now k p e.now };

    ghost took = { λ d k p e. D.took d.now k p e.now };

    ghost kept = { λ d e. D.kept d.now e.now };

    fn pages(&self) -> u64 {
        (**self).pages()
    }

    fn read_page(&mut self, page: u64, into: &mut [u8; PAGE_LEN]) -> io::Result<()> {
        (**self).read_page(page, into)
    }

    fn write_page(&mut self, page: u64, bytes: &[u8; PAGE_LEN]) -> io::Result<()> {
        (**self).write_page(page, bytes)
    }

    fn sync(&mut self) -> io::Result<()> {
        (**self).sync()
    }
}

// Makes sure that there is such a page.
pub(super) fn find<D: Disk>(disk: &D, page: u64) -> Result<(), Fault>
    ensures { OnOk result (page < D.size disk.now) }
{
    if page >= disk.pages() {
        return Err(Fault::NoSuchPage(page));
    }
    Ok(())
}
