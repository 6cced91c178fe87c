// Pages of 512 bytes, each at its place in a file: a disk for a host. It promises that a file has as many pages as a house may have and that every page
// lies within it; what a file does with what is written is not for it to say.
#![tactic(auto)]

ghost use Rattle.std.specs.Prelude.{◌≡◌, ◌+◌, ◌*◌, ◌<◌, ◌≤◌, IfOk, MatchResult};

use host::{Disk, PAGE_LEN};
pub use pages::places::{LEAST_PAGES, MOST_PAGES};
use std::fs::{File, OpenFile, OpenOptions};
use std::io;
use std::io::{Read, Seek, SeekFrom, Write};
use thiserror::Error;

// How many bytes a page has, as a number of a file's.
const PAGE_BYTES: u64 = PAGE_LEN as u64;

// A file of pages that is open for reading and writing.
#[derive(Drop)]
pub struct PageFile {
    file: File,
    pages: u64,
    ghost few: { pages ≤ 1048576 },
}

impl PageFile {
    // Where a page begins: all of it lies within the file.
    fn place(&self, page: u64) -> u64
        requires { page < self.now.pages }
        ensures { (result ≡ 512 * page) × (result + 512 ≤ 512 * self.now.pages) }
    {
        page * PAGE_BYTES
    }
}

// No contract can say what a file holds. Each seeks first: positioned calls rest on two more unproved functions of the system.
impl Disk for PageFile {
    ghost size = { λ f. f.pages };

    ghost gave = { λ _ _ _ _. Unit {0} };

    ghost took = { λ _ _ _ _. Unit {0} };

    ghost kept = { λ _ _. Unit {0} };

    fn pages(&self) -> u64 {
        self.pages
    }

    fn read_page(&mut self, page: u64, into: &mut [u8; PAGE_LEN]) -> io::Result<()> {
        let place = self.place(page);
        self.file.seek(SeekFrom::Start(place))?;
        self.file.read_exact(into)
    }

    fn write_page(&mut self, page: u64, bytes: &[u8; PAGE_LEN]) -> io::Result<()> {
        let place = self.place(page);
        self.file.seek(SeekFrom::Start(place))?;
        self.file.write_all(bytes)
    }

    fn sync(&mut self) -> io::Result<()> {
        self.file.sync_data()
    }
}

// Why a file of pages can't be opened.
#[derive(Debug, Drop, Error)]
pub enum OpenError {
    #[error("{0}; it must be a file of pages that may be read and written, or a new name in a folder that is there")]
    Io(#[from] io::Error),
    // Its length in bytes is not a number of pages.
    #[error("it has {0} bytes, which is not a number of pages of 512 bytes: is it another file?")]
    NotPages(u64),
    // It has, or is to have, so many pages: too few or too many.
    #[error("{0} pages of 512 bytes, but a house has 256 to 1048576: name another file")]
    Pages(u64),
}

// So many pages, if a house can have them: not too few and not too many.
fn few_enough(pages: u64) -> Result<u64, OpenError>
    ensures { MatchResult result (λ p. (p ≡ pages) × (256 ≤ p) × (p ≤ 1048576)) (λ e. (e ≡ OpenError.Pages pages) × (256 ≤ pages → 1048576 < pages)) }
{
    if (LEAST_PAGES..=MOST_PAGES).contains(&pages) {
        Ok(pages)
    } else {
        Err(OpenError::Pages(pages))
    }
}

impl PageFile {
    // Opens a file of pages that is there.
    pub fn open(rt: &HostRuntime, path: &str) -> Result<PageFile, OpenError>
        ensures { IfOk result (λ f. 256 ≤ f.pages) }
    {
        let file = OpenOptions::new().read(true).write(true).open(rt, path)?;
        let len = file.metadata()?.len();
        if len % PAGE_BYTES != 0 {
            return Err(OpenError::NotPages(len));
        }
        let pages = few_enough(len / PAGE_BYTES)?;
        Ok(PageFile { file, pages })
    }

    // Makes a file of so many pages, all 0. A file that is there is left as it is.
    pub fn create(rt: &HostRuntime, path: &str, pages: u64) -> Result<PageFile, OpenError>
        ensures { IfOk result (λ f. (f.pages ≡ pages) × (256 ≤ pages)) }
    {
        let pages = few_enough(pages)?;
        let file = File::create_new(rt, path)?;
        file.set_len(PAGE_BYTES * pages)?;
        file.sync_all()?;
        Ok(PageFile { file, pages })
    }
}

#[cfg(test)]
mod tests {
    use super::*;
    use std::fs;
    use std::test::Fail;

    const FILE: &str = "pages.test";

    // What opening a file of so many bytes says.
    fn opened(rt: &HostRuntime, len: u64) -> Result<Result<PageFile, OpenError>, Fail> {
        let file = File::create(rt, FILE)?;
        file.set_len(len)?;
        Ok(PageFile::open(rt, FILE))
    }

    #[test]
    fn files_that_are_refused(rt: HostRuntime) -> Result<(), Fail> {
        assert!(rt; matches!(opened(&rt, 131_073)?, Err(OpenError::NotPages(131_073))));
        assert!(rt; matches!(opened(&rt, 0)?, Err(OpenError::Pages(0))));
        assert!(rt; matches!(opened(&rt, 130_560)?, Err(OpenError::Pages(255))));
        assert!(rt; matches!(PageFile::create(&rt, FILE, 256), Err(OpenError::Io(_))));
        fs::remove_file(&rt, FILE)?;
        assert!(rt; matches!(PageFile::open(&rt, FILE), Err(OpenError::Io(_))));
        assert!(rt; matches!(PageFile::create(&rt, FILE, 255), Err(OpenError::Pages(255))));
        assert!(rt; !fs::exists(&rt, FILE)?);
        Ok(())
    }

    #[test]
    fn pages_come_back(rt: HostRuntime) -> Result<(), Fail> {
        let mut file = PageFile::create(&rt, "back.test", 256)?;
        assert!(rt; file.pages() == 256);
        let mut page = [7u8; PAGE_LEN];
        file.write_page(255, &page)?;
        file.sync()?;
        file.read_page(0, &mut page)?;
        assert!(rt; page[0] == 0 && page[511] == 0);
        file.read_page(255, &mut page)?;
        assert!(rt; page[0] == 7 && page[511] == 7);
        fs::remove_file(&rt, "back.test")?;
        Ok(())
    }

    // The header lies on page 0: what was written there is there when the file is opened again, and nothing came onto the page beside it.
    #[test]
    fn the_first_page_is_there_again(rt: HostRuntime) -> Result<(), Fail> {
        let mut file = PageFile::create(&rt, "again.test", 256)?;
        file.write_page(0, &[9; PAGE_LEN])?;
        file.sync()?;
        drop(file);
        let mut file = PageFile::open(&rt, "again.test")?;
        let mut page = [1; PAGE_LEN];
        file.read_page(0, &mut page)?;
        assert!(rt; page[0] == 9 && page[511] == 9);
        file.read_page(1, &mut page)?;
        assert!(rt; page[0] == 0 && page[511] == 0);
        fs::remove_file(&rt, "again.test")?;
        Ok(())
    }
}
