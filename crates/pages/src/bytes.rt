// Words in rows of bytes: eight bytes each, the highest first.
ghost use Rattle.std.specs.Prelude.{◌≡◌, ◌*◌, ◌≤◌, ◌++◌, ◌↔◌, length, take, drop, IsOk, OnOk, OnErr, Some, codes};
ghost use Rattle.model.specs.Mail.{eight};
ghost use Rattle.model.specs.Promise.{from_bytes};
ghost use Rattle.pages.specs.Words.{words_in, bytes_of};

use std::error::Error;
use std::fmt;

// A word has so many bytes.
pub const WORD_BYTES: usize = 8;

// A page or a row has fewer bytes than the words take.
#[derive(Clone, Copy, Debug, PartialEq, Eq)]
pub struct TooShort;

// By hand, since of a text that is derived nothing is promised.
impl fmt::Display for TooShort {
    ghost output = { λ _. Some (codes "too short for the words") };

    fn fmt<W: fmt::Write>(&self, f: &mut fmt::Formatter<W>) -> fmt::Result {
        write!(f, "too short for the words")
    }
}

impl Error for TooShort {}

// Reads words from the front of a page, as many as there are places for. A page that is too short for that is refused, and nothing is read.
pub fn load(page: &[u8], words: &mut [u64]) -> Result<(), TooShort>
    ensures fits { IsOk result ↔ (8 * length words.old ≤ length page.now) }
    ensures read { OnOk result (words.new ≡ words_in (length words.old) page.now) }
    ensures kept { OnErr result (words.new ≡ words.old) }
{
    let (chunks, _) = page.as_chunks::<WORD_BYTES>();
    if chunks.len() < words.len() {
        return Err(TooShort);
    }
    // What `iter_mut` writes inside a `zip` is lost to a proof, so each word takes its chunk by number.
    for (i, word) in words.iter_mut().enumerate() {
        *word = u64::from_be_bytes(chunks[i]);
    }
    Ok(())
}

// Writes the bytes of words to the front of a row, and leaves the rest of it. A row that is too short is refused, and nothing is written.
pub fn store(words: &[u64], out: &mut [u8]) -> Result<(), TooShort>
    ensures fits { IsOk result ↔ (8 * length words.now ≤ length out.old) }
    ensures written { OnOk result (out.new ≡ bytes_of words.now ++ drop (8 * length words.now) out.old) }
    ensures kept { OnErr result (out.new ≡ out.old) }
{
    if out.len() / WORD_BYTES < words.len() {
        return Err(TooShort);
    }
    // What `as_chunks_mut` lends is lost to a proof when it ends, so the bytes go to their places by number.
    for (i, word) in words.iter().enumerate() {
        let at = WORD_BYTES * i;
        out[at..at + WORD_BYTES].copy_from_slice(&word.to_be_bytes());
    }
    Ok(())
}
