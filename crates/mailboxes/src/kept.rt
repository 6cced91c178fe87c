// Records: twelve words that begin with the owner and a name. A box keeps the number that its next letter gets behind them.
ghost use Rattle.std.specs.Prelude.{◌≡◌, ◌+◌, ◌<◌, ◌≤◌, [], ◌∷◌, ◌++◌, length, take, slice_index};
ghost use Rattle.model.specs.Mail.{same};
ghost use Rattle.pages.specs.Words.{bytes_of, part};
ghost use Rattle.mailboxes.specs.Directory.{name_record, named, name_at, owner_at};

use crate::name::{NAME_BYTES, NAME_WORDS, Wanted, name_words};
use crate::place::RECORD_WORDS;
use pages::bytes::WORD_BYTES;

// The page's format: a record's first word is the owner times this, and the name's length.
const OWNER_STEP: u64 = 256;

// The words of the name begin behind the first one, and end before the number that the next letter gets.
const NAME_PLACE: usize = 1;

const NEXT_PLACE: usize = NAME_PLACE + NAME_WORDS;

// A record: so many lent words. A slice, since the length of an array behind a reference in a struct is lost to a proof.
#[derive(Clone, Copy)]
pub(crate) struct Record<'a> {
    words: &'a [u64],
    ghost whole: { length words.now ≡ 12 },
}

impl<'a> Record<'a> {
    // The record at a place.
    pub(crate) fn at(words: &'a [u64], at: usize) -> Record<'a>
        requires { at + 12 ≤ length words.now }
        ensures { result.words.now ≡ part words.now at 12 }
    {
        Record {
            words: &words[at..at + RECORD_WORDS],
        }
    }

    // Who owns it.
    #[tactic(auto, unfolding(crate::specs::Directory::owner_at))]
    pub(crate) fn owner(&self) -> u64
        ensures { result ≡ owner_at self.now.words.now 0 }
    {
        self.words[0] / OWNER_STEP
    }

    // The words that its name is kept as.
    fn name_words(&self) -> &'a [u64]
        ensures { result.now ≡ part self.now.words.now 1 8 }
    {
        &self.words[NAME_PLACE..NEXT_PLACE]
    }

    // Whether its name is kept as these words. The first one is asked by itself, since it tells most names apart.
    fn is_kept_as(&self, words: &[u64; NAME_WORDS]) -> bool
        ensures { result ≡ same (part self.now.words.now 1 8) words.now }
    {
        self.words[NAME_PLACE] == words[0] && self.name_words() == words.as_slice()
    }

    // Whether it has this name. A call by itself, so that a search passes over records of others by their owner alone.
    #[inline(never)]
    pub(crate) fn has_name(&self, name: &Wanted<'_>) -> bool
        ensures { result ≡ named self.now.words.now 0 name.now.bytes.now }
    {
        self.words[0] % OWNER_STEP == name.bytes.len() as u64 && self.is_kept_as(&name.words)
    }

    // How long its name is.
    #[tactic(auto, using(crate::proofs::Rows::record_name_length))]
    pub(crate) fn name_len(&self) -> usize
        ensures long { result ≡ length (name_at self.now.words.now 0) }
        ensures short { result ≤ 64 }
    {
        NAME_BYTES.min((self.words[0] % OWNER_STEP) as usize)
    }

    // One of the bytes that its name is kept as: the name, and zeros behind it.
    fn name_byte(&self, k: usize) -> u8
        requires { k < 64 }
        ensures { result ≡ slice_index (bytes_of (part self.now.words.now 1 8)) k }
    {
        self.words[NAME_PLACE + k / WORD_BYTES].to_be_bytes()[k % WORD_BYTES]
    }

    // Fills a row with the front of these bytes, one by one, since a copy of so many bytes as a name has would call for `memcpy`.
    pub(crate) fn put_name(&self, out: &mut [u8])
        requires { length out.old ≤ 64 }
        ensures { out.new ≡ take (length out.old) (bytes_of (part self.now.words.now 1 8)) }
    {
        for (k, slot) in out.iter_mut().enumerate() {
            *slot = self.name_byte(k);
        }
    }

    // The number that the next letter gets.
    pub(crate) fn next(&self) -> u64
        ensures { result ≡ slice_index self.now.words.now 9 }
    {
        self.words[NEXT_PLACE]
    }
}

// The words of a record: who owns it, its name, and the first of the three words behind that; the others are 0.
pub(crate) fn new_record(owner: u64, name: &[u8], next: u64) -> [u64; RECORD_WORDS]
    requires { (owner < 64) × (length name.now ≤ 64) }
    ensures { result ≡ name_record owner name.now ++ next ∷ 0 ∷ 0 ∷ [] }
{
    let mut words = [0; RECORD_WORDS];
    words[0] = OWNER_STEP * owner + name.len() as u64;
    words[NAME_PLACE..NEXT_PLACE].copy_from_slice(&name_words(name));
    words[NEXT_PLACE] = next;
    words
}
