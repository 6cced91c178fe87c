// Names as words: eight words of bytes padded with 0.
ghost use Rattle.std.specs.Prelude.{◌≡◌, ◌<◌, slice_index};
ghost use Rattle.mailboxes.specs.Directory.{name_words};

use pages::bytes::WORD_BYTES;
use std::array;

// A name has at most this many bytes.
pub(crate) const NAME_BYTES: usize = 64;

pub(crate) const NAME_WORDS: usize = 8;

// A name that is looked for, and the words that it would be kept as: they are made once, however many records are looked at.
#[derive(Clone, Copy)]
pub(crate) struct Wanted<'a> {
    pub(crate) bytes: &'a [u8],
    pub(crate) words: [u64; NAME_WORDS],
    ghost kept: { words ≡ name_words bytes.now },
}

impl<'a> Wanted<'a> {
    // The name of these bytes.
    pub(crate) fn new(bytes: &'a [u8]) -> Wanted<'a>
        ensures { result.bytes.now ≡ bytes.now }
    {
        Wanted {
            bytes,
            words: name_words(bytes),
        }
    }
}

// The byte at a place of a name, or 0 behind its end.
fn padded_byte(name: &[u8], k: usize) -> u8
    ensures { result ≡ slice_index name.now k }
{
    name.get(k).copied().unwrap_or(0)
}

// One of the words that a name is kept as. Put together from its bytes, since a copy of so many bytes as a name has would call for `memcpy`.
fn name_word(name: &[u8], i: usize) -> u64
    requires { i < 8 }
    ensures { result ≡ slice_index (name_words name.now) i }
{
    let start = WORD_BYTES * i;
    u64::from_be_bytes(array::from_fn(|k| padded_byte(name, start + k)))
}

// The words that a name is kept as. Of one that is too long for them the front is there.
pub(crate) fn name_words(name: &[u8]) -> [u64; NAME_WORDS]
    ensures { result ≡ name_words name.now }
{
    array::from_fn(|i| name_word(name, i))
}
