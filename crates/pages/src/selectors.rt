// Selector bits: 64 to a word, the lowest first. A bit says which twin of a table page counts; past the words every bit is 0.
ghost use Rattle.std.specs.Prelude.{◌≡◌, length};
ghost use Rattle.pages.specs.Bits.{bit, flipped, touched};
ghost use Rattle.pages.specs.Touched.{first_touched};

const WORD_BITS: u64 = 64;

// The bit of a table page, 0 or 1: a number, since places are counted with it.
pub fn bit(words: &[u64], t: u64) -> u64
    ensures { result ≡ bit words.now t }
{
    let word = words.get((t / WORD_BITS) as usize).copied().unwrap_or(0);
    word >> (t % WORD_BITS) & 1
}

// Turns the bit of a table page. What `get_mut` lends is lost to a proof when it ends, so the word is written by its place.
pub fn flip(words: &mut [u64], t: u64)
    ensures { words.new ≡ flipped words.old t }
{
    let place = (t / WORD_BITS) as usize;
    if place < words.len() {
        words[place] ^= 1 << (t % WORD_BITS);
    }
}

// A table page is to change: its bit that is to count is turned away from the one that counts, unless it has been already.
#[tactic(auto, using(crate::proofs::Bits::touched_same, crate::proofs::Bits::touched_already))]
pub fn touch(counting: &[u64], coming: &mut [u64], t: u64)
    ensures { coming.new ≡ touched counting.now coming.old t }
{
    if bit(counting, t) == bit(coming, t) {
        flip(coming, t);
    }
}

// The first table page of a range that was touched. Past the words nothing is, so the walk ends there, however large `end` is.
pub fn next_touched(counting: &[u64], coming: &[u64], from: u64, end: u64) -> Option<u64>
    ensures { result ≡ first_touched counting.now coming.now from end }
{
    let words = counting.len().max(coming.len()) as u64;
    let end = end.min(words.saturating_mul(WORD_BITS));
    (from..end).find(|t| bit(counting, *t) != bit(coming, *t))
}
