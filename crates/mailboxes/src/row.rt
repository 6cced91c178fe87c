// The row that shows a box: eight bytes for its name's length, its name, eight for the number that the next letter gets, and eight for how many
// letters there are.
ghost use Rattle.std.specs.Prelude.{◌≡◌, length, nat_le};
ghost use Rattle.mailboxes.specs.Row.{row_at, row_said, row_over};

use crate::kept::Record;
use pages::bytes::{WORD_BYTES, store};

// Letters are not kept yet.
const NO_LETTERS: u64 = 0;

impl<'a> Record<'a> {
    // Writes the row of the box that has this record to the front of `out`, and says how long it is. Where there is no room, nothing is written.
    pub(crate) fn put_row(&self, out: &mut [u8]) -> Option<u64>
        ensures says { result ≡ row_said (nat_le (length (row_at self.now.words.now 0)) (length out.old)) (row_at self.now.words.now 0) }
        ensures written { out.new ≡ row_over (nat_le (length (row_at self.now.words.now 0)) (length out.old)) (row_at self.now.words.now 0) out.old }
    {
        let len = self.name_len();
        let next = WORD_BYTES + len;
        let end = next + 2 * WORD_BYTES;
        if out.len() < end {
            return None;
        }
        store(&[len as u64], out).unwrap();
        self.put_name(&mut out[WORD_BYTES..next]);
        store(&[self.next(), NO_LETTERS], &mut out[next..]).unwrap();
        Some(end as u64)
    }
}
