// Comparing and copying lent bytes, capital and small letters alike. Nothing is copied but what is asked for.
ghost use Rattle.std.specs.Prelude.{◌≡◌, ◌≤◌, ◌++◌, length, drop};
ghost use Rattle.model.specs.Mail.{smalls, holds, same, no_blanks};

// Whether the two are one text.
pub fn equals(text: &[u8], other: &[u8]) -> bool
    ensures { result ≡ same (smalls other.now) (smalls text.now) }
{
    text.eq_ignore_ascii_case(other)
}

// Whether `part` stands somewhere in `text`.
pub fn contains(text: &[u8], part: &[u8]) -> bool
    ensures { result ≡ holds (smalls part.now) (smalls text.now) }
{
    part.is_empty() || text.windows(part.len()).any(|window| equals(window, part))
}

// The text without the blanks before it.
pub fn without_blanks(text: &[u8]) -> &[u8]
    ensures { result.now ≡ no_blanks text.now }
{
    let start = text.iter().position(|byte| *byte != b' ');
    &text[start.unwrap_or(text.len())..]
}

// Writes `text` in small letters to the front of `out`, in one pass.
pub fn copy_lowercase(text: &[u8], out: &mut [u8])
    requires { length text.now ≤ length out.old }
    ensures { out.new ≡ smalls text.now ++ drop (length text.now) out.old }
{
    for (i, letter) in out[..text.len()].iter_mut().enumerate() {
        *letter = text[i].to_ascii_lowercase();
    }
}
