// Bytes as hexadecimal digits, two for each, and back. It promises just the bytes and the digits of the definition, and knows nothing of houses.
#![tactic(auto)]

ghost use Rattle.std.specs.Prelude.{◌≡◌, IfOk, IsOk, take, vec_items, string_bytes};
ghost use Rattle.hexadecimal.specs.Hex.{pair_value, unhexed, hexed};
ghost use Rattle.std.specs.Option.{option_map};

use std::alloc::{AllocError, Global};

// The byte that two digits spell; none where one of them is no digit.
fn byte_of(high: u8, low: u8) -> Option<u8>
    ensures { result ≡ pair_value high low }
{
    let mut byte = [0];
    hex::decode_to_slice([high, low], &mut byte).ok()?;
    Some(byte[0])
}

// The bytes that a text of digits spells; none where there is an odd one or something else in it. The heap is asked as bytes are read: a text
// that does not begin with one is refused at once, however little memory is left.
pub fn from_hex(heap: Global, text: &[u8]) -> Result<Option<Vec<u8>>, AllocError>
    ensures read { IfOk result (λ o. option_map vec_items o ≡ unhexed text.now) }
    ensures at_once { unhexed (take 2 text.now) ≡ None → IsOk result }
{
    let (pairs, rest) = text.as_chunks::<2>();
    if !rest.is_empty() {
        return Ok(None);
    }
    let mut bytes = Vec::new(heap);
    for [high, low] in pairs {
        let Some(byte) = byte_of(*high, *low) else {
            return Ok(None);
        };
        bytes.push(byte)?;
    }
    Ok(Some(bytes))
}

// The digits of some bytes, in small letters.
#[tactic(auto, using(crate::proofs::Digits::encoded))]
pub fn to_hex(heap: Global, bytes: &[u8]) -> Result<String, AllocError>
    ensures { IfOk result (λ s. string_bytes s ≡ hexed bytes.now) }
{
    hex::encode(heap, bytes)
}

#[cfg(test)]
mod tests {
    use super::*;
    use std::process::Abort;
    use std::test::Fail;

    // The text spells the bytes; none, if there are none.
    fn spells(
        rt: &(impl Abort + AllocGlobal),
        text: &[u8],
        bytes: Option<&[u8]>,
    ) -> Result<(), Fail> {
        let read = from_hex(rt.alloc(), text)?;
        assert!(rt; read.as_ref().map(|b| b.as_slice()) == bytes);
        Ok(())
    }

    #[test]
    fn texts(rt: HostRuntime) -> Result<(), Fail> {
        spells(&rt, b"", Some(b""))?;
        spells(&rt, b"00ff7F", Some(&[0, 255, 127]))?;
        spells(&rt, b"aBCdEf19", Some(&[171, 205, 239, 25]))?;
        spells(&rt, b"0", None)?;
        spells(&rt, b"123", None)?;
        spells(&rt, b"0g", None)?;
        spells(&rt, b"g0", None)?;
        spells(&rt, b"1 23", None)?;
        spells(&rt, b"/0", None)?;
        spells(&rt, b":0", None)?;
        spells(&rt, b"zz0011", None)?;
        spells(&rt, b"0011zz", None)?;
        spells(&rt, b"00110", None)?;
        spells(&rt, b"0\xc3\xa90", None)?;
        spells(&rt, b"\xff\xff", None)
    }

    #[test]
    fn digits(rt: HostRuntime) -> Result<(), Fail> {
        let heap = rt.alloc();
        assert_eq!(rt;
            to_hex(heap, &[0, 9, 10, 15, 16, 171, 255])?.as_str(),
            "00090a0f10abff"
        );
        assert_eq!(rt; to_hex(heap, b"")?.as_str(), "");
        Ok(())
    }
}
