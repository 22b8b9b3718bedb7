// Units of UTF-16 as bytes in WTF-8.
ghost use Rattle.std.specs.Prelude.{◌≡◌, ◌<◌, ◌≤◌, ◌++◌, ◌∷◌, ◌||◌, ◌&&◌, length, OnOk};
ghost use Rattle.std.specs.Char.{encode_utf8};
ghost use Rattle.std.specs.Char.Utf16.{is_high_surrogate, is_low_surrogate};
ghost use Rattle.jsgen_syntax.specs.Wtf8.{has_lone, is_surrogate, joined_units};

use crate::memory::Memory;

fn is_pair(first: u16, second: u16) -> bool
    ensures { result ≡ (is_high_surrogate first && is_low_surrogate second) }
{
    0xD800 <= first && first < 0xDC00 && 0xDC00 <= second && second < 0xE000
}

pub(crate) fn is_surrogate(code: u32) -> bool
    ensures { result ≡ is_surrogate code }
{
    0xD800 <= code && code < 0xE000
}

// The code point at the front, and the units behind it.
pub(crate) fn take_code<'a>(first: u16, behind: &'a [u16]) -> (u32, &'a [u16])
    ensures joined { joined_units (first ∷ behind.now) ≡ result.0 ∷ joined_units result.1.now }
    ensures lone { has_lone (first ∷ behind.now) ≡ (is_surrogate result.0 || has_lone result.1.now) }
    ensures bound { result.0 < 0x11_0000 }
    ensures shorter { length result.1.now ≤ length behind.now }
{
    let Some((second, rest)) = behind.split_first() else {
        return (first as u32, behind);
    };
    if is_pair(first, *second) {
        let high = first as u32 - 0xD800;
        let low = *second as u32 - 0xDC00;
        (0x1_0000 + high * 0x400 + low, rest)
    } else {
        (first as u32, behind)
    }
}

// Appends the code point, which may be a surrogate.
pub(crate) fn push_code(bytes: &mut Vec<u8>, code: u32) -> Result<(), Memory>
    requires { code < 0x11_0000 }
    ensures { OnOk result (bytes.new.items ≡ bytes.old.items ++ encode_utf8 code) }
{
    if code < 0x80 {
        bytes.push(code as u8)?;
        return Ok(());
    }
    let last = (0x80 + code % 0x40) as u8;
    let second = (0x80 + code / 0x40 % 0x40) as u8;
    if code < 0x800 {
        bytes.extend_from_slice(&[(0xC0 + code / 0x40) as u8, last])?;
    } else if code < 0x1_0000 {
        bytes.extend_from_slice(&[(0xE0 + code / 0x1000) as u8, second, last])?;
    } else {
        let third = (0x80 + code / 0x1000 % 0x40) as u8;
        bytes.extend_from_slice(&[(0xF0 + code / 0x4_0000) as u8, third, second, last])?;
    }
    Ok(())
}
