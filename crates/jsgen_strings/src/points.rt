// The code points of a text, from its bytes.
ghost use Rattle.std.specs.Prelude.{◌≡◌, ◌<◌, ◌≤◌, ◌∷◌, ◌+◌, length, take, true};
ghost use Rattle.std.specs.Char.{encode_utf8, is_ascii_digit};
ghost use Rattle.std.specs.List.{list_all};
ghost use Rattle.std.specs.Str.{chars, continuation_len};
ghost use Rattle.jsgen_syntax.specs.Escapes.{begins, begins_with, is_past_ascii};
ghost use Rattle.jsgen_syntax.specs.Raw.{begins_with_dollar};
ghost use Rattle.jsgen_syntax.specs.Strings.{begins_script};
ghost use Rattle.jsgen_strings.specs.Points.{ArePoints, first_point, is_plain};

/// A code point, its bytes, and the bytes behind it.
#[derive(Clone, Copy)]
pub struct Point<'a> {
    pub code: u32,
    pub bytes: &'a [u8],
    pub behind: &'a [u8],
}

/// The first code point of some.
pub fn take_point(bytes: &[u8]) -> Point
    requires points { ArePoints bytes.now }
    requires some { 0 < length bytes.now }
    ensures chars { chars bytes.now ≡ result.code ∷ chars result.behind.now }
    ensures code { result.code < 0x11_0000 }
    ensures bytes { result.bytes.now ≡ encode_utf8 result.code }
    ensures behind { ArePoints result.behind.now }
    ensures shorter { length result.behind.now < length bytes.now }
{
    let code = first_code(bytes);
    let (bytes, behind) = bytes.split_at(point_len(bytes[0]));
    Point {
        code,
        bytes,
        behind,
    }
}

// How many bytes a code point has that begins with this byte.
fn point_len(first: u8) -> usize
    ensures { result ≡ continuation_len first + 1 }
{
    if first < 0x80 {
        1
    } else if first < 0xE0 {
        2
    } else if first < 0xF0 {
        3
    } else {
        4
    }
}

fn first_code(bytes: &[u8]) -> u32
    requires points { ArePoints bytes.now }
    requires some { 0 < length bytes.now }
    ensures { result ≡ first_point (chars bytes.now) }
{
    let first = bytes[0] as u32;
    if first < 0x80 {
        return first;
    }
    let second = bytes[1] as u32 - 0x80;
    if first < 0xE0 {
        return (first - 0xC0) * 0x40 + second;
    }
    let third = bytes[2] as u32 - 0x80;
    if first < 0xF0 {
        return ((first - 0xE0) * 0x40 + second) * 0x40 + third;
    }
    let fourth = bytes[3] as u32 - 0x80;
    (((first - 0xF0) * 0x40 + second) * 0x40 + third) * 0x40 + fourth
}

/// How many bytes at the front are plain.
pub fn plain_len(bytes: &[u8]) -> usize
    ensures within { result ≤ length bytes.now }
    ensures plain { list_all is_plain (take result bytes.now) ≡ true }
{
    for (i, byte) in bytes.iter().enumerate() {
        if !is_plain(*byte) {
            return i;
        }
    }
    bytes.len()
}

fn is_plain(byte: u8) -> bool
    ensures { result ≡ is_plain byte }
{
    32 <= byte && byte < 128 && !matches!(byte, b'"' | b'$' | b'\'' | b'/' | b'<' | b'\\' | b'`')
}

/// Whether an ASCII digit is the next character.
pub(crate) fn begins_with_digit(bytes: &[u8]) -> bool
    requires { ArePoints bytes.now }
    ensures { result ≡ begins is_ascii_digit (chars bytes.now) }
{
    match bytes.split_first() {
        Some((first, _)) => first.is_ascii_digit(),
        None => false,
    }
}

/// Whether `{` is the next character.
pub(crate) fn begins_with_brace(bytes: &[u8]) -> bool
    requires { ArePoints bytes.now }
    ensures { result ≡ begins_with 123 (chars bytes.now) }
{
    match bytes.split_first() {
        Some((first, _)) => *first == b'{',
        None => false,
    }
}

/// Whether the next character isn't ASCII.
pub fn begins_past_ascii(bytes: &[u8]) -> bool
    requires { ArePoints bytes.now }
    ensures { result ≡ begins is_past_ascii (chars bytes.now) }
{
    match bytes.split_first() {
        Some((first, _)) => 128 <= *first,
        None => false,
    }
}

/// Whether `$` is the next character, and no `{` follows it.
pub fn begins_with_dollar(bytes: &[u8]) -> bool
    requires { ArePoints bytes.now }
    ensures { result ≡ begins_with_dollar (chars bytes.now) }
{
    match bytes.split_first() {
        Some((first, behind)) => *first == b'$' && !begins_with_brace(behind),
        None => false,
    }
}

/// Whether the next characters are the letters of `script`, in upper or lower case.
pub fn begins_script(bytes: &[u8]) -> bool
    requires { ArePoints bytes.now }
    ensures { result ≡ begins_script (chars bytes.now) }
{
    spells_script(bytes)
}

fn spells_script(bytes: &[u8]) -> bool
    ensures { result ≡ begins_script bytes.now }
{
    let n = bytes.len().min(6);
    bytes[..n].eq_ignore_ascii_case(b"script")
}
