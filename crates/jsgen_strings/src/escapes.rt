// Escapes by number (ECMA-262, 12.7 and 12.9.4).
ghost use Rattle.std.specs.Prelude.{◌≡◌, ◌<◌, ◌≤◌, ◌++◌, ◌∷◌, [], ◌/◌, ◌%◌, true, flat_map, OnOk, OnErr};
ghost use Rattle.std.specs.Char.Escape.{encode_utf16};
ghost use Rattle.std.specs.Str.{encode_utf8_all};
ghost use Rattle.jsgen_syntax.specs.Buffer.{buffer_bytes, indent_byte, indent_width};
ghost use Rattle.jsgen_syntax.specs.Escapes.{upper_digit, lower_digit, four_digits, unit_escape, code_point_escape, character_escape};
ghost use Rattle.jsgen_strings.specs.Points.{are_ascii};

use jsgen_syntax::{CodeBuffer, Memory};

/// Appends bytes of ASCII.
pub fn print_ascii(code: &mut CodeBuffer, bytes: &[u8]) -> Result<(), Memory>
    requires { are_ascii bytes.now ≡ true }
    ensures appended { OnOk result (buffer_bytes code.new ≡ buffer_bytes code.old ++ bytes.now) }
    ensures err { OnErr result (buffer_bytes code.new ≡ buffer_bytes code.old) }
    ensures byte { indent_byte code.new ≡ indent_byte code.old }
    ensures width { indent_width code.new ≡ indent_width code.old }
{
    code.print_str(unsafe { std::str::from_utf8_unchecked(bytes) })
}

fn upper_digit(n: u32) -> u8
    requires { n < 16 }
    ensures { result ≡ upper_digit n }
{
    let n = n as u8;
    if n < 10 { b'0' + n } else { b'A' - 10 + n }
}

fn lower_digit(n: u32) -> u8
    requires { n < 16 }
    ensures { result ≡ lower_digit n }
{
    let n = n as u8;
    if n < 10 { b'0' + n } else { b'a' - 10 + n }
}

fn upper_digits(n: u32) -> [u8; 4]
    requires { n < 0x1_0000 }
    ensures { result ≡ four_digits upper_digit n }
{
    [
        upper_digit(n / 0x1000),
        upper_digit(n / 0x100 % 16),
        upper_digit(n / 16 % 16),
        upper_digit(n % 16),
    ]
}

/// Appends `\uXXXX`, with letters in lower case.
pub(crate) fn print_lower_unit(code: &mut CodeBuffer, unit: u32) -> Result<(), Memory>
    requires { unit < 0x1_0000 }
    ensures appended { OnOk result (buffer_bytes code.new ≡ buffer_bytes code.old ++ encode_utf8_all (unit_escape lower_digit unit)) }
    ensures err { OnErr result (buffer_bytes code.new ≡ buffer_bytes code.old) }
    ensures byte { indent_byte code.new ≡ indent_byte code.old }
    ensures width { indent_width code.new ≡ indent_width code.old }
{
    let a = lower_digit(unit / 0x1000);
    let b = lower_digit(unit / 0x100 % 16);
    let c = lower_digit(unit / 16 % 16);
    let d = lower_digit(unit % 16);
    print_ascii(code, &[b'\\', b'u', a, b, c, d])
}

/// Appends `\uXXXX`, or past U+FFFF `\u{X..}`.
pub fn print_character_escape(code: &mut CodeBuffer, c: u32) -> Result<(), Memory>
    requires { c < 0x11_0000 }
    ensures appended { OnOk result (buffer_bytes code.new ≡ buffer_bytes code.old ++ encode_utf8_all (character_escape c)) }
    ensures err { OnErr result (buffer_bytes code.new ≡ buffer_bytes code.old) }
    ensures byte { indent_byte code.new ≡ indent_byte code.old }
    ensures width { indent_width code.new ≡ indent_width code.old }
{
    let [e, f, g, h] = upper_digits(c % 0x1_0000);
    if c < 0x1_0000 {
        print_ascii(code, &[b'\\', b'u', e, f, g, h])
    } else if c < 0x10_0000 {
        let first = upper_digit(c / 0x1_0000);
        print_ascii(code, &[b'\\', b'u', b'{', first, e, f, g, h, b'}'])
    } else {
        print_ascii(code, &[b'\\', b'u', b'{', b'1', b'0', e, f, g, h, b'}'])
    }
}

/// Appends `\uXXXX` for each unit of the character.
pub fn print_unit_escapes(code: &mut CodeBuffer, c: u32) -> Result<(), Memory>
    requires { c < 0x11_0000 }
    ensures appended { OnOk result (buffer_bytes code.new
        ≡ buffer_bytes code.old ++ encode_utf8_all (flat_map (unit_escape upper_digit) (encode_utf16 c))) }
    ensures err { OnErr result (buffer_bytes code.new ≡ buffer_bytes code.old) }
    ensures byte { indent_byte code.new ≡ indent_byte code.old }
    ensures width { indent_width code.new ≡ indent_width code.old }
{
    if c < 0x1_0000 {
        let [e, f, g, h] = upper_digits(c);
        return print_ascii(code, &[b'\\', b'u', e, f, g, h]);
    }
    let [e, f, g, h] = upper_digits(0xD800 + (c - 0x1_0000) / 0x400);
    let [i, j, k, l] = upper_digits(0xDC00 + (c - 0x1_0000) % 0x400);
    print_ascii(code, &[b'\\', b'u', e, f, g, h, b'\\', b'u', i, j, k, l])
}
