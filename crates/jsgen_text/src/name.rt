// Names.
ghost use Rattle.std.specs.Prelude.{◌≡◌, ◌<◌, ◌++◌, true, IfOk, OnOk, OnErr};
ghost use Rattle.std.specs.List.{list_any};
ghost use Rattle.std.specs.Str.{chars, encode_utf8_all};
ghost use Rattle.jsgen_syntax.specs.Buffer.{buffer_bytes, indent_byte, indent_width, AppendsPrefix};
ghost use Rattle.jsgen_syntax.specs.Escapes.{has_escapes, is_past_ascii, name_character, name_text};

use jsgen_strings::{plain_len, print_ascii, print_character_escape, take_point};
use jsgen_syntax::{CodeBuffer, Memory};

/// Appends a name, with escapes for what isn't ASCII where `ascii_only`; after `Memory` maybe fewer bytes. Tells whether escapes were written.
pub fn print_name_text(code: &mut CodeBuffer, s: &str, ascii_only: bool) -> Result<bool, Memory>
    ensures appended { OnOk result (buffer_bytes code.new
        ≡ buffer_bytes code.old ++ encode_utf8_all (name_text ascii_only (chars s.now))) }
    ensures err { OnErr result (AppendsPrefix (buffer_bytes code.old) (buffer_bytes code.new)
        (encode_utf8_all (name_text ascii_only (chars s.now)))) }
    ensures escapes { IfOk result (λ b. b ≡ has_escapes ascii_only (chars s.now)) }
    ensures byte { indent_byte code.new ≡ indent_byte code.old }
    ensures width { indent_width code.new ≡ indent_width code.old }
{
    if ascii_only {
        print_name_escaped(code, s)?;
        Ok(holds_past_ascii(s.as_bytes()))
    } else {
        code.print_str(s)?;
        Ok(false)
    }
}

fn holds_past_ascii(bytes: &[u8]) -> bool
    ensures { result ≡ list_any is_past_ascii bytes.now }
{
    for byte in bytes {
        if 128 <= *byte {
            return true;
        }
    }
    false
}

/// Appends a name with an escape for each character that isn't ASCII; after `Memory` maybe fewer bytes.
pub(crate) fn print_name_escaped(code: &mut CodeBuffer, s: &str) -> Result<(), Memory>
    ensures appended { OnOk result (buffer_bytes code.new
        ≡ buffer_bytes code.old ++ encode_utf8_all (name_text true (chars s.now))) }
    ensures err { OnErr result (AppendsPrefix (buffer_bytes code.old) (buffer_bytes code.new)
        (encode_utf8_all (name_text true (chars s.now)))) }
    ensures byte { indent_byte code.new ≡ indent_byte code.old }
    ensures width { indent_width code.new ≡ indent_width code.old }
{
    let mut rest = s.as_bytes();
    'points: while !rest.is_empty() {
        let n = plain_len(rest);
        if n == 0 {
            let point = take_point(rest);
            print_name_character(code, point.code)?;
            rest = point.behind;
        } else {
            let (plain, behind) = rest.split_at(n);
            print_ascii(code, plain)?;
            rest = behind;
        }
    }
    Ok(())
}

fn print_name_character(code: &mut CodeBuffer, c: u32) -> Result<(), Memory>
    requires { c < 0x11_0000 }
    ensures appended { OnOk result (buffer_bytes code.new
        ≡ buffer_bytes code.old ++ encode_utf8_all (name_character true c)) }
    ensures err { OnErr result (buffer_bytes code.new ≡ buffer_bytes code.old) }
    ensures byte { indent_byte code.new ≡ indent_byte code.old }
    ensures width { indent_width code.new ≡ indent_width code.old }
{
    if c < 128 {
        code.print_ascii_byte(c as u8)
    } else {
        print_character_escape(code, c)
    }
}
