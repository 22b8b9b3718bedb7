ghost use Rattle.std.specs.Prelude.{◌≡◌, true};
ghost use Rattle.std.specs.Str.{encode_utf8_all};
ghost use Rattle.jsgen_syntax.specs.Wtf8.{are_units, has_lone, joined_units, wtf8_units};

use crate::code_points::{is_surrogate, push_code, take_code};
use crate::memory::Memory;
use std::alloc::Global;

/// The value of a string: any units of UTF-16, kept as WTF-8.
#[derive(Debug, PartialEq, Eq, Drop)]
pub struct JsStr {
    bytes: Vec<u8>,
    lone: bool,
    ghost units: { are_units (wtf8_units bytes.items) ≡ true },
    ghost joined: { encode_utf8_all (joined_units (wtf8_units bytes.items)) ≡ bytes.items },
    ghost exact: { has_lone (wtf8_units bytes.items) ≡ lone },
}

impl JsStr {
    ghost use Rattle.std.specs.Prelude.{IfOk, IfSome, is_none, flat_map};
    ghost use Rattle.std.specs.Str.{chars};
    ghost use Rattle.std.specs.Char.Escape.{encode_utf16};
    ghost use Rattle.jsgen_syntax.specs.Units.{js_units};

    /// The units of a text.
    pub fn from_text(alloc: Global, s: &str) -> Result<JsStr, Memory>
        ensures { IfOk result (λ r. js_units r ≡ flat_map encode_utf16 (chars s.now)) }
    {
        let bytes = Vec::from_slice(alloc, s.as_bytes())?;
        Ok(JsStr { bytes, lone: false })
    }

    /// Any units: pairs of surrogates are joined, and lone surrogates stay.
    pub fn from_units(alloc: Global, units: &[u16]) -> Result<JsStr, Memory>
        ensures { IfOk result (λ r. js_units r ≡ units.now) }
    {
        let mut bytes = Vec::new(alloc);
        let mut lone = false;
        let mut rest = units;
        'codes: while let Some((first, behind)) = rest.split_first() {
            let (code, next) = take_code(*first, behind);
            push_code(&mut bytes, code)?;
            lone = lone || is_surrogate(code);
            rest = next;
        }
        Ok(JsStr { bytes, lone })
    }

    /// Whether some surrogate is in no pair.
    pub fn has_lone_surrogate(&self) -> bool
        ensures { result ≡ has_lone (js_units self.now) }
    {
        self.lone
    }

    /// The bytes in WTF-8.
    pub fn as_bytes(&self) -> &[u8]
        ensures { result.now ≡ encode_utf8_all (joined_units (js_units self.now)) }
    {
        self.bytes.as_slice()
    }

    /// The text, unless a lone surrogate is held.
    pub fn as_str(&self) -> Option<&str>
        ensures none { is_none result ≡ has_lone (js_units self.now) }
        ensures text { IfSome result (λ s. s.now ≡ encode_utf8_all (joined_units (js_units self.now))) }
    {
        if self.lone {
            None
        } else {
            Some(unsafe { std::str::from_utf8_unchecked(self.bytes.as_slice()) })
        }
    }
}
