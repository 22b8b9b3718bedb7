// The units of UTF-16 of a string, one after another.
ghost use Rattle.jsgen_strings.specs.Points.{ArePoints};

use jsgen_strings::take_point;
use jsgen_syntax::JsStr;

/// The units that are left of a string: maybe the second one of a pair, and those of the code points behind it.
#[derive(Clone, Copy)]
pub struct Units<'a> {
    second: Option<u16>,
    rest: &'a [u8],
    ghost points: { ArePoints rest.now },
}

/// A unit, and those behind it.
#[derive(Clone, Copy)]
struct First<'a> {
    unit: u64,
    behind: Units<'a>,
}

impl<'a> Units<'a> {
    ghost use Rattle.std.specs.Prelude.{◌≡◌, ◌∷◌, [], Option, Some, List, ℕ, MatchOption};
    ghost use Rattle.std.specs.Char.Escape.{encode_utf16};
    ghost use Rattle.jsgen_syntax.specs.Strings.{and_then};
    ghost use Rattle.jsgen_syntax.specs.Units.{js_units};
    ghost use Rattle.jsgen_rules.specs.UnitsLeft.{left, is_value, go_on};

    /// All units of a string.
    pub fn of(s: &'a JsStr) -> Units<'a>
        ensures { left result ≡ js_units s.now }
    {
        Units {
            second: None,
            rest: s.as_bytes(),
        }
    }

    /// Whether none is left.
    pub fn is_empty(self) -> bool
        ensures { result ≡ is_value (Some []) (left self.entry) }
    {
        match self.take() {
            Some(_) => false,
            None => true,
        }
    }

    fn take(self) -> Option<First<'a>>
        ensures { MatchOption result (left self.entry ≡ []) (λ first. left self.entry ≡ first.unit ∷ left first.behind) }
    {
        if let Some(second) = self.second {
            let behind = Units {
                second: None,
                rest: self.rest,
            };
            return Some(First {
                unit: second as u64,
                behind,
            });
        }
        if self.rest.is_empty() {
            return None;
        }
        let point = take_point(self.rest);
        if point.code < 0x1_0000 {
            let behind = Units {
                second: None,
                rest: point.behind,
            };
            return Some(First {
                unit: point.code as u64,
                behind,
            });
        }
        let second = 0xDC00 + (point.code - 0x1_0000) % 0x400;
        let behind = Units {
            second: Some(second as u16),
            rest: point.behind,
        };
        let unit = 0xD800 + (point.code - 0x1_0000) / 0x400;
        Some(First {
            unit: unit as u64,
            behind,
        })
    }

    /// Those behind this unit, where it comes first.
    fn behind_unit(self, unit: u64) -> Option<Units<'a>>
        ensures { (others : Option (List ℕ)) → is_value (and_then (unit ∷ []) others) (left self.entry) ≡ go_on others result }
    {
        match self.take() {
            Some(first) if first.unit == unit => Some(first.behind),
            _ => None,
        }
    }

    /// Those behind the units of this code point, where they come first.
    pub fn behind_code(self, code: u64) -> Option<Units<'a>>
        ensures { (others : Option (List ℕ)) → is_value (and_then (encode_utf16 code) others) (left self.entry) ≡ go_on others result }
    {
        if code < 0x1_0000 {
            return self.behind_unit(code);
        }
        let first = 0xD800 + (code - 0x1_0000) / 0x400;
        let second = 0xDC00 + (code - 0x1_0000) % 0x400;
        self.behind_pair(first, second)
    }

    fn behind_pair(self, first: u64, second: u64) -> Option<Units<'a>>
        ensures { (others : Option (List ℕ)) → is_value (and_then (first ∷ second ∷ []) others) (left self.entry) ≡ go_on others result }
    {
        match self.behind_unit(first) {
            Some(behind) => behind.behind_unit(second),
            None => None,
        }
    }
}
