// What the raw text of a directive stands for (ECMA-262, 11.2.1).
ghost use Rattle.std.specs.Prelude.{◌≡◌, IfOk};
ghost use Rattle.jsgen_syntax.specs.Raw.{directive_value};
ghost use Rattle.jsgen_oracle.specs.Values.{items_of};

use crate::string::string_value_of;
use jsgen_syntax::{Memory, Quote};
use std::alloc::Global;

/// The units of the directive that has this raw text between its quotes, `"` or else `'`, or none where the text spells
/// a string in neither.
pub fn directive_value_of(alloc: Global, raw: &[char]) -> Result<Option<Vec<u16>>, Memory>
    ensures { IfOk result (λ r. items_of r ≡ directive_value raw.now) }
{
    match string_value_of(alloc, Quote::Double, raw)? {
        Some(units) => Ok(Some(units)),
        None => string_value_of(alloc, Quote::Single, raw),
    }
}
