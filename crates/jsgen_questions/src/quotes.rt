// Which strings minified text keeps out of backticks.
ghost use Rattle.std.specs.Prelude.{◌≡◌, Option, Some, None, option_map, codes, bytes_eq};
ghost use Rattle.std.specs.Str.{encode_utf8_all};
ghost use Rattle.jsgen_syntax.specs.Units.{js_units, joined_units, wtf8_units};
ghost use Rattle.jsgen_tree.specs.Tree.{Tree, Trees};
ghost use Rattle.jsgen_tree.specs.Inside.{inside_parentheses};
ghost use Rattle.jsgen_model.specs.Quotes.{is_named, is_one_string, is_require_call, defines_property, has_second_string, is_definition_call, is_equality, says_default, is_export_mark};
ghost use Rattle.jsgen_model.specs.Spell.{string_in};

use jsgen_syntax::{BinaryOperator, GetPrecedence, JsStr, Precedence};

/// Whether a call is `require("x")`, by whether that is its name and one string its arguments.
pub fn is_require_call(names_require: bool, one_string: bool) -> bool
    ensures { (callee : Tree) (arguments : Trees) → names_require ≡ is_named (codes "require") callee → one_string ≡ is_one_string arguments → result ≡ is_require_call callee arguments }
{
    names_require && one_string
}

/// Whether a call defines a property of this name, by whether it is such a call and its second argument a string.
pub fn is_definition_call(defines: bool, second_string: bool) -> bool
    ensures { (callee : Tree) (arguments : Trees) → defines ≡ defines_property callee → second_string ≡ has_second_string arguments → result ≡ is_definition_call callee arguments }
{
    defines && second_string
}

/// Whether an operand, which may be this string, is compared as `"default"` or `"__esModule"`.
pub fn is_export_mark(operator: BinaryOperator, string: Option<&JsStr>) -> bool
    ensures { (operand : Tree) → option_map (λ v. js_units v.now) string.entry ≡ string_in (inside_parentheses operand) → result ≡ is_export_mark operator operand }
{
    is_equality(operator) && says_default(string)
}

fn is_equality(operator: BinaryOperator) -> bool
    ensures { result ≡ is_equality operator }
{
    operator.precedence() == Precedence::Equals
}

fn says_default(string: Option<&JsStr>) -> bool
    ensures { (t : Tree) → option_map (λ v. js_units v.now) string.entry ≡ string_in t → result ≡ says_default t }
{
    match string {
        Some(value) => is_text(value, b"default") || is_text(value, b"__esModule"),
        None => false,
    }
}

// Whether the string is this text of ASCII.
fn is_text(value: &JsStr, text: &[u8]) -> bool
    requires units { wtf8_units text.now ≡ text.now }
    requires bytes { encode_utf8_all (joined_units text.now) ≡ text.now }
    ensures { result ≡ bytes_eq (js_units value.now) text.now }
{
    value.as_bytes() == text
}
