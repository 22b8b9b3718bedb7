// Which properties are printed as their value alone.
ghost use Rattle.std.specs.Prelude.{◌≡◌, if◌then◌else◌};
ghost use Rattle.std.specs.Str.{chars};
ghost use Rattle.jsgen_tree.specs.Inside.{is_proto};

use jsgen_tree::is_proto;

/// Whether the key of a property and its colon are left out, by whether the value is printed as the name that is the key. Of
/// `__proto__` only the property tells (ECMA-262, 13.2.5.5).
pub fn is_alone(shorthand: bool, name: &str, said: bool) -> bool
    ensures { result ≡ if is_proto (chars name.now) then shorthand else said }
{
    if is_proto(name) { shorthand } else { said }
}
