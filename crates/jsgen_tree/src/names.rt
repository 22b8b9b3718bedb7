// Names that mean something.
ghost use Rattle.std.specs.Prelude.{◌≡◌};
ghost use Rattle.std.specs.Str.{chars};
ghost use Rattle.jsgen_tree.specs.Inside.{is_proto};

/// Whether a property of this name sets the prototype, where it has a value (ECMA-262, 13.2.5.5).
pub fn is_proto(name: &str) -> bool
    ensures { result ≡ is_proto (chars name.now) }
{
    name == "__proto__"
}
