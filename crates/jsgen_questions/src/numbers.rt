// What a number asks of a dot behind it, and of brackets where it is a key.
ghost use Rattle.std.specs.Prelude.{◌≡◌, ◌==◌, codes};
ghost use Rattle.std.specs.List.{list_any};
ghost use Rattle.std.specs.Str.{chars};
ghost use Rattle.jsgen_tree.specs.Tree.{Tree};
ghost use Rattle.jsgen_tree.specs.Inside.{is_negative_number};
ghost use Rattle.jsgen_model.specs.Numbers.{takes_no_dot};
ghost use Rattle.jsgen_model.specs.Spell.{needs_brackets};

/// Whether a dot behind the number is no part of it: it has a dot, an exponent or a prefix.
pub fn takes_no_dot(text: &str) -> bool
    ensures { result ≡ takes_no_dot (chars text.now) }
{
    text.chars().any(bars_dot)
}

fn bars_dot(c: char) -> bool
    ensures { result ≡ list_any (λ d. c == d) (codes ".eExXoObB") }
{
    matches!(c, '.' | 'e' | 'E' | 'x' | 'X' | 'o' | 'O' | 'b' | 'B')
}

/// Whether the key of a property stands in brackets, by whether it is a negative number.
pub fn needs_brackets(computed: bool, negative: bool) -> bool
    ensures { (key : Tree) → negative ≡ is_negative_number key → result ≡ needs_brackets computed key }
{
    computed || negative
}
