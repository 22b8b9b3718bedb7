// What the members of classes ask of what nests in them.
ghost use Rattle.std.specs.Prelude.{map, option_map};
ghost use Rattle.jsgen_syntax.specs.declared.precedence.Precedence.TheVariants.{Comma};
ghost use Rattle.jsgen_tree.specs.Tree.{Tree, trees, optional};
ghost use Rattle.jsgen_tree.specs.Rows.{in_property_key, in_expression, in_statement, function_row};
ghost use Rattle.jsgen_place.specs.Place.{in_brackets};
ghost use Rattle.jsgen_model.specs.Spell.{spell, key_items, spell_value, method_words, spell_method, block_braces, spell_statements};
ghost use Rattle.jsgen_printer.specs.Steps.{Lays};

use jsgen_place::Place;
use jsgen_printer::Printer;
use jsgen_syntax::Span;
use jsgen_tree::{ExpressionNode, Function, PropertyKey, StatementNode};

/// How the parts of members of classes are printed, functions among them, whose own rows ask `PrintInside`.
pub trait PrintInClass<N> {
    // What it stands for.
    ghost plain: { N → Tree };

    /// A key, in brackets where the test holds.
    fn print_key(key: &PropertyKey<N>, bracketed: bool, p: &mut Printer<'_>)
        ensures { Lays p.old p.new (key_items bracketed (in_property_key plain key.now) (spell (in_property_key plain key.now) (in_brackets Comma))) };

    /// The value of a field, behind `=`.
    fn print_initializer(value: &Option<ExpressionNode<N>>, p: &mut Printer<'_>, place: Place)
        ensures { Lays p.old p.new (spell_value (optional (option_map (in_expression plain) value.now)) place) };

    /// What stands before the key of a method, by its function.
    fn print_method_words(function: &Function<N>, p: &mut Printer<'_>)
        ensures { Lays p.old p.new (method_words (function_row plain function.now)) };

    /// The function of a method, behind its key.
    fn print_method(function: &Function<N>, p: &mut Printer<'_>, place: Place)
        ensures { Lays p.old p.new (spell_method (function_row plain function.now) place) };

    /// Statements in the braces of a span.
    fn print_block(span: Span, statements: &[StatementNode<N>], p: &mut Printer<'_>)
        ensures { Lays p.old p.new (block_braces span (trees (map (in_statement plain) statements.now)) (spell_statements (trees (map (in_statement plain) statements.now)))) };
}
