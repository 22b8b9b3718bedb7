//! What rows ask of what nests in them, however that is printed, and what they share.
#![tactic(auto)]

mod bodies;
mod in_class;
mod names;
mod nested;

ghost use Rattle.std.specs.Prelude.{◌≡◌};
ghost use Rattle.jsgen_tree.specs.Tree.{Tree, type_of, span_of};
ghost use Rattle.jsgen_model.specs.Spell.{spell, before_expression, is_pure_declaration};
ghost use Rattle.jsgen_printer.specs.Printer.{manner_of};
ghost use Rattle.jsgen_printer.specs.Steps.{Lays};

pub use bodies::{print_at_link, print_behind_one_space, print_body, shape_of};
pub use in_class::PrintInClass;
use jsgen_place::Place;
use jsgen_printer::{CommentsBefore, Printer};
use jsgen_syntax::Span;
use jsgen_tree::NodeType;
pub use names::{print_binding_identifier, print_identifier_reference};
pub use nested::Nested;

/// How what nests is printed. The knot of the recursion, above the crates of rows, is the one that says so.
pub trait PrintInside<N> {
    // What it stands for.
    ghost plain: { N → Tree };

    fn node_type(node: &N) -> NodeType
        ensures { result ≡ type_of (plain node.now) };

    fn span(node: &N) -> Span
        ensures { result ≡ span_of (plain node.now) };

    fn print(node: &N, p: &mut Printer<'_>, place: Place)
        ensures { Lays p.old p.new (spell (plain node.now) place) };

    /// The comments before an expression.
    fn print_comments_before(node: &N, which: CommentsBefore, p: &mut Printer<'_>)
        ensures { Lays p.old p.new (before_expression (manner_of which) (plain node.now)) };

    /// Whether it is a function that is declared, and has no side effects.
    fn is_pure_declaration(node: &N) -> bool
        ensures { result ≡ is_pure_declaration (plain node.now) };
}
