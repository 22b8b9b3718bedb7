//! Print functions: one for each row, generic in the tree's recursive type, and one impl that ties the knot.
#![tactic(auto)]

pub mod assignments;
pub mod choices;
pub mod classes;
pub mod collections;
mod commented;
pub mod expressions;
pub mod functions;
mod inside;
pub mod loops;
pub mod modules;
pub mod operations;
pub mod patterns;
pub mod quotes;
pub mod sets;
pub mod statements;
pub mod targets;
pub mod templates;

ghost use Rattle.std.specs.Prelude.{◌≡◌, option_map};
ghost use Rattle.std.specs.Str.{chars};
ghost use Rattle.jsgen_syntax.specs.Units.{js_units};
ghost use Rattle.jsgen_tree.specs.Tree.{Tree, type_of, span_of};
ghost use Rattle.jsgen_tree.specs.Inside.{inside_parentheses, ends_open, looked_up_in, named_by, bound_in, bound_by, written_name_in, is_negative};
ghost use Rattle.jsgen_tree.specs.Plain.{node_plain};
ghost use Rattle.jsgen_model.specs.Quotes.{is_member_of, is_named, is_key_of_exports};
ghost use Rattle.jsgen_model.specs.Spell.{spell, method_words, spell_method, string_in, string_statement, span_inside, target_named, is_declared, before_expression, is_pure_declaration};
ghost use Rattle.jsgen_printer.specs.Printer.{manner_of};
ghost use Rattle.jsgen_printer.specs.Steps.{Lays};
ghost use Rattle.jsgen_questions.specs.Names.{is_binding_name};
ghost use Rattle.jsgen_questions.specs.Operands.{operand_of};

use commented::print_comments_before;
use functions::{print_behind_name, print_method_words};
pub use inside::{InClass, Inside};
use jsgen_asked::{as_function, bound, class_head, is_negative, looked_up, written_name};
use jsgen_place::Place;
use jsgen_printer::{CommentsBefore, Printer};
use jsgen_questions::{
    Operand, bare_looked_up, ends_open, inside_span, is_binding_name, is_member, is_named,
    operand_of, string, string_statement,
};
use jsgen_syntax::{JsStr, Span};
use jsgen_tree::{
    BindingIdentifier, Declaration, Expression, GetSpan, IdentifierReference, Node, NodeType,
    Statement,
};
use modules::{is_declared_class, is_declared_function, is_pure_function};
use quotes::{is_key_of_exports, member_is_key_of_exports};
use sets::{
    print_assignment_target, print_binding_pattern, print_class_element, print_declaration,
    print_expression, print_statement,
};

/// Where trees nest: what the print functions ask of a child. Only `Node` implements it.
pub trait PrintNode {
    ghost plain: { Self → Tree };

    fn node_type(&self) -> NodeType
        ensures { result ≡ type_of (plain self.now) };

    fn span(&self) -> Span
        ensures { result ≡ span_of (plain self.now) };

    /// Where what an expression statement says stands, without the parentheses that it may have round it.
    fn inside_span(&self) -> Span
        ensures { result ≡ span_inside (plain self.now) };

    fn print(&self, p: &mut Printer<'_>, place: Place)
        ensures { Lays p.old p.new (spell (plain self.now) place) };

    /// The comments before an expression.
    fn print_comments_before(&self, which: CommentsBefore, p: &mut Printer<'_>)
        ensures { Lays p.old p.new (before_expression (manner_of which) (plain self.now)) };

    /// Whether it is a function that is declared, and has no side effects.
    fn is_pure_declaration(&self) -> bool
        ensures { result ≡ is_pure_declaration (plain self.now) };

    /// What stands before the key of a method, by its function. Nothing is printed of what is no function.
    fn print_method_words(&self, p: &mut Printer<'_>)
        ensures { Lays p.old p.new (method_words (plain self.now)) };

    /// The function of a method or an accessor, behind its key. Nothing is printed of what is no function.
    fn print_as_method(&self, p: &mut Printer<'_>, place: Place)
        ensures { Lays p.old p.new (spell_method (plain self.now) place) };

    /// What matters of it as an operand.
    fn operand(&self) -> Operand
        ensures { result ≡ operand_of (inside_parentheses (plain self.now)) };

    /// The string that it is, without the parentheses that it may have round it.
    fn string(&self) -> Option<&JsStr>
        ensures { option_map (λ v. js_units v.now) result ≡ string_in (inside_parentheses (plain self.now)) };

    /// The string that is the whole of it as a statement.
    fn string_statement(&self) -> Option<&JsStr>
        ensures { option_map (λ v. js_units v.now) result ≡ string_statement (plain self.now) };

    /// Whether it ends in an `if` without `else`.
    fn ends_open(&self) -> bool
        ensures { result ≡ ends_open (plain self.now) };

    /// Whether it is a reference to this name.
    fn is_named(&self, name: &str) -> bool
        ensures { result ≡ is_named (chars name.now) (plain self.now) };

    /// The reference itself, with its number, without the parentheses that it may have round it.
    fn looked_up(&self) -> Option<&IdentifierReference>
        ensures { option_map (λ n. named_by n.now) result ≡ looked_up_in (inside_parentheses (plain self.now)) };

    /// The name that a pattern is, with its number, by itself or with a default.
    fn bound(&self) -> Option<&BindingIdentifier>
        ensures { option_map (λ n. bound_by n.now) result ≡ bound_in (plain self.now) };

    /// The reference itself, where no parentheses are round it, be it where a target may have a default or elsewhere.
    fn bare_looked_up(&self) -> Option<&IdentifierReference>
        ensures reference { option_map (λ n. named_by n.now) result ≡ looked_up_in (plain self.now) }
        ensures target { option_map (λ n. named_by n.now) result ≡ target_named (plain self.now) };

    /// Whether the key in what is given a value is never in backticks.
    fn is_key_of_exports(&self) -> bool
        ensures { result ≡ is_key_of_exports (plain self.now) };

    /// The name that stands there as it is written.
    fn written_name(&self) -> Option<&str>
        ensures { option_map (λ s. chars s.now) result ≡ written_name_in (plain self.now) };

    /// Whether it is the member of this name of a reference to that name, by no optional link.
    fn is_member(&self, object: &str, name: &str) -> bool
        ensures { result ≡ is_member_of (chars object.now) (chars name.now) (plain self.now) };

    /// Whether it is a name that is bound.
    fn is_binding_name(&self) -> bool
        ensures { result ≡ is_binding_name (plain self.now) };

    /// Whether it is a function or a class that is declared.
    fn is_declared(&self) -> bool
        ensures { result ≡ is_declared (plain self.now) };

    /// Whether it is a number or a big integer with a minus before it, without the parentheses that it may have round it.
    fn is_negative(&self) -> bool
        ensures { result ≡ is_negative (inside_parentheses (plain self.now)) };
}

/// The knot: the one recursion.
impl PrintNode for Node {
    ghost plain = { λ n. node_plain n };

    fn node_type(&self) -> NodeType {
        self.node_type()
    }

    fn span(&self) -> Span {
        GetSpan::span(self)
    }

    fn inside_span(&self) -> Span {
        inside_span(self)
    }

    #[cycle(node)]
    fn print(&self, p: &mut Printer<'_>, place: Place) {
        match self {
            Node::Expression(node) => print_expression(node, p, place),
            Node::AssignmentTarget(node) => print_assignment_target(node, p, place),
            Node::Statement(node) => print_statement(node, p, place),
            Node::Declaration(node) => print_declaration(node, p, place),
            Node::BindingPattern(node) => print_binding_pattern(node, p, place),
            Node::ClassElement(node) => print_class_element(node, p, place),
        }
    }

    fn print_comments_before(&self, which: CommentsBefore, p: &mut Printer<'_>) {
        if p.keeps_comments() {
            print_comments_before(self, which, p);
        }
    }

    fn is_pure_declaration(&self) -> bool {
        match as_function(self) {
            Some(function) => is_pure_function(function),
            None => false,
        }
    }

    #[cycle(node)]
    fn print_method_words(&self, p: &mut Printer<'_>) {
        match self {
            Node::Expression(expression) => match expression {
                Expression::Function(function) => print_method_words(function, p),
                _ => {}
            },
            Node::AssignmentTarget(_) => {}
            Node::Statement(statement) => match statement {
                Statement::Declaration(declaration) => declaration.get().print_method_words(p),
                _ => {}
            },
            Node::Declaration(declaration) => match declaration {
                Declaration::Function(function) => print_method_words(function, p),
                _ => {}
            },
            Node::BindingPattern(_) => {}
            Node::ClassElement(_) => {}
        }
    }

    #[cycle(node)]
    fn print_as_method(&self, p: &mut Printer<'_>, place: Place) {
        match self {
            Node::Expression(expression) => match expression {
                Expression::Function(function) => print_behind_name(function, p, place),
                _ => {}
            },
            Node::AssignmentTarget(_) => {}
            Node::Statement(statement) => match statement {
                Statement::Declaration(declaration) => declaration.get().print_as_method(p, place),
                _ => {}
            },
            Node::Declaration(declaration) => match declaration {
                Declaration::Function(function) => print_behind_name(function, p, place),
                _ => {}
            },
            Node::BindingPattern(_) => {}
            Node::ClassElement(_) => {}
        }
    }

    fn operand(&self) -> Operand {
        operand_of(self)
    }

    fn string(&self) -> Option<&JsStr> {
        string(self)
    }

    fn string_statement(&self) -> Option<&JsStr> {
        string_statement(self)
    }

    fn ends_open(&self) -> bool {
        ends_open(self)
    }

    fn is_member(&self, object: &str, name: &str) -> bool {
        is_member(self, object, name)
    }

    fn is_binding_name(&self) -> bool {
        is_binding_name(self)
    }

    fn is_named(&self, name: &str) -> bool {
        is_named(self, name)
    }

    fn looked_up(&self) -> Option<&IdentifierReference> {
        looked_up(self)
    }

    fn bound(&self) -> Option<&BindingIdentifier> {
        bound(self)
    }

    fn bare_looked_up(&self) -> Option<&IdentifierReference> {
        bare_looked_up(self)
    }

    #[cycle(node)]
    fn is_key_of_exports(&self) -> bool {
        match self {
            Node::Expression(expression) => match expression {
                Expression::ComputedMemberExpression(node) => member_is_key_of_exports(node),
                _ => false,
            },
            Node::AssignmentTarget(target) => is_key_of_exports(target),
            Node::Statement(statement) => match statement {
                Statement::Declaration(declaration) => declaration.get().is_key_of_exports(),
                _ => false,
            },
            Node::Declaration(_) => false,
            Node::BindingPattern(_) => false,
            Node::ClassElement(_) => false,
        }
    }

    fn written_name(&self) -> Option<&str> {
        written_name(self)
    }

    fn is_declared(&self) -> bool {
        match as_function(self) {
            Some(function) => is_declared_function(function.kind),
            None => match class_head(self) {
                Some((kind, _)) => is_declared_class(kind),
                None => false,
            },
        }
    }

    fn is_negative(&self) -> bool {
        is_negative(self)
    }
}
