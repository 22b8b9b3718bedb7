// Default exports (ECMA-262, 16.2.3), in which functions and classes stand.
ghost use Rattle.std.specs.Prelude.{◌≡◌, ◌&&◌};
ghost use Rattle.jsgen_syntax.specs.declared.precedence.Precedence.TheVariants.{Comma};
ghost use Rattle.jsgen_tree.specs.Rows.{export_default_declaration_row, in_export_default_declaration_kind, function_row, class_row};
ghost use Rattle.jsgen_place.specs.Place.{within_statement, in_brackets};
ghost use Rattle.jsgen_model.specs.Items.{◌⊕◌, soft_line, statement_end, default_export_begins};
ghost use Rattle.jsgen_model.specs.Spell.{spell, default_items, is_declared, is_declared_function, is_declared_class, is_pure_declaration};
ghost use Rattle.jsgen_printer.specs.Steps.{Lays};

use crate::PrintNode;
use crate::functions::print_function;
use crate::inside::Inside;
use jsgen_classes::print_class;
use jsgen_modules::begin_export;
use jsgen_place::Place;
use jsgen_printer::Printer;
use jsgen_syntax::Precedence;
use jsgen_tree::{
    Class, ClassKind, ExportDefaultDeclaration, ExportDefaultDeclarationKind, Function,
    FunctionKind,
};

pub fn print_export_default_declaration<N: PrintNode>(
    node: &ExportDefaultDeclaration<N>,
    p: &mut Printer<'_>,
    place: Place,
)
    ensures { Lays p.old p.new (spell (export_default_declaration_row N.plain node.now) place) }
{
    let _ = place;
    begin_export(is_pure_declaration(&node.declaration), node.span, p);
    p.print_hard_space();
    p.print_word("default");
    p.print_soft_space();
    print_export_default_declaration_kind(&node.declaration, p);
}

/// Whether a function is declared, and has no side effects.
pub fn is_pure_function<N>(node: &Function<N>) -> bool
    ensures { result ≡ (is_declared_function node.now.kind && node.now.pure) }
{
    is_declared_function(node.kind) && node.pure
}

// Whether what is exported is a function that is declared, and has no side effects.
fn is_pure_declaration<N: PrintNode>(node: &ExportDefaultDeclarationKind<N>) -> bool
    ensures { result ≡ is_pure_declaration (in_export_default_declaration_kind N.plain node.now) }
{
    match node {
        ExportDefaultDeclarationKind::Function(node) => is_pure_function(node),
        ExportDefaultDeclarationKind::Class(_) => false,
        ExportDefaultDeclarationKind::Expression(node) => node.get().is_pure_declaration(),
    }
}

/// Whether a function of this kind is declared.
pub fn is_declared_function(kind: FunctionKind) -> bool
    ensures { result ≡ is_declared_function kind }
{
    matches!(kind, FunctionKind::Declaration)
}

/// Whether a class of this kind is declared.
pub fn is_declared_class(kind: ClassKind) -> bool
    ensures { result ≡ is_declared_class kind }
{
    matches!(kind, ClassKind::Declaration)
}

/// A declaration, or an expression, with what ends it.
pub fn print_export_default_declaration_kind<N: PrintNode>(
    node: &ExportDefaultDeclarationKind<N>,
    p: &mut Printer<'_>,
)
    ensures { Lays p.old p.new (default_items (is_declared (in_export_default_declaration_kind N.plain node.now))
        (spell (in_export_default_declaration_kind N.plain node.now) within_statement)
        (spell (in_export_default_declaration_kind N.plain node.now) (in_brackets Comma))) }
{
    match node {
        ExportDefaultDeclarationKind::Function(node) => print_exported_function(node, p),
        ExportDefaultDeclarationKind::Class(node) => print_exported_class(node, p),
        ExportDefaultDeclarationKind::Expression(node) => print_exported_expression(node.get(), p),
    }
}

fn print_exported_function<N: PrintNode>(node: &Function<N>, p: &mut Printer<'_>)
    ensures { Lays p.old p.new (default_items (is_declared_function node.now.kind)
        (spell (function_row N.plain node.now) within_statement) (spell (function_row N.plain node.now) (in_brackets Comma))) }
{
    match node.kind {
        FunctionKind::Declaration => {
            print_function(node, p, Place::within_statement());
            p.print_soft_line();
        }
        FunctionKind::Expression => {
            p.begin_default_export();
            print_function(node, p, Place::in_brackets(Precedence::Comma));
            p.print_statement_end();
        }
    }
}

fn print_exported_class<N: PrintNode>(node: &Class<N>, p: &mut Printer<'_>)
    ensures { Lays p.old p.new (default_items (is_declared_class node.now.kind)
        (spell (class_row N.plain node.now) within_statement) (spell (class_row N.plain node.now) (in_brackets Comma))) }
{
    match node.kind {
        ClassKind::Declaration => {
            print_class::<_, Inside>(node, p, Place::within_statement());
            p.print_soft_line();
        }
        ClassKind::Expression => {
            p.begin_default_export();
            print_class::<_, Inside>(node, p, Place::in_brackets(Precedence::Comma));
            p.print_statement_end();
        }
    }
}

fn print_exported_expression<N: PrintNode>(node: &N, p: &mut Printer<'_>)
    ensures { Lays p.old p.new (default_items (is_declared (N.plain node.now))
        (spell (N.plain node.now) within_statement) (spell (N.plain node.now) (in_brackets Comma))) }
{
    if node.is_declared() {
        print_declared(node, p);
    } else {
        print_undeclared(node, p);
    }
}

fn print_declared<N: PrintNode>(node: &N, p: &mut Printer<'_>)
    ensures { Lays p.old p.new (spell (N.plain node.now) within_statement ⊕ soft_line) }
{
    node.print(p, Place::within_statement());
    p.print_soft_line();
}

fn print_undeclared<N: PrintNode>(node: &N, p: &mut Printer<'_>)
    ensures { Lays p.old p.new (default_export_begins ⊕ spell (N.plain node.now) (in_brackets Comma) ⊕ statement_end) }
{
    p.begin_default_export();
    node.print(p, Place::in_brackets(Precedence::Comma));
    p.print_statement_end();
}
