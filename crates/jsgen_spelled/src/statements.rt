// Generated from tools/nodes/table.txt; edit that and run tools/nodes/generate.
// Rows by their spelling: programs, statements and declarations (ECMA-262, clauses 14 and 16).
ghost use Rattle.jsgen_tree.specs.Rows.{variable_declaration_row, variable_declarator_row, expression_statement_row, empty_statement_row};
ghost use Rattle.jsgen_model.specs.Spell.{spell};
ghost use Rattle.jsgen_printer.specs.Steps.{Lays};

use crate::members::Rows;
use jsgen_inside::{Nested, PrintInside};
use jsgen_lists::{print_list, print_value};
use jsgen_place::Place;
use jsgen_printer::Printer;
use jsgen_syntax::Precedence;
use jsgen_tree::{EmptyStatement, ExpressionStatement, VariableDeclaration, VariableDeclarator};

pub fn print_variable_declaration<N, L: PrintInside<N>>(
    node: &VariableDeclaration<N>,
    p: &mut Printer<'_>,
    place: Place,
)
    ensures { Lays p.old p.new (spell (variable_declaration_row L.plain node.now) place) }
{
    p.begin_line_if(place.in_list, node.span.start);
    p.print_mark(node.span);
    p.print_word(node.kind.as_str());
    p.print_soft_space();
    print_list::<_, Rows<L>>(&node.declarations, p, place.child(Precedence::Lowest));
    p.print_statement_end_if(place.in_list);
}

pub fn print_variable_declarator<N, L: PrintInside<N>>(
    node: &VariableDeclarator<N>,
    p: &mut Printer<'_>,
    place: Place,
)
    ensures { Lays p.old p.new (spell (variable_declarator_row L.plain node.now) place) }
{
    L::print(node.id.get(), p, place.child(Precedence::Lowest));
    print_value::<_, Nested<L>>(&node.init, p, place.child(Precedence::Comma));
}

pub fn print_expression_statement<N, L: PrintInside<N>>(
    node: &ExpressionStatement<N>,
    p: &mut Printer<'_>,
    place: Place,
)
    ensures { Lays p.old p.new (spell (expression_statement_row L.plain node.now) place) }
{
    let _ = place;
    p.print_comments(node.span.start);
    p.print_marked_indentation(false, node.span);
    p.begin_statement();
    L::print(
        node.expression.get(),
        p,
        Place::in_brackets(Precedence::Lowest),
    );
    p.print_statement_end();
}

pub fn print_empty_statement(node: &EmptyStatement, p: &mut Printer<'_>, place: Place)
    ensures { Lays p.old p.new (spell (empty_statement_row node.now) place) }
{
    let _ = place;
    p.print_comments(node.span.start);
    p.print_indentation();
    p.print_mark(node.span);
    p.print_semicolon();
    p.print_soft_line();
}
