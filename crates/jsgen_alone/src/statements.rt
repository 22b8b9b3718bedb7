// Generated from tools/nodes/table.txt; edit that and run tools/nodes/generate.
// What is printed by itself, or at a level.
ghost use Rattle.jsgen_tree.specs.Rows.{program_row, directive_row, variable_declaration_row, variable_declarator_row, binding_identifier_row, expression_statement_row, block_statement_row, if_statement_row, empty_statement_row};
ghost use Rattle.jsgen_alone.specs.Alone.{of_type};
ghost use Rattle.jsgen_tree.specs.declared.types.NodeType.TheVariants as types;

use crate::PrintAlone;
use jsgen_inside::print_binding_identifier;
use jsgen_nodes::statements::{
    print_block_statement, print_directive, print_if_statement, print_program,
};
use jsgen_nodes::{Inside, PrintNode};
use jsgen_place::{Context, Place};
use jsgen_printer::Printer;
use jsgen_spelled::{
    print_empty_statement, print_expression_statement, print_variable_declaration,
    print_variable_declarator,
};
use jsgen_syntax::Precedence;
use jsgen_tree::{
    BindingIdentifier, BlockStatement, Directive, EmptyStatement, ExpressionStatement, IfStatement,
    Program, VariableDeclaration, VariableDeclarator,
};

impl<N: PrintNode> PrintAlone for Program<N> {
    ghost plain = { program_row N.plain };

    ghost how = { of_type types.Program };

    fn print_alone(&self, p: &mut Printer<'_>, context: Context) {
        let _ = context;
        print_program(self, p, Place::among_statements());
    }
}

impl PrintAlone for Directive {
    ghost plain = { directive_row };

    ghost how = { of_type types.Directive };

    fn print_alone(&self, p: &mut Printer<'_>, context: Context) {
        let _ = context;
        print_directive(self, p, Place::among_statements());
    }
}

impl<N: PrintNode> PrintAlone for VariableDeclaration<N> {
    ghost plain = { variable_declaration_row N.plain };

    ghost how = { of_type types.VariableDeclaration };

    fn print_alone(&self, p: &mut Printer<'_>, context: Context) {
        print_variable_declaration::<_, Inside>(
            self,
            p,
            Place::at_level(Precedence::Lowest, context),
        );
    }
}

impl<N: PrintNode> PrintAlone for VariableDeclarator<N> {
    ghost plain = { variable_declarator_row N.plain };

    ghost how = { of_type types.VariableDeclarator };

    fn print_alone(&self, p: &mut Printer<'_>, context: Context) {
        print_variable_declarator::<_, Inside>(
            self,
            p,
            Place::at_level(Precedence::Lowest, context),
        );
    }
}

impl PrintAlone for BindingIdentifier {
    ghost plain = { binding_identifier_row };

    ghost how = { of_type types.BindingIdentifier };

    fn print_alone(&self, p: &mut Printer<'_>, context: Context) {
        print_binding_identifier(self, p, Place::at_level(Precedence::Lowest, context));
    }
}

impl<N: PrintNode> PrintAlone for ExpressionStatement<N> {
    ghost plain = { expression_statement_row N.plain };

    ghost how = { of_type types.ExpressionStatement };

    fn print_alone(&self, p: &mut Printer<'_>, context: Context) {
        let _ = context;
        print_expression_statement::<_, Inside>(self, p, Place::among_statements());
    }
}

impl<N: PrintNode> PrintAlone for BlockStatement<N> {
    ghost plain = { block_statement_row N.plain };

    ghost how = { of_type types.BlockStatement };

    fn print_alone(&self, p: &mut Printer<'_>, context: Context) {
        let _ = context;
        print_block_statement(self, p, Place::among_statements());
    }
}

impl<N: PrintNode> PrintAlone for IfStatement<N> {
    ghost plain = { if_statement_row N.plain };

    ghost how = { of_type types.IfStatement };

    fn print_alone(&self, p: &mut Printer<'_>, context: Context) {
        let _ = context;
        print_if_statement(self, p, Place::among_statements());
    }
}

impl PrintAlone for EmptyStatement {
    ghost plain = { empty_statement_row };

    ghost how = { of_type types.EmptyStatement };

    fn print_alone(&self, p: &mut Printer<'_>, context: Context) {
        let _ = context;
        print_empty_statement(self, p, Place::among_statements());
    }
}
