// Generated from tools/nodes/table.txt; edit that and run tools/nodes/generate.
// What is printed by itself, or at a level.
ghost use Rattle.jsgen_tree.specs.Rows.{for_statement_row, for_in_statement_row, for_of_statement_row, while_statement_row, do_while_statement_row, label_identifier_row, labeled_statement_row, continue_statement_row, break_statement_row, return_statement_row, throw_statement_row, debugger_statement_row};
ghost use Rattle.jsgen_alone.specs.Alone.{of_type};
ghost use Rattle.jsgen_tree.specs.declared.types.NodeType.TheVariants as types;

use crate::PrintAlone;
use jsgen_nodes::loops::{
    print_do_while_statement, print_for_in_statement, print_for_of_statement, print_for_statement,
};
use jsgen_nodes::{Inside, PrintNode};
use jsgen_place::{Context, Place};
use jsgen_printer::Printer;
use jsgen_spelled::{
    print_break_statement, print_continue_statement, print_debugger_statement,
    print_label_identifier, print_labeled_statement, print_return_statement, print_throw_statement,
    print_while_statement,
};
use jsgen_syntax::Precedence;
use jsgen_tree::{
    BreakStatement, ContinueStatement, DebuggerStatement, DoWhileStatement, ForInStatement,
    ForOfStatement, ForStatement, LabelIdentifier, LabeledStatement, ReturnStatement,
    ThrowStatement, WhileStatement,
};

impl<N: PrintNode> PrintAlone for ForStatement<N> {
    ghost plain = { for_statement_row N.plain };

    ghost how = { of_type types.ForStatement };

    fn print_alone(&self, p: &mut Printer<'_>, context: Context) {
        let _ = context;
        print_for_statement(self, p, Place::among_statements());
    }
}

impl<N: PrintNode> PrintAlone for ForInStatement<N> {
    ghost plain = { for_in_statement_row N.plain };

    ghost how = { of_type types.ForInStatement };

    fn print_alone(&self, p: &mut Printer<'_>, context: Context) {
        let _ = context;
        print_for_in_statement(self, p, Place::among_statements());
    }
}

impl<N: PrintNode> PrintAlone for ForOfStatement<N> {
    ghost plain = { for_of_statement_row N.plain };

    ghost how = { of_type types.ForOfStatement };

    fn print_alone(&self, p: &mut Printer<'_>, context: Context) {
        let _ = context;
        print_for_of_statement(self, p, Place::among_statements());
    }
}

impl<N: PrintNode> PrintAlone for WhileStatement<N> {
    ghost plain = { while_statement_row N.plain };

    ghost how = { of_type types.WhileStatement };

    fn print_alone(&self, p: &mut Printer<'_>, context: Context) {
        let _ = context;
        print_while_statement::<_, Inside>(self, p, Place::among_statements());
    }
}

impl<N: PrintNode> PrintAlone for DoWhileStatement<N> {
    ghost plain = { do_while_statement_row N.plain };

    ghost how = { of_type types.DoWhileStatement };

    fn print_alone(&self, p: &mut Printer<'_>, context: Context) {
        let _ = context;
        print_do_while_statement(self, p, Place::among_statements());
    }
}

impl PrintAlone for LabelIdentifier {
    ghost plain = { label_identifier_row };

    ghost how = { of_type types.LabelIdentifier };

    fn print_alone(&self, p: &mut Printer<'_>, context: Context) {
        print_label_identifier(self, p, Place::at_level(Precedence::Lowest, context));
    }
}

impl<N: PrintNode> PrintAlone for LabeledStatement<N> {
    ghost plain = { labeled_statement_row N.plain };

    ghost how = { of_type types.LabeledStatement };

    fn print_alone(&self, p: &mut Printer<'_>, context: Context) {
        let _ = context;
        print_labeled_statement::<_, Inside>(self, p, Place::among_statements());
    }
}

impl PrintAlone for ContinueStatement {
    ghost plain = { continue_statement_row };

    ghost how = { of_type types.ContinueStatement };

    fn print_alone(&self, p: &mut Printer<'_>, context: Context) {
        let _ = context;
        print_continue_statement(self, p, Place::among_statements());
    }
}

impl PrintAlone for BreakStatement {
    ghost plain = { break_statement_row };

    ghost how = { of_type types.BreakStatement };

    fn print_alone(&self, p: &mut Printer<'_>, context: Context) {
        let _ = context;
        print_break_statement(self, p, Place::among_statements());
    }
}

impl<N: PrintNode> PrintAlone for ReturnStatement<N> {
    ghost plain = { return_statement_row N.plain };

    ghost how = { of_type types.ReturnStatement };

    fn print_alone(&self, p: &mut Printer<'_>, context: Context) {
        let _ = context;
        print_return_statement::<_, Inside>(self, p, Place::among_statements());
    }
}

impl<N: PrintNode> PrintAlone for ThrowStatement<N> {
    ghost plain = { throw_statement_row N.plain };

    ghost how = { of_type types.ThrowStatement };

    fn print_alone(&self, p: &mut Printer<'_>, context: Context) {
        let _ = context;
        print_throw_statement::<_, Inside>(self, p, Place::among_statements());
    }
}

impl PrintAlone for DebuggerStatement {
    ghost plain = { debugger_statement_row };

    ghost how = { of_type types.DebuggerStatement };

    fn print_alone(&self, p: &mut Printer<'_>, context: Context) {
        let _ = context;
        print_debugger_statement(self, p, Place::among_statements());
    }
}
