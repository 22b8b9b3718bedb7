// Generated from tools/nodes/table.txt; edit that and run tools/nodes/generate.
// What is printed by itself, or at a level.
ghost use Rattle.jsgen_tree.specs.Rows.{switch_statement_row, switch_case_row, try_statement_row, catch_clause_row};
ghost use Rattle.jsgen_alone.specs.Alone.{of_type};
ghost use Rattle.jsgen_tree.specs.declared.types.NodeType.TheVariants as types;

use crate::PrintAlone;
use jsgen_nodes::PrintNode;
use jsgen_nodes::choices::{
    print_catch_clause, print_switch_case, print_switch_statement, print_try_statement,
};
use jsgen_place::{Context, Place};
use jsgen_printer::Printer;
use jsgen_syntax::Precedence;
use jsgen_tree::{CatchClause, SwitchCase, SwitchStatement, TryStatement};

impl<N: PrintNode> PrintAlone for SwitchStatement<N> {
    ghost plain = { switch_statement_row N.plain };

    ghost how = { of_type types.SwitchStatement };

    fn print_alone(&self, p: &mut Printer<'_>, context: Context) {
        let _ = context;
        print_switch_statement(self, p, Place::among_statements());
    }
}

impl<N: PrintNode> PrintAlone for SwitchCase<N> {
    ghost plain = { switch_case_row N.plain };

    ghost how = { of_type types.SwitchCase };

    fn print_alone(&self, p: &mut Printer<'_>, context: Context) {
        let _ = context;
        p.print_due_semicolon();
        print_switch_case(self, p, Place::among_statements());
    }
}

impl<N: PrintNode> PrintAlone for TryStatement<N> {
    ghost plain = { try_statement_row N.plain };

    ghost how = { of_type types.TryStatement };

    fn print_alone(&self, p: &mut Printer<'_>, context: Context) {
        let _ = context;
        print_try_statement(self, p, Place::among_statements());
    }
}

impl<N: PrintNode> PrintAlone for CatchClause<N> {
    ghost plain = { catch_clause_row N.plain };

    ghost how = { of_type types.CatchClause };

    fn print_alone(&self, p: &mut Printer<'_>, context: Context) {
        print_catch_clause(self, p, Place::at_level(Precedence::Lowest, context));
    }
}
