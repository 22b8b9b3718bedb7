// Generated from tools/nodes/table.txt; edit that and run tools/nodes/generate.
// What is printed by itself, or at a level.
ghost use Rattle.jsgen_tree.specs.Rows.{unary_expression_row, new_target_row, update_expression_row, new_expression_row, super_row, import_meta_row};
ghost use Rattle.jsgen_alone.specs.Alone.{of_type};
ghost use Rattle.jsgen_tree.specs.declared.types.NodeType.TheVariants as types;

use crate::{PrintAlone, PrintAtLevel};
use jsgen_nodes::operations::{print_new_expression, print_update_expression};
use jsgen_nodes::{Inside, PrintNode};
use jsgen_place::{Context, Place};
use jsgen_printer::Printer;
use jsgen_spelled::{print_import_meta, print_new_target, print_super, print_unary_expression};
use jsgen_syntax::Precedence;
use jsgen_tree::{ImportMeta, NewExpression, NewTarget, Super, UnaryExpression, UpdateExpression};

impl<N: PrintNode> PrintAtLevel for UnaryExpression<N> {
    ghost plain = { unary_expression_row N.plain };

    fn print_at(&self, p: &mut Printer<'_>, place: Place) {
        print_unary_expression::<_, Inside>(self, p, place);
    }
}

impl PrintAlone for NewTarget {
    ghost plain = { new_target_row };

    ghost how = { of_type types.NewTarget };

    fn print_alone(&self, p: &mut Printer<'_>, context: Context) {
        print_new_target(self, p, Place::at_level(Precedence::Lowest, context));
    }
}

impl<N: PrintNode> PrintAtLevel for UpdateExpression<N> {
    ghost plain = { update_expression_row N.plain };

    fn print_at(&self, p: &mut Printer<'_>, place: Place) {
        print_update_expression(self, p, place);
    }
}

impl<N: PrintNode> PrintAtLevel for NewExpression<N> {
    ghost plain = { new_expression_row N.plain };

    fn print_at(&self, p: &mut Printer<'_>, place: Place) {
        print_new_expression(self, p, place);
    }
}

impl PrintAlone for Super {
    ghost plain = { super_row };

    ghost how = { of_type types.Super };

    fn print_alone(&self, p: &mut Printer<'_>, context: Context) {
        print_super(self, p, Place::at_level(Precedence::Lowest, context));
    }
}

impl PrintAlone for ImportMeta {
    ghost plain = { import_meta_row };

    ghost how = { of_type types.ImportMeta };

    fn print_alone(&self, p: &mut Printer<'_>, context: Context) {
        print_import_meta(self, p, Place::at_level(Precedence::Lowest, context));
    }
}
