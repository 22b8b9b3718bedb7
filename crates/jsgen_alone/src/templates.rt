// Generated from tools/nodes/table.txt; edit that and run tools/nodes/generate.
// What is printed by itself, or at a level.
ghost use Rattle.jsgen_tree.specs.Rows.{template_literal_row, tagged_template_expression_row, import_expression_row};
ghost use Rattle.jsgen_alone.specs.Alone.{of_type};
ghost use Rattle.jsgen_tree.specs.declared.types.NodeType.TheVariants as types;

use crate::{PrintAlone, PrintAtLevel};
use jsgen_nodes::PrintNode;
use jsgen_nodes::templates::{
    print_import_expression, print_tagged_template_expression, print_template_literal,
};
use jsgen_place::{Context, Place};
use jsgen_printer::Printer;
use jsgen_syntax::Precedence;
use jsgen_tree::{ImportExpression, TaggedTemplateExpression, TemplateLiteral};

impl<N: PrintNode> PrintAlone for TemplateLiteral<N> {
    ghost plain = { template_literal_row N.plain };

    ghost how = { of_type types.TemplateLiteral };

    fn print_alone(&self, p: &mut Printer<'_>, context: Context) {
        print_template_literal(self, p, Place::at_level(Precedence::Lowest, context));
    }
}

impl<N: PrintNode> PrintAtLevel for TaggedTemplateExpression<N> {
    ghost plain = { tagged_template_expression_row N.plain };

    fn print_at(&self, p: &mut Printer<'_>, place: Place) {
        print_tagged_template_expression(self, p, place);
    }
}

impl<N: PrintNode> PrintAtLevel for ImportExpression<N> {
    ghost plain = { import_expression_row N.plain };

    fn print_at(&self, p: &mut Printer<'_>, place: Place) {
        print_import_expression(self, p, place);
    }
}
