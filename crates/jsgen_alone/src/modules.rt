// Generated from tools/nodes/table.txt; edit that and run tools/nodes/generate.
// What is printed by itself, or at a level.
ghost use Rattle.jsgen_tree.specs.Rows.{hashbang_row, import_declaration_row, with_clause_row, import_attribute_row, export_declaration_row, export_named_declaration_row, export_from_declaration_row, export_specifier_row, export_all_declaration_row, export_default_declaration_row};
ghost use Rattle.jsgen_alone.specs.Alone.{of_type};
ghost use Rattle.jsgen_tree.specs.declared.types.NodeType.TheVariants as types;

use crate::PrintAlone;
use jsgen_modules::{
    print_export_all_declaration, print_export_declaration, print_export_from_declaration,
    print_export_named_declaration, print_export_specifier, print_hashbang, print_import_attribute,
    print_import_declaration, print_with_clause,
};
use jsgen_nodes::modules::print_export_default_declaration;
use jsgen_nodes::{Inside, PrintNode};
use jsgen_place::{Context, Place};
use jsgen_printer::Printer;
use jsgen_syntax::Precedence;
use jsgen_tree::{
    ExportAllDeclaration, ExportDeclaration, ExportDefaultDeclaration, ExportFromDeclaration,
    ExportNamedDeclaration, ExportSpecifier, Hashbang, ImportAttribute, ImportDeclaration,
    WithClause,
};

impl PrintAlone for Hashbang {
    ghost plain = { hashbang_row };

    ghost how = { of_type types.Hashbang };

    fn print_alone(&self, p: &mut Printer<'_>, context: Context) {
        print_hashbang(self, p, Place::at_level(Precedence::Lowest, context));
    }
}

impl PrintAlone for ImportDeclaration {
    ghost plain = { import_declaration_row };

    ghost how = { of_type types.ImportDeclaration };

    fn print_alone(&self, p: &mut Printer<'_>, context: Context) {
        print_import_declaration(self, p, Place::at_level(Precedence::Lowest, context));
    }
}

impl PrintAlone for WithClause {
    ghost plain = { with_clause_row };

    ghost how = { of_type types.WithClause };

    fn print_alone(&self, p: &mut Printer<'_>, context: Context) {
        print_with_clause(self, p, Place::at_level(Precedence::Lowest, context));
    }
}

impl PrintAlone for ImportAttribute {
    ghost plain = { import_attribute_row };

    ghost how = { of_type types.ImportAttribute };

    fn print_alone(&self, p: &mut Printer<'_>, context: Context) {
        print_import_attribute(self, p, Place::at_level(Precedence::Lowest, context));
    }
}

impl<N: PrintNode> PrintAlone for ExportDeclaration<N> {
    ghost plain = { export_declaration_row N.plain };

    ghost how = { of_type types.ExportDeclaration };

    fn print_alone(&self, p: &mut Printer<'_>, context: Context) {
        print_export_declaration::<_, Inside>(
            self,
            p,
            Place::at_level(Precedence::Lowest, context),
        );
    }
}

impl PrintAlone for ExportNamedDeclaration {
    ghost plain = { export_named_declaration_row };

    ghost how = { of_type types.ExportNamedDeclaration };

    fn print_alone(&self, p: &mut Printer<'_>, context: Context) {
        print_export_named_declaration(self, p, Place::at_level(Precedence::Lowest, context));
    }
}

impl PrintAlone for ExportFromDeclaration {
    ghost plain = { export_from_declaration_row };

    ghost how = { of_type types.ExportFromDeclaration };

    fn print_alone(&self, p: &mut Printer<'_>, context: Context) {
        print_export_from_declaration(self, p, Place::at_level(Precedence::Lowest, context));
    }
}

impl PrintAlone for ExportSpecifier {
    ghost plain = { export_specifier_row };

    ghost how = { of_type types.ExportSpecifier };

    fn print_alone(&self, p: &mut Printer<'_>, context: Context) {
        print_export_specifier(self, p, Place::at_level(Precedence::Lowest, context));
    }
}

impl PrintAlone for ExportAllDeclaration {
    ghost plain = { export_all_declaration_row };

    ghost how = { of_type types.ExportAllDeclaration };

    fn print_alone(&self, p: &mut Printer<'_>, context: Context) {
        print_export_all_declaration(self, p, Place::at_level(Precedence::Lowest, context));
    }
}

impl<N: PrintNode> PrintAlone for ExportDefaultDeclaration<N> {
    ghost plain = { export_default_declaration_row N.plain };

    ghost how = { of_type types.ExportDefaultDeclaration };

    fn print_alone(&self, p: &mut Printer<'_>, context: Context) {
        print_export_default_declaration(self, p, Place::at_level(Precedence::Lowest, context));
    }
}
