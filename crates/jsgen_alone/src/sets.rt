// Generated from tools/nodes/table.txt; edit that and run tools/nodes/generate.
// What is printed by itself, or at a level.
ghost use Rattle.jsgen_tree.specs.Rows.{in_argument, in_array_expression_element, in_member_expression, in_simple_assignment_target, in_assignment_target_pattern, in_assignment_target_maybe_default, in_assignment_target_property, in_for_statement_init, in_for_statement_left, in_object_property_kind, in_property_key, in_module_export_name, in_export_default_declaration_kind, expression_plain, assignment_target_plain, statement_plain, binding_pattern_plain, class_element_plain};
ghost use Rattle.jsgen_alone.specs.Alone.{by_itself, of_set};
ghost use Rattle.jsgen_tree.specs.declared.types.NodeSet.TheVariants as sets;

use crate::{PrintAlone, PrintAtLevel};
use jsgen_modules::print_module_export_name;
use jsgen_nodes::classes::print_ended_element;
use jsgen_nodes::collections::{print_key_text, print_object_property};
use jsgen_nodes::loops::print_left;
use jsgen_nodes::modules::print_export_default_declaration_kind;
use jsgen_nodes::sets::{
    print_assignment_target, print_binding_pattern, print_expression, print_member_expression,
    print_simple_assignment_target, print_statement,
};
use jsgen_nodes::targets::{
    print_array_assignment_target, print_assignment_target_property_identifier,
    print_assignment_target_property_property, print_object_assignment_target,
};
use jsgen_nodes::{Inside, PrintNode};
use jsgen_place::{Context, Place};
use jsgen_printer::Printer;
use jsgen_spelled::{print_spread_element, print_variable_declaration};
use jsgen_syntax::Precedence;
use jsgen_targets::print_assignment_target_with_default;
use jsgen_tree::{
    Argument, ArrayExpressionElement, AssignmentTarget, AssignmentTargetMaybeDefault,
    AssignmentTargetPattern, AssignmentTargetProperty, BindingPattern, ClassElement,
    ExportDefaultDeclarationKind, Expression, ForStatementInit, ForStatementLeft, MemberExpression,
    ModuleExportName, ObjectPropertyKind, PropertyKey, SimpleAssignmentTarget, Statement,
};

impl<N: PrintNode> PrintAtLevel for Expression<N> {
    ghost plain = { expression_plain N.plain };

    fn print_at(&self, p: &mut Printer<'_>, place: Place) {
        print_expression(self, p, place);
    }
}

impl<N: PrintNode> PrintAlone for Argument<N> {
    ghost plain = { in_argument N.plain };

    ghost how = { of_set sets.Argument };

    fn print_alone(&self, p: &mut Printer<'_>, context: Context) {
        let _ = context;
        let place = Place::in_brackets(Precedence::Comma);
        match self {
            Argument::SpreadElement(node) => print_spread_element::<_, Inside>(node, p, place),
            Argument::Expression(node) => node.get().print(p, place),
        }
    }
}

impl<N: PrintNode> PrintAlone for ArrayExpressionElement<N> {
    ghost plain = { in_array_expression_element N.plain };

    ghost how = { of_set sets.ArrayExpressionElement };

    fn print_alone(&self, p: &mut Printer<'_>, context: Context) {
        let _ = context;
        let place = Place::in_brackets(Precedence::Comma);
        match self {
            ArrayExpressionElement::SpreadElement(node) => print_spread_element::<_, Inside>(
                node, p, place,
            ),
            ArrayExpressionElement::Expression(node) => node.get().print(p, place),
        }
    }
}

impl<N: PrintNode> PrintAtLevel for MemberExpression<N> {
    ghost plain = { in_member_expression N.plain };

    fn print_at(&self, p: &mut Printer<'_>, place: Place) {
        print_member_expression(self, p, place);
    }
}

impl<N: PrintNode> PrintAtLevel for SimpleAssignmentTarget<N> {
    ghost plain = { in_simple_assignment_target N.plain };

    fn print_at(&self, p: &mut Printer<'_>, place: Place) {
        print_simple_assignment_target(self, p, place);
    }
}

impl<N: PrintNode> PrintAlone for AssignmentTargetPattern<N> {
    ghost plain = { in_assignment_target_pattern N.plain };

    ghost how = { by_itself };

    fn print_alone(&self, p: &mut Printer<'_>, context: Context) {
        let place = Place::at_level(Precedence::Lowest, context);
        match self {
            AssignmentTargetPattern::ArrayAssignmentTarget(node) => print_array_assignment_target(
                node, p, place,
            ),
            AssignmentTargetPattern::ObjectAssignmentTarget(node) => print_object_assignment_target(
                node, p, place,
            ),
        }
    }
}

impl<N: PrintNode> PrintAlone for AssignmentTarget<N> {
    ghost plain = { assignment_target_plain N.plain };

    ghost how = { of_set sets.AssignmentTarget };

    fn print_alone(&self, p: &mut Printer<'_>, context: Context) {
        let _ = context;
        print_assignment_target(self, p, Place::in_brackets(Precedence::Comma));
    }
}

impl<N: PrintNode> PrintAlone for AssignmentTargetMaybeDefault<N> {
    ghost plain = { in_assignment_target_maybe_default N.plain };

    ghost how = { of_set sets.AssignmentTargetMaybeDefault };

    fn print_alone(&self, p: &mut Printer<'_>, context: Context) {
        let _ = context;
        let place = Place::in_brackets(Precedence::Comma);
        match self {
            AssignmentTargetMaybeDefault::AssignmentTarget(node) => node.get().print(p, place),
            AssignmentTargetMaybeDefault::AssignmentTargetWithDefault(node) =>
                print_assignment_target_with_default::<_, Inside>(node, p, place),
        }
    }
}

impl<N: PrintNode> PrintAlone for AssignmentTargetProperty<N> {
    ghost plain = { in_assignment_target_property N.plain };

    ghost how = { of_set sets.AssignmentTargetProperty };

    fn print_alone(&self, p: &mut Printer<'_>, context: Context) {
        let place = Place::at_level(Precedence::Lowest, context);
        match self {
            AssignmentTargetProperty::AssignmentTargetPropertyIdentifier(node) =>
                print_assignment_target_property_identifier(node, p, place),
            AssignmentTargetProperty::AssignmentTargetPropertyProperty(node) =>
                print_assignment_target_property_property(node, p, place),
        }
    }
}

impl<N: PrintNode> PrintAlone for ForStatementInit<N> {
    ghost plain = { in_for_statement_init N.plain };

    ghost how = { of_set sets.ForStatementInit };

    fn print_alone(&self, p: &mut Printer<'_>, context: Context) {
        let _ = context;
        let place = Place::loop_head();
        match self {
            ForStatementInit::VariableDeclaration(node) => print_variable_declaration::<_, Inside>(
                node, p, place,
            ),
            ForStatementInit::Expression(node) => node.get().print(p, place),
        }
    }
}

impl<N: PrintNode> PrintAlone for ForStatementLeft<N> {
    ghost plain = { in_for_statement_left N.plain };

    ghost how = { of_set sets.ForStatementLeft };

    fn print_alone(&self, p: &mut Printer<'_>, context: Context) {
        let _ = context;
        print_left(self, p);
    }
}

impl<N: PrintNode> PrintAlone for ObjectPropertyKind<N> {
    ghost plain = { in_object_property_kind N.plain };

    ghost how = { of_set sets.ObjectPropertyKind };

    fn print_alone(&self, p: &mut Printer<'_>, context: Context) {
        let _ = context;
        let place = Place::in_brackets(Precedence::Comma);
        match self {
            ObjectPropertyKind::ObjectProperty(node) => print_object_property(node, p, place),
            ObjectPropertyKind::SpreadElement(node) => print_spread_element::<_, Inside>(
                node, p, place,
            ),
        }
    }
}

impl<N: PrintNode> PrintAlone for PropertyKey<N> {
    ghost plain = { in_property_key N.plain };

    ghost how = { of_set sets.PropertyKey };

    fn print_alone(&self, p: &mut Printer<'_>, context: Context) {
        let _ = context;
        print_key_text(self, p, Place::in_brackets(Precedence::Comma));
    }
}

impl<N: PrintNode> PrintAlone for Statement<N> {
    ghost plain = { statement_plain N.plain };

    ghost how = { of_set sets.Statement };

    fn print_alone(&self, p: &mut Printer<'_>, context: Context) {
        let _ = context;
        print_statement(self, p, Place::among_statements());
    }
}

impl<N: PrintNode> PrintAlone for BindingPattern<N> {
    ghost plain = { binding_pattern_plain N.plain };

    ghost how = { of_set sets.BindingPattern };

    fn print_alone(&self, p: &mut Printer<'_>, context: Context) {
        print_binding_pattern(self, p, Place::at_level(Precedence::Lowest, context));
    }
}

impl<N: PrintNode> PrintAlone for ClassElement<N> {
    ghost plain = { class_element_plain N.plain };

    ghost how = { of_set sets.ClassElement };

    fn print_alone(&self, p: &mut Printer<'_>, context: Context) {
        let _ = context;
        print_ended_element(self, p, Place::at_level(Precedence::Lowest, context));
    }
}

impl PrintAlone for ModuleExportName {
    ghost plain = { in_module_export_name };

    ghost how = { of_set sets.ModuleExportName };

    fn print_alone(&self, p: &mut Printer<'_>, context: Context) {
        let _ = context;
        print_module_export_name(self, p);
    }
}

impl<N: PrintNode> PrintAlone for ExportDefaultDeclarationKind<N> {
    ghost plain = { in_export_default_declaration_kind N.plain };

    ghost how = { of_set sets.ExportDefaultDeclarationKind };

    fn print_alone(&self, p: &mut Printer<'_>, context: Context) {
        let _ = context;
        print_export_default_declaration_kind(self, p);
    }
}
