//! Rules that a node keeps by its own values, whatever stands below it. A check names the first that is broken.
#![tactic(auto, unfolding(crate::specs::Verdict::verdict))]

ghost use Rattle.std.specs.Prelude.{◌≡◌, not, ◌&&◌};
ghost use Rattle.std.specs.Str.{chars};
ghost use Rattle.jsgen_model.specs.Valid.{directive_faults, raw_number_faults, big_integer_faults, fault_if, is_super, takes_super, is_default, takes_default, has_place, may_stand, is_binding_name, is_among_statements, takes_optional_link, takes_uncooked, is_target_pattern, assigns_alone, is_module_item, takes_module_items};
ghost use Rattle.jsgen_model.specs.declared.fault.TreeFault.TheVariants as faults;
ghost use Rattle.jsgen_rules.specs.Verdict.{verdict};

mod classes;
mod comments;
mod functions;
mod modules;
mod names;
mod private;
mod regular_expressions;
mod spans;
mod statements;
mod templates;
mod units;
mod values;

pub use classes::{as_property, class_fits, is_private};
pub use comments::{check_comment, check_licence_path};
pub use functions::{
    check_await, check_function, check_return, check_yield, fits_accessor, fits_words,
    function_fits,
};
use jsgen_model::TreeFault;
use jsgen_numbers::{is_big_integer, is_raw_number};
use jsgen_syntax::{AssignmentOperator, Quote, Span};
use jsgen_text::spells_string;
use jsgen_tree::{NodeSet, NodeType};
pub use modules::{check_hashbang, fits_source};
pub use names::{check_binding, check_label, check_reference, check_written_name};
pub use private::{Classes, check_private_name, has_table, number_behind};
pub use regular_expressions::check_regular_expression;
pub use spans::{check_source, check_span};
pub use statements::{check_body, check_defaults, check_ends, check_one_name, is_declaration};
pub use templates::check_piece;

/// A directive's raw text spells a string, in the one quote or the other.
pub fn check_raw(raw: &str, span: Span) -> Result<(), TreeFault>
    ensures { result ≡ verdict (directive_faults span (chars raw.now)) }
{
    if !spells_string(Quote::Double, raw) && !spells_string(Quote::Single, raw) {
        return Err(TreeFault::Literal { start: span.start });
    }
    Ok(())
}

/// The text of a number is one.
pub fn check_raw_number(text: &str, span: Span) -> Result<(), TreeFault>
    ensures { result ≡ verdict (raw_number_faults span (chars text.now)) }
{
    if !is_raw_number(text) {
        return Err(TreeFault::Literal { start: span.start });
    }
    Ok(())
}

/// A big integer is an integer in decimal digits.
pub fn check_big_integer(value: &str, span: Span) -> Result<(), TreeFault>
    ensures { result ≡ verdict (big_integer_faults span (chars value.now)) }
{
    if !is_big_integer(value) {
        return Err(TreeFault::Literal { start: span.start });
    }
    Ok(())
}

/// Whether nodes of this type are `super`.
pub fn is_super(node_type: NodeType) -> bool
    ensures { result ≡ is_super node_type }
{
    matches!(&node_type, NodeType::Super)
}

fn takes_super(set: NodeSet) -> bool
    ensures { result ≡ takes_super set }
{
    matches!(&set, NodeSet::Link)
}

fn is_default(node_type: NodeType) -> bool
    ensures { result ≡ is_default node_type }
{
    matches!(&node_type, NodeType::AssignmentPattern)
}

fn takes_default(set: NodeSet) -> bool
    ensures { result ≡ takes_default set }
{
    matches!(&set, NodeSet::BindingElement)
}

// Whether nodes of this type are imports or exports.
fn is_module_item(node_type: NodeType) -> bool
    ensures { result ≡ is_module_item node_type }
{
    matches!(
        &node_type,
        NodeType::ImportDeclaration
            | NodeType::ExportDeclaration
            | NodeType::ExportNamedDeclaration
            | NodeType::ExportFromDeclaration
            | NodeType::ExportAllDeclaration
            | NodeType::ExportDefaultDeclaration
    )
}

fn takes_module_items(set: NodeSet) -> bool
    ensures { result ≡ takes_module_items set }
{
    matches!(&set, NodeSet::ModuleItem)
}

// Of `super`, defaults and imports a node is none, or the place takes it.
fn has_place(node_type: NodeType, set: NodeSet) -> bool
    ensures { result ≡ has_place set node_type }
{
    (takes_super(set) || !is_super(node_type))
        && ((takes_default(set) || !is_default(node_type))
            && (takes_module_items(set) || !is_module_item(node_type)))
}

/// Whether a node of this type may stand at a place that asks for this set, whatever else is asked of it there.
pub fn may_stand(node_type: NodeType, set: NodeSet) -> bool
    ensures { result ≡ may_stand set node_type }
{
    node_type.is_in(set) && has_place(node_type, set)
}

/// Whether nodes of this type are names that are bound.
pub fn is_binding_name(node_type: NodeType) -> bool
    ensures { result ≡ is_binding_name node_type }
{
    matches!(&node_type, NodeType::BindingIdentifier)
}

/// Whether a place that asks for this set stands among statements.
pub fn is_among_statements(set: NodeSet) -> bool
    ensures { result ≡ is_among_statements set }
{
    matches!(
        &set,
        NodeSet::Statement | NodeSet::ModuleItem | NodeSet::Declaration
    )
}

/// Whether links of which one is optional may stand at a place that asks for this set, or its row has a rule for them.
pub fn takes_optional_link(set: NodeSet) -> bool
    ensures { result ≡ takes_optional_link set }
{
    matches!(
        &set,
        NodeSet::Link
            | NodeSet::ChainElement
            | NodeSet::SimpleAssignmentTarget
            | NodeSet::AssignmentTarget
            | NodeSet::ForStatementLeft
    )
}

/// Whether a template may stand at a place that asks for this set though a piece of it stands for nothing.
pub fn takes_uncooked(set: NodeSet) -> bool
    ensures { result ≡ takes_uncooked set }
{
    matches!(&set, NodeSet::TemplateLiteral)
}

/// Whether a node of this type is given several values.
pub fn is_target_pattern(node_type: NodeType) -> bool
    ensures { result ≡ is_target_pattern node_type }
{
    matches!(
        &node_type,
        NodeType::ArrayAssignmentTarget | NodeType::ObjectAssignmentTarget
    )
}

/// Whether an operator gives the value as it is.
pub fn assigns_alone(operator: AssignmentOperator) -> bool
    ensures { result ≡ assigns_alone operator }
{
    matches!(&operator, AssignmentOperator::Assign)
}

/// Where none of them may be optional, none is.
pub fn check_no_optional_link(has_optional_link: bool, start: u32) -> Result<(), TreeFault>
    ensures { result ≡ verdict (fault_if has_optional_link (faults.Place start)) }
{
    if has_optional_link {
        return Err(TreeFault::Place { start });
    }
    Ok(())
}

/// A template with a piece that stands for nothing stands behind a tag alone.
pub fn check_no_uncooked(has_uncooked: bool, start: u32) -> Result<(), TreeFault>
    ensures { result ≡ verdict (fault_if has_uncooked (faults.Template start)) }
{
    if has_uncooked {
        return Err(TreeFault::Template { start });
    }
    Ok(())
}

/// A child is of the set that its field asks for, `super` stands only where a link follows it, a default only in a pattern, and a
/// function or a declaration is of the kind that the place takes.
pub fn check_set(
    node_type: NodeType,
    set: NodeSet,
    fits_kind: bool,
    start: u32,
) -> Result<(), TreeFault>
    ensures { result ≡ verdict (fault_if (not (may_stand set node_type && fits_kind)) (faults.Place start)) }
{
    if !may_stand(node_type, set) || !fits_kind {
        return Err(TreeFault::Place { start });
    }
    Ok(())
}
