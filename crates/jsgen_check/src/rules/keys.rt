// Properties: their keys, and what methods and `__proto__` ask of key and value.
#![tactic(auto, unfolding(jsgen_rules::specs::Verdict::verdict))]

ghost use Rattle.std.specs.Prelude.{◌≡◌, not, ◌&&◌, false, option_map};
ghost use Rattle.std.specs.Option.{option_map_or};
ghost use Rattle.std.specs.Str.{chars};
ghost use Rattle.jsgen_tree.specs.Tree.{type_of, span_of};
ghost use Rattle.jsgen_tree.specs.Inside.{inside_parentheses, looked_up_in, written_name_in, is_proto, is_negative_number, is_negative_big_integer};
ghost use Rattle.jsgen_tree.specs.Rows.{object_property_row, in_property_key, in_expression};
ghost use Rattle.jsgen_tree.specs.Scoping.{tables_plain};
ghost use Rattle.jsgen_tree.specs.Sets.{is_expression};
ghost use Rattle.jsgen_model.specs.Valid.{own_faults, fault_if, may_be_key, key_faults, may_be_pattern_key, pattern_key_faults, method_faults, named_faults, shorthand_faults, is_literal_key};
ghost use Rattle.jsgen_model.specs.declared.fault.TreeFault.TheVariants.{Name, Place};
ghost use Rattle.jsgen_rules.specs.Verdict.{verdict};
ghost use Rattle.jsgen_check.specs.Keys.{is_number, is_big_integer};
ghost use Rattle.jsgen_check.specs.Verdict.{surroundings_plain};

use crate::rules::functions::check_method_value;
use crate::{CheckNode, Surroundings};
use jsgen_model::TreeFault;
use jsgen_rules::Classes;
use jsgen_tree::{ExpressionNode, NodeType, ObjectProperty, PropertyKey, Tables, is_proto};

pub fn key_type<N: CheckNode>(key: &PropertyKey<N>) -> NodeType
    ensures { result ≡ type_of (in_property_key N.plain key.now) }
{
    match key {
        PropertyKey::IdentifierName(_) => NodeType::IdentifierName,
        PropertyKey::PrivateIdentifier(_) => NodeType::PrivateIdentifier,
        PropertyKey::Expression(node) => node.get().node_type(),
    }
}

pub fn key_start<N: CheckNode>(key: &PropertyKey<N>) -> u32
    ensures { result ≡ (span_of (in_property_key N.plain key.now)).start }
{
    match key {
        PropertyKey::IdentifierName(node) => node.span.start,
        PropertyKey::PrivateIdentifier(node) => node.span.start,
        PropertyKey::Expression(node) => node.get().start(),
    }
}

fn key_name<N: CheckNode>(key: &PropertyKey<N>) -> Option<&str>
    ensures { option_map (λ s. chars s.now) result ≡ written_name_in (in_property_key N.plain key.now) }
{
    match key {
        PropertyKey::IdentifierName(node) => Some(node.name.as_str()),
        PropertyKey::PrivateIdentifier(_) => None,
        PropertyKey::Expression(node) => node.get().written_name(),
    }
}

/// Whether a node of this type is a key where it isn't computed.
fn is_literal_key(node_type: NodeType) -> bool
    ensures { result ≡ is_literal_key node_type }
{
    matches!(
        node_type,
        NodeType::IdentifierName
            | NodeType::StringLiteral
            | NodeType::NumericLiteral
            | NodeType::BigIntLiteral
    )
}

fn is_number(node_type: NodeType) -> bool
    ensures { result ≡ is_number node_type }
{
    matches!(node_type, NodeType::NumericLiteral)
}

/// Whether it is a number with a minus before it, and no parentheses are round it.
fn is_negative_number<N: CheckNode>(node: &N) -> bool
    ensures { result ≡ is_negative_number (N.plain node.now) }
{
    if is_number(node.node_type()) {
        node.is_negative()
    } else {
        false
    }
}

fn is_big_integer(node_type: NodeType) -> bool
    ensures { result ≡ is_big_integer node_type }
{
    matches!(node_type, NodeType::BigIntLiteral)
}

/// Whether it is a big integer with a minus before it, and no parentheses are round it.
fn is_negative_big_integer<N: CheckNode>(node: &N) -> bool
    ensures { result ≡ is_negative_big_integer (N.plain node.now) }
{
    if is_big_integer(node.node_type()) {
        node.is_negative()
    } else {
        false
    }
}

fn is_negative_key<N: CheckNode>(key: &PropertyKey<N>) -> bool
    ensures { result ≡ is_negative_big_integer (in_property_key N.plain key.now) }
{
    match key {
        PropertyKey::IdentifierName(_) => false,
        PropertyKey::PrivateIdentifier(_) => false,
        PropertyKey::Expression(node) => is_negative_big_integer(node.get()),
    }
}

pub fn may_be_key<N: CheckNode>(computed: bool, key: &PropertyKey<N>) -> bool
    ensures { result ≡ may_be_key computed (in_property_key N.plain key.now) }
{
    if computed {
        key_type(key).is_expression()
    } else {
        is_literal_key(key_type(key)) && !is_negative_key(key)
    }
}

/// Whether it is computed or not, the key is one.
pub fn check_key<N: CheckNode>(computed: bool, key: &PropertyKey<N>) -> Result<(), TreeFault>
    ensures { result ≡ verdict (key_faults computed (in_property_key N.plain key.now)) }
{
    if may_be_key(computed, key) {
        Ok(())
    } else {
        Err(TreeFault::Place {
            start: key_start(key),
        })
    }
}

/// Whether it is a key of a pattern: one of a property, and no negative number where it isn't computed.
pub fn may_be_pattern_key<N: CheckNode>(computed: bool, key: &PropertyKey<N>) -> bool
    ensures { result ≡ may_be_pattern_key computed (in_property_key N.plain key.now) }
{
    if computed {
        key_type(key).is_expression()
    } else {
        may_be_key(false, key) && !is_negative_number_key(key)
    }
}

pub fn check_pattern_key<N: CheckNode>(
    computed: bool,
    key: &PropertyKey<N>,
) -> Result<(), TreeFault>
    ensures { result ≡ verdict (pattern_key_faults computed (in_property_key N.plain key.now)) }
{
    if may_be_pattern_key(computed, key) {
        Ok(())
    } else {
        Err(TreeFault::Place {
            start: key_start(key),
        })
    }
}

fn is_proto_key<N: CheckNode>(key: &PropertyKey<N>) -> bool
    ensures { result ≡ option_map_or is_proto (written_name_in (in_property_key N.plain key.now)) false }
{
    match key_name(key) {
        Some(name) => is_proto(name),
        None => false,
    }
}

/// That it is a reference which is printed as `__proto__`.
fn check_named<N: CheckNode>(tables: Tables<'_>, value: &ExpressionNode<N>) -> Result<(), TreeFault>
    ensures { result ≡ verdict (named_faults (tables_plain tables.entry) (span_of (in_expression N.plain value.now)) (looked_up_in (inside_parentheses (in_expression N.plain value.now)))) }
{
    let start = value.get().start();
    match value.get().looked_up() {
        Some(node) => check_proto(tables.reference_name(node.reference, &node.name), start),
        None => Err(TreeFault::Place { start }),
    }
}

fn check_proto(name: &str, start: u32) -> Result<(), TreeFault>
    ensures { result ≡ verdict (fault_if (not (is_proto (chars name.now))) (Name start)) }
{
    if is_proto(name) {
        Ok(())
    } else {
        Err(TreeFault::Name { start })
    }
}

fn check_shorthand<N: CheckNode>(
    tables: Tables<'_>,
    shorthand: bool,
    key: &PropertyKey<N>,
    value: &ExpressionNode<N>,
) -> Result<(), TreeFault>
    ensures { result ≡ verdict (shorthand_faults (tables_plain tables.entry) shorthand (in_property_key N.plain key.now) (in_expression N.plain value.now)) }
{
    if shorthand && is_proto_key(key) {
        check_named(tables, value)
    } else {
        Ok(())
    }
}

pub fn is_negative_number_key<N: CheckNode>(key: &PropertyKey<N>) -> bool
    ensures { result ≡ is_negative_number (in_property_key N.plain key.now) }
{
    match key {
        PropertyKey::IdentifierName(_) => false,
        PropertyKey::PrivateIdentifier(_) => false,
        PropertyKey::Expression(node) => is_negative_number(node.get()),
    }
}

/// The key of a method or an accessor, where it isn't computed, is no negative number.
fn check_method_key<N: CheckNode>(computed: bool, key: &PropertyKey<N>) -> Result<(), TreeFault>
    ensures { result ≡ verdict (fault_if (not computed && is_negative_number (in_property_key N.plain key.now)) (Place (span_of (in_property_key N.plain key.now)).start)) }
{
    if !computed && is_negative_number_key(key) {
        return Err(TreeFault::Place {
            start: key_start(key),
        });
    }
    Ok(())
}

#[tactic(auto)]
fn check_method<N: CheckNode>(node: &ObjectProperty<N>) -> Result<(), TreeFault>
    ensures { result ≡ verdict (method_faults node.now.kind node.now.computed (in_property_key N.plain node.now.key) (in_expression N.plain node.now.value)) }
{
    check_method_key(node.computed, &node.key)?;
    check_method_value(node.kind, node.value.get())
}

#[tactic(auto)]
pub fn check_object_property_rules<N: CheckNode>(
    node: &ObjectProperty<N>,
    around: &Surroundings<'_>,
    classes: Option<&Classes<'_>>,
) -> Result<(), TreeFault>
    ensures { result ≡ verdict (own_faults (surroundings_plain around.now classes.entry) (object_property_row N.plain node.now)) }
{
    let _ = classes;
    check_key(node.computed, &node.key)?;
    if node.is_method() {
        return check_method(node);
    }
    check_shorthand(around.tables, node.shorthand, &node.key, &node.value)
}
