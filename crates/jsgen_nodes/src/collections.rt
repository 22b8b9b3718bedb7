// Arrays and objects (ECMA-262, 13.2.4 and 13.2.5), one function for each row.
ghost use Rattle.std.specs.Prelude.{◌≡◌, Some, map, option_map};
ghost use Rattle.std.specs.Str.{chars};
ghost use Rattle.jsgen_syntax.specs.Units.{js_units};
ghost use Rattle.jsgen_syntax.specs.declared.precedence.Precedence.TheVariants.{Comma};
ghost use Rattle.jsgen_tree.specs.Tree.{trees};
ghost use Rattle.jsgen_tree.specs.Inside.{inside_parentheses, looked_up_in, written_name_in, is_negative_number};
ghost use Rattle.jsgen_tree.specs.Rows.{array_expression_row, in_array_expression_element, object_property_row, object_expression_row, in_object_property_kind, in_property_key, in_expression};
ghost use Rattle.jsgen_place.specs.Place.{in_brackets};
ghost use Rattle.jsgen_model.specs.Punctuator.{Square, Brace, colon};
ghost use Rattle.jsgen_model.specs.Items.{◌⊕◌, before_it, brackets, punctuator, soft_space, mark, end_mark};
ghost use Rattle.jsgen_model.specs.Spell.{spell, method_words, spell_method, are_more, object_inside, spell_properties, ends_in_hole, before_expression, comma_if, key_text, key_items, accessor_word, before_value, string_in, is_function};
ghost use Rattle.jsgen_printer.specs.Printer.{pen_of};
ghost use Rattle.jsgen_printer.specs.Steps.{Lays};
ghost use Rattle.jsgen_nodes.specs.Keys.{is_string, is_number, is_said, is_value_alone, key_of};

use crate::PrintNode;
use crate::inside::Inside;
use jsgen_classes::print_private_identifier;
use jsgen_lists::{PrintElement, PrintProperty, print_accessor_word, print_array, print_object};
use jsgen_place::Place;
use jsgen_printer::{Bracket, CommentsBefore, Printer};
use jsgen_questions::{is_alone, needs_brackets};
use jsgen_spelled::{print_identifier_name, print_spread_element};
use jsgen_syntax::{JsStr, Precedence, Span};
use jsgen_tree::{
    ArrayExpression, ArrayExpressionElement, ExpressionNode, GetSpan, NodeType, ObjectExpression,
    ObjectProperty, ObjectPropertyKind, PropertyKey,
};

pub fn print_array_expression<N: PrintNode>(
    node: &ArrayExpression<N>,
    p: &mut Printer<'_>,
    place: Place,
)
    ensures { Lays p.old p.new (spell (array_expression_row N.plain node.now) place) }
{
    let _ = place;
    let within = Place::in_brackets(Precedence::Comma);
    print_array::<_, Elements>(node.span, &node.elements, p, within);
}

/// The elements of an array; one that is left out has nothing in its place.
struct Elements;

impl<N: PrintNode> PrintElement<Option<ArrayExpressionElement<N>>> for Elements {
    ghost plain = { option_map (in_array_expression_element N.plain) };

    fn is_left_out(element: &Option<ArrayExpressionElement<N>>) -> bool {
        element.is_none()
    }

    fn print_element(
        element: &Option<ArrayExpressionElement<N>>,
        p: &mut Printer<'_>,
        place: Place,
    ) {
        match element {
            Some(element) => print_array_element(element, p, place),
            None => {}
        }
    }
}

pub fn print_array_element<N: PrintNode>(
    element: &ArrayExpressionElement<N>,
    p: &mut Printer<'_>,
    place: Place,
)
    ensures { Lays p.old p.new (spell (in_array_expression_element N.plain element.now) place) }
{
    match element {
        ArrayExpressionElement::SpreadElement(node) => print_spread_element::<_, Inside>(
            node, p, place,
        ),
        ArrayExpressionElement::Expression(node) => node.get().print(p, place),
    }
}

pub fn print_object_expression<N: PrintNode>(
    node: &ObjectExpression<N>,
    p: &mut Printer<'_>,
    place: Place,
)
    ensures { Lays p.old p.new (spell (object_expression_row N.plain node.now) place) }
{
    let _ = place;
    let wrap = p.begin_object(node.span.start);
    print_properties(node.span, &node.properties, p);
    p.end_object(wrap);
}

// The braces and what is in them.
fn print_properties<N: PrintNode>(
    span: Span,
    properties: &[ObjectPropertyKind<N>],
    p: &mut Printer<'_>,
)
    ensures { Lays p.old p.new (mark span ⊕ brackets Brace (object_inside (trees (map (in_object_property_kind N.plain) properties.now))
        (spell_properties (are_more 1 (trees (map (in_object_property_kind N.plain) properties.now))) (trees (map (in_object_property_kind N.plain) properties.now)) (in_brackets Comma)
        ⊕ comma_if (ends_in_hole (trees (map (in_object_property_kind N.plain) properties.now)))) ⊕ end_mark span)) }
{
    print_object::<_, Properties>(span, properties, p, Place::in_brackets(Precedence::Comma));
}

/// The properties of an object.
struct Properties;

impl<N: PrintNode> PrintProperty<ObjectPropertyKind<N>> for Properties {
    ghost plain = { in_object_property_kind N.plain };

    fn span(property: &ObjectPropertyKind<N>) -> Span {
        property.span()
    }

    fn print_property(property: &ObjectPropertyKind<N>, p: &mut Printer<'_>, place: Place) {
        match property {
            ObjectPropertyKind::ObjectProperty(node) => print_object_property(node, p, place),
            ObjectPropertyKind::SpreadElement(node) => print_spread_element::<_, Inside>(
                node, p, place,
            ),
        }
    }
}

pub fn print_object_property<N: PrintNode>(
    node: &ObjectProperty<N>,
    p: &mut Printer<'_>,
    place: Place,
)
    ensures { Lays p.old p.new (spell (object_property_row N.plain node.now) place) }
{
    p.print_mark_if(is_function(node.value.get().node_type()), node.span);
    if node.is_method() {
        print_method_property(node, p, place);
    } else {
        print_valued_property(node, p);
    }
}

fn is_function(node_type: NodeType) -> bool
    ensures { result ≡ is_function node_type }
{
    matches!(node_type, NodeType::Function)
}

// A method or an accessor, whose function follows its key.
fn print_method_property<N: PrintNode>(node: &ObjectProperty<N>, p: &mut Printer<'_>, place: Place)
    ensures { Lays p.old p.new (accessor_word node.now.kind ⊕ method_words (in_expression N.plain node.now.value) ⊕ key_of node.now.computed (in_property_key N.plain node.now.key) ⊕ spell_method (in_expression N.plain node.now.value) place) }
{
    print_accessor_word(node.kind, p);
    node.value.get().print_method_words(p);
    print_key(&node.key, node.computed, p);
    node.value.get().print_as_method(p, place);
}

// A property with a value: the value alone, or behind its key.
fn print_valued_property<N: PrintNode>(node: &ObjectProperty<N>, p: &mut Printer<'_>)
    ensures { Lays p.old p.new (before_value node.now.shorthand (written_name_in (in_property_key N.plain node.now.key)) (looked_up_in (inside_parentheses (in_expression N.plain node.now.value))) (key_of node.now.computed (in_property_key N.plain node.now.key))
        ⊕ before_expression before_it (in_expression N.plain node.now.value) ⊕ spell (in_expression N.plain node.now.value) (in_brackets Comma)) }
{
    print_before_value(node, p);
    node.value
        .get()
        .print_comments_before(CommentsBefore::All, p);
    node.value
        .get()
        .print(p, Place::in_brackets(Precedence::Comma));
}

// The key and its colon, but where the value alone says the key.
fn print_before_value<N: PrintNode>(node: &ObjectProperty<N>, p: &mut Printer<'_>)
    ensures { Lays p.old p.new (before_value node.now.shorthand (written_name_in (in_property_key N.plain node.now.key)) (looked_up_in (inside_parentheses (in_expression N.plain node.now.value))) (key_of node.now.computed (in_property_key N.plain node.now.key))) }
{
    if is_value_alone(node, p) {
        return;
    }
    print_key(&node.key, node.computed, p);
    p.print_colon();
    p.print_soft_space();
}

// Whether the property is its value alone.
fn is_value_alone<N: PrintNode>(node: &ObjectProperty<N>, p: &Printer<'_>) -> bool
    ensures { result ≡ is_value_alone (pen_of p.now).style.tables node.now.shorthand (written_name_in (in_property_key N.plain node.now.key)) (looked_up_in (inside_parentheses (in_expression N.plain node.now.value))) }
{
    match key_name(&node.key) {
        Some(name) => is_alone(node.shorthand, name, is_said(node.value.get(), name, p)),
        None => false,
    }
}

/// Whether the value is a reference, and printed as this name is written.
pub fn is_said<N: PrintNode>(value: &N, name: &str, p: &Printer<'_>) -> bool
    ensures { result ≡ is_said (pen_of p.now).style.tables (looked_up_in (inside_parentheses (N.plain value.now))) (chars name.now) }
{
    match value.looked_up() {
        Some(node) => p.prints_as(node.name.as_str(), node.reference, name),
        None => false,
    }
}

/// The name that a key is as it is written.
pub fn key_name<N: PrintNode>(key: &PropertyKey<N>) -> Option<&str>
    ensures { option_map (λ s. chars s.now) result ≡ written_name_in (in_property_key N.plain key.now) }
{
    match key {
        PropertyKey::IdentifierName(node) => Some(node.name.as_str()),
        PropertyKey::PrivateIdentifier(_) => None,
        PropertyKey::Expression(node) => node.get().written_name(),
    }
}

// ---- keys

/// In brackets where it needs them.
pub fn print_key<N: PrintNode>(key: &PropertyKey<N>, computed: bool, p: &mut Printer<'_>)
    ensures { Lays p.old p.new (key_of computed (in_property_key N.plain key.now)) }
{
    print_key_if(needs_brackets(computed, is_negative_key(key)), key, p);
}

/// In brackets where the test holds.
pub fn print_key_if<N: PrintNode>(bracketed: bool, key: &PropertyKey<N>, p: &mut Printer<'_>)
    ensures { Lays p.old p.new (key_items bracketed (in_property_key N.plain key.now) (spell (in_property_key N.plain key.now) (in_brackets Comma))) }
{
    let within = Place::in_brackets(Precedence::Comma);
    if bracketed {
        p.print_opening(Bracket::Square);
        print_key_text(key, p, within);
        p.print_closing(Bracket::Square);
    } else {
        print_key_text(key, p, within);
    }
}

fn is_negative_key<N: PrintNode>(key: &PropertyKey<N>) -> bool
    ensures { result ≡ is_negative_number (in_property_key N.plain key.now) }
{
    match key {
        PropertyKey::IdentifierName(_) => false,
        PropertyKey::PrivateIdentifier(_) => false,
        PropertyKey::Expression(node) => is_negative_number(node.get()),
    }
}

// Whether the key is a number with a minus before it, and no parentheses are round it.
fn is_negative_number<N: PrintNode>(key: &N) -> bool
    ensures { result ≡ is_negative_number (N.plain key.now) }
{
    if is_number(key.node_type()) {
        key.is_negative()
    } else {
        false
    }
}

fn is_number(node_type: NodeType) -> bool
    ensures { result ≡ is_number node_type }
{
    matches!(node_type, NodeType::NumericLiteral)
}

pub fn print_key_text<N: PrintNode>(key: &PropertyKey<N>, p: &mut Printer<'_>, place: Place)
    ensures { Lays p.old p.new (key_text (in_property_key N.plain key.now) (spell (in_property_key N.plain key.now) place)) }
{
    match key {
        PropertyKey::IdentifierName(node) => print_identifier_name(node, p, place),
        PropertyKey::PrivateIdentifier(node) => print_private_identifier(node, p, place),
        PropertyKey::Expression(node) => print_key_expression(node, p, place),
    }
}

// A string is never in backticks there.
fn print_key_expression<N: PrintNode>(key: &ExpressionNode<N>, p: &mut Printer<'_>, place: Place)
    ensures { Lays p.old p.new (key_text (in_expression N.plain key.now) (spell (in_expression N.plain key.now) place)) }
{
    match key_string(key.get()) {
        Some(value) => {
            let span = key.get().span();
            p.print_key_comments(span.start);
            p.print_mark(span);
            p.print_string(value, false);
        }
        None => key.get().print(p, place),
    }
}

// The string that a key is, where no parentheses are round it.
pub fn key_string<N: PrintNode>(key: &N) -> Option<&JsStr>
    ensures { option_map (λ v. js_units v.now) result ≡ string_in (N.plain key.now) }
{
    if is_string(key.node_type()) {
        key.string()
    } else {
        None
    }
}

fn is_string(node_type: NodeType) -> bool
    ensures { result ≡ is_string node_type }
{
    matches!(node_type, NodeType::StringLiteral)
}
