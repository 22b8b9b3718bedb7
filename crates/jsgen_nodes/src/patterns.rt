// Patterns that are bound (ECMA-262, 14.3.3), one function for each row.
ghost use Rattle.std.specs.Prelude.{◌≡◌, option_map};
ghost use Rattle.std.specs.Str.{chars};
ghost use Rattle.jsgen_tree.specs.Inside.{bound_in, written_name_in};
ghost use Rattle.jsgen_tree.specs.Rows.{object_pattern_row, binding_property_row, binding_rest_element_row, array_pattern_row, in_binding_pattern, in_property_key};
ghost use Rattle.jsgen_model.specs.Spell.{spell, before_bound};
ghost use Rattle.jsgen_printer.specs.Printer.{pen_of};
ghost use Rattle.jsgen_printer.specs.Steps.{Lays};
ghost use Rattle.jsgen_nodes.specs.Keys.{is_said, is_bound_alone, key_of};

use crate::PrintNode;
use crate::collections::{key_name, print_key};
use crate::inside::Inside;
use jsgen_lists::{PrintElement, PrintMember, print_pattern_braces, print_pattern_brackets};
use jsgen_patterns::print_binding_rest_element;
use jsgen_place::Place;
use jsgen_printer::Printer;
use jsgen_syntax::Precedence;
use jsgen_tree::{
    ArrayPattern, BindingPatternNode, BindingProperty, BindingRestElement, ObjectPattern,
};

pub fn print_object_pattern<N: PrintNode>(
    node: &ObjectPattern<N>,
    p: &mut Printer<'_>,
    place: Place,
)
    ensures { Lays p.old p.new (spell (object_pattern_row N.plain node.now) place) }
{
    p.print_mark(node.span);
    print_pattern_braces::<_, _, Bound, Rest>(
        &node.properties,
        &node.rest,
        p,
        place.child(Precedence::Lowest),
    );
}

pub fn print_array_pattern<N: PrintNode>(node: &ArrayPattern<N>, p: &mut Printer<'_>, place: Place)
    ensures { Lays p.old p.new (spell (array_pattern_row N.plain node.now) place) }
{
    p.print_mark(node.span);
    print_pattern_brackets::<_, _, Bound, Rest>(
        &node.elements,
        &node.rest,
        p,
        place.child(Precedence::Lowest),
    );
}

/// The properties or the elements of a pattern, of which elements may be left out.
struct Bound;

impl<N: PrintNode> PrintMember<BindingProperty<N>> for Bound {
    ghost plain = { binding_property_row N.plain };

    fn print_member(property: &BindingProperty<N>, p: &mut Printer<'_>, place: Place) {
        print_binding_property(property, p, place);
    }
}

impl<N: PrintNode> PrintElement<Option<BindingPatternNode<N>>> for Bound {
    ghost plain = { option_map (in_binding_pattern N.plain) };

    fn is_left_out(element: &Option<BindingPatternNode<N>>) -> bool {
        element.is_none()
    }

    fn print_element(element: &Option<BindingPatternNode<N>>, p: &mut Printer<'_>, place: Place) {
        match element {
            Some(element) => element.get().print(p, place),
            None => {}
        }
    }
}

/// What takes the rest.
struct Rest;

impl<N: PrintNode> PrintMember<Box<BindingRestElement<N>>> for Rest {
    ghost plain = { λ b. binding_rest_element_row N.plain b.value };

    fn print_member(rest: &Box<BindingRestElement<N>>, p: &mut Printer<'_>, place: Place) {
        print_binding_rest_element::<_, Inside>(rest, p, place);
    }
}

// ---- properties

pub fn print_binding_property<N: PrintNode>(
    node: &BindingProperty<N>,
    p: &mut Printer<'_>,
    place: Place,
)
    ensures { Lays p.old p.new (spell (binding_property_row N.plain node.now) place) }
{
    print_before_bound(node, p);
    node.value.get().print(p, place.child(Precedence::Lowest));
}

// The key and its colon, but where the name that is bound says the key.
fn print_before_bound<N: PrintNode>(node: &BindingProperty<N>, p: &mut Printer<'_>)
    ensures { Lays p.old p.new (before_bound (written_name_in (in_property_key N.plain node.now.key)) (bound_in (in_binding_pattern N.plain node.now.value)) (key_of node.now.computed (in_property_key N.plain node.now.key))) }
{
    if is_bound_alone(node, p) {
        return;
    }
    print_key(&node.key, node.computed, p);
    p.print_colon();
    p.print_soft_space();
}

// Whether the property is what it is bound to alone.
fn is_bound_alone<N: PrintNode>(node: &BindingProperty<N>, p: &Printer<'_>) -> bool
    ensures { result ≡ is_bound_alone (pen_of p.now).style.tables (written_name_in (in_property_key N.plain node.now.key)) (bound_in (in_binding_pattern N.plain node.now.value)) }
{
    match key_name(&node.key) {
        Some(name) => is_bound_as(node.value.get(), name, p),
        None => false,
    }
}

// Whether the value is a name, by itself or with a default, and printed as this name is written.
fn is_bound_as<N: PrintNode>(value: &N, name: &str, p: &Printer<'_>) -> bool
    ensures { result ≡ is_said (pen_of p.now).style.tables (bound_in (N.plain value.now)) (chars name.now) }
{
    match value.bound() {
        Some(node) => p.binds_as(node.name.as_str(), node.symbol, name),
        None => false,
    }
}
