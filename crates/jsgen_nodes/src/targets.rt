// Patterns that are given values (ECMA-262, 13.15.5), one function for each row.
ghost use Rattle.std.specs.Prelude.{◌≡◌, ◌&&◌, option_map};
ghost use Rattle.std.specs.Str.{chars};
ghost use Rattle.jsgen_tree.specs.Characters.{characters};
ghost use Rattle.jsgen_tree.specs.Inside.{looked_up_in, written_name_in};
ghost use Rattle.jsgen_tree.specs.Named.{looked_up};
ghost use Rattle.jsgen_tree.specs.Rows.{array_assignment_target_row, object_assignment_target_row, assignment_target_property_identifier_row, assignment_target_property_property_row, assignment_target_rest_row, identifier_reference_row, in_assignment_target_maybe_default, in_assignment_target_property, in_property_key};
ghost use Rattle.jsgen_model.specs.Punctuator.{colon};
ghost use Rattle.jsgen_model.specs.Items.{◌⊕◌, name, punctuator, soft_space};
ghost use Rattle.jsgen_model.specs.Spell.{spell, own_or_renamed, renamed_items, target_named, before_target};
ghost use Rattle.jsgen_printer.specs.Printer.{pen_of};
ghost use Rattle.jsgen_printer.specs.Steps.{Lays};
ghost use Rattle.jsgen_nodes.specs.Keys.{is_said, is_key_said, key_of};

use crate::PrintNode;
use crate::collections::{key_name, print_key};
use crate::inside::Inside;
use jsgen_inside::Nested;
use jsgen_lists::{
    PrintElement, PrintMember, print_comma_between, print_if_given, print_list,
    print_pattern_brackets, print_value,
};
use jsgen_place::Place;
use jsgen_printer::{Bracket, Printer};
use jsgen_syntax::{Precedence, Span};
use jsgen_targets::{print_assignment_target_rest, print_assignment_target_with_default};
use jsgen_tree::{
    ArrayAssignmentTarget, AssignmentTargetMaybeDefault, AssignmentTargetProperty,
    AssignmentTargetPropertyIdentifier, AssignmentTargetPropertyProperty, AssignmentTargetRest,
    IdentifierReference, ObjectAssignmentTarget,
};

// ---- arrays

pub fn print_array_assignment_target<N: PrintNode>(
    node: &ArrayAssignmentTarget<N>,
    p: &mut Printer<'_>,
    place: Place,
)
    ensures { Lays p.old p.new (spell (array_assignment_target_row N.plain node.now) place) }
{
    let _ = place;
    let within = Place::in_brackets(Precedence::Comma);
    p.print_mark(node.span);
    print_pattern_brackets::<_, _, Targets, Rest>(&node.elements, &node.rest, p, within);
}

/// The targets of elements; one that is left out has nothing in its place.
struct Targets;

impl<N: PrintNode> PrintElement<Option<AssignmentTargetMaybeDefault<N>>> for Targets {
    ghost plain = { option_map (in_assignment_target_maybe_default N.plain) };

    fn is_left_out(element: &Option<AssignmentTargetMaybeDefault<N>>) -> bool {
        element.is_none()
    }

    fn print_element(
        element: &Option<AssignmentTargetMaybeDefault<N>>,
        p: &mut Printer<'_>,
        place: Place,
    ) {
        match element {
            Some(element) => print_maybe_default(element, p, place),
            None => {}
        }
    }
}

/// What takes the rest.
struct Rest;

impl<N: PrintNode> PrintMember<Box<AssignmentTargetRest<N>>> for Rest {
    ghost plain = { λ b. assignment_target_rest_row N.plain b.value };

    fn print_member(rest: &Box<AssignmentTargetRest<N>>, p: &mut Printer<'_>, place: Place) {
        print_assignment_target_rest::<_, Inside>(rest, p, place);
    }
}

fn print_maybe_default<N: PrintNode>(
    target: &AssignmentTargetMaybeDefault<N>,
    p: &mut Printer<'_>,
    place: Place,
)
    ensures { Lays p.old p.new (spell (in_assignment_target_maybe_default N.plain target.now) place) }
{
    match target {
        AssignmentTargetMaybeDefault::AssignmentTarget(node) => node.get().print(p, place),
        AssignmentTargetMaybeDefault::AssignmentTargetWithDefault(node) => {
            print_assignment_target_with_default::<_, Inside>(node, p, place);
        }
    }
}

// ---- objects

pub fn print_object_assignment_target<N: PrintNode>(
    node: &ObjectAssignmentTarget<N>,
    p: &mut Printer<'_>,
    place: Place,
)
    ensures { Lays p.old p.new (spell (object_assignment_target_row N.plain node.now) place) }
{
    let _ = place;
    let within = Place::in_brackets(Precedence::Comma);
    p.print_mark(node.span);
    p.print_opening(Bracket::Brace);
    print_list::<_, Properties>(&node.properties, p, within);
    print_comma_between::<_, _, Properties, Rest>(&node.properties, &node.rest, p);
    print_if_given::<_, Rest>(&node.rest, p, within);
    p.print_closing(Bracket::Brace);
}

/// The properties of an object.
struct Properties;

impl<N: PrintNode> PrintMember<AssignmentTargetProperty<N>> for Properties {
    ghost plain = { in_assignment_target_property N.plain };

    fn print_member(property: &AssignmentTargetProperty<N>, p: &mut Printer<'_>, place: Place) {
        match property {
            AssignmentTargetProperty::AssignmentTargetPropertyIdentifier(node) => {
                print_assignment_target_property_identifier(node, p, place);
            }
            AssignmentTargetProperty::AssignmentTargetPropertyProperty(node) => {
                print_assignment_target_property_property(node, p, place);
            }
        }
    }
}

pub fn print_assignment_target_property_identifier<N: PrintNode>(
    node: &AssignmentTargetPropertyIdentifier<N>,
    p: &mut Printer<'_>,
    place: Place,
)
    ensures { Lays p.old p.new (spell (assignment_target_property_identifier_row N.plain node.now) place) }
{
    let _ = place;
    print_own_or_renamed(&node.binding, p);
    print_value::<_, Nested<Inside>>(&node.init, p, Place::in_brackets(Precedence::Comma));
}

// A name alone, or where it is printed otherwise, that behind its own.
fn print_own_or_renamed(node: &IdentifierReference, p: &mut Printer<'_>)
    ensures { Lays p.old p.new (own_or_renamed (looked_up_in (identifier_reference_row node.now)) (name node.now.span (looked_up node.now.reference (characters node.now.name)))) }
{
    if p.prints_as(node.name.as_str(), node.reference, node.name.as_str()) {
        p.print_reference(node.span, node.name.as_str(), node.reference);
    } else {
        print_renamed(node, p);
    }
}

// Its own name, and the one that is printed, both without a mark.
fn print_renamed(node: &IdentifierReference, p: &mut Printer<'_>)
    ensures { Lays p.old p.new (renamed_items (looked_up node.now.reference (characters node.now.name))) }
{
    let unmarked = Span { start: 0, end: 0 };
    p.print_name(unmarked, node.name.as_str());
    p.print_colon();
    p.print_soft_space();
    p.print_reference(unmarked, node.name.as_str(), node.reference);
}

pub fn print_assignment_target_property_property<N: PrintNode>(
    node: &AssignmentTargetPropertyProperty<N>,
    p: &mut Printer<'_>,
    place: Place,
)
    ensures { Lays p.old p.new (spell (assignment_target_property_property_row N.plain node.now) place) }
{
    let _ = place;
    print_before_target(node, p);
    print_maybe_default(&node.binding, p, Place::in_brackets(Precedence::Comma));
}

// The key and its colon, but in minified text where the target alone says the key.
fn print_before_target<N: PrintNode>(
    node: &AssignmentTargetPropertyProperty<N>,
    p: &mut Printer<'_>,
)
    ensures { Lays p.old p.new (before_target (written_name_in (in_property_key N.plain node.now.name)) (target_named (in_assignment_target_maybe_default N.plain node.now.binding)) (key_of node.now.computed (in_property_key N.plain node.now.name) ⊕ punctuator colon ⊕ soft_space)) }
{
    if is_key_left_out(node, p) {
        return;
    }
    print_key(&node.name, node.computed, p);
    p.print_colon();
    p.print_soft_space();
}

fn is_key_left_out<N: PrintNode>(
    node: &AssignmentTargetPropertyProperty<N>,
    p: &Printer<'_>,
) -> bool
    ensures { result ≡ ((pen_of p.now).style.minified && is_key_said (pen_of p.now).style.tables (written_name_in (in_property_key N.plain node.now.name)) (target_named (in_assignment_target_maybe_default N.plain node.now.binding))) }
{
    p.is_minified() && is_key_said(node, p)
}

// Whether the key is a name, and the target is printed as it is written.
fn is_key_said<N: PrintNode>(node: &AssignmentTargetPropertyProperty<N>, p: &Printer<'_>) -> bool
    ensures { result ≡ is_key_said (pen_of p.now).style.tables (written_name_in (in_property_key N.plain node.now.name)) (target_named (in_assignment_target_maybe_default N.plain node.now.binding)) }
{
    match key_name(&node.name) {
        Some(name) => is_target_said(&node.binding, name, p),
        None => false,
    }
}

fn is_target_said<N: PrintNode>(
    target: &AssignmentTargetMaybeDefault<N>,
    name: &str,
    p: &Printer<'_>,
) -> bool
    ensures { result ≡ is_said (pen_of p.now).style.tables (target_named (in_assignment_target_maybe_default N.plain target.now)) (chars name.now) }
{
    match target {
        AssignmentTargetMaybeDefault::AssignmentTarget(node) => is_bare_said(node.get(), name, p),
        AssignmentTargetMaybeDefault::AssignmentTargetWithDefault(node) => {
            is_bare_said(node.binding.get(), name, p)
        }
    }
}

/// Whether a node is a reference without parentheses, and printed as this name is written.
pub fn is_bare_said<N: PrintNode>(node: &N, name: &str, p: &Printer<'_>) -> bool
    ensures reference { result ≡ is_said (pen_of p.now).style.tables (looked_up_in (N.plain node.now)) (chars name.now) }
    ensures target { result ≡ is_said (pen_of p.now).style.tables (target_named (N.plain node.now)) (chars name.now) }
{
    match node.bare_looked_up() {
        Some(node) => p.prints_as(node.name.as_str(), node.reference, name),
        None => false,
    }
}
