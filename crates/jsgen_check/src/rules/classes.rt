// Classes, their members, and private names.
#![tactic(auto, unfolding(jsgen_rules::specs::Verdict::verdict))]

ghost use Rattle.std.specs.Prelude.{◌≡◌};
ghost use Rattle.jsgen_tree.specs.Rows.{function_row, in_property_key, method_definition_row, private_identifier_row, property_definition_row};
ghost use Rattle.jsgen_model.specs.Valid.{own_faults, fits_method, may_be_member_key, member_key_faults, class_method_faults};
ghost use Rattle.jsgen_rules.specs.Verdict.{verdict};
ghost use Rattle.jsgen_check.specs.Verdict.{surroundings_plain};

use crate::rules::keys::{key_start, key_type, may_be_pattern_key};
use crate::{CheckNode, Surroundings};
use jsgen_model::TreeFault;
use jsgen_rules::{
    Classes, as_property, check_private_name, fits_accessor, fits_words, is_private,
};
use jsgen_tree::{
    Function, MethodDefinition, MethodDefinitionKind, PrivateIdentifier, PropertyDefinition,
    PropertyKey, PropertyKind,
};

#[tactic(auto, unfolding(crate::specs::Verdict::surroundings_plain))]
pub fn check_private_identifier_rules(
    node: &PrivateIdentifier,
    around: &Surroundings<'_>,
    classes: Option<&Classes<'_>>,
) -> Result<(), TreeFault>
    ensures { result ≡ verdict (own_faults (surroundings_plain around.now classes.entry) (private_identifier_row node.now)) }
{
    check_private_name(around.tables, classes, &node.name, node.span)
}

/// Whether it is a key of a member: a private name, or a key of a property and no negative number, where it isn't computed.
fn may_be_member_key<N: CheckNode>(computed: bool, key: &PropertyKey<N>) -> bool
    ensures { result ≡ may_be_member_key computed (in_property_key N.plain key.now) }
{
    if computed {
        key_type(key).is_expression()
    } else {
        is_private(key_type(key)) || may_be_pattern_key(false, key)
    }
}

fn check_member_key<N: CheckNode>(computed: bool, key: &PropertyKey<N>) -> Result<(), TreeFault>
    ensures { result ≡ verdict (member_key_faults computed (in_property_key N.plain key.now)) }
{
    if may_be_member_key(computed, key) {
        Ok(())
    } else {
        Err(TreeFault::Place {
            start: key_start(key),
        })
    }
}

/// Whether a function may follow the key of a property of this kind.
fn fits_method<N: CheckNode>(kind: PropertyKind, function: &Function<N>) -> bool
    ensures { result ≡ fits_method kind (function_row N.plain function.now) }
{
    let fits = fits_accessor(kind, &function.params)
        && fits_words(kind, function.is_async, function.generator);
    function.id.is_none() && fits
}

fn check_class_method<N: CheckNode>(
    kind: MethodDefinitionKind,
    function: &Function<N>,
) -> Result<(), TreeFault>
    ensures { result ≡ verdict (class_method_faults kind (function_row N.plain function.now)) }
{
    if fits_method(as_property(kind), function) {
        Ok(())
    } else {
        Err(TreeFault::Place {
            start: function.span.start,
        })
    }
}

#[tactic(auto)]
pub fn check_method_definition_rules<N: CheckNode>(
    node: &MethodDefinition<N>,
    around: &Surroundings<'_>,
    classes: Option<&Classes<'_>>,
) -> Result<(), TreeFault>
    ensures { result ≡ verdict (own_faults (surroundings_plain around.now classes.entry) (method_definition_row N.plain node.now)) }
{
    let _ = classes;
    let _ = around;
    check_member_key(node.computed, &node.key)?;
    check_class_method(node.kind, &node.value)
}

#[tactic(auto)]
pub fn check_property_definition_rules<N: CheckNode>(
    node: &PropertyDefinition<N>,
    around: &Surroundings<'_>,
    classes: Option<&Classes<'_>>,
) -> Result<(), TreeFault>
    ensures { result ≡ verdict (own_faults (surroundings_plain around.now classes.entry) (property_definition_row N.plain node.now)) }
{
    let _ = classes;
    let _ = around;
    check_member_key(node.computed, &node.key)
}
