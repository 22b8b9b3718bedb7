// What classes and their members keep (ECMA-262, 15.7).
ghost use Rattle.std.specs.Prelude.{◌≡◌};
ghost use Rattle.jsgen_model.specs.Valid.{fits_place, as_function_kind, as_property, is_private};

use crate::functions::function_fits;
use jsgen_tree::{ClassKind, FunctionKind, MethodDefinitionKind, NodeSet, NodeType, PropertyKind};

fn as_function_kind(kind: ClassKind) -> FunctionKind
    ensures { result ≡ as_function_kind kind }
{
    match kind {
        ClassKind::Declaration => FunctionKind::Declaration,
        ClassKind::Expression => FunctionKind::Expression,
    }
}

/// Whether a class of this kind, with a name or without one, stands at a place that asks for this set, where a function of its kind
/// would.
pub fn class_fits(kind: ClassKind, has_name: bool, set: NodeSet) -> bool
    ensures { result ≡ fits_place set (as_function_kind kind) has_name }
{
    function_fits(as_function_kind(kind), has_name, set)
}

/// The kind of property whose parameters a method of this kind has.
pub fn as_property(kind: MethodDefinitionKind) -> PropertyKind
    ensures { result ≡ as_property kind }
{
    match kind {
        MethodDefinitionKind::Get => PropertyKind::Get,
        MethodDefinitionKind::Set => PropertyKind::Set,
        MethodDefinitionKind::Constructor | MethodDefinitionKind::Method => PropertyKind::Init,
    }
}

/// Whether nodes of this type are private names.
pub fn is_private(node_type: NodeType) -> bool
    ensures { result ≡ is_private node_type }
{
    matches!(&node_type, NodeType::PrivateIdentifier)
}
