// What imports, exports and hashbangs keep (ECMA-262, 16.2 and 12.5).
ghost use Rattle.std.specs.Prelude.{◌≡◌};
ghost use Rattle.std.specs.Str.{chars};
ghost use Rattle.jsgen_model.specs.Valid.{hashbang_faults, is_reference, fits_source};
ghost use Rattle.jsgen_rules.specs.Verdict.{verdict};

use crate::comments::has_line_end;
use jsgen_model::TreeFault;
use jsgen_syntax::Span;
use jsgen_tree::NodeType;

/// A hashbang is one line.
pub fn check_hashbang(value: &str, span: Span) -> Result<(), TreeFault>
    ensures { result ≡ verdict (hashbang_faults span (chars value.now)) }
{
    if has_line_end(value) {
        return Err(TreeFault::Literal { start: span.start });
    }
    Ok(())
}

/// Whether nodes of this type are names that are looked up.
pub fn is_reference(node_type: NodeType) -> bool
    ensures { result ≡ is_reference node_type }
{
    matches!(&node_type, NodeType::IdentifierReference)
}

/// Whether what is exported may be of this type: of another module no reference, and of this one a reference.
pub fn fits_source(has_source: bool, node_type: NodeType) -> bool
    ensures { result ≡ fits_source has_source node_type }
{
    if has_source {
        !is_reference(node_type)
    } else {
        is_reference(node_type)
    }
}
