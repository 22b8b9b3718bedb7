// Laws over the definitions, each the contract of a function with an empty body.
ghost use Rattle.std.specs.Prelude.{◌≡◌, ◌↔◌, IsTrue};
ghost use Rattle.jsgen_syntax.specs.Equality.{IsByValue};
ghost use Rattle.jsgen_tree.specs.Law.{FieldsAreNamed};
ghost use Rattle.jsgen_tree.specs.Options.{legal_plain};
ghost use Rattle.jsgen_tree.specs.Signs.{OperatorsAreNamed};

use crate::collections::PropertyKind;
use crate::functions::FunctionKind;
use crate::options::LegalComment;
use crate::statements::{CommentContent, CommentKind, VariableDeclarationKind};
use crate::types::{NodeSet, NodeType};

/// Two values of an enum are equal exactly where they are one, and where one holds a text, where their plain data is.
pub fn equality_is_by_value()
    ensures property { IsByValue ⟦<PropertyKind as PartialEq>⟧.eq }
    ensures function { IsByValue ⟦<FunctionKind as PartialEq>⟧.eq }
    ensures comment { IsByValue ⟦<CommentKind as PartialEq>⟧.eq }
    ensures content { IsByValue ⟦<CommentContent as PartialEq>⟧.eq }
    ensures declaration { IsByValue ⟦<VariableDeclarationKind as PartialEq>⟧.eq }
    ensures node_type { IsByValue ⟦<NodeType as PartialEq>⟧.eq }
    ensures node_set { IsByValue ⟦<NodeSet as PartialEq>⟧.eq }
    ensures legal { (a b : LegalComment) →
        IsTrue (⟦<LegalComment as PartialEq>⟧.eq a b) ↔ (legal_plain a ≡ legal_plain b) }
{}

/// A definition that reads a value of a node reads the field that it names.
pub fn fields_are_named()
    ensures { FieldsAreNamed }
{}

/// An operator's word in a job is the sign that it is printed as.
pub fn operators_are_named()
    ensures { OperatorsAreNamed }
{}
