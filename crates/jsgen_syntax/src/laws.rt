// Laws over what is derived, each the contract of a function with an empty body.
ghost use Rattle.jsgen_syntax.specs.Equality.{IsByValue};

use crate::buffer::IndentChar;
use crate::escape::NonAsciiEscape;
use crate::operator::{
    AssignmentOperator, BinaryOperator, LogicalOperator, UnaryOperator, UpdateOperator,
};
use crate::precedence::Precedence;
use crate::quote::Quote;
use crate::span::SourceKind;

/// Two values of an enum are equal exactly where they are one.
pub fn equality_is_by_value()
    ensures indent_char { IsByValue ⟦<IndentChar as PartialEq>⟧.eq }
    ensures escape { IsByValue ⟦<NonAsciiEscape as PartialEq>⟧.eq }
    ensures binary { IsByValue ⟦<BinaryOperator as PartialEq>⟧.eq }
    ensures logical { IsByValue ⟦<LogicalOperator as PartialEq>⟧.eq }
    ensures unary { IsByValue ⟦<UnaryOperator as PartialEq>⟧.eq }
    ensures update { IsByValue ⟦<UpdateOperator as PartialEq>⟧.eq }
    ensures assignment { IsByValue ⟦<AssignmentOperator as PartialEq>⟧.eq }
    ensures level { IsByValue ⟦<Precedence as PartialEq>⟧.eq }
    ensures quote { IsByValue ⟦<Quote as PartialEq>⟧.eq }
    ensures source_kind { IsByValue ⟦<SourceKind as PartialEq>⟧.eq }
{}
