// Generated from tools/nodes/table.txt; edit that and run tools/nodes/generate.
// The rows of members of sets, each in a box; want of memory for one is a fault of the reader.
ghost use Rattle.std.specs.Prelude.{Ok};
ghost use Rattle.jsgen_tree.specs.Rows.{expression_plain, assignment_target_plain, declaration_plain, statement_plain, binding_pattern_plain, class_element_plain};
ghost use Rattle.jsgen_fields.specs.Values.{Same};

use crate::InputFault;
use jsgen_kept::asked::RowOf;
use jsgen_kept::kept;
use jsgen_kept::others::{
    OtherAssignmentTarget, OtherDeclaration, OtherExpression, OtherStatement,
};
use jsgen_tree::{BindingPattern, ClassElement, HasType};
use std::alloc::Global;

pub fn row_of_declaration<N: HasType + Drop, R: RowOf<N>>(
    alloc: Global,
    other: OtherDeclaration<N>,
) -> Result<R, InputFault>
    ensures { Same R.plain result (Ok (declaration_plain N.plain other.declaration)) }
{
    Ok(kept::row_of_declaration::<N, R>(alloc, other)?)
}

pub fn row_of_binding_pattern<N: HasType + Drop, R: RowOf<N>>(
    alloc: Global,
    binding_pattern: BindingPattern<N>,
) -> Result<R, InputFault>
    ensures { Same R.plain result (Ok (binding_pattern_plain N.plain binding_pattern)) }
{
    Ok(kept::row_of_binding_pattern::<N, R>(alloc, binding_pattern)?)
}

pub fn row_of_statement<N: HasType + Drop, R: RowOf<N>>(
    alloc: Global,
    other: OtherStatement<N>,
) -> Result<R, InputFault>
    ensures { Same R.plain result (Ok (statement_plain N.plain other.statement)) }
{
    Ok(kept::row_of_statement::<N, R>(alloc, other)?)
}

pub fn row_of_expression<N: HasType + Drop, R: RowOf<N>>(
    alloc: Global,
    other: OtherExpression<N>,
) -> Result<R, InputFault>
    ensures { Same R.plain result (Ok (expression_plain N.plain other.expression)) }
{
    Ok(kept::row_of_expression::<N, R>(alloc, other)?)
}

pub fn row_of_assignment_target<N: HasType + Drop, R: RowOf<N>>(
    alloc: Global,
    other: OtherAssignmentTarget<N>,
) -> Result<R, InputFault>
    ensures { Same R.plain result (Ok (assignment_target_plain N.plain other.assignment_target)) }
{
    Ok(kept::row_of_assignment_target::<N, R>(alloc, other)?)
}

pub fn row_of_class_element<N: HasType + Drop, R: RowOf<N>>(
    alloc: Global,
    class_element: ClassElement<N>,
) -> Result<R, InputFault>
    ensures { Same R.plain result (Ok (class_element_plain N.plain class_element)) }
{
    Ok(kept::row_of_class_element::<N, R>(alloc, class_element)?)
}
