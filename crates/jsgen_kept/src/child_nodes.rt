// Generated from tools/nodes/table.txt; edit that and run tools/nodes/generate.
// What is made of a row where it is a child: a member of the set that the place is for, which nests.
ghost use Rattle.std.specs.Prelude.{◌≡◌, IfOk, Some, None, option_map, if◌then◌else◌};
ghost use Rattle.jsgen_tree.specs.Tree.{type_of};
ghost use Rattle.jsgen_tree.specs.Sets.{in_set};
ghost use Rattle.jsgen_tree.specs.Rows.{in_expression, in_assignment_target, in_declaration, in_statement, in_binding_pattern, in_class_element};
ghost use Rattle.jsgen_kept.specs.Kept.{row_plain};
ghost use Rattle.jsgen_tree.specs.declared.types.NodeSet.TheVariants as sets;

use crate::asked::{
    Child, HoldsAssignmentTarget, HoldsBindingPattern, HoldsClassElement, HoldsDeclaration,
    HoldsExpression, HoldsStatement,
};
use crate::kept::Row;
use crate::members::statement_of_declaration;
use jsgen_tree::{
    AssignmentTarget, AssignmentTargetNode, BindingPatternNode, ClassElementNode, Declaration,
    DeclarationNode, Expression, ExpressionNode, NodeSet, StatementNode,
};
use std::alloc::{AllocError, Global};

impl<N: HoldsDeclaration + HoldsStatement + Drop> Child<N> for StatementNode<N> {
    ghost plain = { λ n. in_statement N.plain n };

    ghost of_set = { sets.Statement };

    fn set() -> NodeSet {
        NodeSet::Statement
    }

    #[tactic(auto, using(crate::proofs::Sets::takes_statements))]
    fn from_row(alloc: Global, row: Row<N>) -> Result<Option<StatementNode<N>>, AllocError>
        ensures { IfOk result (λ child. option_map (in_statement N.plain) child
            ≡ (if in_set sets.Statement (type_of (row_plain N.plain row)) then Some (row_plain N.plain row) else None)) }
    {
        match row {
            Row::Declaration(row) => statement_of_declaration(
                alloc,
                N::declaration_node(Box::into_inner(row).declaration),
            ),
            Row::Statement(row) => Ok(Some(N::statement_node(Box::into_inner(row).statement))),
            Row::Function(row) => statement_of_declaration(
                alloc,
                N::declaration_node(Declaration::Function(row)),
            ),
            Row::Class(row) => statement_of_declaration(
                alloc,
                N::declaration_node(Declaration::Class(row)),
            ),
            rest => {
                rest.let_go();
                Ok(None)
            }
        }
    }
}

impl<N: HoldsBindingPattern + Drop> Child<N> for BindingPatternNode<N> {
    ghost plain = { λ n. in_binding_pattern N.plain n };

    ghost of_set = { sets.BindingPattern };

    fn set() -> NodeSet {
        NodeSet::BindingPattern
    }

    #[tactic(auto, using(crate::proofs::Sets::takes_binding_patterns))]
    fn from_row(alloc: Global, row: Row<N>) -> Result<Option<BindingPatternNode<N>>, AllocError>
        ensures { IfOk result (λ child. option_map (in_binding_pattern N.plain) child
            ≡ (if in_set sets.BindingPattern (type_of (row_plain N.plain row)) then Some (row_plain N.plain row) else None)) }
    {
        let _ = alloc;
        match row {
            Row::BindingPattern(row) => Ok(Some(N::binding_pattern_node(Box::into_inner(row)))),
            rest => {
                rest.let_go();
                Ok(None)
            }
        }
    }
}

impl<N: HoldsExpression + Drop> Child<N> for ExpressionNode<N> {
    ghost plain = { λ n. in_expression N.plain n };

    ghost of_set = { sets.Expression };

    fn set() -> NodeSet {
        NodeSet::Expression
    }

    #[tactic(auto, using(crate::proofs::Sets::takes_expressions))]
    fn from_row(alloc: Global, row: Row<N>) -> Result<Option<ExpressionNode<N>>, AllocError>
        ensures { IfOk result (λ child. option_map (in_expression N.plain) child
            ≡ (if in_set sets.Expression (type_of (row_plain N.plain row)) then Some (row_plain N.plain row) else None)) }
    {
        let _ = alloc;
        match row {
            Row::IdentifierReference(row) => Ok(Some(N::expression_node(
                Expression::IdentifierReference(row),
            ))),
            Row::Expression(row) => Ok(Some(N::expression_node(Box::into_inner(row).expression))),
            Row::StaticMemberExpression(row) => Ok(Some(N::expression_node(
                Expression::StaticMemberExpression(row),
            ))),
            Row::ComputedMemberExpression(row) => Ok(Some(N::expression_node(
                Expression::ComputedMemberExpression(row),
            ))),
            Row::Function(row) => Ok(Some(N::expression_node(Expression::Function(row)))),
            Row::PrivateFieldExpression(row) => Ok(Some(N::expression_node(
                Expression::PrivateFieldExpression(row),
            ))),
            Row::Class(row) => Ok(Some(N::expression_node(Expression::Class(row)))),
            rest => {
                rest.let_go();
                Ok(None)
            }
        }
    }
}

impl<N: HoldsAssignmentTarget + Drop> Child<N> for AssignmentTargetNode<N> {
    ghost plain = { λ n. in_assignment_target N.plain n };

    ghost of_set = { sets.AssignmentTarget };

    fn set() -> NodeSet {
        NodeSet::AssignmentTarget
    }

    #[tactic(auto, using(crate::proofs::Sets::takes_assignment_targets))]
    fn from_row(alloc: Global, row: Row<N>) -> Result<Option<AssignmentTargetNode<N>>, AllocError>
        ensures { IfOk result (λ child. option_map (in_assignment_target N.plain) child
            ≡ (if in_set sets.AssignmentTarget (type_of (row_plain N.plain row)) then Some (row_plain N.plain row) else None)) }
    {
        let _ = alloc;
        match row {
            Row::IdentifierReference(row) => Ok(Some(N::assignment_target_node(
                AssignmentTarget::IdentifierReference(row),
            ))),
            Row::StaticMemberExpression(row) => Ok(Some(N::assignment_target_node(
                AssignmentTarget::StaticMemberExpression(row),
            ))),
            Row::ComputedMemberExpression(row) => Ok(Some(N::assignment_target_node(
                AssignmentTarget::ComputedMemberExpression(row),
            ))),
            Row::AssignmentTarget(row) => Ok(Some(N::assignment_target_node(
                Box::into_inner(row).assignment_target,
            ))),
            Row::PrivateFieldExpression(row) => Ok(Some(N::assignment_target_node(
                AssignmentTarget::PrivateFieldExpression(row),
            ))),
            rest => {
                rest.let_go();
                Ok(None)
            }
        }
    }
}

impl<N: HoldsClassElement + Drop> Child<N> for ClassElementNode<N> {
    ghost plain = { λ n. in_class_element N.plain n };

    ghost of_set = { sets.ClassElement };

    fn set() -> NodeSet {
        NodeSet::ClassElement
    }

    #[tactic(auto, using(crate::proofs::Sets::takes_class_elements))]
    fn from_row(alloc: Global, row: Row<N>) -> Result<Option<ClassElementNode<N>>, AllocError>
        ensures { IfOk result (λ child. option_map (in_class_element N.plain) child
            ≡ (if in_set sets.ClassElement (type_of (row_plain N.plain row)) then Some (row_plain N.plain row) else None)) }
    {
        let _ = alloc;
        match row {
            Row::ClassElement(row) => Ok(Some(N::class_element_node(Box::into_inner(row)))),
            rest => {
                rest.let_go();
                Ok(None)
            }
        }
    }
}

impl<N: HoldsDeclaration + Drop> Child<N> for DeclarationNode<N> {
    ghost plain = { λ n. in_declaration N.plain n };

    ghost of_set = { sets.Declaration };

    fn set() -> NodeSet {
        NodeSet::Declaration
    }

    #[tactic(auto, using(crate::proofs::Sets::takes_declarations))]
    fn from_row(alloc: Global, row: Row<N>) -> Result<Option<DeclarationNode<N>>, AllocError>
        ensures { IfOk result (λ child. option_map (in_declaration N.plain) child
            ≡ (if in_set sets.Declaration (type_of (row_plain N.plain row)) then Some (row_plain N.plain row) else None)) }
    {
        let _ = alloc;
        match row {
            Row::Declaration(row) => Ok(Some(N::declaration_node(
                Box::into_inner(row).declaration,
            ))),
            Row::Function(row) => Ok(Some(N::declaration_node(Declaration::Function(row)))),
            Row::Class(row) => Ok(Some(N::declaration_node(Declaration::Class(row)))),
            rest => {
                rest.let_go();
                Ok(None)
            }
        }
    }
}
