// Generated from tools/nodes/table.txt; edit that and run tools/nodes/generate.
// The members of a set whose rows are kept by it.
ghost use Rattle.std.specs.Prelude.{◌≡◌, true};
ghost use Rattle.jsgen_kept.specs.Others.{is_other_declaration, is_other_statement, is_other_expression, is_other_assignment_target};

use jsgen_tree::{AssignmentTarget, Declaration, Expression, Node, Statement};

/// A declaration that is no function and no class.
#[derive(Drop)]
pub struct OtherDeclaration<N = Node> {
    pub declaration: Declaration<N>,
    pub ghost other: { is_other_declaration declaration ≡ true },
}

/// A statement that is no declaration.
#[derive(Drop)]
pub struct OtherStatement<N = Node> {
    pub statement: Statement<N>,
    pub ghost other: { is_other_statement statement ≡ true },
}

/// An expression that is no identifier reference and no static member expression and no computed member expression and no function and no class and no private field expression.
#[derive(Drop)]
pub struct OtherExpression<N = Node> {
    pub expression: Expression<N>,
    pub ghost other: { is_other_expression expression ≡ true },
}

/// An assignment target that is no identifier reference and no static member expression and no computed member expression and no private field expression.
#[derive(Drop)]
pub struct OtherAssignmentTarget<N = Node> {
    pub assignment_target: AssignmentTarget<N>,
    pub ghost other: { is_other_assignment_target assignment_target ≡ true },
}
