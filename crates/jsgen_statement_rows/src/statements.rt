// Generated from tools/nodes/table.txt; edit that and run tools/nodes/generate.
// Rows of a job: programs, statements and declarations (ECMA-262, clauses 14 and 16).
ghost use Rattle.std.specs.Prelude.{◌≡◌, true};
ghost use Rattle.jsgen_fields.specs.Given.{row_data};
ghost use Rattle.jsgen_tree.specs.RowFields.{program_fields, comment_fields, directive_fields, variable_declaration_fields, variable_declarator_fields, binding_identifier_fields, expression_statement_fields, block_statement_fields, if_statement_fields, empty_statement_fields};
ghost use Rattle.jsgen_fields.specs.Reads.{Gives, read_node, read_typed};
ghost use Rattle.jsgen_pool.specs.Pool.{entries};
ghost use Rattle.jsgen_fields.specs.Parts.{is_in_statements};
ghost use Rattle.jsgen_tree.specs.declared.types.NodeType.TheVariants as types;

use jsgen_fields::InputFault;
use jsgen_fields::fields::boxed;
use jsgen_fields::given::GivenRow;
use jsgen_fields::list_fields::{
    comment_list, directive_list, statement_list, variable_declarator_list,
};
use jsgen_fields::set_fields::{
    needed_binding_pattern, needed_expression, needed_statement, optional_expression,
    optional_hashbang, optional_statement,
};
use jsgen_fields::set_rows::{row_of_binding_pattern, row_of_declaration, row_of_statement};
use jsgen_fields::values::{
    field_not_given, needed_number, needed_text, neither_given, optional_flag, optional_number,
    optional_text,
};
use jsgen_fields::words::{
    needed_content_of_comment, needed_declaration_kind, needed_kind_of_comment, needed_source_kind,
};
use jsgen_kept::asked::{
    HoldsBindingPattern, HoldsDeclaration, HoldsExpression, HoldsStatement, ReadNode, RowOf,
};
use jsgen_kept::kept::{
    row_of_comment, row_of_directive, row_of_program, row_of_variable_declarator,
};
use jsgen_kept::others::{OtherDeclaration, OtherStatement};
use jsgen_pool::Kept;
use jsgen_syntax::Span;
use jsgen_tree::{
    BindingIdentifier, BindingPattern, BlockStatement, Comment, Declaration, Directive,
    EmptyStatement, ExpressionStatement, HasType, IfStatement, NodeType, Program, Statement,
    VariableDeclaration, VariableDeclarator,
};
use std::alloc::Global;

#[tactic(auto, unfolding(jsgen_fields::specs::Reads::read_node))]
fn read_program<N: HoldsDeclaration + HoldsStatement + Drop, R: RowOf<N> + Drop>(
    alloc: Global,
    kept: &mut Vec<Kept<R>>,
    number: usize,
    span: Span,
    row: &GivenRow<'_>,
) -> Result<R, InputFault>
    ensures { Gives R.plain result (entries R.plain kept.new.items)
        (read_node number types.Program program_fields span (row_data row.now) (entries R.plain kept.old.items)) }
{
    let source = match optional_text(alloc, number, 2, row, "source") {
        Ok(source) => source,
        Err(fault) => return Err(fault),
    };
    let kind = match needed_source_kind(number, 3, row, "kind") {
        Ok(kind) => kind,
        Err(fault) => return Err(fault),
    };
    match neither_given(number, 4, row, "jsx", "typescript") {
        Ok(()) => {}
        Err(fault) => return Err(fault),
    }
    let comments = match comment_list::<N, R>(alloc, kept, number, 6, row, "comments") {
        Ok(comments) => comments,
        Err(fault) => return Err(fault),
    };
    let hashbang = match optional_hashbang::<N, R>(alloc, kept, number, 7, row, "hashbang") {
        Ok(hashbang) => hashbang,
        Err(fault) => return Err(fault),
    };
    let directives = match directive_list::<N, R>(alloc, kept, number, 8, row, "directives") {
        Ok(directives) => directives,
        Err(fault) => return Err(fault),
    };
    let body = match statement_list::<N, R>(alloc, kept, number, 9, row, "body") {
        Ok(body) => body,
        Err(fault) => return Err(fault),
    };
    let node = Program {
        span,
        source,
        kind,
        comments,
        hashbang,
        directives,
        body,
    };
    match boxed(alloc, node) {
        Ok(node) => Ok(row_of_program::<N, R>(node)),
        Err(fault) => Err(fault),
    }
}

#[tactic(auto, unfolding(jsgen_fields::specs::Reads::read_node))]
fn read_comment<N: HasType + Drop, R: RowOf<N> + Drop>(
    alloc: Global,
    kept: &mut Vec<Kept<R>>,
    number: usize,
    span: Span,
    row: &GivenRow<'_>,
) -> Result<R, InputFault>
    ensures { Gives R.plain result (entries R.plain kept.new.items)
        (read_node number types.Comment comment_fields span (row_data row.now) (entries R.plain kept.old.items)) }
{
    let _ = kept;
    let kind = match needed_kind_of_comment(number, 2, row, "kind") {
        Ok(kind) => kind,
        Err(fault) => return Err(fault),
    };
    let content = match needed_content_of_comment(number, 3, row, "content") {
        Ok(content) => content,
        Err(fault) => return Err(fault),
    };
    let leading = match optional_flag(number, 4, row, "leading") {
        Ok(leading) => leading,
        Err(fault) => return Err(fault),
    };
    let attached_to = match needed_number(number, 5, row, "attached_to") {
        Ok(attached_to) => attached_to,
        Err(fault) => return Err(fault),
    };
    let preceded_by_newline = match optional_flag(number, 6, row, "preceded_by_newline") {
        Ok(preceded_by_newline) => preceded_by_newline,
        Err(fault) => return Err(fault),
    };
    let followed_by_newline = match optional_flag(number, 7, row, "followed_by_newline") {
        Ok(followed_by_newline) => followed_by_newline,
        Err(fault) => return Err(fault),
    };
    let node = Comment {
        span,
        kind,
        content,
        leading,
        attached_to,
        preceded_by_newline,
        followed_by_newline,
    };
    match boxed(alloc, node) {
        Ok(node) => Ok(row_of_comment::<N, R>(node)),
        Err(fault) => Err(fault),
    }
}

#[tactic(auto, unfolding(jsgen_fields::specs::Reads::read_node))]
fn read_directive<N: HasType + Drop, R: RowOf<N> + Drop>(
    alloc: Global,
    kept: &mut Vec<Kept<R>>,
    number: usize,
    span: Span,
    row: &GivenRow<'_>,
) -> Result<R, InputFault>
    ensures { Gives R.plain result (entries R.plain kept.new.items)
        (read_node number types.Directive directive_fields span (row_data row.now) (entries R.plain kept.old.items)) }
{
    let _ = kept;
    let directive = match needed_text(alloc, number, 2, row, "directive") {
        Ok(directive) => directive,
        Err(fault) => return Err(fault),
    };
    let node = Directive { span, directive };
    match boxed(alloc, node) {
        Ok(node) => Ok(row_of_directive::<N, R>(node)),
        Err(fault) => Err(fault),
    }
}

#[tactic(auto, unfolding(jsgen_fields::specs::Reads::read_node))]
fn read_variable_declaration<N: HasType + Drop, R: RowOf<N> + Drop>(
    alloc: Global,
    kept: &mut Vec<Kept<R>>,
    number: usize,
    span: Span,
    row: &GivenRow<'_>,
) -> Result<R, InputFault>
    ensures { Gives R.plain result (entries R.plain kept.new.items)
        (read_node number types.VariableDeclaration variable_declaration_fields span (row_data row.now) (entries R.plain kept.old.items)) }
{
    let kind = match needed_declaration_kind(number, 2, row, "kind") {
        Ok(kind) => kind,
        Err(fault) => return Err(fault),
    };
    match field_not_given(number, 3, row, "declare") {
        Ok(()) => {}
        Err(fault) => return Err(fault),
    }
    let declarations = match variable_declarator_list::<N, R>(
        alloc,
        kept,
        number,
        4,
        row,
        "declarations",
    ) {
        Ok(declarations) => declarations,
        Err(fault) => return Err(fault),
    };
    let node = VariableDeclaration {
        span,
        kind,
        declarations,
    };
    match boxed(alloc, node) {
        Ok(node) => row_of_declaration::<N, R>(
            alloc,
            OtherDeclaration {
                declaration: Declaration::VariableDeclaration(node),
            },
        ),
        Err(fault) => Err(fault),
    }
}

#[tactic(auto, unfolding(jsgen_fields::specs::Reads::read_node))]
fn read_variable_declarator<N: HoldsExpression + HoldsBindingPattern + Drop, R: RowOf<N> + Drop>(
    alloc: Global,
    kept: &mut Vec<Kept<R>>,
    number: usize,
    span: Span,
    row: &GivenRow<'_>,
) -> Result<R, InputFault>
    ensures { Gives R.plain result (entries R.plain kept.new.items)
        (read_node number types.VariableDeclarator variable_declarator_fields span (row_data row.now) (entries R.plain kept.old.items)) }
{
    let id = match needed_binding_pattern::<N, R>(alloc, kept, number, 2, row, "id") {
        Ok(id) => id,
        Err(fault) => return Err(fault),
    };
    match neither_given(number, 3, row, "definite", "type_annotation") {
        Ok(()) => {}
        Err(fault) => return Err(fault),
    }
    let init = match optional_expression::<N, R>(alloc, kept, number, 5, row, "init") {
        Ok(init) => init,
        Err(fault) => return Err(fault),
    };
    let node = VariableDeclarator { span, id, init };
    match boxed(alloc, node) {
        Ok(node) => Ok(row_of_variable_declarator::<N, R>(node)),
        Err(fault) => Err(fault),
    }
}

#[tactic(auto, unfolding(jsgen_fields::specs::Reads::read_node))]
fn read_binding_identifier<N: HasType + Drop, R: RowOf<N> + Drop>(
    alloc: Global,
    kept: &mut Vec<Kept<R>>,
    number: usize,
    span: Span,
    row: &GivenRow<'_>,
) -> Result<R, InputFault>
    ensures { Gives R.plain result (entries R.plain kept.new.items)
        (read_node number types.BindingIdentifier binding_identifier_fields span (row_data row.now) (entries R.plain kept.old.items)) }
{
    let _ = kept;
    let name = match needed_text(alloc, number, 2, row, "name") {
        Ok(name) => name,
        Err(fault) => return Err(fault),
    };
    let symbol = match optional_number(number, 3, row, "symbol") {
        Ok(symbol) => symbol,
        Err(fault) => return Err(fault),
    };
    let node = BindingIdentifier { span, name, symbol };
    match boxed(alloc, node) {
        Ok(node) => row_of_binding_pattern::<N, R>(alloc, BindingPattern::BindingIdentifier(node)),
        Err(fault) => Err(fault),
    }
}

#[tactic(auto, unfolding(jsgen_fields::specs::Reads::read_node))]
fn read_expression_statement<N: HoldsExpression + Drop, R: RowOf<N> + Drop>(
    alloc: Global,
    kept: &mut Vec<Kept<R>>,
    number: usize,
    span: Span,
    row: &GivenRow<'_>,
) -> Result<R, InputFault>
    ensures { Gives R.plain result (entries R.plain kept.new.items)
        (read_node number types.ExpressionStatement expression_statement_fields span (row_data row.now) (entries R.plain kept.old.items)) }
{
    let expression = match needed_expression::<N, R>(alloc, kept, number, 2, row, "expression") {
        Ok(expression) => expression,
        Err(fault) => return Err(fault),
    };
    let node = ExpressionStatement { span, expression };
    match boxed(alloc, node) {
        Ok(node) => row_of_statement::<N, R>(
            alloc,
            OtherStatement {
                statement: Statement::ExpressionStatement(node),
            },
        ),
        Err(fault) => Err(fault),
    }
}

#[tactic(auto, unfolding(jsgen_fields::specs::Reads::read_node))]
fn read_block_statement<N: HoldsDeclaration + HoldsStatement + Drop, R: RowOf<N> + Drop>(
    alloc: Global,
    kept: &mut Vec<Kept<R>>,
    number: usize,
    span: Span,
    row: &GivenRow<'_>,
) -> Result<R, InputFault>
    ensures { Gives R.plain result (entries R.plain kept.new.items)
        (read_node number types.BlockStatement block_statement_fields span (row_data row.now) (entries R.plain kept.old.items)) }
{
    let body = match statement_list::<N, R>(alloc, kept, number, 2, row, "body") {
        Ok(body) => body,
        Err(fault) => return Err(fault),
    };
    let node = BlockStatement { span, body };
    match boxed(alloc, node) {
        Ok(node) => row_of_statement::<N, R>(
            alloc,
            OtherStatement {
                statement: Statement::BlockStatement(node),
            },
        ),
        Err(fault) => Err(fault),
    }
}

#[tactic(auto, unfolding(jsgen_fields::specs::Reads::read_node))]
fn read_if_statement<
    N: HoldsExpression + HoldsDeclaration + HoldsStatement + Drop,
    R: RowOf<N> + Drop,
>(
    alloc: Global,
    kept: &mut Vec<Kept<R>>,
    number: usize,
    span: Span,
    row: &GivenRow<'_>,
) -> Result<R, InputFault>
    ensures { Gives R.plain result (entries R.plain kept.new.items)
        (read_node number types.IfStatement if_statement_fields span (row_data row.now) (entries R.plain kept.old.items)) }
{
    let test = match needed_expression::<N, R>(alloc, kept, number, 2, row, "test") {
        Ok(test) => test,
        Err(fault) => return Err(fault),
    };
    let consequent = match needed_statement::<N, R>(alloc, kept, number, 3, row, "consequent") {
        Ok(consequent) => consequent,
        Err(fault) => return Err(fault),
    };
    let alternate = match optional_statement::<N, R>(alloc, kept, number, 4, row, "alternate") {
        Ok(alternate) => alternate,
        Err(fault) => return Err(fault),
    };
    let node = IfStatement {
        span,
        test,
        consequent,
        alternate,
    };
    match boxed(alloc, node) {
        Ok(node) => row_of_statement::<N, R>(
            alloc,
            OtherStatement {
                statement: Statement::IfStatement(node),
            },
        ),
        Err(fault) => Err(fault),
    }
}

#[tactic(auto, unfolding(jsgen_fields::specs::Reads::read_node))]
fn read_empty_statement<N: HasType + Drop, R: RowOf<N> + Drop>(
    alloc: Global,
    kept: &mut Vec<Kept<R>>,
    number: usize,
    span: Span,
    row: &GivenRow<'_>,
) -> Result<R, InputFault>
    ensures { Gives R.plain result (entries R.plain kept.new.items)
        (read_node number types.EmptyStatement empty_statement_fields span (row_data row.now) (entries R.plain kept.old.items)) }
{
    let _ = kept;
    let _ = number;
    let _ = row;
    let node = EmptyStatement { span };
    match boxed(alloc, node) {
        Ok(node) => row_of_statement::<N, R>(
            alloc,
            OtherStatement {
                statement: Statement::EmptyStatement(node),
            },
        ),
        Err(fault) => Err(fault),
    }
}

/// The row of a type of this part.
pub fn read_in_statements<N: ReadNode + Drop, R: RowOf<N> + Drop>(
    alloc: Global,
    kept: &mut Vec<Kept<R>>,
    node_type: NodeType,
    number: usize,
    span: Span,
    row: &GivenRow<'_>,
) -> Result<R, InputFault>
    requires { is_in_statements node_type ≡ true }
    ensures { Gives R.plain result (entries R.plain kept.new.items)
        (read_typed number node_type span (row_data row.now) (entries R.plain kept.old.items)) }
{
    match node_type {
        NodeType::Program => read_program::<N, R>(alloc, kept, number, span, row),
        NodeType::Comment => read_comment::<N, R>(alloc, kept, number, span, row),
        NodeType::Directive => read_directive::<N, R>(alloc, kept, number, span, row),
        NodeType::VariableDeclaration => read_variable_declaration::<N, R>(
            alloc, kept, number, span, row,
        ),
        NodeType::VariableDeclarator => read_variable_declarator::<N, R>(
            alloc, kept, number, span, row,
        ),
        NodeType::BindingIdentifier => read_binding_identifier::<N, R>(
            alloc, kept, number, span, row,
        ),
        NodeType::ExpressionStatement => read_expression_statement::<N, R>(
            alloc, kept, number, span, row,
        ),
        NodeType::BlockStatement => read_block_statement::<N, R>(alloc, kept, number, span, row),
        NodeType::IfStatement => read_if_statement::<N, R>(alloc, kept, number, span, row),
        NodeType::EmptyStatement => read_empty_statement::<N, R>(alloc, kept, number, span, row),
        _ => unreachable!(),
    }
}
