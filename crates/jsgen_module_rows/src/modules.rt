// Generated from tools/nodes/table.txt; edit that and run tools/nodes/generate.
// Rows of a job: imports and exports (ECMA-262, 16.2), and the hashbang of a program (12.5).
ghost use Rattle.std.specs.Prelude.{◌≡◌, false};
ghost use Rattle.jsgen_fields.specs.Given.{row_data};
ghost use Rattle.jsgen_tree.specs.RowFields.{hashbang_fields, import_declaration_fields, import_default_specifier_fields, import_namespace_specifier_fields, import_specifier_fields, with_clause_fields, import_attribute_fields, export_declaration_fields, export_named_declaration_fields, export_from_declaration_fields, export_specifier_fields, export_all_declaration_fields, export_default_declaration_fields};
ghost use Rattle.jsgen_fields.specs.Reads.{Gives, read_node, read_typed};
ghost use Rattle.jsgen_pool.specs.Pool.{entries};
ghost use Rattle.jsgen_fields.specs.Parts.{is_in_statements, is_in_expressions, is_in_collections, is_in_operations, is_in_assignments, is_in_functions, is_in_templates, is_in_loops, is_in_choices, is_in_patterns, is_in_targets, is_in_classes};
ghost use Rattle.jsgen_tree.specs.declared.types.NodeType.TheVariants as types;

use jsgen_fields::InputFault;
use jsgen_fields::fields::boxed;
use jsgen_fields::given::GivenRow;
use jsgen_fields::list_fields::{
    export_specifier_list, import_attribute_list, optional_import_declaration_specifier_list,
};
use jsgen_fields::set_fields::{
    needed_binding_identifier, needed_declaration, needed_export_default_declaration_kind,
    needed_import_attribute_key, needed_module_export_name, needed_string_literal,
    optional_module_export_name, optional_with_clause,
};
use jsgen_fields::set_rows::row_of_statement;
use jsgen_fields::values::{field_not_given, needed_text};
use jsgen_fields::words::{needed_kind_of_import, needed_with_keyword};
use jsgen_kept::asked::{HoldsDeclaration, HoldsExpression, ReadNode, RowOf};
use jsgen_kept::kept::{
    row_of_export_specifier, row_of_hashbang, row_of_import_attribute,
    row_of_import_default_specifier, row_of_import_namespace_specifier, row_of_import_specifier,
    row_of_with_clause,
};
use jsgen_kept::others::OtherStatement;
use jsgen_pool::Kept;
use jsgen_syntax::Span;
use jsgen_tree::{
    ExportAllDeclaration, ExportDeclaration, ExportDefaultDeclaration, ExportFromDeclaration,
    ExportNamedDeclaration, ExportSpecifier, HasType, Hashbang, ImportAttribute, ImportDeclaration,
    ImportDefaultSpecifier, ImportNamespaceSpecifier, ImportSpecifier, NodeType, Statement,
    WithClause,
};
use std::alloc::Global;

#[tactic(auto, unfolding(jsgen_fields::specs::Reads::read_node))]
fn read_hashbang<N: HasType + Drop, R: RowOf<N> + Drop>(
    alloc: Global,
    kept: &mut Vec<Kept<R>>,
    number: usize,
    span: Span,
    row: &GivenRow<'_>,
) -> Result<R, InputFault>
    ensures { Gives R.plain result (entries R.plain kept.new.items)
        (read_node number types.Hashbang hashbang_fields span (row_data row.now) (entries R.plain kept.old.items)) }
{
    let _ = kept;
    let value = match needed_text(alloc, number, 2, row, "value") {
        Ok(value) => value,
        Err(fault) => return Err(fault),
    };
    let node = Hashbang { span, value };
    match boxed(alloc, node) {
        Ok(node) => Ok(row_of_hashbang::<N, R>(node)),
        Err(fault) => Err(fault),
    }
}

#[tactic(auto, unfolding(jsgen_fields::specs::Reads::read_node))]
fn read_import_declaration<N: HasType + Drop, R: RowOf<N> + Drop>(
    alloc: Global,
    kept: &mut Vec<Kept<R>>,
    number: usize,
    span: Span,
    row: &GivenRow<'_>,
) -> Result<R, InputFault>
    ensures { Gives R.plain result (entries R.plain kept.new.items)
        (read_node number types.ImportDeclaration import_declaration_fields span (row_data row.now) (entries R.plain kept.old.items)) }
{
    let import_kind = match needed_kind_of_import(number, 2, row, "import_kind") {
        Ok(import_kind) => import_kind,
        Err(fault) => return Err(fault),
    };
    match field_not_given(number, 3, row, "phase") {
        Ok(()) => {}
        Err(fault) => return Err(fault),
    }
    let specifiers = match optional_import_declaration_specifier_list::<N, R>(
        alloc,
        kept,
        number,
        4,
        row,
        "specifiers",
    ) {
        Ok(specifiers) => specifiers,
        Err(fault) => return Err(fault),
    };
    let source = match needed_string_literal::<N, R>(alloc, kept, number, 5, row, "source") {
        Ok(source) => source,
        Err(fault) => return Err(fault),
    };
    let with_clause = match optional_with_clause::<N, R>(
        alloc,
        kept,
        number,
        6,
        row,
        "with_clause",
    ) {
        Ok(with_clause) => with_clause,
        Err(fault) => return Err(fault),
    };
    let node = ImportDeclaration {
        span,
        import_kind,
        specifiers,
        source,
        with_clause,
    };
    match boxed(alloc, node) {
        Ok(node) => row_of_statement::<N, R>(
            alloc,
            OtherStatement {
                statement: Statement::ImportDeclaration(node),
            },
        ),
        Err(fault) => Err(fault),
    }
}

#[tactic(auto, unfolding(jsgen_fields::specs::Reads::read_node))]
fn read_import_default_specifier<N: HasType + Drop, R: RowOf<N> + Drop>(
    alloc: Global,
    kept: &mut Vec<Kept<R>>,
    number: usize,
    span: Span,
    row: &GivenRow<'_>,
) -> Result<R, InputFault>
    ensures { Gives R.plain result (entries R.plain kept.new.items)
        (read_node number types.ImportDefaultSpecifier import_default_specifier_fields span (row_data row.now) (entries R.plain kept.old.items)) }
{
    let local = match needed_binding_identifier::<N, R>(alloc, kept, number, 2, row, "local") {
        Ok(local) => local,
        Err(fault) => return Err(fault),
    };
    let node = ImportDefaultSpecifier { span, local };
    match boxed(alloc, node) {
        Ok(node) => Ok(row_of_import_default_specifier::<N, R>(node)),
        Err(fault) => Err(fault),
    }
}

#[tactic(auto, unfolding(jsgen_fields::specs::Reads::read_node))]
fn read_import_namespace_specifier<N: HasType + Drop, R: RowOf<N> + Drop>(
    alloc: Global,
    kept: &mut Vec<Kept<R>>,
    number: usize,
    span: Span,
    row: &GivenRow<'_>,
) -> Result<R, InputFault>
    ensures { Gives R.plain result (entries R.plain kept.new.items)
        (read_node number types.ImportNamespaceSpecifier import_namespace_specifier_fields span (row_data row.now) (entries R.plain kept.old.items)) }
{
    let local = match needed_binding_identifier::<N, R>(alloc, kept, number, 2, row, "local") {
        Ok(local) => local,
        Err(fault) => return Err(fault),
    };
    let node = ImportNamespaceSpecifier { span, local };
    match boxed(alloc, node) {
        Ok(node) => Ok(row_of_import_namespace_specifier::<N, R>(node)),
        Err(fault) => Err(fault),
    }
}

#[tactic(auto, unfolding(jsgen_fields::specs::Reads::read_node))]
fn read_import_specifier<N: HasType + Drop, R: RowOf<N> + Drop>(
    alloc: Global,
    kept: &mut Vec<Kept<R>>,
    number: usize,
    span: Span,
    row: &GivenRow<'_>,
) -> Result<R, InputFault>
    ensures { Gives R.plain result (entries R.plain kept.new.items)
        (read_node number types.ImportSpecifier import_specifier_fields span (row_data row.now) (entries R.plain kept.old.items)) }
{
    let import_kind = match needed_kind_of_import(number, 2, row, "import_kind") {
        Ok(import_kind) => import_kind,
        Err(fault) => return Err(fault),
    };
    let imported = match needed_module_export_name::<N, R>(
        alloc, kept, number, 3, row, "imported",
    ) {
        Ok(imported) => imported,
        Err(fault) => return Err(fault),
    };
    let local = match needed_binding_identifier::<N, R>(alloc, kept, number, 4, row, "local") {
        Ok(local) => local,
        Err(fault) => return Err(fault),
    };
    let node = ImportSpecifier {
        span,
        import_kind,
        imported,
        local,
    };
    match boxed(alloc, node) {
        Ok(node) => Ok(row_of_import_specifier::<N, R>(node)),
        Err(fault) => Err(fault),
    }
}

#[tactic(auto, unfolding(jsgen_fields::specs::Reads::read_node))]
fn read_with_clause<N: HasType + Drop, R: RowOf<N> + Drop>(
    alloc: Global,
    kept: &mut Vec<Kept<R>>,
    number: usize,
    span: Span,
    row: &GivenRow<'_>,
) -> Result<R, InputFault>
    ensures { Gives R.plain result (entries R.plain kept.new.items)
        (read_node number types.WithClause with_clause_fields span (row_data row.now) (entries R.plain kept.old.items)) }
{
    let keyword = match needed_with_keyword(number, 2, row, "keyword") {
        Ok(keyword) => keyword,
        Err(fault) => return Err(fault),
    };
    let entries = match import_attribute_list::<N, R>(alloc, kept, number, 3, row, "entries") {
        Ok(entries) => entries,
        Err(fault) => return Err(fault),
    };
    let node = WithClause {
        span,
        keyword,
        entries,
    };
    match boxed(alloc, node) {
        Ok(node) => Ok(row_of_with_clause::<N, R>(node)),
        Err(fault) => Err(fault),
    }
}

#[tactic(auto, unfolding(jsgen_fields::specs::Reads::read_node))]
fn read_import_attribute<N: HasType + Drop, R: RowOf<N> + Drop>(
    alloc: Global,
    kept: &mut Vec<Kept<R>>,
    number: usize,
    span: Span,
    row: &GivenRow<'_>,
) -> Result<R, InputFault>
    ensures { Gives R.plain result (entries R.plain kept.new.items)
        (read_node number types.ImportAttribute import_attribute_fields span (row_data row.now) (entries R.plain kept.old.items)) }
{
    let key = match needed_import_attribute_key::<N, R>(alloc, kept, number, 2, row, "key") {
        Ok(key) => key,
        Err(fault) => return Err(fault),
    };
    let value = match needed_string_literal::<N, R>(alloc, kept, number, 3, row, "value") {
        Ok(value) => value,
        Err(fault) => return Err(fault),
    };
    let node = ImportAttribute { span, key, value };
    match boxed(alloc, node) {
        Ok(node) => Ok(row_of_import_attribute::<N, R>(node)),
        Err(fault) => Err(fault),
    }
}

#[tactic(auto, unfolding(jsgen_fields::specs::Reads::read_node))]
fn read_export_declaration<N: HoldsDeclaration + Drop, R: RowOf<N> + Drop>(
    alloc: Global,
    kept: &mut Vec<Kept<R>>,
    number: usize,
    span: Span,
    row: &GivenRow<'_>,
) -> Result<R, InputFault>
    ensures { Gives R.plain result (entries R.plain kept.new.items)
        (read_node number types.ExportDeclaration export_declaration_fields span (row_data row.now) (entries R.plain kept.old.items)) }
{
    let declaration = match needed_declaration::<N, R>(alloc, kept, number, 2, row, "declaration") {
        Ok(declaration) => declaration,
        Err(fault) => return Err(fault),
    };
    let node = ExportDeclaration { span, declaration };
    match boxed(alloc, node) {
        Ok(node) => row_of_statement::<N, R>(
            alloc,
            OtherStatement {
                statement: Statement::ExportDeclaration(node),
            },
        ),
        Err(fault) => Err(fault),
    }
}

#[tactic(auto, unfolding(jsgen_fields::specs::Reads::read_node))]
fn read_export_named_declaration<N: HasType + Drop, R: RowOf<N> + Drop>(
    alloc: Global,
    kept: &mut Vec<Kept<R>>,
    number: usize,
    span: Span,
    row: &GivenRow<'_>,
) -> Result<R, InputFault>
    ensures { Gives R.plain result (entries R.plain kept.new.items)
        (read_node number types.ExportNamedDeclaration export_named_declaration_fields span (row_data row.now) (entries R.plain kept.old.items)) }
{
    let export_kind = match needed_kind_of_import(number, 2, row, "export_kind") {
        Ok(export_kind) => export_kind,
        Err(fault) => return Err(fault),
    };
    let specifiers = match export_specifier_list::<N, R>(
        alloc,
        kept,
        number,
        3,
        row,
        "specifiers",
    ) {
        Ok(specifiers) => specifiers,
        Err(fault) => return Err(fault),
    };
    let node = ExportNamedDeclaration {
        span,
        export_kind,
        specifiers,
    };
    match boxed(alloc, node) {
        Ok(node) => row_of_statement::<N, R>(
            alloc,
            OtherStatement {
                statement: Statement::ExportNamedDeclaration(node),
            },
        ),
        Err(fault) => Err(fault),
    }
}

#[tactic(auto, unfolding(jsgen_fields::specs::Reads::read_node))]
fn read_export_from_declaration<N: HasType + Drop, R: RowOf<N> + Drop>(
    alloc: Global,
    kept: &mut Vec<Kept<R>>,
    number: usize,
    span: Span,
    row: &GivenRow<'_>,
) -> Result<R, InputFault>
    ensures { Gives R.plain result (entries R.plain kept.new.items)
        (read_node number types.ExportFromDeclaration export_from_declaration_fields span (row_data row.now) (entries R.plain kept.old.items)) }
{
    let export_kind = match needed_kind_of_import(number, 2, row, "export_kind") {
        Ok(export_kind) => export_kind,
        Err(fault) => return Err(fault),
    };
    let specifiers = match export_specifier_list::<N, R>(
        alloc,
        kept,
        number,
        3,
        row,
        "specifiers",
    ) {
        Ok(specifiers) => specifiers,
        Err(fault) => return Err(fault),
    };
    let source = match needed_string_literal::<N, R>(alloc, kept, number, 4, row, "source") {
        Ok(source) => source,
        Err(fault) => return Err(fault),
    };
    let with_clause = match optional_with_clause::<N, R>(
        alloc,
        kept,
        number,
        5,
        row,
        "with_clause",
    ) {
        Ok(with_clause) => with_clause,
        Err(fault) => return Err(fault),
    };
    let node = ExportFromDeclaration {
        span,
        export_kind,
        specifiers,
        source,
        with_clause,
    };
    match boxed(alloc, node) {
        Ok(node) => row_of_statement::<N, R>(
            alloc,
            OtherStatement {
                statement: Statement::ExportFromDeclaration(node),
            },
        ),
        Err(fault) => Err(fault),
    }
}

#[tactic(auto, unfolding(jsgen_fields::specs::Reads::read_node))]
fn read_export_specifier<N: HasType + Drop, R: RowOf<N> + Drop>(
    alloc: Global,
    kept: &mut Vec<Kept<R>>,
    number: usize,
    span: Span,
    row: &GivenRow<'_>,
) -> Result<R, InputFault>
    ensures { Gives R.plain result (entries R.plain kept.new.items)
        (read_node number types.ExportSpecifier export_specifier_fields span (row_data row.now) (entries R.plain kept.old.items)) }
{
    let export_kind = match needed_kind_of_import(number, 2, row, "export_kind") {
        Ok(export_kind) => export_kind,
        Err(fault) => return Err(fault),
    };
    let local = match needed_module_export_name::<N, R>(alloc, kept, number, 3, row, "local") {
        Ok(local) => local,
        Err(fault) => return Err(fault),
    };
    let exported = match needed_module_export_name::<N, R>(
        alloc, kept, number, 4, row, "exported",
    ) {
        Ok(exported) => exported,
        Err(fault) => return Err(fault),
    };
    let node = ExportSpecifier {
        span,
        export_kind,
        local,
        exported,
    };
    match boxed(alloc, node) {
        Ok(node) => Ok(row_of_export_specifier::<N, R>(node)),
        Err(fault) => Err(fault),
    }
}

#[tactic(auto, unfolding(jsgen_fields::specs::Reads::read_node))]
fn read_export_all_declaration<N: HasType + Drop, R: RowOf<N> + Drop>(
    alloc: Global,
    kept: &mut Vec<Kept<R>>,
    number: usize,
    span: Span,
    row: &GivenRow<'_>,
) -> Result<R, InputFault>
    ensures { Gives R.plain result (entries R.plain kept.new.items)
        (read_node number types.ExportAllDeclaration export_all_declaration_fields span (row_data row.now) (entries R.plain kept.old.items)) }
{
    let export_kind = match needed_kind_of_import(number, 2, row, "export_kind") {
        Ok(export_kind) => export_kind,
        Err(fault) => return Err(fault),
    };
    let exported = match optional_module_export_name::<N, R>(
        alloc, kept, number, 3, row, "exported",
    ) {
        Ok(exported) => exported,
        Err(fault) => return Err(fault),
    };
    let source = match needed_string_literal::<N, R>(alloc, kept, number, 4, row, "source") {
        Ok(source) => source,
        Err(fault) => return Err(fault),
    };
    let with_clause = match optional_with_clause::<N, R>(
        alloc,
        kept,
        number,
        5,
        row,
        "with_clause",
    ) {
        Ok(with_clause) => with_clause,
        Err(fault) => return Err(fault),
    };
    let node = ExportAllDeclaration {
        span,
        export_kind,
        exported,
        source,
        with_clause,
    };
    match boxed(alloc, node) {
        Ok(node) => row_of_statement::<N, R>(
            alloc,
            OtherStatement {
                statement: Statement::ExportAllDeclaration(node),
            },
        ),
        Err(fault) => Err(fault),
    }
}

#[tactic(auto, unfolding(jsgen_fields::specs::Reads::read_node))]
fn read_export_default_declaration<N: HoldsExpression + Drop, R: RowOf<N> + Drop>(
    alloc: Global,
    kept: &mut Vec<Kept<R>>,
    number: usize,
    span: Span,
    row: &GivenRow<'_>,
) -> Result<R, InputFault>
    ensures { Gives R.plain result (entries R.plain kept.new.items)
        (read_node number types.ExportDefaultDeclaration export_default_declaration_fields span (row_data row.now) (entries R.plain kept.old.items)) }
{
    let declaration = match needed_export_default_declaration_kind::<N, R>(
        alloc,
        kept,
        number,
        2,
        row,
        "declaration",
    ) {
        Ok(declaration) => declaration,
        Err(fault) => return Err(fault),
    };
    let node = ExportDefaultDeclaration { span, declaration };
    match boxed(alloc, node) {
        Ok(node) => row_of_statement::<N, R>(
            alloc,
            OtherStatement {
                statement: Statement::ExportDefaultDeclaration(node),
            },
        ),
        Err(fault) => Err(fault),
    }
}

/// The row of a type of this part.
pub fn read_in_modules<N: ReadNode + Drop, R: RowOf<N> + Drop>(
    alloc: Global,
    kept: &mut Vec<Kept<R>>,
    node_type: NodeType,
    number: usize,
    span: Span,
    row: &GivenRow<'_>,
) -> Result<R, InputFault>
    requires not_in_statements { is_in_statements node_type ≡ false }
    requires not_in_expressions { is_in_expressions node_type ≡ false }
    requires not_in_collections { is_in_collections node_type ≡ false }
    requires not_in_operations { is_in_operations node_type ≡ false }
    requires not_in_assignments { is_in_assignments node_type ≡ false }
    requires not_in_functions { is_in_functions node_type ≡ false }
    requires not_in_templates { is_in_templates node_type ≡ false }
    requires not_in_loops { is_in_loops node_type ≡ false }
    requires not_in_choices { is_in_choices node_type ≡ false }
    requires not_in_patterns { is_in_patterns node_type ≡ false }
    requires not_in_targets { is_in_targets node_type ≡ false }
    requires not_in_classes { is_in_classes node_type ≡ false }
    ensures { Gives R.plain result (entries R.plain kept.new.items)
        (read_typed number node_type span (row_data row.now) (entries R.plain kept.old.items)) }
{
    match node_type {
        NodeType::Hashbang => read_hashbang::<N, R>(alloc, kept, number, span, row),
        NodeType::ImportDeclaration => read_import_declaration::<N, R>(
            alloc, kept, number, span, row,
        ),
        NodeType::ImportDefaultSpecifier => read_import_default_specifier::<N, R>(
            alloc, kept, number, span, row,
        ),
        NodeType::ImportNamespaceSpecifier => read_import_namespace_specifier::<N, R>(
            alloc, kept, number, span, row,
        ),
        NodeType::ImportSpecifier => read_import_specifier::<N, R>(alloc, kept, number, span, row),
        NodeType::WithClause => read_with_clause::<N, R>(alloc, kept, number, span, row),
        NodeType::ImportAttribute => read_import_attribute::<N, R>(alloc, kept, number, span, row),
        NodeType::ExportDeclaration => read_export_declaration::<N, R>(
            alloc, kept, number, span, row,
        ),
        NodeType::ExportNamedDeclaration => read_export_named_declaration::<N, R>(
            alloc, kept, number, span, row,
        ),
        NodeType::ExportFromDeclaration => read_export_from_declaration::<N, R>(
            alloc, kept, number, span, row,
        ),
        NodeType::ExportSpecifier => read_export_specifier::<N, R>(alloc, kept, number, span, row),
        NodeType::ExportAllDeclaration => read_export_all_declaration::<N, R>(
            alloc, kept, number, span, row,
        ),
        NodeType::ExportDefaultDeclaration => read_export_default_declaration::<N, R>(
            alloc, kept, number, span, row,
        ),
        _ => unreachable!(),
    }
}
