// What functions and methods keep, and `return`.
ghost use Rattle.std.specs.Prelude.{◌≡◌, not, ◌&&◌, ◌||◌};
ghost use Rattle.jsgen_tree.specs.Tree.{Tree};
ghost use Rattle.jsgen_tree.specs.Rows.{formal_parameters_row};
ghost use Rattle.jsgen_tree.specs.declared.functions.FunctionKind.TheVariants as kinds;
ghost use Rattle.jsgen_model.specs.Valid.{fault_if, stands_among, same_kind, is_default_export, fits_place, return_faults, await_faults, fits_accessor, fits_words};
ghost use Rattle.jsgen_model.specs.declared.fault.TreeFault.TheVariants as faults;
ghost use Rattle.jsgen_rules.specs.Verdict.{verdict};

use jsgen_model::TreeFault;
use jsgen_syntax::Span;
use jsgen_tree::{FormalParameters, FunctionKind, NodeSet, PropertyKind};

/// Whether a function of this kind stands at a place that asks for this set: a declaration among statements or exported, and an
/// expression everywhere else.
fn is_of_kind(kind: FunctionKind, set: NodeSet) -> bool
    ensures { result ≡ same_kind kind (stands_among set) }
{
    match set {
        NodeSet::Statement | NodeSet::ModuleItem | NodeSet::Declaration => matches!(
            kind,
            FunctionKind::Declaration
        ),
        _ => matches!(kind, FunctionKind::Expression),
    }
}

fn is_default_export(set: NodeSet) -> bool
    ensures { result ≡ is_default_export set }
{
    matches!(&set, NodeSet::ExportDefaultDeclarationKind)
}

fn is_expression(kind: FunctionKind) -> bool
    ensures { result ≡ same_kind kind kinds.Expression }
{
    matches!(kind, FunctionKind::Expression)
}

/// Whether a function of this kind, with a name or without one, stands at a place that asks for this set.
pub fn function_fits(kind: FunctionKind, has_name: bool, set: NodeSet) -> bool
    ensures { result ≡ fits_place set kind has_name }
{
    is_default_export(set) || (is_of_kind(kind, set) && (has_name || is_expression(kind)))
}

/// A function has a body (ECMA-262, 15.2).
pub fn check_function(has_body: bool, span: Span) -> Result<(), TreeFault>
    ensures { result ≡ verdict (fault_if (not has_body) (faults.Place span.start)) }
{
    if !has_body {
        return Err(TreeFault::Place { start: span.start });
    }
    Ok(())
}

/// `return` stands in a function's body (ECMA-262, 14.10).
pub fn check_return(in_function: bool, span: Span) -> Result<(), TreeFault>
    ensures { result ≡ verdict (return_faults in_function span) }
{
    if !in_function {
        return Err(TreeFault::Place { start: span.start });
    }
    Ok(())
}

/// `await`, also that of a loop, stands where it may (ECMA-262, 14.7.5 and 15.8).
pub fn check_await(waits: bool, may_await: bool, span: Span) -> Result<(), TreeFault>
    ensures { result ≡ verdict (await_faults waits may_await span) }
{
    if waits && !may_await {
        return Err(TreeFault::Place { start: span.start });
    }
    Ok(())
}

/// `yield` stands in a generator's body, and has an argument where it hands on all values of another (ECMA-262, 15.5).
pub fn check_yield(
    may_yield: bool,
    delegate: bool,
    has_argument: bool,
    span: Span,
) -> Result<(), TreeFault>
    ensures { result ≡ verdict (fault_if ((delegate && not has_argument) || not may_yield) (faults.Place span.start)) }
{
    if (delegate && !has_argument) || !may_yield {
        return Err(TreeFault::Place { start: span.start });
    }
    Ok(())
}

/// Whether a function with these flags may be that of a property of this kind: an accessor is neither `async` nor a generator.
pub fn fits_words(kind: PropertyKind, is_async: bool, generator: bool) -> bool
    ensures { result ≡ fits_words kind is_async generator }
{
    match kind {
        PropertyKind::Init => true,
        PropertyKind::Get | PropertyKind::Set => !(is_async || generator),
    }
}

/// Whether these are the parameters of a property of this kind: a getter has none, and a setter has one, which doesn't take the
/// rest (ECMA-262, 15.4).
#[tactic(auto, using(crate::proofs::Parameters::counted))]
pub fn fits_accessor<N>(kind: PropertyKind, params: &FormalParameters<N>) -> bool
    ensures { (plain : N → Tree) → result ≡ fits_accessor kind (formal_parameters_row plain params.now) }
{
    let count = params.items.len();
    match kind {
        PropertyKind::Init => true,
        PropertyKind::Get => count == 0 && params.rest.is_none(),
        PropertyKind::Set => count == 1 && params.rest.is_none(),
    }
}
