// What statements keep by the parts that stand next to them: bodies, heads of loops, cases, handlers.
ghost use Rattle.std.specs.Prelude.{◌≡◌, not, ◌||◌, nat_lt};
ghost use Rattle.std.specs.Option.{option_map_or};
ghost use Rattle.jsgen_model.specs.Valid.{fault_if, is_lexical_word};
ghost use Rattle.jsgen_model.specs.declared.fault.TreeFault.TheVariants as faults;
ghost use Rattle.jsgen_rules.specs.Verdict.{verdict};

use jsgen_model::TreeFault;
use jsgen_syntax::Span;
use jsgen_tree::VariableDeclarationKind;

/// Whether what declares by this word, if by any, or is a function, is a declaration: `var` begins a statement.
pub fn is_declaration(declared: Option<VariableDeclarationKind>, is_function: bool) -> bool
    ensures { result ≡ option_map_or is_lexical_word declared is_function }
{
    match declared {
        Some(word) => matches!(
            word,
            VariableDeclarationKind::Const | VariableDeclarationKind::Let
        ),
        None => is_function,
    }
}

/// What `if` and `else`, the head of a loop, `do` or a label are followed by is no declaration, which stands in a list of
/// statements only.
pub fn check_body(is_declaration: bool, start: u32) -> Result<(), TreeFault>
    ensures { result ≡ verdict (fault_if is_declaration (faults.Place start)) }
{
    if is_declaration {
        return Err(TreeFault::Place { start });
    }
    Ok(())
}

/// A declaration before `in` or `of` declares one name, without a value.
pub fn check_one_name(is_one_name: bool, span: Span) -> Result<(), TreeFault>
    ensures { result ≡ verdict (fault_if (not is_one_name) (faults.Place span.start)) }
{
    if !is_one_name {
        return Err(TreeFault::Place { start: span.start });
    }
    Ok(())
}

/// Of the cases of `switch` one at most has no test.
pub fn check_defaults(defaults: usize, span: Span) -> Result<(), TreeFault>
    ensures { result ≡ verdict (fault_if (nat_lt 1 defaults) (faults.Place span.start)) }
{
    if defaults > 1 {
        return Err(TreeFault::Place { start: span.start });
    }
    Ok(())
}

/// Behind `try` stands a handler or a finalizer.
pub fn check_ends(has_handler: bool, has_finalizer: bool, span: Span) -> Result<(), TreeFault>
    ensures { result ≡ verdict (fault_if (not (has_handler || has_finalizer)) (faults.Place span.start)) }
{
    if !has_handler && !has_finalizer {
        return Err(TreeFault::Place { start: span.start });
    }
    Ok(())
}
