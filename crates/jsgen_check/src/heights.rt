// What is found of a node: the first fault, else its height, which is how many nodes stand on the longest way down,
// counted up to what 64 bits hold. A row asks all its children, also behind a fault: its proof is then one line.
ghost use Rattle.std.specs.Prelude.{◌≡◌, None};
ghost use Rattle.jsgen_tree.specs.Options.{options_plain};
ghost use Rattle.jsgen_model.specs.Valid.{span_faults, passes_levels};
ghost use Rattle.jsgen_rules.specs.Verdict.{verdict};
ghost use Rattle.jsgen_check.specs.Verdict.{surroundings_plain, both, higher, raised, height_faults, ended, topped};

use crate::Surroundings;
use jsgen_model::TreeFault;
use jsgen_rules::{Classes, check_span};
use jsgen_syntax::Span;
use jsgen_tree::CodegenOptions;

/// The first fault of two checks, else the greater height.
#[tactic(auto, unfolding(crate::specs::Verdict::higher))]
pub fn higher(
    first: Result<u64, TreeFault>,
    second: Result<u64, TreeFault>,
) -> Result<u64, TreeFault>
    ensures { result ≡ higher first second }
{
    let first = first?;
    let second = second?;
    Ok(first.max(second))
}

/// The first fault of two checks, of which the second found a height.
#[tactic(auto, unfolding(crate::specs::Verdict::both))]
pub fn both(first: Result<(), TreeFault>, second: Result<u64, TreeFault>) -> Result<u64, TreeFault>
    ensures { result ≡ both first second }
{
    first?;
    second
}

/// The first fault of a node's span, of its own rules and of its children, else its height.
#[tactic(auto, unfolding(crate::specs::Verdict::surroundings_plain, crate::specs::Verdict::both, crate::specs::Verdict::raised, jsgen_rules::specs::Verdict::verdict))]
pub fn check_node(
    around: &Surroundings<'_>,
    classes: Option<&Classes<'_>>,
    span: Span,
    rules: Result<(), TreeFault>,
    below: Result<u64, TreeFault>,
) -> Result<u64, TreeFault>
    ensures { result ≡ both (verdict (span_faults (surroundings_plain around.now classes.entry) span)) (both rules (raised below)) }
{
    let _ = classes;
    check_span(around.is_mapped, around.source, span)?;
    rules?;
    let below = below?;
    Ok(below.saturating_add(1))
}

// Whether a level of indentation of a tree of this height could pass 32 bits, or be wider than 64 bits.
fn passes_levels(options: &CodegenOptions, height: u64) -> bool
    ensures { result ≡ passes_levels (options_plain options.now) height }
{
    let levels = u128::from(options.initial_indent) + u128::from(height);
    levels > 4_294_967_295 || levels * options.indent_width as u128 > 18_446_744_073_709_551_615
}

// What a tree with this span breaks by its height: minified text has no indentation.
#[tactic(auto, unfolding(jsgen_rules::specs::Verdict::verdict))]
fn check_height(options: &CodegenOptions, span: Span, height: u64) -> Result<(), TreeFault>
    ensures { result ≡ verdict (height_faults (options_plain options.now) span height) }
{
    if !options.minify && passes_levels(options, height) {
        return Err(TreeFault::Indent { start: span.start });
    }
    Ok(())
}

/// The first fault of a program's span, of its own rules and of its children, else of its height.
#[tactic(auto, unfolding(crate::specs::Verdict::surroundings_plain, crate::specs::Verdict::both, crate::specs::Verdict::ended, jsgen_rules::specs::Verdict::verdict))]
pub fn check_program_parts(
    around: &Surroundings<'_>,
    span: Span,
    own: Result<(), TreeFault>,
    below: Result<u64, TreeFault>,
) -> Result<(), TreeFault>
    ensures { result ≡ both (verdict (span_faults (surroundings_plain around.now None) span)) (both own (ended (options_plain around.now.options.now) span below)) }
{
    check_span(around.is_mapped, around.source, span)?;
    own?;
    let below = below?;
    check_height(around.options, span, below.saturating_add(1))
}

/// The first fault of an expression by itself, else of its height.
#[tactic(auto, unfolding(crate::specs::Verdict::topped))]
pub fn check_top(
    options: &CodegenOptions,
    span: Span,
    found: Result<u64, TreeFault>,
) -> Result<(), TreeFault>
    ensures { result ≡ topped (options_plain options.now) span found }
{
    let height = found?;
    check_height(options, span, height)
}
