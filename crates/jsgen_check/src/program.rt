// Programs, whose height is judged behind their children.
ghost use Rattle.std.specs.Prelude.{◌≡◌, None};
ghost use Rattle.std.specs.Str.{chars};
ghost use Rattle.jsgen_tree.specs.Options.{options_plain};
ghost use Rattle.jsgen_tree.specs.Rows.{program_row};
ghost use Rattle.jsgen_model.specs.Valid.{breaches, program_faults, Judges};
ghost use Rattle.jsgen_rules.specs.Verdict.{verdict};
ghost use Rattle.jsgen_check.specs.Verdict.{surroundings_plain, told_in};

use crate::children::check_optional_hashbang;
use crate::heights::{check_program_parts, higher};
use crate::lists::{check_comments, check_directives, check_module_items};
use crate::{CheckNode, Surroundings};
use jsgen_model::TreeFault;
use jsgen_rules::{check_licence_path, check_source};
use jsgen_syntax::Span;
use jsgen_tree::Program;

pub fn check_program_row<N: CheckNode>(
    node: &Program<N>,
    around: &Surroundings<'_>,
) -> Result<(), TreeFault>
    ensures judges { Judges (breaches (surroundings_plain around.now None) 0 (program_row N.plain node.now)) result }
    ensures told { result ≡ verdict (told_in (surroundings_plain around.now None) (program_row N.plain node.now)) }
{
    let own = check_own(around, node.span);
    let mut next = 0;
    let comments = check_comments(&node.comments, around, None, &mut next);
    let hashbang = check_optional_hashbang(&node.hashbang, around, None, &mut next);
    let directives = check_directives(&node.directives, around, None, &mut next);
    let body = check_module_items(&node.body, around, None, &mut next);
    let below = higher(comments, higher(hashbang, higher(directives, body)));
    check_program_parts(around, node.span, own, below)
}

// What a program keeps by its source and by the options, its height aside.
#[tactic(auto, unfolding(crate::specs::Verdict::surroundings_plain, jsgen_rules::specs::Verdict::verdict))]
fn check_own(around: &Surroundings<'_>, span: Span) -> Result<(), TreeFault>
    ensures { result ≡ verdict (program_faults span (chars around.now.source.now) (options_plain around.now.options.now)) }
{
    check_source(around.source, span)?;
    check_licence_path(&around.options.comments.legal, span)
}
