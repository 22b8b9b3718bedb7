//! Validity: Ok exactly where no rule is broken, else a rule that is. One walk finds faults and the height, and takes no
//! memory.
#![tactic(auto)]

ghost use Rattle.std.specs.Prelude.{◌≡◌, ◌++◌, None, not, ◌&&◌};
ghost use Rattle.jsgen_tree.specs.Tree.{Tree, type_of, span_of};
ghost use Rattle.jsgen_tree.specs.Plain.{node_plain, program_plain};
ghost use Rattle.jsgen_tree.specs.Options.{options_plain};
ghost use Rattle.jsgen_tree.specs.Rows.{expression_plain};
ghost use Rattle.jsgen_tree.specs.declared.types.NodeSet.TheVariants as sets;
ghost use Rattle.jsgen_model.specs.Valid.{job_breaches, expression_breaches, fault_if, may_stand, fits_kind, misfit, set_faults, link_faults, uncooked_faults, is_among_statements, binds_nothing, Judges};
ghost use Rattle.jsgen_model.specs.declared.fault.TreeFault.TheVariants as faults;
ghost use Rattle.jsgen_rules.specs.Verdict.{verdict};
ghost use Rattle.jsgen_model.specs.Resolved.{after};
ghost use Rattle.jsgen_check.specs.Verdict.{tables_of, surroundings_plain, tree_verdict, child_verdict, SameNumber, told};

mod assignments;
mod bodies;
mod children;
mod choices;
mod classes;
mod collections;
mod expressions;
mod functions;
mod heads;
mod heights;
mod kinds;
mod links;
mod lists;
mod loops;
mod modules;
mod operations;
mod patterns;
mod pieces;
mod program;
mod rules;
mod sets;
mod statements;
mod surroundings;
mod targets;
mod templates;

use crate::heads::misfits_left;
use crate::heights::{both, check_top};
use crate::kinds::{expression_fits_kind, method_fits};
use crate::links::{expression_has_optional_link, has_optional_link};
use crate::pieces::{expression_has_uncooked, has_uncooked};
use crate::program::check_program_row;
use crate::rules::{binds_nothing, unbound};
use crate::sets::{
    check_assignment_target_set, check_binding_pattern_set, check_class_element_set,
    check_declaration_set, check_expression_set, check_statement_set,
};
pub use crate::surroundings::Surroundings;
use jsgen_asked::{as_function, class_head, declared_kind, is_negative, looked_up, written_name};
use jsgen_model::TreeFault;
use jsgen_rules::{
    Classes, check_no_optional_link, check_no_uncooked, check_set, class_fits, function_fits,
    is_among_statements, is_declaration, may_stand, takes_optional_link, takes_uncooked,
};
use jsgen_tree::{
    CodegenOptions, Expression, GetSpan, IdentifierReference, Node, NodeSet, NodeType,
    PrivateMappings, Program, PropertyKind, Scoping, Tables,
};

/// What the checks ask of a child. Only `Node` implements it.
pub trait CheckNode {
    ghost use Rattle.std.specs.Prelude.{option_map};
    ghost use Rattle.std.specs.Str.{chars};
    ghost use Rattle.jsgen_tree.specs.Tree.{Tree};
    ghost use Rattle.jsgen_tree.specs.Inside.{inside_parentheses, has_optional_link, looked_up_in, named_by, written_name_in, is_negative};
    ghost use Rattle.jsgen_model.specs.Valid.{is_declaration, fits_kind, fits_method, binds_nothing, unbound, has_uncooked};
    ghost use Rattle.jsgen_check.specs.Heads.{misfits_left};

    ghost plain: { Self → Tree };

    fn node_type(&self) -> NodeType
        ensures { result ≡ type_of (plain self.now) };

    fn start(&self) -> u32
        ensures { result ≡ (span_of (plain self.now)).start };

    /// Whether it is a declaration, which stands in a list of statements only.
    fn is_declaration(&self) -> bool
        ensures { result ≡ is_declaration (plain self.now) };

    /// Whether it may stand at a place that asks for this set, as far as it is a function, a class or a declaration.
    fn fits_kind(&self, set: NodeSet) -> bool
        ensures { result ≡ fits_kind set (plain self.now) };

    /// Whether it is a function that may follow the key of a method or an accessor.
    fn fits_method(&self, kind: PropertyKind) -> bool
        ensures { result ≡ fits_method kind (plain self.now) };

    /// The reference itself, where it is one, without the parentheses that it may have round it.
    fn looked_up(&self) -> Option<&IdentifierReference>
        ensures { option_map (λ n. named_by n.now) result ≡ looked_up_in (inside_parentheses (plain self.now)) };

    /// The name that stands there as it is written.
    fn written_name(&self) -> Option<&str>
        ensures { option_map (λ s. chars s.now) result ≡ written_name_in (plain self.now) };

    /// Whether it is a number or a big integer with a minus before it, without the parentheses that it may have round it.
    fn is_negative(&self) -> bool
        ensures { result ≡ is_negative (inside_parentheses (plain self.now)) };

    /// Whether one of the links up to this one is optional, where it is a member or a call.
    fn has_optional_link(&self) -> bool
        ensures { result ≡ has_optional_link (plain self.now) };

    /// Whether it is a template of which a piece stands for nothing.
    fn has_uncooked(&self) -> bool
        ensures { result ≡ has_uncooked (plain self.now) };

    /// Whether a loop may not give its values to it: a declaration but of one name without a value, or what has an optional link.
    fn misfits_left(&self) -> bool
        ensures { result ≡ misfits_left (plain self.now) };

    /// Whether it is a declaration that binds a pattern and gives it no value.
    fn binds_nothing(&self) -> bool
        ensures { result ≡ binds_nothing (plain self.now) };

    /// Where it is one: the start of its first declarator that lacks a value. Of all else its own.
    fn unbound_start(&self) -> u32
        ensures { result ≡ (unbound (plain self.now)).start };

    /// Where no rule is broken, how many nodes stand on the longest way down, counted up to what 64 bits hold. The next class has the
    /// number that is handed, and the next one behind it the number that is left there.
    fn check(
        &self,
        around: &Surroundings<'_>,
        classes: Option<&Classes<'_>>,
        next: &mut usize,
    ) -> Result<u64, TreeFault>
        ensures found { result ≡ tree_verdict (surroundings_plain around.now classes.entry) next.old (plain self.now) }
        ensures number { SameNumber (surroundings_plain around.now classes.entry) next.new (after (plain self.now) next.old) };
}

/// Says Ok exactly where a program that is printed under these options and by these tables keeps each rule, and otherwise a rule
/// that it breaks.
pub fn check_program(
    options: &CodegenOptions,
    scoping: Option<&Scoping>,
    private: Option<&PrivateMappings>,
    program: &Program,
) -> Result<(), TreeFault>
    ensures judges { Judges (job_breaches (record { options = options_plain options.now; tables = tables_of scoping.entry private.entry; program = program_plain program.now })) result }

    // Of several rules that are broken it is the program alone that says which is told.
    ensures told { result ≡ told (record { options = options_plain options.now; tables = tables_of scoping.entry private.entry; program = program_plain program.now }) }
{
    let around = Surroundings {
        options,
        tables: Tables { scoping, private },
        source: program.source.as_str(),
        is_mapped: options.source_map_path.is_some(),
        in_function: false,
        may_yield: false,
        may_await: true,
    };
    check_program_row(program, &around)
}

/// Says Ok exactly where an expression by itself, which is printed under these options and by these tables, keeps each rule, and
/// otherwise a rule that it breaks: it is checked as the one statement of a module.
pub fn check_expression(
    options: &CodegenOptions,
    scoping: Option<&Scoping>,
    private: Option<&PrivateMappings>,
    expression: &Expression,
) -> Result<(), TreeFault>
    ensures { Judges (expression_breaches (options_plain options.now) (tables_of scoping.entry private.entry) (expression_plain node_plain expression.now)) result }
{
    let around = Surroundings {
        options,
        tables: Tables { scoping, private },
        source: "",
        is_mapped: false,
        in_function: false,
        may_yield: false,
        may_await: true,
    };
    let found = check_alone(expression, &around);
    check_top(options, expression.span(), found)
}

// An expression that nothing stands round.
fn check_alone(expression: &Expression, around: &Surroundings<'_>) -> Result<u64, TreeFault>
    ensures { result ≡ child_verdict (surroundings_plain around.now None) 0 sets.Expression (expression_plain node_plain expression.now) }
{
    check_place_alone(expression)?;
    let mut next = 0;
    check_expression_set(expression, around, None, &mut next)
}

// Neither `super` nor a declaration nor an optional link outside a chain nor a piece that stands for nothing stands there by itself.
fn check_place_alone(expression: &Expression) -> Result<(), TreeFault>
    ensures { result ≡ verdict (set_faults sets.Expression (expression_plain node_plain expression.now)) }
{
    let start = expression.span().start;
    let fits_kind = expression_fits_kind(expression, NodeSet::Expression);
    check_set(
        expression.node_type(),
        NodeSet::Expression,
        fits_kind,
        start,
    )?;
    check_no_optional_link(expression_has_optional_link(expression), start)?;
    check_no_uncooked(expression_has_uncooked(expression), start)
}

// Also a child that may not stand there is checked, since its classes count.
fn check_child<N: CheckNode>(
    child: &N,
    set: NodeSet,
    around: &Surroundings<'_>,
    classes: Option<&Classes<'_>>,
    next: &mut usize,
) -> Result<u64, TreeFault>
    ensures found { result ≡ child_verdict (surroundings_plain around.now classes.entry) next.old set (N.plain child.now) }
    ensures number { SameNumber (surroundings_plain around.now classes.entry) next.new (after (N.plain child.now) next.old) }
{
    let place = check_place(child, set);
    let found = child.check(around, classes, next);
    both(place, found)
}

// A child may stand at a place that asks for this set.
fn check_place<N: CheckNode>(child: &N, set: NodeSet) -> Result<(), TreeFault>
    ensures { result ≡ verdict (set_faults set (N.plain child.now)) }
{
    check_fits(child, set)?;
    check_links_and_pieces(child, set)
}

// A declaration that may stand there and lacks a value is told by the declarator.
fn check_fits<N: CheckNode>(child: &N, set: NodeSet) -> Result<(), TreeFault>
    ensures { result ≡ verdict (fault_if (not (may_stand set (type_of (N.plain child.now)) && fits_kind set (N.plain child.now))) (faults.Place (misfit set (N.plain child.now)).start)) }
{
    if !may_stand(child.node_type(), set) {
        return Err(TreeFault::Place {
            start: child.start(),
        });
    }
    if !child.fits_kind(set) {
        return Err(TreeFault::Place {
            start: child.unbound_start(),
        });
    }
    Ok(())
}

fn check_links_and_pieces<N: CheckNode>(child: &N, set: NodeSet) -> Result<(), TreeFault>
    ensures { result ≡ verdict (link_faults set (N.plain child.now) ++ uncooked_faults set (N.plain child.now)) }
{
    check_links(child, set)?;
    check_pieces(child, set)
}

// A declaration among statements gives each pattern a value.
fn is_bound(node: &Node, set: NodeSet) -> bool
    ensures { result ≡ not (is_among_statements set && binds_nothing (node_plain node.now)) }
{
    if is_among_statements(set) {
        !binds_nothing(node)
    } else {
        true
    }
}

// The links are looked at where they end, so each once.
fn check_links<N: CheckNode>(child: &N, set: NodeSet) -> Result<(), TreeFault>
    ensures { result ≡ verdict (link_faults set (N.plain child.now)) }
{
    if takes_optional_link(set) {
        return Ok(());
    }
    if child.has_optional_link() {
        return Err(TreeFault::Place {
            start: child.start(),
        });
    }
    Ok(())
}

// A piece that stands for nothing stands behind a tag alone.
fn check_pieces<N: CheckNode>(child: &N, set: NodeSet) -> Result<(), TreeFault>
    ensures { result ≡ verdict (uncooked_faults set (N.plain child.now)) }
{
    if takes_uncooked(set) {
        return Ok(());
    }
    if child.has_uncooked() {
        return Err(TreeFault::Template {
            start: child.start(),
        });
    }
    Ok(())
}

/// The knot: the one recursion.
impl CheckNode for Node {
    ghost plain = { λ n. node_plain n };

    fn node_type(&self) -> NodeType {
        self.node_type()
    }

    fn start(&self) -> u32 {
        self.span().start
    }

    fn is_declaration(&self) -> bool {
        is_declaration(
            declared_kind(self),
            as_function(self).is_some() || class_head(self).is_some(),
        )
    }

    fn fits_kind(&self, set: NodeSet) -> bool {
        match as_function(self) {
            Some(function) => function_fits(function.kind, function.id.is_some(), set),
            None => match class_head(self) {
                Some((kind, has_name)) => class_fits(kind, has_name, set),
                None => is_bound(self, set),
            },
        }
    }

    fn fits_method(&self, kind: PropertyKind) -> bool {
        match as_function(self) {
            Some(function) => method_fits(function, kind),
            None => false,
        }
    }

    fn looked_up(&self) -> Option<&IdentifierReference> {
        looked_up(self)
    }

    fn written_name(&self) -> Option<&str> {
        written_name(self)
    }

    fn is_negative(&self) -> bool {
        is_negative(self)
    }

    fn has_optional_link(&self) -> bool {
        has_optional_link(self)
    }

    fn has_uncooked(&self) -> bool {
        has_uncooked(self)
    }

    fn misfits_left(&self) -> bool {
        misfits_left(self)
    }

    fn binds_nothing(&self) -> bool {
        binds_nothing(self)
    }

    fn unbound_start(&self) -> u32 {
        unbound(self).start
    }

    #[cycle(node)]
    fn check(
        &self,
        around: &Surroundings<'_>,
        classes: Option<&Classes<'_>>,
        next: &mut usize,
    ) -> Result<u64, TreeFault> {
        match self {
            Node::Expression(expression) => check_expression_set(expression, around, classes, next),
            Node::AssignmentTarget(target) => check_assignment_target_set(
                target, around, classes, next,
            ),
            Node::Statement(statement) => check_statement_set(statement, around, classes, next),
            Node::Declaration(declaration) => check_declaration_set(
                declaration,
                around,
                classes,
                next,
            ),
            Node::BindingPattern(pattern) => check_binding_pattern_set(
                pattern, around, classes, next,
            ),
            Node::ClassElement(element) => check_class_element_set(element, around, classes, next),
        }
    }
}
