// Parameters and arrow functions (ECMA-262, 15.1 and 15.3), one function for each row.
ghost use Rattle.std.specs.Prelude.{◌≡◌, codes, true, ◌==◌, ◌&&◌, ◌||◌, length, map};
ghost use Rattle.jsgen_syntax.specs.declared.precedence.Precedence.TheVariants.{Comma};
ghost use Rattle.jsgen_tree.specs.Tree.{type_of, trees};
ghost use Rattle.jsgen_tree.specs.Rows.{formal_parameters_row, formal_parameter_row, formal_parameter_rest_row, arrow_function_expression_row, in_arrow_function_body, function_row, function_body_row, binding_identifier_row, directive_row, in_statement};
ghost use Rattle.jsgen_place.specs.Place.{child, within};
ghost use Rattle.jsgen_model.specs.Punctuator.{Round, Brace, star};
ghost use Rattle.jsgen_model.specs.Items.{marked_word, punctuator, brackets, soft_space, hard_space, parentheses_unless_minified, ◌⊕◌, a_declaration, comments, all_of_them, annotation_line, mark, end_mark, empty_body, drop_semicolon, held, orphans};
ghost use Rattle.jsgen_model.specs.Spell.{spell, items_if, key_word, function_words, method_words, before_called, is_name_alone, parameter_items, body_begins, spell_method, spell_directives, spell_body, filled_braces};
ghost use Rattle.jsgen_printer.specs.Steps.{Lays};
ghost use Rattle.jsgen_questions.specs.Names.{is_name_parameter};
ghost use Rattle.jsgen_model.specs.Layout.{is_barred};
ghost use Rattle.jsgen_printer.specs.Printer.{pen_of};
ghost use Rattle.jsgen_nodes.specs.Calls.{from_word};

use crate::PrintNode;
use crate::inside::Inside;
use crate::statements::{Statements, print_directives};
use jsgen_inside::print_binding_identifier;
use jsgen_lists::{
    PrintMember, close_braces, open_braces, print_apart, print_body, print_comma_between,
    print_if_given, print_key_word, print_list,
};
use jsgen_place::Place;
use jsgen_printer::{Bracket, CommentsBefore, Printer};
use jsgen_spelled::{print_formal_parameter, print_formal_parameter_rest};
use jsgen_syntax::{Precedence, Span};
use jsgen_tree::{
    ArrowFunctionBody, ArrowFunctionExpression, BindingIdentifier, Directive, FormalParameter,
    FormalParameterRest, FormalParameters, Function, FunctionBody, FunctionKind, NodeType,
    StatementNode,
};

// ---- parameters

pub fn print_formal_parameters<N: PrintNode>(
    node: &FormalParameters<N>,
    p: &mut Printer<'_>,
    place: Place,
)
    ensures { Lays p.old p.new (spell (formal_parameters_row N.plain node.now) place) }
{
    print_list::<_, Parameters>(&node.items, p, place);
    print_comma_between::<_, _, Parameters, Rest>(&node.items, &node.rest, p);
    print_if_given::<_, Rest>(&node.rest, p, place);
}

/// The parameters of a function.
struct Parameters;

impl<N: PrintNode> PrintMember<FormalParameter<N>> for Parameters {
    ghost plain = { formal_parameter_row N.plain };

    fn print_member(parameter: &FormalParameter<N>, p: &mut Printer<'_>, place: Place) {
        print_formal_parameter::<_, Inside>(parameter, p, place);
    }
}

/// The parameter that takes what the others leave.
struct Rest;

impl<N: PrintNode> PrintMember<Box<FormalParameterRest<N>>> for Rest {
    ghost plain = { λ b. formal_parameter_rest_row N.plain b.value };

    fn print_member(rest: &Box<FormalParameterRest<N>>, p: &mut Printer<'_>, place: Place) {
        print_formal_parameter_rest::<_, Inside>(rest, p, place);
    }
}

// ---- arrow functions

pub fn print_arrow_function_expression<N: PrintNode>(
    node: &ArrowFunctionExpression<N>,
    p: &mut Printer<'_>,
    place: Place,
)
    ensures { Lays p.old p.new (spell (arrow_function_expression_row N.plain node.now) place) }
{
    p.print_annotation_if(node.pure, node.span.start);
    let wrap = place.wraps_arrow(node.pife);
    p.print_opening_if(wrap);
    print_comments_within(node.pife, node.span.start, p);
    let within = place.within(wrap);
    print_marked_async_if(node.is_async, node.span, p);
    print_arrow_parameters(&node.params, p, place);
    p.print_soft_space();
    p.print_arrow();
    p.print_soft_space();
    begin_body(body_type(&node.body), p);
    print_arrow_function_body(&node.body, p, within.child(Precedence::Comma));
    p.print_closing_if(wrap);
}

// The word that begins what is `async`, with its mark.
fn print_marked_async_if(test: bool, span: Span, p: &mut Printer<'_>)
    ensures { Lays p.old p.new (items_if test (marked_word span (codes "async") ⊕ soft_space)) }
{
    if test {
        p.print_marked_word(span, "async");
        p.print_soft_space();
    }
}

// The word before the key of what is `async`.
fn print_async_if(test: bool, p: &mut Printer<'_>)
    ensures { Lays p.old p.new (items_if test (key_word (codes "async"))) }
{
    if test {
        print_key_word("async", p);
    }
}

// A name alone, or parameters in parentheses.
fn print_arrow_parameters<N: PrintNode>(
    parameters: &FormalParameters<N>,
    p: &mut Printer<'_>,
    place: Place,
)
    ensures { Lays p.old p.new (parameter_items (is_name_alone (formal_parameters_row N.plain parameters.now))
        (spell (formal_parameters_row N.plain parameters.now) (child Comma (within true place)))) }
{
    let below = place.within(true).child(Precedence::Comma);
    if is_name_alone(parameters) {
        print_unless_minified(parameters, p, below);
    } else {
        print_parameters_in_brackets(parameters, p, below);
    }
}

// In parentheses that minified text leaves out.
fn print_unless_minified<N: PrintNode>(
    parameters: &FormalParameters<N>,
    p: &mut Printer<'_>,
    place: Place,
)
    ensures { Lays p.old p.new (parentheses_unless_minified (spell (formal_parameters_row N.plain parameters.now) place)) }
{
    let wrap = !p.is_minified();
    p.print_opening_if(wrap);
    print_formal_parameters(parameters, p, place);
    p.print_closing_if(wrap);
}

/// Parameters, of which this is the place, in parentheses.
pub fn print_parameters_in_brackets<N: PrintNode>(
    parameters: &FormalParameters<N>,
    p: &mut Printer<'_>,
    place: Place,
)
    ensures { Lays p.old p.new (brackets Round (spell (formal_parameters_row N.plain parameters.now) place)) }
{
    p.print_opening(Bracket::Round);
    print_formal_parameters(parameters, p, place);
    p.print_closing(Bracket::Round);
}

fn is_name_alone<N: PrintNode>(parameters: &FormalParameters<N>) -> bool
    ensures { result ≡ is_name_alone (formal_parameters_row N.plain parameters.now) }
{
    match parameters.items.split_first() {
        Some((first, others)) => is_name(first) && (others.is_empty() && parameters.rest.is_none()),
        None => false,
    }
}

fn is_name<N: PrintNode>(parameter: &FormalParameter<N>) -> bool
    ensures { result ≡ is_name_parameter (formal_parameter_row N.plain parameter.now) }
{
    parameter.initializer.is_none() && parameter.pattern.get().is_binding_name()
}

// ---- bodies

// An expression begins there, and a body in braces doesn't.
fn begin_body(body: NodeType, p: &mut Printer<'_>)
    ensures { Lays p.old p.new (body_begins body) }
{
    match body {
        NodeType::FunctionBody => {}
        _ => p.begin_arrow_body(),
    }
}

fn body_type<N: PrintNode>(body: &ArrowFunctionBody<N>) -> NodeType
    ensures { result ≡ type_of (in_arrow_function_body N.plain body.now) }
{
    match body {
        ArrowFunctionBody::FunctionBody(_) => NodeType::FunctionBody,
        ArrowFunctionBody::Expression(node) => node.get().node_type(),
    }
}

fn print_arrow_function_body<N: PrintNode>(
    body: &ArrowFunctionBody<N>,
    p: &mut Printer<'_>,
    place: Place,
)
    ensures { Lays p.old p.new (spell (in_arrow_function_body N.plain body.now) place) }
{
    match body {
        ArrowFunctionBody::FunctionBody(node) => print_function_body(node, p, place),
        ArrowFunctionBody::Expression(node) => node.get().print(p, place),
    }
}

/// A declaration among statements is a line of its own. An expression stands in parentheses where it would be a declaration.
pub fn print_function<N: PrintNode>(node: &Function<N>, p: &mut Printer<'_>, place: Place)
    ensures { Lays p.old p.new (spell (function_row N.plain node.now) place) }
{
    match node.kind {
        FunctionKind::Declaration => {
            print_before_declaration_if(place.in_list, node.pure, node.span.start, p);
            p.print_indentation_if(place.in_list);
            print_from_word(node, p, place);
            p.print_soft_line_if(place.in_list);
        }
        FunctionKind::Expression => {
            p.print_annotation_if(node.pure, node.span.start);
            let wrap = is_in_parentheses(node.pife, p);
            p.print_opening_if(wrap);
            print_comments_within(node.pife, node.span.start, p);
            print_from_word(node, p, place);
            p.print_closing_if(wrap);
        }
    }
}

// Where the test holds, the comments before a declaration, and its annotation.
fn print_before_declaration_if(test: bool, pure: bool, start: u32, p: &mut Printer<'_>)
    ensures { Lays p.old p.new (items_if test (comments all_of_them start ⊕ annotation_line true pure start)) }
{
    if test {
        p.print_comments(start);
        p.print_annotation_line_if(true, pure, start);
    }
}

// Where it is marked so, and where it would be a declaration without them.
fn is_in_parentheses(pife: bool, p: &Printer<'_>) -> bool
    ensures { result ≡ (pife || is_barred a_declaration (pen_of p.now).start) }
{
    pife || p.bars_declaration()
}

// The comments of a function that is marked so, which stand inside of its parentheses.
fn print_comments_within(pife: bool, start: u32, p: &mut Printer<'_>)
    ensures { Lays p.old p.new (comments (before_called pife) start) }
{
    if pife {
        p.print_comments_before(CommentsBefore::All, start);
    }
}

// From the word on.
fn print_from_word<N: PrintNode>(node: &Function<N>, p: &mut Printer<'_>, place: Place)
    ensures { Lays p.old p.new (from_word (function_row N.plain node.now) place) }
{
    print_function_words(node.span, node.is_async, node.generator, p);
    print_if_given::<_, Names>(&node.id, p, place.child(Precedence::Lowest));
    print_behind_name(node, p, place);
}

// The words before the name, of what is `async` and of a generator too.
fn print_function_words(span: Span, is_async: bool, generator: bool, p: &mut Printer<'_>)
    ensures { Lays p.old p.new (function_words span is_async generator) }
{
    print_async_apart_if(is_async, span, p);
    p.print_marked_word(span, "function");
    print_star_apart_if(generator, p);
}

fn print_async_apart_if(test: bool, span: Span, p: &mut Printer<'_>)
    ensures { Lays p.old p.new (items_if test (marked_word span (codes "async") ⊕ hard_space)) }
{
    if test {
        p.print_marked_word(span, "async");
        p.print_hard_space();
    }
}

fn print_star_apart_if(test: bool, p: &mut Printer<'_>)
    ensures { Lays p.old p.new (items_if test (punctuator star ⊕ soft_space)) }
{
    if test {
        p.print_star();
        p.print_soft_space();
    }
}

/// What stands before the key of a method.
pub fn print_method_words<N: PrintNode>(node: &Function<N>, p: &mut Printer<'_>)
    ensures { Lays p.old p.new (method_words (function_row N.plain node.now)) }
{
    print_async_if(node.is_async, p);
    p.print_star_if(node.generator);
}

/// The names of functions.
struct Names;

impl PrintMember<Box<BindingIdentifier>> for Names {
    ghost plain = { λ b. binding_identifier_row b.value };

    fn print_member(name: &Box<BindingIdentifier>, p: &mut Printer<'_>, place: Place) {
        print_binding_identifier(name, p, place);
    }
}

/// The parameters in parentheses, and the body.
pub fn print_behind_name<N: PrintNode>(node: &Function<N>, p: &mut Printer<'_>, place: Place)
    ensures { Lays p.old p.new (spell_method (function_row N.plain node.now) place) }
{
    let parameters = place.child(Precedence::Comma).with_calls();
    print_parameters_in_brackets(&node.params, p, parameters);
    print_apart::<_, Bodies>(&node.body, p, Place::within_statement());
}

// ---- bodies

/// The bodies of functions.
struct Bodies;

impl<N: PrintNode> PrintMember<Box<FunctionBody<N>>> for Bodies {
    ghost plain = { λ b. function_body_row N.plain b.value };

    fn print_member(body: &Box<FunctionBody<N>>, p: &mut Printer<'_>, place: Place) {
        print_function_body(body, p, place);
    }
}

/// Braces, of which empty ones have nothing within.
pub fn print_function_body<N: PrintNode>(node: &FunctionBody<N>, p: &mut Printer<'_>, place: Place)
    ensures { Lays p.old p.new (spell (function_body_row N.plain node.now) place) }
{
    let _ = place;
    if are_empty(&node.directives, &node.statements) {
        print_empty_body(node.span, p);
    } else {
        print_filled_body(node, p);
    }
}

// Braces in which nothing stands but comments.
fn print_empty_body(span: Span, p: &mut Printer<'_>)
    ensures { Lays p.old p.new (mark span ⊕ brackets Brace (empty_body span.end ⊕ end_mark span) ⊕ drop_semicolon) }
{
    p.print_mark(span);
    p.print_opening(Bracket::Brace);
    p.print_empty_body(span.end);
    p.print_end_mark(span);
    p.print_closing(Bracket::Brace);
    p.drop_semicolon();
}

fn are_empty<N>(directives: &[Directive], statements: &[StatementNode<N>]) -> bool
    ensures { result ≡ ((length directives.now == 0) && (length statements.now == 0)) }
{
    directives.is_empty() && statements.is_empty()
}

fn print_filled_body<N: PrintNode>(node: &FunctionBody<N>, p: &mut Printer<'_>)
    ensures { Lays p.old p.new (filled_braces node.now.span (held node.now.span.end ((spell_directives (trees (map directive_row node.now.directives.items))
        ⊕ spell_body (trees (map (in_statement N.plain) node.now.statements.items))) ⊕ orphans node.now.span.end))) }
{
    let depth = open_braces(node.span, p);
    print_inside(node, p);
    close_braces(node.span, p, depth);
}

// What stands in the braces, and the comments at the last byte behind it.
fn print_inside<N: PrintNode>(node: &FunctionBody<N>, p: &mut Printer<'_>)
    ensures { Lays p.old p.new (held node.now.span.end ((spell_directives (trees (map directive_row node.now.directives.items))
        ⊕ spell_body (trees (map (in_statement N.plain) node.now.statements.items))) ⊕ orphans node.now.span.end)) }
{
    let held = p.hold_comments(node.span.end);
    print_directives(&node.directives, p);
    print_body::<_, Statements>(&node.statements, p);
    p.print_orphans(node.span.end);
    p.print_held(&held);
}
