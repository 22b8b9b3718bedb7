// The members of classes, one function for each row.
ghost use Rattle.std.specs.Prelude.{codes};
ghost use Rattle.jsgen_tree.specs.Rows.{static_block_row, method_definition_row, property_definition_row};
ghost use Rattle.jsgen_model.specs.Spell.{spell, items_if, key_word, method_kind_word};
ghost use Rattle.jsgen_printer.specs.Steps.{Lays};

use jsgen_inside::PrintInClass;
use jsgen_lists::print_key_word;
use jsgen_place::Place;
use jsgen_printer::Printer;
use jsgen_syntax::Precedence;
use jsgen_tree::{MethodDefinition, MethodDefinitionKind, PropertyDefinition, StaticBlock};

pub fn print_static_block<N, M: PrintInClass<N>>(
    node: &StaticBlock<N>,
    p: &mut Printer<'_>,
    place: Place,
)
    ensures { Lays p.old p.new (spell (static_block_row M.plain node.now) place) }
{
    p.begin_line_if(place.in_list, node.span.start);
    p.print_mark(node.span);
    print_key_word("static", p);
    M::print_block(node.span, &node.body, p);
    p.print_soft_line_if(place.in_list);
}

pub fn print_method_definition<N, M: PrintInClass<N>>(
    node: &MethodDefinition<N>,
    p: &mut Printer<'_>,
    place: Place,
)
    ensures { Lays p.old p.new (spell (method_definition_row M.plain node.now) place) }
{
    p.begin_line_if(place.in_list, node.span.start);
    p.print_mark(node.span);
    print_static_if(node.is_static, p);
    print_method_kind(node.kind, p);
    M::print_method_words(&node.value, p);
    M::print_key(&node.key, node.computed, p);
    M::print_method(&node.value, p, place);
    p.print_soft_line_if(place.in_list);
}

/// Among others its semicolon is left to what follows.
pub fn print_property_definition<N, M: PrintInClass<N>>(
    node: &PropertyDefinition<N>,
    p: &mut Printer<'_>,
    place: Place,
)
    ensures { Lays p.old p.new (spell (property_definition_row M.plain node.now) place) }
{
    p.begin_line_if(place.in_list, node.span.start);
    p.print_mark(node.span);
    print_static_if(node.is_static, p);
    M::print_key(&node.key, node.computed, p);
    M::print_initializer(&node.value, p, Place::in_brackets(Precedence::Comma));
    p.print_statement_end_if(place.in_list);
}

fn print_static_if(test: bool, p: &mut Printer<'_>)
    ensures { Lays p.old p.new (items_if test (key_word (codes "static"))) }
{
    if test {
        print_key_word("static", p);
    }
}

// What stands before the key of an accessor, and nothing before that of another method.
fn print_method_kind(kind: MethodDefinitionKind, p: &mut Printer<'_>)
    ensures { Lays p.old p.new (method_kind_word kind) }
{
    match kind {
        MethodDefinitionKind::Get => print_key_word("get", p),
        MethodDefinitionKind::Set => print_key_word("set", p),
        MethodDefinitionKind::Constructor | MethodDefinitionKind::Method => {}
    }
}
