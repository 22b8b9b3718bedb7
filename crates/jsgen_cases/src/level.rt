// Levels, and contexts.
use crate::push::{push_numbers, push_where};
use bitflags::Flags;
use jsgen::Context;
use jsgen_syntax::{Memory, Precedence, Precedence as P};
use std::alloc::Global;

const LEVELS: [(&str, Precedence); 23] = [
    ("Lowest", P::Lowest),
    ("Comma", P::Comma),
    ("Spread", P::Spread),
    ("Yield", P::Yield),
    ("Assign", P::Assign),
    ("Conditional", P::Conditional),
    ("NullishCoalescing", P::NullishCoalescing),
    ("LogicalOr", P::LogicalOr),
    ("LogicalAnd", P::LogicalAnd),
    ("BitwiseOr", P::BitwiseOr),
    ("BitwiseXor", P::BitwiseXor),
    ("BitwiseAnd", P::BitwiseAnd),
    ("Equals", P::Equals),
    ("Compare", P::Compare),
    ("Shift", P::Shift),
    ("Add", P::Add),
    ("Multiply", P::Multiply),
    ("Exponentiation", P::Exponentiation),
    ("Prefix", P::Prefix),
    ("Postfix", P::Postfix),
    ("New", P::New),
    ("Call", P::Call),
    ("Member", P::Member),
];

/// The level of that name.
pub fn level_of(name: &str) -> Precedence {
    let mut found = P::Lowest;
    for (text, level) in &LEVELS {
        if *text == name {
            found = *level;
        }
    }
    found
}

/// How many levels are below the one of that name, and how operators of that level are grouped.
pub fn push_level(alloc: Global, name: &str, answer: &mut String) -> Result<(), Memory> {
    let level = level_of(name);
    let mut below = 0u32;
    for (_, other) in &LEVELS {
        if *other < level {
            below = below.saturating_add(1);
        }
    }
    push_numbers(alloc, &[below], answer)?;
    push_where(
        answer,
        &[
            (level.is_left_associative(), " left"),
            (level.is_right_associative(), " right"),
        ],
    )
}

/// The context of that name.
pub fn context_of(name: &str) -> Context {
    match name {
        "no_in" => Context::FORBID_IN,
        "no_call" => Context::FORBID_CALL,
        "tagged" => Context::TAGGED_TEMPLATE,
        _ => Context::default(),
    }
}

/// The flags of the context of that name; those with two more, without one of these, and with types; and what it says of two.
pub fn push_context(alloc: Global, name: &str, answer: &mut String) -> Result<(), Memory> {
    let context = context_of(name);
    let both = context.and_forbid_in(true).and_forbid_call(true);
    let call = both.and_forbid_in(false);
    let types = call.with_typescript();
    push_numbers(
        alloc,
        &[context.bits(), both.bits(), call.bits(), types.bits()],
        answer,
    )?;
    push_where(
        answer,
        &[
            (context.forbid_in(), " no_in"),
            (context.forbid_call(), " no_call"),
        ],
    )
}
