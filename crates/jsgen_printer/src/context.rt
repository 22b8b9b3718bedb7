// What an expression's surroundings forbid, and what else is known of them.
ghost use Rattle.std.specs.Prelude.{⊤, ◌≡◌, [], ◌∷◌, codes, true};

use bitflags::{Flag, Flags};

/// What the surroundings of an expression forbid, and what else is known of them.
#[derive(Clone, Copy, Debug, Default)]
pub struct Context {
    bits: u8,
}

impl Context {
    ghost use Rattle.jsgen_printer.specs.Context.{has, with_flag, forbid_in, forbid_call, typescript, tagged_template};

    /// `in` may not stand there: in the head of a `for`.
    pub const FORBID_IN: Context = Context { bits: 1 };

    /// No call may stand there: in what `new` stands before.
    pub const FORBID_CALL: Context = Context { bits: 2 };

    /// Types are printed.
    pub const TYPESCRIPT: Context = Context { bits: 4 };

    /// A template whose raw text the program can see.
    pub const TAGGED_TEMPLATE: Context = Context { bits: 8 };

    /// Whether `in` may not stand there.
    pub fn forbid_in(self) -> bool
        ensures { result ≡ has forbid_in self }
    {
        self.contains(Context::FORBID_IN)
    }

    /// Whether no call may stand there.
    pub fn forbid_call(self) -> bool
        ensures { result ≡ has forbid_call self }
    {
        self.contains(Context::FORBID_CALL)
    }

    /// Whether a template is behind a tag there, which sees its raw text.
    pub fn tagged_template(self) -> bool
        ensures { result ≡ has tagged_template self }
    {
        self.contains(Context::TAGGED_TEMPLATE)
    }

    /// The same context, with types.
    pub fn with_typescript(self) -> Context
        ensures { result ≡ with_flag true typescript self }
    {
        self.union(Context::TYPESCRIPT)
    }

    /// The same context, in which `in` is forbidden or isn't.
    pub fn and_forbid_in(self, include: bool) -> Context
        ensures { result ≡ with_flag include forbid_in self }
    {
        if include {
            self.union(Context::FORBID_IN)
        } else {
            self.difference(Context::FORBID_IN)
        }
    }

    /// The same context, in which calls are forbidden or aren't.
    pub fn and_forbid_call(self, include: bool) -> Context
        ensures { result ≡ with_flag include forbid_call self }
    {
        if include {
            self.union(Context::FORBID_CALL)
        } else {
            self.difference(Context::FORBID_CALL)
        }
    }
}

const FLAGS: [Flag<Context>; 4] = [
    Flag {
        name: "FORBID_IN",
        value: Context::FORBID_IN,
    },
    Flag {
        name: "FORBID_CALL",
        value: Context::FORBID_CALL,
    },
    Flag {
        name: "TYPESCRIPT",
        value: Context::TYPESCRIPT,
    },
    Flag {
        name: "TAGGED_TEMPLATE",
        value: Context::TAGGED_TEMPLATE,
    },
];

impl Flags for Context {
    type Bits = u8;

    ghost exact = { ⊤ };

    ghost table = { (codes "FORBID_IN", 1) ∷ (codes "FORBID_CALL", 2) ∷ (codes "TYPESCRIPT", 4) ∷ (codes "TAGGED_TEMPLATE", 8) ∷ [] };

    ghost set_of = { λ context. context.bits };

    fn flags<'a>() -> &'a [Flag<Context>] {
        &FLAGS
    }

    fn bits(&self) -> u8 {
        self.bits
    }

    fn from_bits_retain(bits: u8) -> Context {
        Context { bits }
    }
}
