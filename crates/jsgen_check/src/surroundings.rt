// What surrounds a node.
ghost use Rattle.std.specs.Prelude.{◌≡◌, Option};
ghost use Rattle.std.specs.Borrow.{Bor};
ghost use Rattle.jsgen_model.specs.Valid.{within_nothing, within_function, within_arrow, within_braces};
ghost use Rattle.jsgen_rules.specs.declared.private.Classes.{Classes};
ghost use Rattle.jsgen_check.specs.Verdict.{surroundings_plain};

use jsgen_tree::{CodegenOptions, Tables};

/// What surrounds a node of a program.
#[derive(Clone, Copy)]
pub struct Surroundings<'a> {
    /// The options that print the program.
    pub options: &'a CodegenOptions,
    /// The tables by which its names are printed.
    pub tables: Tables<'a>,
    /// The program's source.
    pub source: &'a str,
    /// Whether spans have to be of that source.
    pub is_mapped: bool,
    /// Whether `return` may stand there.
    pub in_function: bool,
    /// Whether `yield` may stand there.
    pub may_yield: bool,
    /// Whether `await` may stand there.
    pub may_await: bool,
}

#[tactic(auto, unfolding(crate::specs::Verdict::surroundings_plain))]
impl<'a> Surroundings<'a> {
    /// What surrounds a part of it that is in no function: parameters, the value of a field, and the statements of a static block.
    pub fn within_nothing(&self) -> Surroundings<'a>
        ensures { (classes : Option (Bor Classes)) → surroundings_plain result classes ≡ within_nothing (surroundings_plain self.now classes) }
    {
        Surroundings {
            in_function: false,
            may_yield: false,
            may_await: false,
            ..*self
        }
    }

    /// What surrounds the body of a function with these flags.
    pub fn within_function(&self, is_async: bool, generator: bool) -> Surroundings<'a>
        ensures { (classes : Option (Bor Classes)) → surroundings_plain result classes ≡ within_function is_async generator (surroundings_plain self.now classes) }
    {
        Surroundings {
            in_function: true,
            may_yield: generator,
            may_await: is_async,
            ..*self
        }
    }

    /// What surrounds the body of an arrow function with this flag.
    pub fn within_arrow(&self, is_async: bool) -> Surroundings<'a>
        ensures { (classes : Option (Bor Classes)) → surroundings_plain result classes ≡ within_arrow is_async (surroundings_plain self.now classes) }
    {
        Surroundings {
            in_function: false,
            may_yield: false,
            may_await: is_async,
            ..*self
        }
    }

    /// What surrounds the statements of a body in braces.
    pub fn within_braces(&self) -> Surroundings<'a>
        ensures { (classes : Option (Bor Classes)) → surroundings_plain result classes ≡ within_braces (surroundings_plain self.now classes) }
    {
        Surroundings {
            in_function: true,
            ..*self
        }
    }
}
