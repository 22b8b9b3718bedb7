// The tables by which names are printed.
ghost use Rattle.std.specs.Prelude.{◌≡◌, Some, option_map};
ghost use Rattle.std.specs.Str.{chars};
ghost use Rattle.jsgen_tree.specs.Named.{looked_up, bound, symbol_of, symbol_name, printed_name};
ghost use Rattle.jsgen_tree.specs.Job.{no_tables};
ghost use Rattle.jsgen_tree.specs.Scoping.{scoping_plain, tables_plain};

use std::collections::BTreeMap;

/// The names of symbols, and which of them each reference names.
#[derive(Drop)]
pub struct Scoping {
    /// The name that each symbol is printed by.
    pub symbols: Vec<String>,
    /// For each reference the number of the symbol that it names; `None` for a name that is bound nowhere in the program.
    pub references: Vec<Option<u32>>,
}

/// The new names of private names.
#[derive(Drop)]
pub struct PrivateMappings {
    /// For each class, by its number, the new name of each name that it renames. Neither has the `#`.
    pub classes: Vec<BTreeMap<String, String>>,
}

/// The tables by which a program's names are printed.
#[derive(Clone, Copy)]
pub struct Tables<'a> {
    pub scoping: Option<&'a Scoping>,
    pub private: Option<&'a PrivateMappings>,
}

impl Scoping {
    /// The name that a symbol is printed by; `None` where the table has none of this number.
    pub fn symbol_name(&self, symbol: u32) -> Option<&str>
        ensures { option_map (λ s. chars s.now) result ≡ symbol_name (scoping_plain self.now) (Some symbol) }
    {
        match self.symbols.get(symbol as usize) {
            Some(name) => Some(name.as_str()),
            None => None,
        }
    }

    /// The number of the symbol that a reference names; `None` where it names none, or the table has no such reference.
    pub fn symbol_of(&self, reference: u32) -> Option<u32>
        ensures { result ≡ symbol_of (scoping_plain self.now) reference }
    {
        match self.references.get(reference as usize) {
            Some(entry) => *entry,
            None => None,
        }
    }
}

#[tactic(auto, unfolding(crate::specs::Scoping::tables_plain))]
impl<'a> Tables<'a> {
    /// No tables: each name is printed as it is.
    pub fn none() -> Tables<'a>
        ensures { tables_plain result ≡ no_tables }
    {
        Tables {
            scoping: None,
            private: None,
        }
    }

    /// The name that a reference is printed by: that of the symbol that its number names, or else its own.
    pub fn reference_name(self, reference: Option<u32>, own: &'a str) -> &'a str
        ensures { chars result.now ≡ printed_name (tables_plain self.entry) (looked_up reference (chars own.now)) }
    {
        let (Some(scoping), Some(reference)) = (self.scoping, reference) else {
            return own;
        };
        match scoping.symbol_of(reference) {
            Some(symbol) => scoping.symbol_name(symbol).unwrap_or(own),
            None => own,
        }
    }

    /// The name that a binding is printed by: that of its symbol, or else its own.
    pub fn binding_name(self, symbol: Option<u32>, own: &'a str) -> &'a str
        ensures { chars result.now ≡ printed_name (tables_plain self.entry) (bound symbol (chars own.now)) }
    {
        let (Some(scoping), Some(symbol)) = (self.scoping, symbol) else {
            return own;
        };
        scoping.symbol_name(symbol).unwrap_or(own)
    }
}
