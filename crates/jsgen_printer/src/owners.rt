// Which class a private name is of: the innermost one that holds it, of those that were entered and not left.
ghost use Rattle.std.specs.Prelude.{◌≡◌, ℕ, List, [], ◌∷◌, ◌++◌, OnOk, length, map, string_bytes};
ghost use Rattle.std.specs.Map.{lookup};
ghost use Rattle.std.specs.Str.{bytes_eq};
ghost use Rattle.jsgen_printer.specs.Owners.{AreOf, holding, names_of};

use jsgen_syntax::Memory;
use std::alloc::Global;
use std::collections::BTreeMap;

/// A name that a class holds, and the class that it is of outside.
#[derive(Drop)]
struct Held<'a> {
    name: &'a str,
    outer: Option<usize>,
}

/// For each name the innermost class that holds it.
#[derive(Drop)]
pub(crate) struct Owners<'a> {
    owners: BTreeMap<&'a str, usize>,
    // what the classes hold, the innermost last
    held: Vec<Held<'a>>,
}

impl<'a> Owners<'a> {
    /// No class is entered.
    pub fn new(alloc: Global) -> Owners<'a>
        ensures { AreOf result [] }
    {
        Owners {
            owners: BTreeMap::new(alloc),
            held: Vec::new(alloc),
        }
    }

    /// The innermost class that holds the name.
    pub fn owner(&self, name: &str) -> Option<usize>
        ensures { (held : List (List ℕ × ℕ)) → AreOf self.now held → result ≡ lookup (bytes_eq name.now) held }
    {
        self.owners.get(name).copied()
    }

    fn add(&mut self, name: &'a str, class: usize) -> Result<(), Memory>
        ensures { OnOk result ((held : List (List ℕ × ℕ)) → AreOf self.old held → AreOf self.new ((name.entry.now, class) ∷ held)) }
    {
        let outer = self.owners.insert(name, class)?;
        self.held.push(Held { name, outer })?;
        Ok(())
    }

    fn take_back(&mut self) -> Result<(), Memory>
        ensures { OnOk result ((last : List ℕ × ℕ) (held : List (List ℕ × ℕ)) → AreOf self.old (last ∷ held) → AreOf self.new held) }
    {
        let Some(last) = self.held.pop() else {
            return Ok(());
        };
        match last.outer {
            Some(class) => {
                self.owners.insert(last.name, class)?;
            }
            None => {
                self.owners.remove(last.name);
            }
        }
        Ok(())
    }

    /// A class is entered that holds the names of a table.
    pub fn enter(&mut self, table: &'a BTreeMap<String, String>, class: usize) -> Result<(), Memory>
        ensures { OnOk result ((held : List (List ℕ × ℕ)) → AreOf self.old held → AreOf self.new (holding (names_of table.entry.now.entries) class held)) }
    {
        for (name, _) in table {
            self.add(name.as_str(), class)?;
        }
        Ok(())
    }

    /// The innermost class is left, which holds so many names.
    pub fn leave(&mut self, count: usize) -> Result<(), Memory>
        ensures { OnOk result ((names : List (List ℕ)) (class : ℕ) (held : List (List ℕ × ℕ)) → length names ≡ count → AreOf self.old (holding names class held) → AreOf self.new held) }
    {
        for left in 0..count {
            self.take_back()?;
        }
        Ok(())
    }
}
