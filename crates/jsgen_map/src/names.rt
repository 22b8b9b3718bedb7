// Names, each once and numbered.
ghost use Rattle.std.specs.Prelude.{◌≡◌, IfOk, OnErr};
ghost use Rattle.std.specs.Option.{option_copied};
ghost use Rattle.jsgen_map.specs.Names.{texts, AddsName, IsNumbered, NumbersOf};

use jsgen_syntax::Memory;
use std::collections::BTreeMap;

/// Adds a name, where there is one and unless it is there, and tells its number. After `Memory` nothing has changed.
pub(crate) fn number_of<'a>(
    names: &mut Vec<&'a str>,
    numbers: &mut BTreeMap<&'a str, usize>,
    name: Option<&'a str>,
) -> Result<Option<usize>, Memory>
    ensures ok { NumbersOf (texts names.old.items) numbers.old.entries → IfOk result
        (IsNumbered (texts names.old.items) (option_copied name.entry) (texts names.new.items) numbers.new.entries) }
    ensures names { OnErr result (names.new.items ≡ names.old.items) }
    ensures numbers { OnErr result (numbers.new.entries ≡ numbers.old.entries) }
{
    match name {
        None => Ok(None),
        Some(name) => {
            let number = add_name(names, numbers, name)?;
            Ok(Some(number))
        }
    }
}

fn add_name<'a>(
    names: &mut Vec<&'a str>,
    numbers: &mut BTreeMap<&'a str, usize>,
    name: &'a str,
) -> Result<usize, Memory>
    ensures ok { NumbersOf (texts names.old.items) numbers.old.entries → IfOk result
        (AddsName (texts names.old.items) name.now (texts names.new.items) numbers.new.entries) }
    ensures names { OnErr result (names.new.items ≡ names.old.items) }
    ensures numbers { OnErr result (numbers.new.entries ≡ numbers.old.entries) }
{
    if let Some(number) = numbers.get(name) {
        return Ok(*number);
    }
    names.reserve(1)?;
    let number = names.len();
    numbers.insert(name, number)?;
    names.push(name)?;
    Ok(number)
}
