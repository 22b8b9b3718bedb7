// Children: each is taken out by its number, and is made of the row that was read.
ghost use Rattle.std.specs.Prelude.{◌≡◌, true, IfOk, Some, None, [], map, option_map, if◌then◌else◌};
ghost use Rattle.jsgen_fields.specs.Given.{given_data, given_items};
ghost use Rattle.serde_json.specs.Find.{as_number};
ghost use Rattle.jsgen_tree.specs.Tree.{type_of};
ghost use Rattle.jsgen_tree.specs.Sets.{in_set};
ghost use Rattle.jsgen_fields.specs.Values.{Same};
ghost use Rattle.jsgen_fields.specs.Reads.{Gives, number_in, take_child, take_or_hole, take_each};
ghost use Rattle.jsgen_pool.specs.Pool.{entries};

use crate::given::{Given, GivenItems};
use crate::{At, InputFault};
use jsgen_kept::asked::{Child, RowOf};
use jsgen_pool::{Kept, TakeFault, Typed, take};
use jsgen_tree::{HasType, NodeSet};
use std::alloc::Global;

// ---- taking

// A whole number below zero is no row's.
fn number_in(at: At, value: Given<'_>) -> Result<u64, InputFault>
    ensures { Same (λ n. n) result (number_in at (as_number (given_data value.entry))) }
{
    match value.as_u64() {
        Some(number) => Ok(number),
        None => {
            if value.as_i64().is_some() {
                Err(InputFault::Child(at))
            } else {
                Err(InputFault::Wrong(at))
            }
        }
    }
}

fn take_child<R: Typed + Drop>(
    kept: &mut Vec<Kept<R>>,
    at: At,
    set: NodeSet,
    value: Given<'_>,
) -> Result<R, InputFault>
    ensures reads { Gives R.plain result (entries R.plain kept.new.items) (take_child at set (given_data value.entry) (entries R.plain kept.old.items)) }
    ensures fits { IfOk result (λ r. true ≡ in_set set (type_of (R.plain r))) }
{
    match number_in(at, value) {
        Ok(number) => match take(kept, set, number) {
            Ok(row) => Ok(row),
            Err(TakeFault::Absent) => Err(InputFault::Child(at)),
            Err(TakeFault::Taken(index)) => Err(InputFault::Shared(index)),
        },
        Err(fault) => Err(fault),
    }
}

pub fn take_as<N: HasType, R: RowOf<N> + Drop, C: Child<N>>(
    alloc: Global,
    kept: &mut Vec<Kept<R>>,
    at: At,
    value: Given<'_>,
) -> Result<C, InputFault>
    ensures { Gives C.plain result (entries R.plain kept.new.items)
        (take_child at C.of_set (given_data value.entry) (entries R.plain kept.old.items)) }
{
    let row = take_child(kept, at, C::set(), value)?;
    match row.into_child::<C>(alloc)? {
        Some(child) => Ok(child),
        None => Err(InputFault::Wrong(at)),
    }
}

pub fn take_all<N: HasType, R: RowOf<N> + Drop, C: Child<N> + Drop>(
    alloc: Global,
    kept: &mut Vec<Kept<R>>,
    at: At,
    items: GivenItems<'_>,
) -> Result<Vec<C>, InputFault>
    ensures { Gives (λ v. map C.plain v.items) result (entries R.plain kept.new.items)
        (take_each (take_child at C.of_set) [] (given_items items.entry) (entries R.plain kept.old.items)) }
{
    let mut children = Vec::with_capacity(alloc, items.len())?;
    for index in 0..items.len() {
        let child = take_as::<N, R, C>(alloc, kept, at, items.item(index))?;
        children.push(child)?;
    }
    Ok(children)
}

// ---- lists with holes

// Null is a hole.
fn take_or_hole<N: HasType, R: RowOf<N> + Drop, C: Child<N>>(
    alloc: Global,
    kept: &mut Vec<Kept<R>>,
    at: At,
    value: Given<'_>,
) -> Result<Option<C>, InputFault>
    ensures { Gives (option_map C.plain) result (entries R.plain kept.new.items)
        (take_or_hole at C.of_set (given_data value.entry) (entries R.plain kept.old.items)) }
{
    if value.is_null() {
        return Ok(None);
    }
    match take_as::<N, R, C>(alloc, kept, at, value) {
        Ok(child) => Ok(Some(child)),
        Err(fault) => Err(fault),
    }
}

pub fn take_all_or_holes<N: HasType, R: RowOf<N> + Drop, C: Child<N> + Drop>(
    alloc: Global,
    kept: &mut Vec<Kept<R>>,
    at: At,
    items: GivenItems<'_>,
) -> Result<Vec<Option<C>>, InputFault>
    ensures { Gives (λ v. map (option_map C.plain) v.items) result (entries R.plain kept.new.items)
        (take_each (take_or_hole at C.of_set) [] (given_items items.entry) (entries R.plain kept.old.items)) }
{
    let mut children = Vec::with_capacity(alloc, items.len())?;
    for index in 0..items.len() {
        let child = take_or_hole::<N, R, C>(alloc, kept, at, items.item(index))?;
        children.push(child)?;
    }
    Ok(children)
}
