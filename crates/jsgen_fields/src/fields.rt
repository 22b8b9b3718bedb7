// Fields that hold children.
ghost use Rattle.std.specs.Prelude.{◌≡◌, Ok, true, false, map, option_map};
ghost use Rattle.jsgen_fields.specs.Given.{row_data};
ghost use Rattle.jsgen_tree.specs.Tree.{optional, optional_list, trees, holed};
ghost use Rattle.jsgen_tree.specs.Table.{needed, may_be_absent, child, children, maybe_children, children_or_holes};
ghost use Rattle.jsgen_fields.specs.Values.{Same, at, field as value_under};
ghost use Rattle.jsgen_fields.specs.Meaning.{a_child, a_maybe, a_list, a_maybe_list};
ghost use Rattle.jsgen_fields.specs.Reads.{Gives, read_children};
ghost use Rattle.jsgen_pool.specs.Pool.{entries};

use crate::children::{take_all, take_all_or_holes, take_as};
use crate::given::GivenRow;
use crate::values::{items_in, needed_value, optional_value};
use crate::{At, InputFault};
use jsgen_kept::asked::{Child, RowOf};
use jsgen_pool::Kept;
use jsgen_tree::HasType;
use std::alloc::Global;

#[tactic(auto, unfolding(crate::specs::Reads::read_children))]
pub fn needed_child<N: HasType, R: RowOf<N> + Drop, C: Child<N>>(
    alloc: Global,
    kept: &mut Vec<Kept<R>>,
    number: usize,
    field: usize,
    row: &GivenRow<'_>,
    name: &str,
) -> Result<C, InputFault>
    ensures { Gives (λ c. a_child (C.plain c)) result (entries R.plain kept.new.items)
        (read_children (at number field) true needed (child C.of_set) (value_under name.now (row_data row.now)) (entries R.plain kept.old.items)) }
{
    let at = At::of_row(number, field);
    match needed_value(at, row, name) {
        Ok(value) => take_as::<N, R, C>(alloc, kept, at, value),
        Err(fault) => Err(fault),
    }
}

#[tactic(auto, unfolding(crate::specs::Reads::read_children))]
pub fn optional_child<N: HasType, R: RowOf<N> + Drop, C: Child<N>>(
    alloc: Global,
    kept: &mut Vec<Kept<R>>,
    number: usize,
    field: usize,
    row: &GivenRow<'_>,
    name: &str,
) -> Result<Option<C>, InputFault>
    ensures { Gives (λ o. a_maybe (optional (option_map C.plain o))) result (entries R.plain kept.new.items)
        (read_children (at number field) false may_be_absent (child C.of_set) (value_under name.now (row_data row.now)) (entries R.plain kept.old.items)) }
{
    let at = At::of_row(number, field);
    match optional_value(at, row, name) {
        Ok(Some(value)) => match take_as::<N, R, C>(alloc, kept, at, value) {
            Ok(child) => Ok(Some(child)),
            Err(fault) => Err(fault),
        },
        Ok(None) => Ok(None),
        Err(fault) => Err(fault),
    }
}

/// A list that is empty where it is absent.
#[tactic(auto, unfolding(crate::specs::Reads::read_children))]
pub fn children<N: HasType, R: RowOf<N> + Drop, C: Child<N> + Drop>(
    alloc: Global,
    kept: &mut Vec<Kept<R>>,
    number: usize,
    field: usize,
    row: &GivenRow<'_>,
    name: &str,
) -> Result<Vec<C>, InputFault>
    ensures { Gives (λ v. a_list (trees (map C.plain v.items))) result (entries R.plain kept.new.items)
        (read_children (at number field) false may_be_absent (children C.of_set) (value_under name.now (row_data row.now)) (entries R.plain kept.old.items)) }
{
    let at = At::of_row(number, field);
    match optional_value(at, row, name) {
        Ok(Some(value)) => match items_in(at, value) {
            Ok(items) => take_all::<N, R, C>(alloc, kept, at, items),
            Err(fault) => Err(fault),
        },
        Ok(None) => Ok(Vec::new(alloc)),
        Err(fault) => Err(fault),
    }
}

/// A list, or none where it is absent.
#[tactic(auto, unfolding(crate::specs::Reads::read_children))]
pub fn optional_children<N: HasType, R: RowOf<N> + Drop, C: Child<N> + Drop>(
    alloc: Global,
    kept: &mut Vec<Kept<R>>,
    number: usize,
    field: usize,
    row: &GivenRow<'_>,
    name: &str,
) -> Result<Option<Vec<C>>, InputFault>
    ensures { Gives (λ o. a_maybe_list (optional_list (option_map (λ v. map C.plain v.items) o))) result (entries R.plain kept.new.items)
        (read_children (at number field) false may_be_absent (maybe_children C.of_set) (value_under name.now (row_data row.now)) (entries R.plain kept.old.items)) }
{
    let at = At::of_row(number, field);
    match optional_value(at, row, name) {
        Ok(Some(value)) => match items_in(at, value) {
            Ok(items) => match take_all::<N, R, C>(alloc, kept, at, items) {
                Ok(children) => Ok(Some(children)),
                Err(fault) => Err(fault),
            },
            Err(fault) => Err(fault),
        },
        Ok(None) => Ok(None),
        Err(fault) => Err(fault),
    }
}

/// A list with a hole at each null, empty where it is absent.
#[tactic(auto, unfolding(crate::specs::Reads::read_children))]
pub fn children_or_holes<N: HasType, R: RowOf<N> + Drop, C: Child<N> + Drop>(
    alloc: Global,
    kept: &mut Vec<Kept<R>>,
    number: usize,
    field: usize,
    row: &GivenRow<'_>,
    name: &str,
) -> Result<Vec<Option<C>>, InputFault>
    ensures { Gives (λ v. a_list (holed (map (option_map C.plain) v.items))) result (entries R.plain kept.new.items)
        (read_children (at number field) false may_be_absent (children_or_holes C.of_set) (value_under name.now (row_data row.now)) (entries R.plain kept.old.items)) }
{
    let at = At::of_row(number, field);
    match optional_value(at, row, name) {
        Ok(Some(value)) => match items_in(at, value) {
            Ok(items) => take_all_or_holes::<N, R, C>(alloc, kept, at, items),
            Err(fault) => Err(fault),
        },
        Ok(None) => Ok(Vec::new(alloc)),
        Err(fault) => Err(fault),
    }
}

/// In a box of its own.
pub fn boxed<T: Drop>(alloc: Global, node: T) -> Result<Box<T>, InputFault>
    ensures { Same (λ b. b.value) result (Ok node) }
{
    Ok(Box::new(alloc, node)?)
}
