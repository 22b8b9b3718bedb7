// What stands in a field by itself.
ghost use Rattle.std.specs.Prelude.{◌≡◌, [], suc, Some, true, false, map, option_map};
ghost use Rattle.std.specs.Str.{bytes_eq};
ghost use Rattle.jsgen_fields.specs.Given.{given_data, given_items, row_data};
ghost use Rattle.jsgen_tree.specs.Characters.{characters, number_if_given};
ghost use Rattle.jsgen_tree.specs.Atom.{no_value, text as text_atom, digits as digits_atom, number as number_atom, flag as flag_atom};
ghost use Rattle.jsgen_tree.specs.Table.{text, digits, number as number_sort, flag, unset_flag, passed_over};
ghost use Rattle.serde_json.specs.Find.{as_bool};
ghost use Rattle.jsgen_fields.specs.declared.InputFault.TheVariants.{Wrong, Missing};
ghost use Rattle.jsgen_fields.specs.Reads.{read_value};
ghost use Rattle.jsgen_fields.specs.Values.{Same, after, or_fault, at, field, field as value_under, field_in, not_given, text_in, items_in, starts_plainly, decimal_number, digits_in, number_of_bits, value_in, type_of, span_of, offsets};

use crate::given::{Given, GivenItems, GivenRow};
use crate::names::type_by_name;
use crate::{At, InputFault};
use jsgen_syntax::Span;
use jsgen_tree::NodeType;
use std::alloc::Global;

/// What stands under a name; null counts as absent.
fn present<'v>(at: At, row: &GivenRow<'v>, name: &str) -> Option<Given<'v>>
    ensures { option_map given_data result ≡ field name.now (row_data row.now) }
{
    match row.get_at(at.field, name) {
        Some(value) => { if value.is_null() { None } else { Some(value) } }
        None => None,
    }
}

pub fn optional_value<'v>(
    at: At,
    row: &GivenRow<'v>,
    name: &str,
) -> Result<Option<Given<'v>>, InputFault>
    ensures { Same (λ o. option_map given_data o) result (field_in at false (field name.now (row_data row.now))) }
{
    let Some(value) = present(at, row, name) else {
        return Ok(None);
    };
    if value.holds_float() {
        return Err(InputFault::Float(at));
    }
    Ok(Some(value))
}

pub fn needed_value<'v>(at: At, row: &GivenRow<'v>, name: &str) -> Result<Given<'v>, InputFault>
    ensures { Same (λ v. Some (given_data v)) result (field_in at true (field name.now (row_data row.now))) }
{
    let Some(value) = present(at, row, name) else {
        return Err(InputFault::Missing(at));
    };
    if value.holds_float() {
        return Err(InputFault::Float(at));
    }
    Ok(value)
}

/// What isn't read yet may not be given.
#[tactic(auto, unfolding(crate::specs::Values::not_given))]
pub fn not_given(at: At, row: &GivenRow<'_>, name: &str) -> Result<(), InputFault>
    ensures { Same (λ u. u) result (not_given at (field name.now (row_data row.now))) }
{
    match present(at, row, name) {
        Some(_) => Err(InputFault::Wrong(at)),
        None => Ok(()),
    }
}

/// A field of a row that isn't read yet.
pub fn field_not_given(
    number: usize,
    field: usize,
    row: &GivenRow<'_>,
    name: &str,
) -> Result<(), InputFault>
    ensures { Same (λ u. u) result (not_given (at number field) (value_under name.now (row_data row.now))) }
{
    not_given(At::of_row(number, field), row, name)
}

/// Two fields of a row, one after the other from this number on, neither of which is read yet.
pub fn neither_given(
    number: usize,
    field: u8,
    row: &GivenRow<'_>,
    name: &str,
    other: &str,
) -> Result<(), InputFault>
    ensures { Same (λ u. u) result (after (not_given (at number field) (value_under name.now (row_data row.now)))
        (λ given. not_given (at number (suc field)) (value_under other.now (row_data row.now)))) }
{
    match not_given(At::of_row(number, usize::from(field)), row, name) {
        Ok(()) => not_given(At::of_row(number, usize::from(field) + 1), row, other),
        Err(fault) => Err(fault),
    }
}

pub fn text_in<'v>(at: At, value: Given<'v>) -> Result<&'v str, InputFault>
    ensures { Same (λ s. s.now) result (text_in at (given_data value.entry)) }
{
    match value.as_str() {
        Some(text) => Ok(text),
        None => Err(InputFault::Wrong(at)),
    }
}

/// The text of a field that may not be absent.
pub fn needed_word<'v>(
    number: usize,
    field: usize,
    row: &GivenRow<'v>,
    name: &str,
) -> Result<&'v str, InputFault>
    ensures { Same (λ s. s.now) result (after (field_in (at number field) true (value_under name.now (row_data row.now)))
        (λ given. after (or_fault (Missing (at number field)) given) (text_in (at number field)))) }
{
    let at = At::of_row(number, field);
    match needed_value(at, row, name) {
        Ok(value) => text_in(at, value),
        Err(fault) => Err(fault),
    }
}

/// The items of a list.
pub fn items_in<'v>(at: At, value: Given<'v>) -> Result<GivenItems<'v>, InputFault>
    ensures { Same given_items result (items_in at (given_data value.entry)) }
{
    match value.items() {
        Some(items) => Ok(items),
        None => Err(InputFault::Wrong(at)),
    }
}

// ---- digits

fn starts_plainly(digits: &[u8]) -> bool
    ensures { result ≡ starts_plainly digits.now }
{
    match digits {
        [] => false,
        [_] => true,
        [first, ..] => *first != b'0',
    }
}

fn decimal_number(text: &str) -> Option<u128>
    ensures { result ≡ decimal_number text.now }
{
    let bytes = text.as_bytes();
    if !starts_plainly(bytes) {
        return None;
    }
    if bytes[0] == b'+' {
        return None;
    }
    text.parse::<u128>().ok()
}

fn digits_in(at: At, value: Given<'_>) -> Result<u128, InputFault>
    ensures { Same (λ n. n) result (digits_in at (given_data value.entry)) }
{
    if let Some(number) = value.as_u64() {
        return Ok(u128::from(number));
    }
    match text_in(at, value) {
        Ok(text) => match decimal_number(text) {
            Some(number) => Ok(number),
            None => Err(InputFault::Wrong(at)),
        },
        Err(fault) => Err(fault),
    }
}

// ---- whole numbers of 32 bits

fn short_number(value: Given<'_>) -> Option<u32>
    ensures { result ≡ number_of_bits 32 (given_data value.entry) }
{
    let number = value.as_u64()?;
    if number < 4294967296 {
        Some(number as u32)
    } else {
        None
    }
}

pub fn number_in(at: At, value: Given<'_>) -> Result<u32, InputFault>
    ensures { Same (λ n. n) result (or_fault (Wrong at) (number_of_bits 32 (given_data value.entry))) }
{
    match short_number(value) {
        Some(number) => Ok(number),
        None => Err(InputFault::Wrong(at)),
    }
}

// ---- fields with no children

fn text_value(alloc: Global, at: At, value: Given<'_>) -> Result<String, InputFault>
    ensures { Same (λ s. text_atom (characters s)) result (value_in at text (given_data value.entry)) }
{
    let text = text_in(at, value)?;
    Ok(String::from_str(alloc, text)?)
}

fn no_text(alloc: Global) -> String
    ensures { characters result ≡ [] }
{
    String::new(alloc)
}

#[tactic(auto, unfolding(crate::specs::Reads::read_value))]
pub fn needed_text(
    alloc: Global,
    number: usize,
    field: usize,
    row: &GivenRow<'_>,
    name: &str,
) -> Result<String, InputFault>
    ensures { Same (λ s. text_atom (characters s)) result
        (read_value (at number field) true no_value text (value_under name.now (row_data row.now))) }
{
    let at = At::of_row(number, field);
    match needed_value(at, row, name) {
        Ok(value) => text_value(alloc, at, value),
        Err(fault) => Err(fault),
    }
}

/// A text that is empty where it is absent.
#[tactic(auto, unfolding(crate::specs::Reads::read_value))]
pub fn optional_text(
    alloc: Global,
    number: usize,
    field: usize,
    row: &GivenRow<'_>,
    name: &str,
) -> Result<String, InputFault>
    ensures { Same (λ s. text_atom (characters s)) result
        (read_value (at number field) false (text_atom []) text (value_under name.now (row_data row.now))) }
{
    let at = At::of_row(number, field);
    match optional_value(at, row, name) {
        Ok(Some(value)) => text_value(alloc, at, value),
        Ok(None) => Ok(no_text(alloc)),
        Err(fault) => Err(fault),
    }
}

#[tactic(auto, unfolding(crate::specs::Reads::read_value))]
pub fn needed_digits(
    number: usize,
    field: usize,
    row: &GivenRow<'_>,
    name: &str,
) -> Result<u128, InputFault>
    ensures { Same (λ n. digits_atom n) result
        (read_value (at number field) true no_value digits (value_under name.now (row_data row.now))) }
{
    let at = At::of_row(number, field);
    match needed_value(at, row, name) {
        Ok(value) => digits_in(at, value),
        Err(fault) => Err(fault),
    }
}

/// A number that is required.
#[tactic(auto, unfolding(crate::specs::Reads::read_value))]
pub fn needed_number(
    number: usize,
    field: usize,
    row: &GivenRow<'_>,
    name: &str,
) -> Result<u32, InputFault>
    ensures { Same (λ n. number_atom n) result
        (read_value (at number field) true no_value number_sort (value_under name.now (row_data row.now))) }
{
    let at = At::of_row(number, field);
    match needed_value(at, row, name) {
        Ok(value) => number_in(at, value),
        Err(fault) => Err(fault),
    }
}

/// A number that may be absent.
#[tactic(auto, unfolding(crate::specs::Reads::read_value))]
pub fn optional_number(
    number: usize,
    field: usize,
    row: &GivenRow<'_>,
    name: &str,
) -> Result<Option<u32>, InputFault>
    ensures { Same number_if_given result
        (read_value (at number field) false no_value number_sort (value_under name.now (row_data row.now))) }
{
    let at = At::of_row(number, field);
    match optional_value(at, row, name) {
        Ok(Some(value)) => Ok(Some(number_in(at, value)?)),
        Ok(None) => Ok(None),
        Err(fault) => Err(fault),
    }
}

/// A text in a row of another kind than those that it is for: it isn't kept.
#[tactic(auto, unfolding(crate::specs::Reads::read_value))]
pub fn passed_over_text(
    number: usize,
    field: usize,
    row: &GivenRow<'_>,
    name: &str,
) -> Result<(), InputFault>
    ensures { Same (λ u. no_value) result
        (read_value (at number field) false no_value (passed_over text) (value_under name.now (row_data row.now))) }
{
    let at = At::of_row(number, field);
    match optional_value(at, row, name) {
        Ok(Some(value)) => pass_over_text(at, value),
        Ok(None) => Ok(()),
        Err(fault) => Err(fault),
    }
}

fn pass_over_text(at: At, value: Given<'_>) -> Result<(), InputFault>
    ensures { Same (λ u. no_value) result (value_in at (passed_over text) (given_data value.entry)) }
{
    match text_in(at, value) {
        Ok(_) => Ok(()),
        Err(fault) => Err(fault),
    }
}

/// Digits in a row of another kind than those that they are for: they aren't kept.
#[tactic(auto, unfolding(crate::specs::Reads::read_value))]
pub fn passed_over_digits(
    number: usize,
    field: usize,
    row: &GivenRow<'_>,
    name: &str,
) -> Result<(), InputFault>
    ensures { Same (λ u. no_value) result
        (read_value (at number field) false no_value (passed_over digits) (value_under name.now (row_data row.now))) }
{
    let at = At::of_row(number, field);
    match optional_value(at, row, name) {
        Ok(Some(value)) => pass_over_digits(at, value),
        Ok(None) => Ok(()),
        Err(fault) => Err(fault),
    }
}

fn pass_over_digits(at: At, value: Given<'_>) -> Result<(), InputFault>
    ensures { Same (λ u. no_value) result (value_in at (passed_over digits) (given_data value.entry)) }
{
    match digits_in(at, value) {
        Ok(_) => Ok(()),
        Err(fault) => Err(fault),
    }
}

fn flag_in(at: At, value: Given<'_>) -> Result<bool, InputFault>
    ensures { Same (λ b. b) result (or_fault (Wrong at) (as_bool (given_data value.entry))) }
{
    match value.as_bool() {
        Some(given) => Ok(given),
        None => Err(InputFault::Wrong(at)),
    }
}

/// A flag that is required.
#[tactic(auto, unfolding(crate::specs::Reads::read_value))]
pub fn needed_flag(
    number: usize,
    field: usize,
    row: &GivenRow<'_>,
    name: &str,
) -> Result<bool, InputFault>
    ensures { Same (λ b. flag_atom b) result
        (read_value (at number field) true no_value flag (value_under name.now (row_data row.now))) }
{
    let at = At::of_row(number, field);
    match needed_value(at, row, name) {
        Ok(value) => flag_in(at, value),
        Err(fault) => Err(fault),
    }
}

/// A flag that is false where it is absent.
#[tactic(auto, unfolding(crate::specs::Reads::read_value))]
pub fn optional_flag(
    number: usize,
    field: usize,
    row: &GivenRow<'_>,
    name: &str,
) -> Result<bool, InputFault>
    ensures { Same (λ b. flag_atom b) result
        (read_value (at number field) false (flag_atom false) flag (value_under name.now (row_data row.now))) }
{
    let at = At::of_row(number, field);
    match optional_value(at, row, name) {
        Ok(Some(value)) => flag_in(at, value),
        Ok(None) => Ok(false),
        Err(fault) => Err(fault),
    }
}

/// A flag that may not be set.
#[tactic(auto, unfolding(crate::specs::Reads::read_value))]
pub fn unset_flag(
    number: usize,
    field: usize,
    row: &GivenRow<'_>,
    name: &str,
) -> Result<(), InputFault>
    ensures { Same (λ u. flag_atom false) result
        (read_value (at number field) false (flag_atom false) unset_flag (value_under name.now (row_data row.now))) }
{
    let at = At::of_row(number, field);
    match optional_value(at, row, name) {
        Ok(Some(value)) => unset_in(at, value),
        Ok(None) => Ok(()),
        Err(fault) => Err(fault),
    }
}

fn unset_in(at: At, value: Given<'_>) -> Result<(), InputFault>
    ensures { Same (λ u. flag_atom false) result (value_in at unset_flag (given_data value.entry)) }
{
    match value.as_bool() {
        Some(true) => Err(InputFault::Wrong(at)),
        Some(false) => Ok(()),
        None => Err(InputFault::Wrong(at)),
    }
}

// ---- the type and the span of a row

#[tactic(auto, using(crate::proofs::TypeNames::typed))]
pub fn type_of(number: usize, row: &GivenRow<'_>) -> Result<NodeType, InputFault>
    ensures { Same (λ t. t) result (type_of number (row_data row.now)) }
{
    match row {
        GivenRow::Flat(row) => Ok(row.node_type),
        GivenRow::Json(_) => named_type(number, row),
    }
}

/// The type by its name.
fn named_type(number: usize, row: &GivenRow<'_>) -> Result<NodeType, InputFault>
    ensures { Same (λ t. t) result (type_of number (row_data row.now)) }
{
    let at = At::of_row(number, 0);
    if !row.is_object() {
        return Err(InputFault::Wrong(at));
    }
    let value = needed_value(at, row, "type")?;
    let name = text_in(at, value)?;
    match type_by_name(name) {
        Some(node_type) => Ok(node_type),
        None => Err(InputFault::Wrong(at)),
    }
}

fn offsets(items: GivenItems<'_>) -> Option<Span>
    ensures { result ≡ offsets (given_items items.entry) }
{
    if items.len() != 2 {
        return None;
    }
    let start = short_number(items.item(0))?;
    let end = short_number(items.item(1))?;
    Some(Span { start, end })
}

pub fn span_of(number: usize, row: &GivenRow<'_>) -> Result<Span, InputFault>
    ensures { Same (λ s. s) result (span_of number (row_data row.now)) }
{
    let at = At::of_row(number, 1);
    let Some(value) = optional_value(at, row, "span")? else {
        return Ok(Span { start: 0, end: 0 });
    };
    let items = items_in(at, value)?;
    match offsets(items) {
        Some(span) => Ok(span),
        None => Err(InputFault::Wrong(at)),
    }
}
