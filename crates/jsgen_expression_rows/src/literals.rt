// Rows with a field that has a form of its own.
ghost use Rattle.std.specs.Prelude.{◌≡◌, true, false, not, IfOk, codes, Ok, if◌then◌else◌};
ghost use Rattle.jsgen_fields.specs.Given.{row_data};
ghost use Rattle.jsgen_tree.specs.declared.types.NodeType.TheVariants as types;
ghost use Rattle.jsgen_tree.specs.Atom.{no_value, numeric_kind};
ghost use Rattle.jsgen_tree.specs.Number.{Whole, Raw};
ghost use Rattle.jsgen_tree.specs.Table.{word};
ghost use Rattle.jsgen_tree.specs.Fields.{numeric_kind_words};
ghost use Rattle.jsgen_tree.specs.RowFields.{numeric_literal_fields};
ghost use Rattle.jsgen_fields.specs.Reads.{Gives, read_node, read_value};
ghost use Rattle.jsgen_fields.specs.Values.{Same, at, field as value_under, is_of_kind};
ghost use Rattle.jsgen_pool.specs.Pool.{entries};

use jsgen_fields::fields::boxed;
use jsgen_fields::given::GivenRow;
use jsgen_fields::set_rows::row_of_expression;
use jsgen_fields::values::{
    needed_digits, needed_text, needed_value, optional_flag, passed_over_digits, passed_over_text,
    text_in, unset_flag,
};
use jsgen_fields::{At, InputFault};
use jsgen_kept::asked::RowOf;
use jsgen_kept::others::OtherExpression;
use jsgen_pool::Kept;
use jsgen_syntax::Span;
use jsgen_tree::{Expression, HasType, NumericLiteral, NumericValue};
use std::alloc::Global;

/// The kind of a number: whether it is a whole one, and else a number by its text.
#[tactic(auto, unfolding(jsgen_fields::specs::Reads::read_value))]
fn needed_numeric_kind(number: usize, field: usize, row: &GivenRow<'_>) -> Result<bool, InputFault>
    ensures reads { Same (λ whole. numeric_kind (if whole then Whole else Raw)) result
        (read_value (at number field) true no_value (word numeric_kind_words) (value_under (codes "kind") (row_data row.now))) }
    ensures whole { IfOk result (λ whole. is_of_kind (codes "whole") (row_data row.now) ≡ whole) }
    ensures raw { IfOk result (λ whole. is_of_kind (codes "raw") (row_data row.now) ≡ not whole) }
{
    let at = At::of_row(number, field);
    let value = needed_value(at, row, "kind")?;
    match text_in(at, value)? {
        "whole" => Ok(true),
        "raw" => Ok(false),
        _ => Err(InputFault::Wrong(at)),
    }
}

#[tactic(auto, unfolding(jsgen_fields::specs::Reads::read_node))]
pub fn read_numeric_literal<N: HasType + Drop, R: RowOf<N> + Drop>(
    alloc: Global,
    kept: &mut Vec<Kept<R>>,
    number: usize,
    span: Span,
    row: &GivenRow<'_>,
) -> Result<R, InputFault>
    ensures { Gives R.plain result (entries R.plain kept.new.items)
        (read_node number types.NumericLiteral numeric_literal_fields span (row_data row.now) (entries R.plain kept.old.items)) }
{
    match needed_numeric_kind(number, 2, row) {
        Ok(true) => read_whole_number::<N, R>(alloc, kept, number, span, row),
        Ok(false) => read_raw_number::<N, R>(alloc, kept, number, span, row),
        Err(fault) => Err(fault),
    }
}

// A whole number, by its digits.
#[tactic(auto, unfolding(jsgen_fields::specs::Reads::read_node))]
fn read_whole_number<N: HasType + Drop, R: RowOf<N> + Drop>(
    alloc: Global,
    kept: &mut Vec<Kept<R>>,
    number: usize,
    span: Span,
    row: &GivenRow<'_>,
) -> Result<R, InputFault>
    requires kind { read_value (at number 2) true no_value (word numeric_kind_words) (value_under (codes "kind") (row_data row.now)) ≡ Ok (numeric_kind Whole) }
    requires whole { is_of_kind (codes "whole") (row_data row.now) ≡ true }
    requires raw { is_of_kind (codes "raw") (row_data row.now) ≡ false }
    ensures { Gives R.plain result (entries R.plain kept.new.items)
        (read_node number types.NumericLiteral numeric_literal_fields span (row_data row.now) (entries R.plain kept.old.items)) }
{
    let _ = kept;
    let negative = match optional_flag(number, 3, row, "negative") {
        Ok(negative) => negative,
        Err(fault) => return Err(fault),
    };
    let digits = match needed_digits(number, 4, row, "digits") {
        Ok(digits) => digits,
        Err(fault) => return Err(fault),
    };
    if let Err(fault) = passed_over_text(number, 5, row, "text") {
        return Err(fault);
    }
    let value = NumericValue::Whole { negative, digits };
    let node = NumericLiteral { span, value };
    match boxed(alloc, node) {
        Ok(node) => row_of_expression::<N, R>(
            alloc,
            OtherExpression {
                expression: Expression::NumericLiteral(node),
            },
        ),
        Err(fault) => Err(fault),
    }
}

// A number by its text, which has no sign.
#[tactic(auto, unfolding(jsgen_fields::specs::Reads::read_node))]
fn read_raw_number<N: HasType + Drop, R: RowOf<N> + Drop>(
    alloc: Global,
    kept: &mut Vec<Kept<R>>,
    number: usize,
    span: Span,
    row: &GivenRow<'_>,
) -> Result<R, InputFault>
    requires kind { read_value (at number 2) true no_value (word numeric_kind_words) (value_under (codes "kind") (row_data row.now)) ≡ Ok (numeric_kind Raw) }
    requires whole { is_of_kind (codes "whole") (row_data row.now) ≡ false }
    requires raw { is_of_kind (codes "raw") (row_data row.now) ≡ true }
    ensures { Gives R.plain result (entries R.plain kept.new.items)
        (read_node number types.NumericLiteral numeric_literal_fields span (row_data row.now) (entries R.plain kept.old.items)) }
{
    let _ = kept;
    if let Err(fault) = unset_flag(number, 3, row, "negative") {
        return Err(fault);
    }
    if let Err(fault) = passed_over_digits(number, 4, row, "digits") {
        return Err(fault);
    }
    let text = match needed_text(alloc, number, 5, row, "text") {
        Ok(text) => text,
        Err(fault) => return Err(fault),
    };
    let value = NumericValue::Raw(text);
    let node = NumericLiteral { span, value };
    match boxed(alloc, node) {
        Ok(node) => row_of_expression::<N, R>(
            alloc,
            OtherExpression {
                expression: Expression::NumericLiteral(node),
            },
        ),
        Err(fault) => Err(fault),
    }
}
