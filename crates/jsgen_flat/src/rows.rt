// The rows of a flat job.
ghost use Rattle.std.specs.Prelude.{◌≡◌, ◌≤◌, ◌<◌, ◌+◌, ◌/◌, ◌^◌, length, map, IfSome, option_map, slice_get};
ghost use Rattle.serde_json.specs.Find.{get};
ghost use Rattle.jsgen_flat.specs.Flat.{row_type, span_data, width, word};
ghost use Rattle.jsgen_flat.specs.Views.{field_plain, given_at, given_by, flat_data, flat_row_data, sections};

use crate::FlatJob;
use crate::fields::fields_of;
use crate::names::{FlatField, type_name, type_numbered};
use crate::values::{FlatItems, FlatValue, value};
use crate::words::word;
use jsgen_tree::NodeType;

/// A row: its type's number, its span, and a word for each field of its type.
#[derive(Clone, Copy)]
pub struct FlatRow<'b> {
    pub job: &'b FlatJob<'b>,
    pub node_type: NodeType,
    /// The word of the rows that it begins at.
    pub begin: u32,
}

/// How many words a row of a type has.
fn width_of(node_type: NodeType) -> usize
    ensures { result ≡ width node_type }
{
    3 + fields_of(node_type).len()
}

/// What the field of this name is given, in a row whose fields these are, the first of which stands at a word.
fn field_named<'b>(
    job: &FlatJob<'b>,
    fields: &[FlatField],
    begin: u32,
    name: &str,
) -> Option<FlatValue<'b>>
    ensures { option_map flat_data result ≡ given_by (sections job.now) name.now (begin + 3) (map field_plain fields.now) }
{
    for index in 0..fields.len() {
        if name == fields[index].name {
            let number = begin as usize + 3 + index;
            return Some(value(job, fields[index].sort, word(job.rows, number)));
        }
    }
    None
}

/// What the field at this place is given, counted from 0, if it has the name.
fn field_placed<'b>(
    job: &FlatJob<'b>,
    fields: &[FlatField],
    begin: u32,
    index: usize,
    name: &str,
) -> Option<FlatValue<'b>>
    ensures { option_map flat_data result ≡ given_at (sections job.now) name.now (index + (begin + 3)) (slice_get (map field_plain fields.now) index) }
{
    if index < fields.len() && name == fields[index].name {
        let given = word(job.rows, begin as usize + 3 + index);
        return Some(value(job, fields[index].sort, given));
    }
    None
}

impl<'b> FlatRow<'b> {
    /// The row that begins at a word; `None` where that word is the number of no type, or a word of the row is missing.
    #[tactic(auto, using(crate::proofs::Typed::no_type))]
    pub fn at(job: &'b FlatJob<'b>, begin: u32) -> Option<FlatRow<'b>>
        ensures there { option_map (λ row. row.node_type) result ≡ row_type (sections job.now) begin }
        ensures same { IfSome result (λ row. (row.begin ≡ begin) × (sections row.job.now ≡ sections job.now)) }
        ensures inside { IfSome result (λ row. begin + width row.node_type ≤ length job.now.rows.now / 4) }
    {
        let Some(node_type) = type_numbered(word(job.rows, begin as usize)) else {
            return None;
        };
        if begin as usize + width_of(node_type) <= job.rows.len() / 4 {
            Some(FlatRow {
                job,
                node_type,
                begin,
            })
        } else {
            None
        }
    }

    /// The word behind its last, where the next row begins.
    pub fn end(&self) -> u32
        requires { self.now.begin + width self.now.node_type < 2 ^ 32 }
        ensures { result ≡ self.now.begin + width self.now.node_type }
    {
        self.begin + width_of(self.node_type) as u32
    }

    /// The offsets of its span.
    pub fn span(&self) -> FlatValue<'b>
        ensures { flat_data result ≡ span_data (word (sections self.now.job.now).rows (self.now.begin + 1)) (word (sections self.now.job.now).rows (self.now.begin + 2)) }
    {
        let begin = self.begin as usize;
        if word(self.job.rows, begin + 1) == 0 && word(self.job.rows, begin + 2) == 0 {
            return FlatValue::Null;
        }
        FlatValue::Items(FlatItems {
            words: self.job.rows,
            begin: self.begin,
            count: 2,
            are_rows: false,
        })
    }

    /// What stands under a name.
    #[tactic(auto, using(crate::proofs::Lookup::named))]
    pub fn get(&self, name: &str) -> Option<FlatValue<'b>>
        ensures { option_map flat_data result ≡ get name.now (flat_row_data self.now) }
    {
        if let Some(found) = field_named(self.job, fields_of(self.node_type), self.begin, name) {
            return Some(found);
        }
        if name == "type" {
            return Some(FlatValue::Text(type_name(self.node_type)));
        }
        if name == "span" {
            return Some(self.span());
        }
        None
    }

    /// The same, if that is the field of this number (docs/FORMAT.md), which is looked at first.
    pub fn get_at(&self, number: usize, name: &str) -> Option<FlatValue<'b>>
        ensures { option_map flat_data result ≡ get name.now (flat_row_data self.now) }
    {
        if number >= 2 {
            let fields = fields_of(self.node_type);
            if let Some(found) = field_placed(self.job, fields, self.begin, number - 2, name) {
                return Some(found);
            }
        }
        self.get(name)
    }
}
