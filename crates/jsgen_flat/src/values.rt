// What a word of a row stands for.
ghost use Rattle.std.specs.Prelude.{◌≡◌, ◌<◌, ◌≤◌, ◌-◌, length, map, Some, slice_get};
ghost use Rattle.jsgen_flat.specs.Flat.{child_item, list_data, units_data, text_data, digits_data, text_at, list_at, word_data};
ghost use Rattle.jsgen_flat.specs.Views.{flat_data, flat_items, sections, shape_of};

use crate::FlatJob;
use crate::names::FlatSort;
use crate::words::{count_at, text_at, word};

/// The items of a list: children, or whole numbers.
#[derive(Clone, Copy)]
pub struct FlatItems<'b> {
    /// The section that they stand in.
    pub words: &'b [u8],
    /// The word before the first.
    pub begin: u32,
    pub count: u32,
    /// Each is the number of a row and 1, or 0 for none.
    pub are_rows: bool,
}

/// What a field is given: a value of JSON, of the kinds that a flat job has.
#[derive(Clone, Copy)]
pub enum FlatValue<'b> {
    Null,
    Flag(bool),
    Number(u32),
    Text(&'b str),
    Items(FlatItems<'b>),
}

impl<'b> FlatItems<'b> {
    #[tactic(auto, using(crate::proofs::Items::count_of))]
    pub fn len(&self) -> usize
        ensures { result ≡ length (flat_items self.now) }
    {
        self.count as usize
    }

    /// The item at a place, counted from 0.
    #[tactic(auto, using(crate::proofs::Items::among))]
    pub fn item(&self, index: usize) -> FlatValue<'b>
        requires { index < self.now.count }
        ensures { Some (flat_data result) ≡ slice_get (flat_items self.now) index }
    {
        let number = word(self.words, self.begin as usize + 1 + index);
        if self.are_rows {
            child_item(number)
        } else {
            FlatValue::Number(number)
        }
    }
}

fn child_item<'b>(number: u32) -> FlatValue<'b>
    ensures { flat_data result ≡ child_item number }
{
    if number == 0 {
        FlatValue::Null
    } else {
        FlatValue::Number(number - 1)
    }
}

/// The text of this number; false where there is none.
fn text_value<'b>(job: &FlatJob<'b>, number: u32) -> FlatValue<'b>
    ensures { flat_data result ≡ text_data (text_at (sections job.now) number) }
{
    match text_at(job, number) {
        Some(text) => FlatValue::Text(text),
        None => FlatValue::Flag(false),
    }
}

/// The text of this number, which are digits; a text that are none where there is none.
fn digits_value<'b>(job: &FlatJob<'b>, number: u32) -> FlatValue<'b>
    ensures { flat_data result ≡ digits_data (text_at (sections job.now) number) }
{
    match text_at(job, number) {
        Some(text) => FlatValue::Text(text),
        None => FlatValue::Text(""),
    }
}

/// The list that begins at a word, of children; a text where there is none.
fn list_value<'b>(job: &FlatJob<'b>, begin: u32) -> FlatValue<'b>
    ensures { flat_data result ≡ list_data (list_at (sections job.now) begin) }
{
    match count_at(job, begin) {
        Some(count) => FlatValue::Items(FlatItems {
            words: job.lists,
            begin,
            count,
            are_rows: true,
        }),
        None => FlatValue::Text(""),
    }
}

/// The list that begins at a word, of units; false where there is none.
fn units_value<'b>(job: &FlatJob<'b>, begin: u32) -> FlatValue<'b>
    ensures { flat_data result ≡ units_data (list_at (sections job.now) begin) }
{
    match count_at(job, begin) {
        Some(count) => FlatValue::Items(FlatItems {
            words: job.lists,
            begin,
            count,
            are_rows: false,
        }),
        None => FlatValue::Flag(false),
    }
}

/// The word of this number, from 1 on; false where there is none.
fn spelled_value<'b>(words: &'static [&'static str], number: u32) -> FlatValue<'b>
    requires { 1 ≤ number }
    ensures { flat_data result ≡ text_data (slice_get (map (λ w. w.now) words.now) (number - 1)) }
{
    match words.get(number as usize - 1) {
        Some(spelling) => FlatValue::Text(spelling),
        None => FlatValue::Flag(false),
    }
}

/// What a word stands for, by how it is read; 0 is null.
pub fn value<'b>(job: &FlatJob<'b>, sort: FlatSort, word: u32) -> FlatValue<'b>
    ensures { flat_data result ≡ word_data (sections job.now) (shape_of sort) word }
{
    if word == 0 {
        return FlatValue::Null;
    }
    match sort {
        FlatSort::Child => FlatValue::Number(word - 1),
        FlatSort::Number => FlatValue::Number(word - 1),
        FlatSort::List => list_value(job, word - 1),
        FlatSort::Text => text_value(job, word - 1),
        FlatSort::Units => {
            if word % 2 == 0 {
                text_value(job, word / 2 - 1)
            } else {
                units_value(job, word / 2)
            }
        }
        FlatSort::Digits => {
            if word % 2 == 0 {
                digits_value(job, word / 2 - 1)
            } else {
                FlatValue::Number(word / 2)
            }
        }
        FlatSort::Flag => match word {
            1 => FlatValue::Flag(false),
            2 => FlatValue::Flag(true),
            _ => FlatValue::Text(""),
        },
        FlatSort::Word(words) => spelled_value(words, word),
        FlatSort::Unread => FlatValue::Text(""),
    }
}
