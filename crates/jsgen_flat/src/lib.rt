//! Flat jobs (docs/FORMAT.md, "Flat jobs"): numbers and texts in one buffer, each row of which stands for a value of JSON.
#![tactic(auto)]

ghost use Rattle.std.specs.Prelude.{◌≡◌, ◌<◌, ◌/◌, ◌^◌, IfSome, length, option_map};
ghost use Rattle.jsgen_flat.specs.Flat.{begins_flat, flat_of, is_whole, rows_end, lists_end, texts_end, heap_end, head_end};
ghost use Rattle.jsgen_flat.specs.Views.{sections};

pub mod fields;
pub mod names;
pub mod rows;
pub mod values;
pub mod words;

use crate::names::TABLE_NUMBER;
use crate::words::word;

/// The sections of a flat job, each of which is bytes of it.
#[derive(Clone, Copy)]
pub struct FlatJob<'b> {
    pub row_count: u32,
    /// Words.
    pub rows: &'b [u8],
    /// Words.
    pub lists: &'b [u8],
    /// Pairs of words.
    pub texts: &'b [u8],
    /// What the texts are cut from.
    pub heap: &'b str,
    /// JSON: a job without its rows.
    pub head: &'b [u8],
}

/// `JSGF`, with which a flat job begins and no JSON does.
const MAGIC: u32 = 0x4647_534a;

const HEAD_LENGTH: usize = 32;

/// Whether the bytes begin as a flat job does, so that they aren't read as JSON. They needn't be a flat job.
pub fn begins_flat(bytes: &[u8]) -> bool
    ensures { result ≡ begins_flat bytes.now }
{
    word(bytes, 0) == MAGIC
}

/// Where each section ends.
#[derive(Clone, Copy)]
struct Ends {
    rows: usize,
    lists: usize,
    texts: usize,
    heap: usize,
    head: usize,
}

fn ends_of(bytes: &[u8]) -> Ends
    ensures rows { result.rows ≡ rows_end bytes.now }
    ensures lists { result.lists ≡ lists_end bytes.now }
    ensures texts { result.texts ≡ texts_end bytes.now }
    ensures heap { result.heap ≡ heap_end bytes.now }
    ensures head { result.head ≡ head_end bytes.now }
{
    let rows = HEAD_LENGTH + 4 * word(bytes, 3) as usize;
    let lists = rows + 4 * word(bytes, 4) as usize;
    let texts = lists + 8 * word(bytes, 5) as usize;
    let heap = texts + word(bytes, 6) as usize;
    let head = heap + word(bytes, 7) as usize;
    Ends {
        rows,
        lists,
        texts,
        heap,
        head,
    }
}

fn is_whole(bytes: &[u8], ends: Ends) -> bool
    requires { ends.head ≡ head_end bytes.now }
    ensures { result ≡ is_whole bytes.now }
{
    HEAD_LENGTH <= bytes.len() && word(bytes, 1) == TABLE_NUMBER && bytes.len() == ends.head
}

impl<'b> FlatJob<'b> {
    /// The sections of a flat job; `None` where the bytes are none: they are of another length than their head says, were written by
    /// another table of types, or the heap is no UTF-8.
    #[tactic(auto, using(crate::proofs::Sections::not_whole, crate::proofs::Sections::no_text))]
    pub fn read(bytes: &'b [u8]) -> Option<FlatJob<'b>>
        ensures read { option_map sections result ≡ flat_of bytes.now }
        ensures short { IfSome result (λ job. length job.rows.now / 4 < 2 ^ 32) }
    {
        let ends = ends_of(bytes);
        if !is_whole(bytes, ends) {
            return None;
        }
        match str::from_utf8(&bytes[ends.texts..ends.heap]) {
            Ok(heap) => Some(FlatJob {
                row_count: word(bytes, 2),
                rows: &bytes[HEAD_LENGTH..ends.rows],
                lists: &bytes[ends.rows..ends.lists],
                texts: &bytes[ends.lists..ends.texts],
                heap,
                head: &bytes[ends.heap..ends.head],
            }),
            Err(_) => None,
        }
    }
}
