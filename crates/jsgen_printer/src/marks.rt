// The marks of a source map, while a text is printed.
ghost use Rattle.std.specs.Prelude.{◌≡◌, [], ◌∷◌, None, OnOk, OnErr, map};
ghost use Rattle.std.specs.Str.{chars};
ghost use Rattle.std.specs.Option.{option_copied};
ghost use Rattle.jsgen_map.specs.Marks.{last_from, is_last, unless_last};
ghost use Rattle.jsgen_map.specs.Plain.{mark_plain};
ghost use Rattle.jsgen_model.specs.Marks.{name_text_at, other_than};

use crate::same::{is_behind_hash, is_same};
use jsgen_comments::text_at;
use jsgen_map::Mark;
use jsgen_syntax::{Memory, Span};
use std::alloc::Global;

/// The marks so far, none of which has the offset of the one before, and the source that they lead to.
#[derive(Drop)]
pub struct Marks<'a> {
    pub source: &'a str,
    pub list: Vec<Mark<'a>>,
    pub last: Option<u32>,
    ghost is_its: { last ≡ last_from None (map mark_plain list.items) },
}

#[tactic(auto, using(crate::proofs::Pushed::last_pushed, crate::proofs::Pushed::pushed))]
impl<'a> Marks<'a> {
    /// No marks yet, of a text that is printed from this source.
    pub fn new(alloc: Global, source: &'a str) -> Marks<'a>
        ensures source { result.source ≡ source.entry }
        ensures list { result.list.items ≡ [] }
    {
        Marks {
            source,
            list: Vec::new(alloc),
            last: None,
        }
    }

    // Whether the last mark has this offset.
    fn is_last(&self, offset: u32) -> bool
        ensures { result ≡ is_last self.now.last offset }
    {
        match self.last {
            Some(last) => last == offset,
            None => false,
        }
    }

    /// One more mark, which is left out where the last one has its offset. After want of memory the list is as it was.
    pub fn add(&mut self, bytes: usize, offset: u32, name: Option<&'a str>) -> Result<(), Memory>
        ensures source { self.new.source ≡ self.old.source }
        ensures added { OnOk result (map mark_plain self.new.list.items
            ≡ unless_last (is_last self.old.last offset) (mark_plain (record { bytes = bytes; offset = offset; name = name.entry })) (map mark_plain self.old.list.items)) }
        ensures kept { OnErr result (self.new.list.items ≡ self.old.list.items) }
    {
        if self.is_last(offset) {
            return Ok(());
        }
        match self.list.push(Mark {
            bytes,
            offset,
            name,
        }) {
            Ok(()) => {
                self.last = Some(offset);
                Ok(())
            }
            Err(_) => Err(Memory),
        }
    }
}

/// What the source has at the span of a name, where it is another name than is printed there.
pub fn other_name<'a>(source: &'a str, span: Span, printed: &str) -> Option<&'a str>
    ensures { option_copied result ≡ other_than (name_text_at source.now span) (chars printed.now) }
{
    match text_at(source, span) {
        Some(was) => if is_same(was, printed) {
            None
        } else {
            Some(was)
        },
        None => None,
    }
}

/// The same of a private name, which is printed behind `#`.
pub fn other_private_name<'a>(source: &'a str, span: Span, printed: &str) -> Option<&'a str>
    ensures { option_copied result ≡ other_than (name_text_at source.now span) (35 ∷ chars printed.now) }
{
    match text_at(source, span) {
        Some(was) => if is_behind_hash(was, printed) {
            None
        } else {
            Some(was)
        },
        None => None,
    }
}
