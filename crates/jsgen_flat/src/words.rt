// Words, and the texts and lists that they name.
ghost use Rattle.std.specs.Prelude.{◌≡◌, option_map};
ghost use Rattle.jsgen_flat.specs.Flat.{word, is_boundary, cut, text_at, count_at};
ghost use Rattle.jsgen_flat.specs.Views.{sections};

use crate::FlatJob;

/// A word of a section by its number; there are zeros behind the last.
pub fn word(section: &[u8], number: usize) -> u32
    ensures { result ≡ word section.now number }
{
    if number < section.len() / 4 {
        let at = 4 * number;
        u32::from_le_bytes([
            section[at],
            section[at + 1],
            section[at + 2],
            section[at + 3],
        ])
    } else {
        0
    }
}

/// Whether a character begins at a byte, or the text ends there.
fn is_boundary(text: &str, at: usize) -> bool
    ensures { result ≡ is_boundary text.now at }
{
    let bytes = text.as_bytes();
    at == bytes.len() || (at < bytes.len() && (bytes[at] < 128 || 192 <= bytes[at]))
}

/// So many bytes of a text, which have to be whole characters.
#[tactic(auto, unfolding(crate::specs::Flat::cut))]
fn cut(text: &str, start: u32, count: u32) -> Option<&str>
    ensures { option_map (λ s. s.now) result ≡ cut text.now start count }
{
    let from = start as usize;
    let until = from + count as usize;
    if is_boundary(text, from) && is_boundary(text, until) {
        Some(&text[from..until])
    } else {
        None
    }
}

/// The text of this number.
pub fn text_at<'b>(job: &FlatJob<'b>, number: u32) -> Option<&'b str>
    ensures { option_map (λ s. s.now) result ≡ text_at (sections job.now) number }
{
    let at = number as usize;
    if at < job.texts.len() / 8 {
        cut(
            job.heap,
            word(job.texts, 2 * at),
            word(job.texts, 2 * at + 1),
        )
    } else {
        None
    }
}

/// How many items the list has that begins at a word; `None` where it doesn't stand in its section.
#[tactic(auto, unfolding(crate::specs::Flat::count_at))]
pub fn count_at(job: &FlatJob<'_>, begin: u32) -> Option<u32>
    ensures { result ≡ count_at (sections job.now) begin }
{
    let count = word(job.lists, begin as usize);
    let words = job.lists.len() / 4;
    if (begin as usize) < words && begin as usize + 1 + count as usize <= words {
        Some(count)
    } else {
        None
    }
}
