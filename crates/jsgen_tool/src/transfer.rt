// Reading an input whole, and pushing a text whole.
ghost use Rattle.std.specs.Prelude.{◌+◌, ◌++◌, Some, OnOk, OnErr};
ghost use Rattle.std.specs.Io.KnownBytes.{Appends};
ghost use Rattle.jsgen_device.specs.Device.{HasCause, AppendsPart};
ghost use Rattle.jsgen_tool.specs.Transfer.{HeldBy, UnreadCount, TakesAtMost, limit, unread_text};

use jsgen_device::{Failed, Sink, Source};
use std::alloc::Global;
use std::error::Error;
use std::fmt;

/// The most bytes of an input.
pub const LIMIT: usize = 33_554_432;

// The most bytes that one call is asked for.
const CHUNK: usize = 65_536;

/// The longest piece of text that is pushed at once.
pub const PIECE: usize = 65_536;

/// Why an input was not read whole.
#[derive(Clone, Copy, Debug, PartialEq, Eq)]
pub enum Unread {
    /// A call failed.
    Failed,
    /// It is longer than the limit.
    TooLong,
    /// Memory ran out.
    Memory,
}

impl fmt::Display for Unread {
    ghost output = { λ fault. Some (unread_text fault) };

    fn fmt<W: fmt::Write>(&self, f: &mut fmt::Formatter<W>) -> fmt::Result {
        match self {
            Unread::Failed => f.write_str("read failed"),
            Unread::TooLong => f.write_str("input too long"),
            Unread::Memory => f.write_str("out of memory"),
        }
    }
}

impl Error for Unread {}

/// Reads to the end, or to one byte past the limit. Each turn takes at least one byte.
pub fn read_all<S: Source>(alloc: Global, source: &mut S) -> Result<Vec<u8>, Unread>
    ensures held { HeldBy result (S.left source.old) }
    ensures count { UnreadCount result (S.faults source.old) (S.faults source.new) }
    ensures taken { TakesAtMost (limit + 1) (S.left source.old) (S.left source.new) }
{
    let mut bytes: Vec<u8> = Vec::new(alloc);
    let mut chunk = [0u8; CHUNK];
    while bytes.len() <= LIMIT {
        let room = CHUNK.min(LIMIT + 1 - bytes.len());
        let into = &mut chunk[..room];
        let Ok(count) = source.pull(into) else {
            return Err(Unread::Failed);
        };
        if count == 0 {
            return Ok(bytes);
        }
        if bytes.extend_from_slice(&into[..count]).is_err() {
            return Err(Unread::Memory);
        }
    }
    Err(Unread::TooLong)
}

/// Pushes the text in pieces, the last one shorter.
pub fn push_all<K: Sink>(sink: &mut K, text: &[u8]) -> Result<(), Failed>
    ensures all { OnOk result (Appends (K.got sink.old) (K.got sink.new) text.now) }
    ensures part { OnErr result (AppendsPart (K.got sink.old) (K.got sink.new) text.now) }
    ensures cause { HasCause (K.faults sink.old) (K.faults sink.new) result }
{
    let mut at = 0;
    while at < text.len() {
        let end = at + PIECE.min(text.len() - at);
        sink.push(&text[at..end])?;
        at = end;
    }
    Ok(())
}

/// Pushes two texts in turn.
pub fn push_both<K: Sink>(sink: &mut K, first: &[u8], second: &[u8]) -> Result<(), Failed>
    ensures all { OnOk result (Appends (K.got sink.old) (K.got sink.new) (first.now ++ second.now)) }
    ensures part { OnErr result (AppendsPart (K.got sink.old) (K.got sink.new) (first.now ++ second.now)) }
    ensures cause { HasCause (K.faults sink.old) (K.faults sink.new) result }
{
    if sink.push(first).is_err() {
        return Err(Failed);
    }
    sink.push(second)
}
