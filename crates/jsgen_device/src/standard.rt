// Devices over readers and writers of std. They tell what these tell: the bytes that a reader has left, and those that a
// writer holds. They count each error that ends a call.
ghost use Rattle.std.specs.Prelude.{◌≡◌, ◌++◌, OnOk, OnErr};
ghost use Rattle.std.specs.Io.KnownBytes.{Appends};
ghost use Rattle.jsgen_device.specs.Device.{AppendsPart};

use crate::device::{Failed, Sink, Source};
use std::io::{ErrorKind, Read, Write};

/// A source over a reader.
#[derive(Drop)]
pub struct StdSource<R: Read> {
    inner: R,
    faults: u64,
}

impl<R: Read> StdSource<R> {
    ghost use Rattle.jsgen_device.specs.Standard.{source_reader, source_faults};

    pub fn new(inner: R) -> Self
        ensures reader { source_reader result ≡ inner }
        ensures count { source_faults result ≡ 0 }
    {
        StdSource { inner, faults: 0 }
    }
}

impl<R: Read> Source for StdSource<R> {
    ghost use Rattle.jsgen_device.specs.Standard.{source_reader, source_faults};

    ghost left = { λ s. R.remaining (source_reader s) };

    ghost faults = { λ s. source_faults s };

    fn pull(&mut self, into: &mut [u8]) -> Result<usize, Failed> {
        match self.inner.read(into) {
            Ok(count) => Ok(count),
            Err(_) => {
                self.faults = self.faults.saturating_add(1);
                Err(Failed)
            }
        }
    }
}

// Writes all bytes and flushes them, or fails and writes some first ones. A call that was interrupted is made again.
fn write_whole<W: Write>(writer: &mut W, bytes: &[u8]) -> Result<(), Failed>
    ensures all { OnOk result (Appends (W.contents writer.old) (W.contents writer.new) bytes.now) }
    ensures part { OnErr result (AppendsPart (W.contents writer.old) (W.contents writer.new) bytes.now) }
{
    let mut at = 0;
    for _ in 0..u64::MAX {
        if at == bytes.len() {
            return writer.flush().map_err(|_| Failed);
        }
        match writer.write(&bytes[at..]) {
            Ok(0) => return Err(Failed),
            Ok(count) => at += count,
            Err(error) if error.kind() == ErrorKind::Interrupted => {}
            Err(_) => return Err(Failed),
        }
    }
    Err(Failed)
}

/// A sink over a writer.
#[derive(Drop)]
pub struct StdSink<W: Write> {
    inner: W,
    faults: u64,
}

impl<W: Write> StdSink<W> {
    ghost use Rattle.jsgen_device.specs.Standard.{sink_writer, sink_faults};

    pub fn new(inner: W) -> Self
        ensures writer { sink_writer result ≡ inner }
        ensures count { sink_faults result ≡ 0 }
    {
        StdSink { inner, faults: 0 }
    }
}

impl<W: Write> Sink for StdSink<W> {
    ghost use Rattle.jsgen_device.specs.Standard.{sink_writer, sink_faults};

    ghost got = { λ s. W.contents (sink_writer s) };

    ghost faults = { λ s. sink_faults s };

    fn push(&mut self, bytes: &[u8]) -> Result<(), Failed> {
        let written = write_whole(&mut self.inner, bytes);
        if written.is_err() {
            self.faults = self.faults.saturating_add(1);
        }
        written
    }
}
