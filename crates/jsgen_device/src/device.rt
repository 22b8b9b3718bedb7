// Where bytes come from and go to. Each counts its own failures, and a failure is told only where its count rose.
ghost use Rattle.std.specs.Prelude.{List, ℕ, Some, OnOk, OnErr, codes};
ghost use Rattle.std.specs.Io.{ReadsAtMost};
ghost use Rattle.std.specs.Io.KnownBytes.{ReadConsumes, Appends};
ghost use Rattle.std.specs.declared.option.Option.{Option};
ghost use Rattle.jsgen_device.specs.Device.{HasCause, AppendsPart};

use std::error::Error;
use std::fmt;

/// The device failed, and counted it.
#[derive(Clone, Copy, Debug, PartialEq, Eq)]
pub struct Failed;

impl fmt::Display for Failed {
    ghost output = { λ _. Some (codes "the device failed") };

    fn fmt<W: fmt::Write>(&self, f: &mut fmt::Formatter<W>) -> fmt::Result {
        f.write_str("the device failed")
    }
}

impl Error for Failed {}

/// Where bytes come from.
pub trait Source {
    /// The bytes still to come, where the source tells them.
    ghost left: { Self → Option (List ℕ) };

    /// How often it has failed.
    ghost faults: { Self → ℕ };

    /// Moves the next bytes into the front of the slice. Ok(0) for a slice that isn't empty is the end.
    /// A call that fails takes nothing.
    fn pull(&mut self, into: &mut [u8]) -> Result<usize, Failed>
        ensures bound { ReadsAtMost result into.new }
        ensures bytes { ReadConsumes (left self.old) (left self.new) result into.new }
        ensures cause { HasCause (faults self.old) (faults self.new) result };
}

/// Where bytes go to.
pub trait Sink {
    /// The bytes taken, where the sink tells them.
    ghost got: { Self → Option (List ℕ) };

    /// How often it has failed.
    ghost faults: { Self → ℕ };

    /// Takes all bytes, or fails and takes some first ones.
    fn push(&mut self, bytes: &[u8]) -> Result<(), Failed>
        ensures all { OnOk result (Appends (got self.old) (got self.new) bytes.now) }
        ensures part { OnErr result (AppendsPart (got self.old) (got self.new) bytes.now) }
        ensures cause { HasCause (faults self.old) (faults self.new) result };
}
