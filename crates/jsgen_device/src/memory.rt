// Devices in memory: they tell their bytes, and fail at the calls that they are told, counted from 1.
ghost use Rattle.std.specs.Prelude.{◌≡◌, ◌+◌, ◌≤◌, ◌++◌, [], length, take, drop, min, IfOk, OnOk, OnErr};
ghost use Rattle.std.specs.Prelude.{Some};
ghost use Rattle.std.specs.Io.{ReadsAtMost};
ghost use Rattle.std.specs.Io.KnownBytes.{ReadConsumes, Appends};
ghost use Rattle.jsgen_device.specs.Device.{HasCause, AppendsPart};

use crate::device::{Failed, Sink, Source};
use jsgen_syntax::Memory;
use std::alloc::Global;

/// A source of these bytes, which fails at the calls of its list.
#[derive(Drop)]
pub struct MemSource {
    bytes: Vec<u8>,
    at: usize,
    fail: Vec<u64>,
    calls: u64,
    faults: u64,
    ghost within: { at ≤ length bytes.items },
}

// Moves what fits, and says how much.
fn take_into(bytes: &[u8], at: usize, into: &mut [u8]) -> usize
    requires { at ≤ length bytes.now }
    ensures bound { result ≤ length into.new }
    ensures within { at + result ≤ length bytes.now }
    ensures moved { take result into.new ≡ take result (drop at bytes.now) }
    ensures count { result ≡ min (length into.old) (length (drop at bytes.now)) }
{
    let count = into.len().min(bytes.len() - at);
    into[..count].copy_from_slice(&bytes[at..at + count]);
    count
}

impl MemSource {
    ghost use Rattle.jsgen_device.specs.Memory.{source_left, source_faults, source_calls, source_list};

    /// The list holds the numbers of the calls that fail.
    pub fn new(bytes: Vec<u8>, fail: Vec<u64>) -> MemSource
        ensures left { source_left result ≡ bytes.items }
        ensures count { source_faults result ≡ 0 }
        ensures calls { source_calls result ≡ 0 }
        ensures list { source_list result ≡ fail.items }
    {
        MemSource {
            bytes,
            at: 0,
            fail,
            calls: 0,
            faults: 0,
        }
    }
}

impl Source for MemSource {
    ghost use Rattle.jsgen_device.specs.Memory.{source_left, source_faults, Pulls};

    ghost left = { λ s. Some (source_left s) };

    ghost faults = { source_faults };

    fn pull(&mut self, into: &mut [u8]) -> Result<usize, Failed>
        ensures bound { ReadsAtMost result into.new }
        ensures bytes { ReadConsumes (Some (source_left self.old)) (Some (source_left self.new)) result into.new }
        ensures cause { HasCause (source_faults self.old) (source_faults self.new) result }
        ensures exact { Pulls self.old self.new (length into.old) result }
    {
        self.calls = self.calls.saturating_add(1);
        if self.fail.contains(&self.calls) {
            self.faults = self.faults.saturating_add(1);
            return Err(Failed);
        }
        let count = take_into(&self.bytes, self.at, into);
        self.at += count;
        Ok(count)
    }
}

/// A source that never fails.
#[derive(Drop)]
pub struct SureSource {
    bytes: Vec<u8>,
    at: usize,
    ghost within: { at ≤ length bytes.items },
}

impl SureSource {
    ghost use Rattle.jsgen_device.specs.Memory.{sure_left};

    pub fn new(bytes: Vec<u8>) -> SureSource
        ensures { sure_left result ≡ bytes.items }
    {
        SureSource { bytes, at: 0 }
    }
}

impl Source for SureSource {
    ghost use Rattle.jsgen_device.specs.Memory.{sure_left};

    ghost left = { λ s. Some (sure_left s) };

    ghost faults = { λ s. 0 };

    fn pull(&mut self, into: &mut [u8]) -> Result<usize, Failed>
        ensures bound { ReadsAtMost result into.new }
        ensures bytes { ReadConsumes (Some (sure_left self.old)) (Some (sure_left self.new)) result into.new }
        ensures cause { HasCause 0 0 result }
        ensures exact { IfOk result (λ n. n ≡ min (length into.old) (length (sure_left self.old))) }
    {
        let count = take_into(&self.bytes, self.at, into);
        self.at += count;
        Ok(count)
    }
}

// Writes the bytes at a place where there is room.
fn put_at(store: &mut [u8], at: usize, bytes: &[u8])
    requires { at + length bytes.now ≤ length store.old }
    ensures put { take (at + length bytes.now) store.new ≡ take at store.old ++ bytes.now }
{
    store[at..at + bytes.len()].copy_from_slice(bytes);
}

/// A sink that fails at the calls of its list, and where its room is used up.
#[derive(Drop)]
pub struct MemSink {
    store: Vec<u8>,
    at: usize,
    fail: Vec<(u64, usize)>,
    calls: u64,
    faults: u64,
    ghost within: { at ≤ length store.items },
}

impl MemSink {
    ghost use Rattle.jsgen_device.specs.Memory.{sink_got, sink_faults, sink_room, sink_calls, sink_list, listed};

    /// Takes its room at once, so that no push takes memory. The list holds the numbers of the calls that
    /// fail, each with how many bytes the call takes before. Another call fails where its bytes are more
    /// than the room that is left, and takes none of them.
    pub fn new(alloc: Global, room: usize, fail: Vec<(u64, usize)>) -> Result<MemSink, Memory>
        ensures got { IfOk result (λ sink. sink_got sink ≡ []) }
        ensures count { IfOk result (λ sink. sink_faults sink ≡ 0) }
        ensures room { IfOk result (λ sink. sink_room sink ≡ room) }
        ensures calls { IfOk result (λ sink. sink_calls sink ≡ 0) }
        ensures list { IfOk result (λ sink. sink_list sink ≡ fail.items) }
    {
        let store = vec![in alloc; 0u8; room]?;
        Ok(MemSink {
            store,
            at: 0,
            fail,
            calls: 0,
            faults: 0,
        })
    }

    pub fn bytes(&self) -> &[u8]
        ensures { result.now ≡ sink_got self.now }
    {
        &self.store[..self.at]
    }

    // How much this call takes before it fails, where it is one that fails.
    fn failing(&self) -> Option<usize>
        ensures { result ≡ listed (sink_list self.now) (sink_calls self.now) }
    {
        let mut rest = self.fail.as_slice();
        while let [(call, takes), after @ ..] = rest {
            if *call == self.calls {
                return Some(*takes);
            }
            rest = after;
        }
        None
    }
}

impl Sink for MemSink {
    ghost use Rattle.jsgen_device.specs.Memory.{sink_got, sink_faults, Pushes};

    ghost got = { λ s. Some (sink_got s) };

    ghost faults = { sink_faults };

    fn push(&mut self, bytes: &[u8]) -> Result<(), Failed>
        ensures all { OnOk result (Appends (Some (sink_got self.old)) (Some (sink_got self.new)) bytes.now) }
        ensures part { OnErr result (AppendsPart (Some (sink_got self.old)) (Some (sink_got self.new)) bytes.now) }
        ensures cause { HasCause (sink_faults self.old) (sink_faults self.new) result }
        ensures exact { Pushes self.old self.new bytes.now result }
    {
        self.calls = self.calls.saturating_add(1);
        let room = self.store.len() - self.at;
        let (count, failed) = match self.failing() {
            Some(takes) => (takes.min(bytes.len()).min(room), true),
            None if bytes.len() > room => (0, true),
            None => (bytes.len(), false),
        };
        put_at(&mut self.store, self.at, &bytes[..count]);
        self.at += count;
        if failed {
            self.faults = self.faults.saturating_add(1);
            return Err(Failed);
        }
        Ok(())
    }
}

/// A sink that fails only where its room is used up.
#[derive(Drop)]
pub struct SureSink {
    store: Vec<u8>,
    at: usize,
    faults: u64,
    ghost within: { at ≤ length store.items },
}

impl SureSink {
    ghost use Rattle.jsgen_device.specs.Memory.{sure_got, sure_faults, sure_room};

    /// Takes its room at once, so that no push takes memory. A call fails where its bytes are more than the
    /// room that is left, and takes none of them.
    pub fn new(alloc: Global, room: usize) -> Result<SureSink, Memory>
        ensures got { IfOk result (λ sink. sure_got sink ≡ []) }
        ensures count { IfOk result (λ sink. sure_faults sink ≡ 0) }
        ensures room { IfOk result (λ sink. sure_room sink ≡ room) }
    {
        let store = vec![in alloc; 0u8; room]?;
        Ok(SureSink {
            store,
            at: 0,
            faults: 0,
        })
    }

    pub fn bytes(&self) -> &[u8]
        ensures { result.now ≡ sure_got self.now }
    {
        &self.store[..self.at]
    }
}

impl Sink for SureSink {
    ghost use Rattle.jsgen_device.specs.Memory.{sure_got, sure_faults, SurelyPushes};

    ghost got = { λ s. Some (sure_got s) };

    ghost faults = { sure_faults };

    fn push(&mut self, bytes: &[u8]) -> Result<(), Failed>
        ensures all { OnOk result (Appends (Some (sure_got self.old)) (Some (sure_got self.new)) bytes.now) }
        ensures part { OnErr result (AppendsPart (Some (sure_got self.old)) (Some (sure_got self.new)) bytes.now) }
        ensures cause { HasCause (sure_faults self.old) (sure_faults self.new) result }
        ensures exact { SurelyPushes self.old self.new bytes.now result }
    {
        if bytes.len() > self.store.len() - self.at {
            self.faults = self.faults.saturating_add(1);
            return Err(Failed);
        }
        put_at(&mut self.store, self.at, bytes);
        self.at += bytes.len();
        Ok(())
    }
}
