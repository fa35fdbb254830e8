ghost use Rattle.std.specs.Prelude.{◌≡◌, ◌↔◌, ◌+◌, ◌<◌, ◌≤◌, [], length, take, min, OnErr, IfOk, IsErr, IsTrue, Some, is_err};
ghost use Rattle.dev_traits.specs.Counts.{HasCause, one_more, one_more_if};
ghost use Rattle.dev_traits.specs.Outside.{Takes, TakesNothing};
ghost use Rattle.dev_traits.specs.MemSink.{sink_view, room_left, sink_failing, puts_of, is_put_refused};

use crate::disk::Failed;
use crate::mem::raised;
use crate::mem::sink::MemSink;
use crate::sink::Sink;
use lists::NoMemory;
use std::alloc::Global;

impl MemSink {
    /// A sink that holds these bytes, with room for so many more.
    pub fn of(alloc: Global, bytes: Vec<u8>, room: u64) -> Result<MemSink, NoMemory>
        ensures view { IfOk result
            (λ sink. sink_view sink
            ≡ record { faults = 0; count = length bytes.items; bytes = Some bytes.items }) }
        ensures room { IfOk result
            (λ sink. (room_left sink ≡ room) × (sink_failing sink ≡ []) × (puts_of sink ≡ 0)) }
    {
        let mut bytes = bytes;
        let room = room as usize;
        bytes.reserve(room)?;
        Ok(MemSink {
            bytes,
            room,
            failing: Vec::new(alloc),
            puts: 0,
            faults: 0,
        })
    }

    /// The same sink, whose puts of these numbers, from 1, fail.
    pub fn failing(self, calls: Vec<u64>) -> MemSink
        ensures failing { sink_failing result ≡ calls.items }
        ensures same { (sink_view result ≡ sink_view self) × (room_left result ≡ room_left self)
            × (puts_of result ≡ puts_of self) }
    {
        let mut sink = self;
        sink.failing = calls;
        sink
    }

    /// What it has taken.
    pub fn bytes(&self) -> &[u8]
        ensures { (sink_view self.now).bytes ≡ Some result.now }
    {
        &self.bytes
    }
}

impl Sink for MemSink {
    ghost view = { sink_view };

    ghost counted = { λ s bytes is. Prim.cc };

    fn taken(&self) -> u64 {
        self.bytes.len() as u64
    }

    fn put(&mut self, bytes: &[u8]) -> Result<usize, Failed>
        requires { 0 < length bytes.now }
        ensures some { IfOk result (λ n. (0 < n) × (n ≤ length bytes.now)) }
        ensures ok { IfOk result
            (λ n. Takes (take n bytes.now) (sink_view self.old) (sink_view self.new)) }
        ensures err { OnErr result (TakesNothing (sink_view self.old) (sink_view self.new)) }
        ensures faults { HasCause (sink_view self.old).faults (sink_view self.new).faults
            (IsErr result) }
        ensures counted { (sink_view self.new).faults
            ≡ one_more_if (is_err result) (sink_view self.old).faults }
        ensures refused { IsErr result ↔ IsTrue (is_put_refused self.old) }
        ensures lesser { IfOk result (λ n. n ≡ min (length bytes.now) (room_left self.old)) }
        ensures room { IfOk result (λ n. room_left self.new + n ≡ room_left self.old) }
        ensures room_err { OnErr result (room_left self.new ≡ room_left self.old) }
        ensures puts { puts_of self.new ≡ one_more (puts_of self.old) }
        ensures failing { sink_failing self.new ≡ sink_failing self.old }
    {
        self.puts = raised(self.puts);
        if self.room == 0 || self.failing.contains(&self.puts) {
            self.faults = raised(self.faults);
            return Err(Failed);
        }
        let n = if bytes.len() < self.room {
            bytes.len()
        } else {
            self.room
        };
        let _ = self.bytes.extend_from_slice(&bytes[..n]);
        self.room -= n;
        Ok(n)
    }
}
