ghost use Rattle.std.specs.Prelude.{◌≡◌, ◌↔◌, [], length, IfOk, IsErrOf};
ghost use Rattle.std.specs.List.{Contains};
ghost use Rattle.gr_outside.specs.Causes.{one_more};
ghost use Rattle.gr_outside.specs.SinkCalls.{Puts};
ghost use Rattle.gr_outside.specs.Memory.{sink_seen};

use crate::fail_list::is_listed;
use crate::{Sink, SinkFault};
use gr_base::Items;
use std::alloc::Global;
use std::marker::Model;

/// A sink in memory, whose calls of listed numbers fail, counted from 1.
#[derive(Debug, Drop)]
pub struct MemorySink {
    bytes: Vec<u8>,
    fail: Items<u32>,
    calls: u64,
    faults: u64,
}

impl Model for MemorySink {
    ghost use Rattle.gr_outside.specs.Memory.{SinkState};

    ghost Value = { SinkState };

    ghost view = { λ s. record { bytes = s.bytes.items; fail = s.fail; calls = s.calls; faults = s.faults } };
}

impl MemorySink {
    /// An empty sink, and the numbers of the calls that fail. It takes no memory.
    pub fn new(alloc: Global, fail: Items<u32>) -> MemorySink
        ensures { result ≡ record { bytes = []; fail = fail; calls = 0; faults = 0 } }
    {
        MemorySink {
            bytes: Vec::new(alloc),
            fail,
            calls: 0,
            faults: 0,
        }
    }

    /// The bytes that it took so far.
    pub fn taken(&self) -> &[u8]
        ensures { result.now ≡ self.now.bytes }
    {
        &self.bytes
    }
}

impl Sink for MemorySink {
    ghost seen = { sink_seen };

    fn put(&mut self, _alloc: Global, bytes: &[u8]) -> Result<usize, SinkFault>
        ensures puts { Puts (sink_seen self.old) (sink_seen self.new) bytes.now result }
        ensures call { self.new.calls ≡ one_more self.old.calls }
        ensures list { self.new.fail ≡ self.old.fail }

        // exactly the calls that are listed fail, and the others take the whole piece
        ensures failed { IsErrOf result SinkFault.Failed ↔ (Contains self.old.fail self.new.calls) }
        ensures whole { IfOk result (λ n. n ≡ length bytes.now) }
    {
        self.calls = self.calls.saturating_add(1);
        if is_listed(self.fail.as_slice(), self.calls) {
            self.faults = self.faults.saturating_add(1);
            return Err(SinkFault::Failed);
        }
        self.bytes.extend_from_slice(bytes)?;
        Ok(bytes.len())
    }
}
