ghost use Rattle.std.specs.Prelude.{◌≡◌, ◌-◌, [], length, min, OnOk, OnErr, IfOk};
ghost use Rattle.gr_log.specs.Log.{empty_log, tail_size, committed_log, torn_log, cut_log};
ghost use Rattle.gr_log.specs.Appending.{committed_size, log_bytes, IsAppended};

use crate::LogRecord;
use crate::bytes::{first_record, push_record};
use gr_base::{Items, OutOfMemory};
use std::alloc::Global;
use std::marker::Model;

/// The log of a place, as bytes, with the number of those that are committed.
///
/// Contracts see its committed records, the whole records appended since, and the bytes of a torn record after them.
/// What is committed survives a crash; of the rest a crash may keep any number of bytes, which are never read.
#[derive(Debug, Drop)]
pub struct EdgeLog {
    alloc: Global,
    bytes: Vec<u8>,
    committed: usize,
}

impl Model for EdgeLog {
    ghost use Rattle.gr_log.specs.Log.{Log};

    ghost Value = { Log };

    ghost use Rattle.gr_log.specs.Reading.{log_in, IsLog};

    ghost view = { λ l. log_in l.bytes.items l.committed };

    ghost invariant = { λ l. IsLog l.bytes.items l.committed };
}

impl EdgeLog {
    /// The empty log. It takes no memory.
    pub fn new(alloc: Global) -> EdgeLog
        ensures { result ≡ empty_log }
    {
        EdgeLog {
            alloc,
            bytes: Vec::new(alloc),
            committed: 0,
        }
    }

    /// Adds a record at the end, not committed yet.
    pub fn append(&mut self, item: LogRecord) -> Result<(), OutOfMemory>
        ensures ok { OnOk result (IsAppended item self.old self.new) }
        ensures err { OnErr result (self.new ≡ self.old) }
    {
        push_record(&mut self.bytes, item)
    }

    /// The number of committed bytes.
    pub fn committed(&self) -> usize
        ensures { result ≡ committed_size self.now }
    {
        self.committed
    }

    /// The number of all bytes.
    pub fn length(&self) -> usize
        ensures whole { result ≡ length (log_bytes self.now) }
        ensures tail { result - committed_size self.now ≡ tail_size self.now }
    {
        self.bytes.len()
    }

    /// All records are committed. None may be torn.
    pub fn commit(&mut self)
        requires { self.old.torn ≡ [] }
        ensures { self.new ≡ committed_log self.old }
    {
        self.committed = self.bytes.len();
    }

    /// A crash keeps the first `keep` bytes of the tail, or all where it is shorter, and tells how many.
    pub fn tear(&mut self, keep: u32) -> u32
        ensures log { self.new ≡ torn_log keep self.old }
        ensures kept { result ≡ min keep (tail_size self.old) }
    {
        let tail = self.bytes.len() - self.committed;
        if keep as usize >= tail {
            return tail as u32;
        }
        self.bytes.truncate(self.committed + keep as usize);
        keep
    }

    /// Drops all that was not committed.
    pub fn cut_tail(&mut self)
        ensures { self.new ≡ cut_log self.old }
    {
        self.bytes.truncate(self.committed);
    }

    /// The committed records, in order, in time linear in their number. The last `Held` record of a vertex stands for
    /// it.
    pub fn records(&self) -> Result<Items<LogRecord>, OutOfMemory>
        ensures { IfOk result (λ records. records ≡ self.now.committed) }
    {
        let mut records = Items::new(self.alloc);
        let bytes = &self.bytes[..self.committed];
        let mut at = 0;
        while let Some(record) = first_record(&bytes[at..]) {
            records.push(record)?;
            at += record.size();
        }
        Ok(records)
    }
}
