ghost use Rattle.std.specs.Prelude.{◌≡◌, length, OnErr, OnOk};
ghost use Rattle.gr_outside.specs.declared.faults.SinkFault.{SinkFault};
ghost use Rattle.gr_outside.specs.Sink.{SinkSeen};
ghost use Rattle.gr_outside.specs.SinkCalls.{Puts, WritesWhole};

use crate::SinkFault;
use std::alloc::Global;

/// A place that takes bytes, and counts the calls that failed.
pub trait Sink {
    /// The bytes that it took, where it tells them, and how often a call failed.
    ghost seen: { Self → SinkSeen };

    /// Takes some of the first bytes, at least one where there is one, and answers how many.
    ///
    /// `Failed` where it takes none of them. After each error it has what it had.
    fn put(&mut self, alloc: Global, bytes: &[u8]) -> Result<usize, SinkFault>
        ensures { Puts (seen self.old) (seen self.new) bytes.now result };
}

/// Writes all the bytes, by as many puts as it takes. After an error a first part of them was taken.
pub fn write_whole<S: Sink>(alloc: Global, sink: &mut S, bytes: &[u8]) -> Result<(), SinkFault>
    ensures { WritesWhole (S.seen sink.old) (S.seen sink.new) bytes.now result }
{
    let mut rest = bytes;
    while !rest.is_empty() {
        let count = sink.put(alloc, rest)?;
        rest = &rest[count..];
    }
    Ok(())
}
