ghost use Rattle.std.specs.Prelude.{◌≡◌, ◌<◌, ◌≤◌, IfSome, length};
ghost use Rattle.gr_outside.specs.Real.{untold_sink};

use crate::{Sink, SinkFault};
use std::alloc::Global;
use std::io::Write;
use std::marker::Model;

/// A writer of std, as standard output. It tells nothing of what it took.
///
/// Each put is flushed before it is answered, so that no byte is lost later in a buffer.
#[derive(Drop)]
pub struct RealSink<W: Write + Drop> {
    writer: W,
    faults: u64,
}

impl<W: Write + Drop> Model for RealSink<W> {
    ghost use Rattle.std.specs.Prelude.{ℕ};

    ghost Value = { ℕ };

    ghost view = { λ s. s.faults };
}

impl<W: Write + Drop> RealSink<W> {
    /// A sink over a writer, with no fault so far. It takes no memory.
    pub fn new(writer: W) -> RealSink<W>
        ensures { result ≡ 0 }
    {
        RealSink { writer, faults: 0 }
    }
}

/// Writes some of the bytes, and flushes. `None` where either fails, or where no byte of some was taken.
pub(crate) fn write_some<W: Write>(writer: &mut W, bytes: &[u8]) -> Option<usize>
    ensures within { IfSome result (λ n. n ≤ length bytes.now) }
    ensures some { IfSome result (λ n. 0 < length bytes.now → 0 < n) }
{
    let count = writer.write(bytes).ok()?;
    writer.flush().ok()?;
    if count == 0 && !bytes.is_empty() {
        return None;
    }
    Some(count)
}

impl<W: Write + Drop> Sink for RealSink<W> {
    ghost seen = { untold_sink };

    fn put(&mut self, _alloc: Global, bytes: &[u8]) -> Result<usize, SinkFault> {
        match write_some(&mut self.writer, bytes) {
            Some(count) => Ok(count),
            None => {
                self.faults = self.faults.saturating_add(1);
                Err(SinkFault::Failed)
            }
        }
    }
}
