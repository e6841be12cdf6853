ghost use Rattle.std.specs.Prelude.{◌≡◌, ◌==◌, ◌<◌, ◌-◌, ◌^◌, [], ◌∷◌, ◌++◌, ◌↔◌, ◌≤◌, if◌then◌else◌};
ghost use Rattle.std.specs.Prelude.{length, slice_get, position, remove, option_copied};
ghost use Rattle.std.specs.Prelude.{IfSome, OnOk, OnErr, IsNone, nat_lt};

use gr_base::OutOfMemory;
use gr_batch::Batch;
use gr_program::Datum;
use std::alloc::Global;
use std::marker::Model;

/// The batches that were sent and not yet delivered or dropped, in order of sending. It keeps its allocator.
///
/// Contracts see the list itself.
#[derive(Debug, Drop)]
pub struct Flight<V: Datum, A: Datum> {
    batches: Vec<Batch<V, A>>,
}

impl<V: Datum, A: Datum> Model for Flight<V, A> {
    ghost use Rattle.std.specs.Prelude.{List, ◌<◌, ◌^◌, length};
    ghost use Rattle.gr_batch.specs.declared.batch.Batch.{Batch};

    ghost Value = { List (Batch V A) };

    ghost view = { λ f. f.batches.items };

    ghost invariant = { λ f. length f.batches.items < 2 ^ 32 };
}

impl<V: Datum, A: Datum> Flight<V, A> {
    /// A flight without batches. It takes no memory.
    pub fn new(alloc: Global) -> Flight<V, A>
        ensures { result ≡ [] }
    {
        Flight {
            batches: Vec::new(alloc),
        }
    }

    /// How many batches are in flight.
    pub fn len(&self) -> u32
        ensures { result ≡ length self.now }
    {
        self.batches.len() as u32
    }

    /// Adds a batch at the end.
    ///
    /// # Errors
    ///
    /// `OutOfMemory` where memory runs out; the batch is dropped then.
    pub fn send(&mut self, batch: Batch<V, A>) -> Result<(), OutOfMemory>
        requires { length self.old < 2 ^ 32 - 1 }
        ensures ok { OnOk result (self.new ≡ self.old ++ batch ∷ []) }
        ensures err { OnErr result (self.new ≡ self.old) }
    {
        match self.batches.push(batch) {
            Ok(()) => Ok(()),
            Err(_) => Err(OutOfMemory),
        }
    }

    /// Batch `i`, counted from 0 in order of sending. `None` exactly where there are not so many.
    pub fn peek(&self, i: u32) -> Option<&Batch<V, A>>
        ensures { option_copied result ≡ slice_get self.now i }
    {
        self.batches.get(i as usize)
    }

    /// Takes out batch `i`, counted from 0 in order of sending; the others keep their order. `None` exactly where
    /// there are not so many. It takes no memory, and time linear in the number of later batches.
    pub fn take(&mut self, i: u32) -> Option<Batch<V, A>>
        ensures taken { result ≡ slice_get self.old i }
        ensures rest { self.new ≡ remove self.old i }
    {
        if (i as usize) < self.batches.len() {
            Some(self.batches.remove(i as usize))
        } else {
            None
        }
    }

    /// The place of the batch with a serial, counted from 0 in order of sending; of several it is the first. `None`
    /// exactly where no such batch is in flight. It takes time linear in the number of batches.
    pub fn place_of(&self, serial: u64) -> Option<u32>
        ensures { result ≡ position (λ b. b.serial == serial) self.now }
    {
        let at = self
            .batches
            .iter()
            .position(|batch| batch.serial == serial)?;
        Some(at as u32)
    }
}
