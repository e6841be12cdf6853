ghost use Rattle.std.specs.Prelude.{◌≡◌, ◌==◌, ◌<◌, [], ◌∷◌, ◌++◌};
ghost use Rattle.std.specs.Prelude.{ℕ, Some, not, nat_lt, false, IsTrue};
ghost use Rattle.std.specs.Prelude.{option_copied, find, filter, IfSome, OnOk, OnErr};
ghost use Rattle.std.specs.List.{list_any};
ghost use Rattle.gr_base.specs.Rising.{has};
ghost use Rattle.gr_batch.specs.Bodies.{is_of, stage_of_body};
ghost use Rattle.gr_flight.specs.StandsOnce.{StandsOnce};

use crate::newest::{NewestEpoch, index_of};
use crate::positions::{note_position, slot_of};
use gr_base::{OutOfMemory, PlaceSet};
use gr_batch::{Batch, Stage, stage_of};
use gr_program::Datum;
use std::alloc::Global;
use std::marker::Model;

/// Whether it is the batch of this sender, epoch and stage.
fn is_of<V: Datum, A: Datum>(batch: &Batch<V, A>, sender: u8, epoch: u64, stage: Stage) -> bool
    ensures { result ≡ is_of sender epoch stage batch.now }
{
    batch.sender == sender && batch.epoch == epoch && stage_of(batch) as u8 == stage as u8
}

/// The batches that a place was given, in their order: at most one of each sender, epoch and stage. It keeps its
/// allocator.
///
/// Beside them it keeps whose batches of the newest epoch are there, and where each batch was put. Such a position is
/// looked at and not trusted, since it is wrong once `forget_below` has dropped an earlier batch.
///
/// Contracts see the list itself.
#[derive(Debug, Drop)]
pub struct Inbox<V: Datum, A: Datum> {
    batches: Vec<Batch<V, A>>,
    newest: NewestEpoch,
    positions: Vec<usize>,
}

impl<V: Datum, A: Datum> Model for Inbox<V, A> {
    ghost use Rattle.std.specs.Prelude.{List};
    ghost use Rattle.gr_batch.specs.declared.batch.Batch.{Batch};

    ghost Value = { List (Batch V A) };

    ghost view = { λ i. i.batches.items };

    ghost use Rattle.gr_flight.specs.StandsOnce.{StandsOnce};
    ghost use Rattle.gr_flight.specs.SendersThere.{KnowsSenders};

    ghost invariant = { λ i. StandsOnce i.batches.items × KnowsSenders i.newest i.batches.items };
}

impl<V: Datum, A: Datum> Inbox<V, A> {
    /// An inbox without batches. It takes no memory.
    pub fn new(alloc: Global) -> Inbox<V, A>
        ensures { result ≡ [] }
    {
        Inbox {
            batches: Vec::new(alloc),
            newest: NewestEpoch::of_none::<V, A>(),
            positions: Vec::new(alloc),
        }
    }

    /// Adds a batch at the end.
    ///
    /// # Errors
    ///
    /// `OutOfMemory` where memory runs out; the batch is dropped then.
    pub fn put(&mut self, batch: Batch<V, A>) -> Result<(), OutOfMemory>
        requires { list_any (is_of batch.sender batch.epoch (stage_of_body batch.body)) self.old ≡ false }
        ensures ok { OnOk result (self.new ≡ self.old ++ batch ∷ []) }
        ensures err { OnErr result (self.new ≡ self.old) }
    {
        let newest = self.newest.with(&batch);
        let slot = slot_of(batch.sender, stage_of(&batch));
        note_position(&mut self.positions, slot, self.batches.len())?;
        match self.batches.push(batch) {
            Ok(()) => {
                self.newest = newest;
                Ok(())
            }
            Err(_) => Err(OutOfMemory),
        }
    }

    /// The batch of a sender, an epoch and a stage. `None` exactly where it is absent. It takes time linear in the
    /// number of batches if a later epoch has a batch, if `forget_below` has moved the batch, or if the sender is no
    /// place below 64; else the time does not depend on it.
    pub fn find(&self, sender: u8, epoch: u64, stage: Stage) -> Option<&Batch<V, A>>
        ensures found { option_copied result ≡ find (is_of sender epoch stage) self.now }
        ensures once { StandsOnce self.now }
    {
        let batches = &self.batches;
        if self.lacks(sender, epoch, stage) {
            return None;
        }
        if let Some(batch) = self.at_its_position(sender, epoch, stage) {
            return Some(batch);
        }
        batches
            .iter()
            .find(|batch| is_of(batch, sender, epoch, stage))
    }

    /// The least of the senders whose batch of this epoch and stage is missing. `None` exactly where none is. It
    /// takes no memory. If a later epoch has a batch, it searches the batches once for each sender; else it looks at
    /// none of them.
    pub fn has_all(&self, epoch: u64, stage: Stage, senders: PlaceSet) -> Option<u8>
        ensures { result ≡ find (λ p. not (list_any (is_of p epoch stage) self.now)) senders }
    {
        match self.senders_of(epoch, stage) {
            Some(there) => senders.difference(there).first(),
            None => self.first_missing(epoch, stage, senders),
        }
    }

    /// Drops the batches of epochs below `epoch`; the others keep their order. It takes no memory.
    pub fn forget_below(&mut self, epoch: u64)
        ensures { self.new ≡ filter (λ b. not (nat_lt b.epoch epoch)) self.old }
    {
        self.newest = self.newest.since::<V, A>(epoch);
        self.batches.retain(|batch| batch.epoch >= epoch);
    }

    /// The places below 64 whose batch of an epoch and a stage is there. `None` if a later epoch has a batch.
    fn senders_of(&self, epoch: u64, stage: Stage) -> Option<PlaceSet>
        ensures { IfSome result (λ there. (p : ℕ) → p < 64 → has there p ≡ list_any (is_of p epoch stage) self.now) }
    {
        if epoch < self.newest.epoch {
            return None;
        }
        let newest = self.newest.since::<V, A>(epoch);
        Some(newest.senders[index_of(stage)])
    }

    /// Whether it is known without a search that the batch is not there.
    fn lacks(&self, sender: u8, epoch: u64, stage: Stage) -> bool
        ensures { IsTrue result → list_any (is_of sender epoch stage) self.now ≡ false }
    {
        if sender >= 64 {
            return false;
        }
        match self.senders_of(epoch, stage) {
            Some(there) => !there.has(sender),
            None => false,
        }
    }

    /// The batch, if it still lies where it was put. `None` says nothing.
    fn at_its_position(&self, sender: u8, epoch: u64, stage: Stage) -> Option<&Batch<V, A>>
        ensures { IfSome result (λ b. find (is_of sender epoch stage) self.now ≡ Some b.now) }
    {
        let position = *self.positions.get(slot_of(sender, stage))?;
        let batch = self.batches.get(position)?;
        if is_of(batch, sender, epoch, stage) {
            Some(batch)
        } else {
            None
        }
    }

    /// The least of the senders whose batch is missing, by a search for each of them.
    fn first_missing(&self, epoch: u64, stage: Stage, senders: PlaceSet) -> Option<u8>
        ensures { result ≡ find (λ p. not (list_any (is_of p epoch stage) self.now)) senders }
    {
        for p in 0..64u8 {
            if senders.has(p) {
                if !self.has_batch(p, epoch, stage) {
                    return Some(p);
                }
            }
        }
        None
    }

    /// Whether the batch of a place is there, by a search.
    fn has_batch(&self, sender: u8, epoch: u64, stage: Stage) -> bool
        ensures { result ≡ list_any (is_of sender epoch stage) self.now }
    {
        self.batches
            .iter()
            .any(|batch| is_of(batch, sender, epoch, stage))
    }
}
