ghost use Rattle.std.specs.Prelude.{◌≡◌, ◌<◌, ◌≤◌, ◌+◌, ◌^◌, ◌==◌, []};
ghost use Rattle.std.specs.Prelude.{false, OnOk, OnErr, IsSome, IfSome, slice_get, length, map, find};
ghost use Rattle.std.specs.List.{filter};
ghost use Rattle.gr_base.specs.Rising.{RisesBy, with_item};
ghost use Rattle.gr_log.specs.Directory.{with_items};
ghost use Rattle.gr_rows.specs.Changes.{AgreeBut};
ghost use Rattle.gr_rows.specs.Layers.{CopiesRise, vertex_of, copy_with_value, copy_with_mark};

use crate::changes::Changes;
use crate::layer::{Layer, MOST_COPIES};
use gr_base::OutOfMemory;
use gr_numbered::merge;
use gr_program::{Datum, VertexCopy};
use std::alloc::Global;
use std::marker::Model;

/// The copies that a place holds, by rising vertex, in two layers: `stable` counts now, and what is staged goes into
/// `pending`, which counts from the next `install` on.
///
/// Neither `install` nor `discard` takes memory: `stage_copy` has reserved in each layer the room for the other. They
/// cost what was staged since the last of them, and the due copies. If a copy was staged, or more values and marks than
/// there are copies, they go through all copies.
///
/// A layer holds fewer than 2^32 copies, and one of a further vertex is refused as one for which there is no memory.
#[derive(Drop)]
pub struct Rows<V: Datum> {
    stable: Layer<V>,
    pending: Layer<V>,
    changes: Changes,
}

impl<V: Datum> Model for Rows<V> {
    ghost use Rattle.std.specs.Prelude.{◌≡◌, ◌≤◌, ◌<◌, ◌^◌, false, length};
    ghost use Rattle.gr_base.specs.Rising.{RisesBy};
    ghost use Rattle.gr_rows.specs.Changes.{AgreeBut};
    ghost use Rattle.gr_rows.specs.Layers.{CopyLayers, vertex_of};

    ghost Value = { CopyLayers V };

    ghost view = { λ r. record { stable = r.stable.copies; pending = r.pending.copies } };

    ghost invariant = { λ r. record {
      stable_rises : RisesBy vertex_of r.stable.copies;
      pending_rises : RisesBy vertex_of r.pending.copies;
      room_for_install : length r.pending.copies ≤ r.stable.room;
      room_for_discard : length r.stable.copies ≤ r.pending.room;
      stable_few : length r.stable.copies < 2 ^ 32;
      pending_few : length r.pending.copies < 2 ^ 32;
      agree : r.changes.anywhere ≡ false → AgreeBut r.changes.positions r.pending.copies r.stable.copies;
    } };
}

impl<V: Datum> Rows<V> {
    /// No copies in either layer. It takes no memory.
    pub fn new(alloc: Global) -> Rows<V>
        ensures { result ≡ record { stable = []; pending = [] } }
    {
        Rows {
            stable: Layer::new(alloc),
            pending: Layer::new(alloc),
            changes: Changes::new(alloc),
        }
    }

    /// How many stable copies there are.
    pub fn count(&self) -> usize
        ensures count { result ≡ length self.now.stable }
        ensures few { length self.now.stable < 2 ^ 32 }
        ensures rise { CopiesRise self.now }
    {
        self.stable.count()
    }

    /// How many pending copies there are.
    pub fn pending_count(&self) -> usize
        ensures count { result ≡ length self.now.pending }
        ensures few { length self.now.pending < 2 ^ 32 }
        ensures rise { CopiesRise self.now }
    {
        self.pending.count()
    }

    /// The stable copy of a vertex, mostly found in constant time. It takes at most time logarithmic in the number of
    /// copies.
    pub fn get(&self, v: u32) -> Option<VertexCopy<V>>
        ensures copy { result ≡ find (λ c. c.vertex == v) self.now.stable }
        ensures rise { CopiesRise self.now }
    {
        self.stable.get(v)
    }

    /// The pending copy of a vertex, mostly found in constant time. It takes at most time logarithmic in the number of
    /// copies, as after copies were staged and not installed yet.
    pub fn pending(&self, v: u32) -> Option<VertexCopy<V>>
        ensures copy { result ≡ find (λ c. c.vertex == v) self.now.pending }
        ensures rise { CopiesRise self.now }
    {
        self.pending.get(v)
    }

    /// The `i`-th stable copy, counted from 0 in rising vertex order.
    pub fn at(&self, i: usize) -> Option<VertexCopy<V>>
        ensures copy { result ≡ slice_get self.now.stable i }
        ensures next_fits { IfSome result (λ _. i + 1 < 2 ^ 64) }
        ensures rise { CopiesRise self.now }
    {
        self.stable.at(i)
    }

    /// The `i`-th pending copy, counted from 0 in rising vertex order.
    pub fn pending_at(&self, i: usize) -> Option<VertexCopy<V>>
        ensures copy { result ≡ slice_get self.now.pending i }
        ensures next_fits { IfSome result (λ _. i + 1 < 2 ^ 64) }
        ensures rise { CopiesRise self.now }
    {
        self.pending.at(i)
    }

    /// The `i`-th due stable copy, counted from 0 in rising vertex order, found in constant time.
    pub fn due_at(&self, i: usize) -> Option<VertexCopy<V>>
        ensures copy { result ≡ slice_get (filter (λ c. c.due) self.now.stable) i }
        ensures next_fits { IfSome result (λ _. i + 1 < 2 ^ 64) }
        ensures rise { CopiesRise self.now }
    {
        self.stable.due_at(i)
    }

    /// The `i`-th due pending copy, counted from 0 in rising vertex order, found in constant time.
    pub fn pending_due_at(&self, i: usize) -> Option<VertexCopy<V>>
        ensures copy { result ≡ slice_get (filter (λ c. c.due) self.now.pending) i }
        ensures next_fits { IfSome result (λ _. i + 1 < 2 ^ 64) }
        ensures rise { CopiesRise self.now }
    {
        self.pending.due_at(i)
    }

    /// Gives the pending copy of a vertex this value, found as by `pending`. It takes no memory.
    pub fn stage_value(&mut self, v: u32, value: V)
        requires known { IsSome (find (λ c. c.vertex == v) self.old.pending) }
        ensures { self.new ≡ record self.old { pending = map (copy_with_value v value) self.old.pending } }
    {
        let at = self.pending.set_value(v, value);
        self.changes.note([at].as_slice());
    }

    /// Makes the pending copies of these vertices due, and no others. The vertices rise. It takes no memory. It costs
    /// the pending copies that were due, and a search for each of these vertices.
    pub fn stage_due(&mut self, due: &[u32])
        requires rise { RisesBy (λ v. v) due.now }
        ensures { self.new ≡ record self.old { pending = map (copy_with_mark due.now) self.old.pending } }
    {
        self.changes.note(self.pending.due_positions());
        self.pending.mark_due(due);
        self.changes.note(self.pending.due_positions());
    }

    /// Puts a copy into the pending layer, in the place of that of its vertex if there is one. A copy above all others
    /// costs amortized constant time and a search, any other the time to move those above it.
    ///
    /// The one error is that there is no room: memory ran out, or the pending layer holds 2^32 - 1 copies and none of
    /// this vertex. Then both layers are as before.
    pub fn stage_copy(&mut self, copy: VertexCopy<V>) -> Result<(), OutOfMemory>
        ensures ok { OnOk result (self.new ≡ record self.old { pending = with_item vertex_of copy self.old.pending }) }
        ensures err { OnErr result (self.new ≡ self.old) }
    {
        self.changes.note_all();
        self.changes.reserve(self.pending.count() + 1)?;
        self.stable.reserve(self.pending.count() + 1)?;
        self.pending.put(copy)
    }

    /// Puts copies of rising vertices into the pending layer, each in the place of that of its vertex if there is one.
    /// It takes time linear in the copies of both layers and these.
    ///
    /// # Errors
    ///
    /// `OutOfMemory` if memory runs out, or if the pending layer would hold 2^32 copies. Then both layers are as
    /// before.
    pub fn stage_copies(
        &mut self,
        alloc: Global,
        copies: &[VertexCopy<V>],
    ) -> Result<(), OutOfMemory>
        requires rise { RisesBy vertex_of copies.now }
        ensures ok { OnOk result (self.new
            ≡ record self.old { pending = with_items vertex_of copies.now self.old.pending }) }
        ensures err { OnErr result (self.new ≡ self.old) }
    {
        let all = merge(alloc, self.pending.as_slice(), copies)?;
        if all.len() > MOST_COPIES {
            return Err(OutOfMemory);
        }
        self.changes.note_all();
        self.changes.reserve(all.len())?;
        self.stable.reserve(all.len())?;
        self.pending.reserve(all.len())?;
        self.pending.fill(all.as_slice());
        Ok(())
    }

    /// Makes the stable layer equal to the pending one, in time linear in what was staged. It takes no memory.
    pub fn install(&mut self)
        ensures { self.new ≡ record self.old { stable = self.old.pending } }
    {
        if self.changes.anywhere() {
            self.pending.renew_hints();
        }
        bring(&mut self.stable, &self.pending, &mut self.changes);
    }

    /// Makes the pending layer equal to the stable one, in time linear in what was staged. It takes no memory.
    pub fn discard(&mut self)
        ensures { self.new ≡ record self.old { pending = self.old.stable } }
    {
        bring(&mut self.pending, &self.stable, &mut self.changes);
    }
}

/// Makes a layer equal to another, and forgets where they differed. It takes no memory.
fn bring<V: Datum>(into: &mut Layer<V>, from: &Layer<V>, changes: &mut Changes)
    requires room { length from.now.copies ≤ into.old.room }
    requires agree { changes.old.anywhere ≡ false → AgreeBut changes.old.positions into.old.copies from.now.copies }
    ensures copies { into.new.copies ≡ from.now.copies }
    ensures rises { RisesBy vertex_of into.new.copies }
    ensures few { length into.new.copies < 2 ^ 32 }
    ensures len { length into.new.copies ≡ length from.now.copies }
    ensures from_fits { length from.now.copies ≤ from.now.room }
    ensures room { into.old.room ≤ into.new.room }
    ensures changes { changes.new ≡ record { positions = []; anywhere = false } }
{
    if changes.anywhere() {
        into.copy_from(from);
        changes.clear();
        return;
    }
    into.catch_up(from, changes.as_slice());
    changes.clear();
}
