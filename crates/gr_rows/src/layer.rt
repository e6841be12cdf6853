ghost use Rattle.std.specs.Prelude.{◌≡◌, ◌<◌, ◌≤◌, ◌+◌, ◌^◌, ◌==◌, [], ◌∷◌, ◌++◌};
ghost use Rattle.std.specs.Prelude.{OnOk, OnErr, IfOk, IfErr, IsSome, IfSome, slice_get, nat_lt};
ghost use Rattle.std.specs.Prelude.{length, map, find, insert, take, true, false};
ghost use Rattle.std.specs.List.{All, filter, prefix_len};
ghost use Rattle.std.specs.Vec.{vec_len, vec_capacity};
ghost use Rattle.gr_base.specs.Rising.{RisesBy, with_item};
ghost use Rattle.gr_rows.specs.Changes.{AgreeBut, KeepsBut, SameBut};
ghost use Rattle.gr_rows.specs.Layer.{IsAt, GoesAt, is_due, copy_made_due};
ghost use Rattle.gr_rows.specs.Positions.{positions_from};
ghost use Rattle.gr_rows.specs.Layers.{vertex_of, copy_with_value, copy_with_mark};

use gr_base::{OutOfMemory, count_below};
use gr_numbered::SearchHints;
use gr_program::{Datum, VertexCopy};
use std::alloc::Global;
use std::marker::Model;

/// How many copies a layer holds at most: as many as a number of 32 bits counts.
pub const MOST_COPIES: usize = u32::MAX as usize;

/// Copies by rising vertex. Their vertices stand beside them in a list of their own, so that a search reads numbers of
/// 4 bytes and no copies. A third list has the positions of the due copies, so that they are found without the others.
/// Hints say where a search among the vertices begins, so that mostly it takes constant time. A copy put in leaves them
/// stale, and then a search takes logarithmic time.
///
/// Contracts see the copies, and for how many there is room.
#[derive(Drop)]
pub struct Layer<V: Datum> {
    copies: Vec<VertexCopy<V>>,
    vertices: Vec<u32>,
    due: Vec<u32>,
    hints: SearchHints,
}

impl<V: Datum> Model for Layer<V> {
    ghost use Rattle.std.specs.Prelude.{◌≡◌, ◌≤◌, ◌<◌, ◌^◌, map, min};
    ghost use Rattle.std.specs.Vec.{vec_len, vec_capacity};
    ghost use Rattle.gr_base.specs.Rising.{RisesBy};
    ghost use Rattle.gr_rows.specs.Layer.{LayerCopies, is_due};
    ghost use Rattle.gr_rows.specs.Positions.{positions_from};
    ghost use Rattle.gr_rows.specs.Layers.{vertex_of};

    ghost Value = { LayerCopies V };

    ghost view = { λ l. record {
      copies = l.copies.items;
      room = min (vec_capacity l.copies) (min (vec_capacity l.vertices) (vec_capacity l.due));
    } };

    ghost invariant = { λ l. record {
      rises : RisesBy vertex_of l.copies.items;
      few : vec_len l.copies < 2 ^ 32;
      vertices_are : l.vertices.items ≡ map vertex_of l.copies.items;
      due_are : l.due.items ≡ positions_from is_due 0 l.copies.items;
      due_fit : vec_len l.copies ≤ vec_capacity l.due;
    } };
}

impl<V: Datum> Layer<V> {
    /// No copies. It takes no memory.
    pub fn new(alloc: Global) -> Layer<V>
        ensures { result.copies ≡ [] }
    {
        Layer {
            copies: Vec::new(alloc),
            vertices: Vec::new(alloc),
            due: Vec::new(alloc),
            hints: SearchHints::new(alloc),
        }
    }

    /// How many copies there are.
    pub fn count(&self) -> usize
        ensures count { result ≡ length self.now.copies }
        ensures few { length self.now.copies < 2 ^ 32 }
    {
        self.copies.len()
    }

    /// The copies, borrowed.
    pub fn as_slice(&self) -> &[VertexCopy<V>]
        ensures copies { result.now ≡ self.now.copies }
        ensures rises { RisesBy vertex_of self.now.copies }
    {
        self.copies.as_slice()
    }

    /// The copy of a vertex, found by a search among the vertices.
    pub fn get(&self, v: u32) -> Option<VertexCopy<V>>
        ensures { result ≡ find (λ c. c.vertex == v) self.now.copies }
    {
        match self.search(v) {
            Ok(at) => Some(self.copies[at]),
            Err(_) => None,
        }
    }

    /// The `i`-th copy, counted from 0 in rising vertex order.
    pub fn at(&self, i: usize) -> Option<VertexCopy<V>>
        ensures copy { result ≡ slice_get self.now.copies i }
        ensures next_fits { IfSome result (λ _. i + 1 < 2 ^ 64) }
    {
        self.copies.get(i).copied()
    }

    /// The `i`-th due copy, counted from 0 in rising vertex order. It costs no search.
    pub fn due_at(&self, i: usize) -> Option<VertexCopy<V>>
        ensures copy { result ≡ slice_get (filter is_due self.now.copies) i }
        ensures next_fits { IfSome result (λ _. i + 1 < 2 ^ 64) }
    {
        if i < self.due.len() {
            let at = self.due[i] as usize;
            Some(self.copies[at])
        } else {
            None
        }
    }

    /// Makes room for this many copies in all.
    pub fn reserve(&mut self, count: usize) -> Result<(), OutOfMemory>
        ensures copies { self.new.copies ≡ self.old.copies }
        ensures room { OnOk result (count ≤ self.new.room) }
        ensures kept { self.old.room ≤ self.new.room }
    {
        let more = count.saturating_sub(self.copies.len());
        self.copies.reserve(more)?;
        self.vertices.reserve(more)?;
        self.due.reserve(count.saturating_sub(self.due.len()))?;
        self.hints.reserve(count)?;
        Ok(())
    }

    /// The position of the copy of a vertex. If there is none, the error is the position where it would go.
    fn search(&self, v: u32) -> Result<usize, usize>
        ensures found { IfOk result (λ at. IsAt v at self.now.copies) }
        ensures missing { IfErr result (λ at. GoesAt v at self.now.copies) }
        ensures rises { RisesBy vertex_of self.now.copies }
    {
        let at = self.hints.count_below(self.vertices.as_slice(), v);
        if at < self.vertices.len() && self.vertices[at] == v {
            Ok(at)
        } else {
            Err(at)
        }
    }

    /// Gives the copy of a vertex this value, and returns its position. It costs a search among the vertices.
    pub fn set_value(&mut self, v: u32, value: V) -> u32
        requires known { IsSome (find (λ c. c.vertex == v) self.old.copies) }
        ensures value { self.new.copies ≡ map (copy_with_value v value) self.old.copies }
        ensures rises { RisesBy vertex_of self.new.copies }
        ensures len { length self.new.copies ≡ length self.old.copies }
        ensures room { self.new.room ≡ self.old.room }
        ensures vertices { map vertex_of self.new.copies ≡ map vertex_of self.old.copies }
        ensures elsewhere { KeepsBut result self.old.copies self.new.copies }
    {
        match self.search(v) {
            Ok(at) => {
                let copy = &mut self.copies[at];
                copy.value = Some(value);
                at as u32
            }
            Err(_) => 0,
        }
    }

    /// Makes the copies of these vertices due, and no others. The vertices rise. It costs the copies that were due, and
    /// a search for each of these vertices.
    pub fn mark_due(&mut self, due: &[u32])
        requires rise { RisesBy (λ v. v) due.now }
        ensures due { self.new.copies ≡ map (copy_with_mark due.now) self.old.copies }
        ensures rises { RisesBy vertex_of self.new.copies }
        ensures len { length self.new.copies ≡ length self.old.copies }
        ensures room { self.old.room ≤ self.new.room }
    {
        self.clear_due();
        for v in due {
            self.make_due(*v);
        }
    }

    /// Makes no copy due. It costs the copies that were due.
    fn clear_due(&mut self)
        ensures copies { self.new.copies ≡ map (copy_with_mark []) self.old.copies }
        ensures rises { RisesBy vertex_of self.new.copies }
        ensures len { length self.new.copies ≡ length self.old.copies }
        ensures room { self.new.room ≡ self.old.room }
    {
        clear_marks(&mut self.copies, self.due.as_slice());
        self.due.clear();
    }

    /// Makes the copy of a vertex due, if there is one. The copies that are due are of vertices below. It costs a
    /// search.
    fn make_due(&mut self, v: u32)
        requires { All (λ c. c.due ≡ true → c.vertex < v) self.old.copies }
        ensures copies { self.new.copies ≡ map (copy_made_due v) self.old.copies }
        ensures rises { RisesBy vertex_of self.new.copies }
        ensures len { length self.new.copies ≡ length self.old.copies }
        ensures room { self.old.room ≤ self.new.room }
    {
        match self.search(v) {
            Ok(at) => {
                let found_copy = &mut self.copies[at];
                found_copy.due = true;
                push_in(&mut self.due, at as u32);
            }
            Err(_) => {}
        }
    }

    /// Puts a copy at its vertex, in the place of that of its vertex if there is one.
    ///
    /// The one error is that there is no room: memory ran out, or the layer holds 2^32 - 1 copies and none of this
    /// vertex. Then the copies are as before.
    pub fn put(&mut self, copy: VertexCopy<V>) -> Result<(), OutOfMemory>
        ensures ok { OnOk result (self.new.copies ≡ with_item vertex_of copy self.old.copies) }
        ensures err { OnErr result (self.new.copies ≡ self.old.copies) }
        ensures rises { RisesBy vertex_of self.new.copies }
        ensures few { length self.new.copies < 2 ^ 32 }
        ensures len { length self.new.copies ≤ length self.old.copies + 1 }
        ensures room { self.old.room ≤ self.new.room }
    {
        match self.search(copy.vertex) {
            Ok(at) => self.replace(at, copy),
            Err(at) => {
                let count = self.count();
                if count >= MOST_COPIES {
                    return Err(OutOfMemory);
                }
                self.reserve(count + 1)?;
                self.insert(at, copy);
            }
        }
        Ok(())
    }

    /// Puts a copy in the place of that of its vertex. Only if one of the two is due and the other is not does it go
    /// through the copies above.
    fn replace(&mut self, at: usize, copy: VertexCopy<V>)
        requires { IsAt copy.vertex at self.old.copies }
        ensures copies { self.new.copies ≡ with_item vertex_of copy self.old.copies }
        ensures rises { RisesBy vertex_of self.new.copies }
        ensures few { length self.new.copies < 2 ^ 32 }
        ensures len { length self.new.copies ≡ length self.old.copies }
        ensures room { self.old.room ≤ self.new.room }
    {
        let was_due = self.copies[at].due;
        self.copies[at] = copy;
        if was_due == copy.due {
            return;
        }
        keep_below(&mut self.due, at);
        push_due(&mut self.due, self.copies.as_slice(), at);
    }

    /// Puts in a copy of a vertex that has none, at its position, for which there is room.
    fn insert(&mut self, at: usize, copy: VertexCopy<V>)
        requires goes { GoesAt copy.vertex at self.old.copies }
        requires room { length self.old.copies < self.old.room }
        requires few { length self.old.copies + 1 < 2 ^ 32 }
        ensures copies { self.new.copies ≡ with_item vertex_of copy self.old.copies }
        ensures rises { RisesBy vertex_of self.new.copies }
        ensures few { length self.new.copies < 2 ^ 32 }
        ensures len { length self.new.copies ≡ length self.old.copies + 1 }
        ensures room { self.old.room ≤ self.new.room }
    {
        put_in(&mut self.copies, at, copy);
        put_in(&mut self.vertices, at, copy.vertex);
        keep_below(&mut self.due, at);
        push_due(&mut self.due, self.copies.as_slice(), at);
    }

    /// Makes the copies equal to these, for which there is room. It takes linear time and no memory.
    pub fn fill(&mut self, copies: &[VertexCopy<V>])
        requires rises { RisesBy vertex_of copies.now }
        requires few { length copies.now < 2 ^ 32 }
        requires room { length copies.now ≤ self.old.room }
        ensures copies { self.new.copies ≡ copies.now }
        ensures rises { RisesBy vertex_of self.new.copies }
        ensures len { length self.new.copies ≡ length copies.now }
        ensures room { self.old.room ≤ self.new.room }
    {
        copy_over(&mut self.copies, copies);
        self.vertices.clear();
        push_vertices(&mut self.vertices, copies);
        self.due.clear();
        push_due(&mut self.due, copies, 0);
        self.hints.fill(self.vertices.as_slice());
    }

    /// Makes the copies equal to those of another layer, for which there is room. It takes linear time and no memory.
    pub fn copy_from(&mut self, other: &Layer<V>)
        requires { length other.now.copies ≤ self.old.room }
        ensures copies { self.new.copies ≡ other.now.copies }
        ensures rises { RisesBy vertex_of self.new.copies }
        ensures few { length self.new.copies < 2 ^ 32 }
        ensures len { length self.new.copies ≡ length other.now.copies }
        ensures other_fits { length other.now.copies ≤ other.now.room }
        ensures room { self.old.room ≤ self.new.room }
    {
        copy_over(&mut self.copies, other.copies.as_slice());
        copy_over(&mut self.due, other.due.as_slice());
        copy_over(&mut self.vertices, other.vertices.as_slice());
        self.hints.fill(self.vertices.as_slice());
    }

    /// Makes the hints those of the vertices, in linear time. It takes no memory.
    pub fn renew_hints(&mut self)
        ensures { self.new ≡ self.old }
    {
        self.hints.fill(self.vertices.as_slice());
    }

    /// The positions of the due copies, borrowed.
    pub fn due_positions(&self) -> &[u32]
        ensures { result.now ≡ positions_from is_due 0 self.now.copies }
    {
        self.due.as_slice()
    }

    /// Makes the copies equal to those of another layer, from which they differ at most at these positions. It costs
    /// these positions and the due copies, and takes no memory.
    pub fn catch_up(&mut self, other: &Layer<V>, positions: &[u32])
        requires agree { AgreeBut positions.now self.old.copies other.now.copies }
        requires room { length other.now.copies ≤ self.old.room }
        ensures copies { self.new.copies ≡ other.now.copies }
        ensures rises { RisesBy vertex_of self.new.copies }
        ensures few { length self.new.copies < 2 ^ 32 }
        ensures len { length self.new.copies ≡ length other.now.copies }
        ensures other_fits { length other.now.copies ≤ other.now.room }
        ensures room { self.old.room ≤ self.new.room }
    {
        copy_at(&mut self.copies, other.copies.as_slice(), positions);
        let due = other.due.as_slice();
        copy_over(&mut self.due, due);
    }
}

/// Makes a list equal to another, from which it differs at most at these positions.
fn copy_at<T: Copy>(items: &mut Vec<T>, from: &[T], positions: &[u32])
    requires len { vec_len items.old ≡ length from.now }
    requires same { SameBut positions.now items.old.items from.now }
    ensures items { items.new.items ≡ from.now }
    ensures len { vec_len items.new ≡ length from.now }
    ensures capacity { vec_capacity items.new ≡ vec_capacity items.old }
{
    for at in positions {
        let place = *at as usize;
        if place < from.len() {
            items[place] = from[place];
        }
    }
}

/// Makes a list equal to another, for which it has room, in linear time.
fn copy_over<T: Copy>(items: &mut Vec<T>, from: &[T])
    requires { length from.now ≤ vec_capacity items.old }
    ensures items { items.new.items ≡ from.now }
    ensures len { vec_len items.new ≡ length from.now }
    ensures capacity { vec_capacity items.old ≤ vec_capacity items.new }
{
    items.clear();
    let _ = items.extend_from_slice(from);
}

/// Puts an item into a list that has room for it.
fn put_in<T: Copy>(items: &mut Vec<T>, at: usize, item: T)
    requires within { at ≤ vec_len items.old }
    requires room { vec_len items.old < vec_capacity items.old }
    ensures items { items.new.items ≡ insert items.old.items at item }
    ensures len { vec_len items.new ≡ vec_len items.old + 1 }
    ensures capacity { vec_capacity items.old ≤ vec_capacity items.new }
{
    let _ = items.insert(at, item);
}

/// Appends an item to a list that has room for it.
fn push_in<T: Copy>(items: &mut Vec<T>, item: T)
    requires { vec_len items.old < vec_capacity items.old }
    ensures items { items.new.items ≡ items.old.items ++ item ∷ [] }
    ensures len { vec_len items.new ≡ vec_len items.old + 1 }
    ensures capacity { vec_capacity items.old ≤ vec_capacity items.new }
{
    let _ = items.push(item);
}

/// Writes the vertices of copies into an empty list, which has room for them.
fn push_vertices<V: Datum>(vertices: &mut Vec<u32>, copies: &[VertexCopy<V>])
    requires empty { vertices.old.items ≡ [] }
    requires room { length copies.now ≤ vec_capacity vertices.old }
    ensures vertices { vertices.new.items ≡ map vertex_of copies.now }
    ensures capacity { vec_capacity vertices.old ≤ vec_capacity vertices.new }
{
    for copy in copies {
        push_in(vertices, copy.vertex);
    }
}

/// Keeps those of rising positions that are below this one.
fn keep_below(positions: &mut Vec<u32>, at: usize)
    requires rises { RisesBy (λ n. n) positions.old.items }
    requires fits { at < 2 ^ 32 }
    ensures items { positions.new.items ≡ take (prefix_len (λ n. nat_lt n at) positions.old.items) positions.old.items }
    ensures capacity { vec_capacity positions.new ≡ vec_capacity positions.old }
{
    let count = count_below(positions.as_slice(), at as u32);
    positions.truncate(count);
}

/// Appends the positions of the due copies from a position on to those of the due copies below, with room for them.
fn push_due<V: Datum>(positions: &mut Vec<u32>, copies: &[VertexCopy<V>], from: usize)
    requires below { positions.old.items ≡ positions_from is_due 0 (take from copies.now) }
    requires within { from ≤ length copies.now }
    requires few { length copies.now < 2 ^ 32 }
    requires room { length copies.now ≤ vec_capacity positions.old }
    ensures positions { positions.new.items ≡ positions_from is_due 0 copies.now }
    ensures capacity { vec_capacity positions.old ≤ vec_capacity positions.new }
{
    for i in from..copies.len() {
        if copies[i].due {
            push_in(positions, i as u32);
        }
    }
}

/// Makes the copies at these positions not due. They are those of all due copies.
fn clear_marks<V: Datum>(copies: &mut Vec<VertexCopy<V>>, due: &[u32])
    requires { due.now ≡ positions_from is_due 0 copies.old.items }
    ensures items { copies.new.items ≡ map (copy_with_mark []) copies.old.items }
    ensures len { vec_len copies.new ≡ vec_len copies.old }
    ensures capacity { vec_capacity copies.new ≡ vec_capacity copies.old }
{
    for at in due {
        let copy = &mut copies[*at as usize];
        copy.due = false;
    }
}
