#![tactic(auto, unfolding(crate::specs::Index::IsLaidOut))]

ghost use Rattle.std.specs.Prelude.{◌≡◌, ◌<◌, ◌≤◌, ◌+◌, ◌^◌, [], ◌==◌};
ghost use Rattle.std.specs.Prelude.{OnOk, OnErr, IsNone, IfSome, slice_get, nat_lt, length, filter, find, is_some};
ghost use Rattle.std.specs.List.{prefix_len};
ghost use Rattle.std.specs.Vec.{vec_len, vec_capacity};
ghost use Rattle.gr_base.specs.Rising.{RisesBy, with_item};
ghost use Rattle.gr_log.specs.Directory.{with_items};
ghost use Rattle.gr_arcs.specs.Layers.{EdgesRise, number_of};

use crate::copies::{copy_over, make_room};
use crate::end::End;
use crate::index::{edges_at, fill_hints, index_edges};
use gr_base::{NumberedEdge, OutOfMemory};
use gr_numbered::{SearchHints, merge};
use std::alloc::Global;
use std::marker::Model;

/// The edges that stand at a place, by rising number, in two layers: `stable` counts now, and what is staged goes
/// into `pending`, which counts from the next `install` on.
///
/// The stable edges stand in two indices as well, by target and by source, and each index has hints that say where a
/// search for a vertex begins, so that its edges are mostly found in constant time. Neither `install` nor `discard`
/// takes memory: `stage_edge` has reserved in each layer, and in each index, the room for the other.
#[derive(Drop)]
pub struct Arcs {
    stable: Vec<NumberedEdge>,
    pending: Vec<NumberedEdge>,
    by_target: Vec<NumberedEdge>,
    by_source: Vec<NumberedEdge>,
    target_hints: SearchHints,
    source_hints: SearchHints,
    staged: bool,
}

impl Model for Arcs {
    ghost use Rattle.std.specs.Prelude.{◌≤◌};
    ghost use Rattle.std.specs.Vec.{vec_len, vec_capacity};
    ghost use Rattle.gr_arcs.specs.Index.{IsLaidOut};
    ghost use Rattle.gr_arcs.specs.Layers.{EdgeLayers};

    ghost Value = { EdgeLayers };

    ghost view = { λ a. record { stable = a.stable.items; pending = a.pending.items } };

    ghost invariant = { λ a. record {
      laid_out : IsLaidOut a.stable.items a.pending.items a.by_target.items a.by_source.items a.staged;
      room_for_install : vec_len a.pending ≤ vec_capacity a.stable;
      room_for_targets : vec_len a.pending ≤ vec_capacity a.by_target;
      room_for_sources : vec_len a.pending ≤ vec_capacity a.by_source;
      room_for_discard : vec_len a.stable ≤ vec_capacity a.pending;
    } };
}

impl Arcs {
    /// No edges in either layer. It takes no memory.
    pub fn new(alloc: Global) -> Arcs
        ensures { result ≡ record { stable = []; pending = [] } }
    {
        Arcs {
            stable: Vec::new(alloc),
            pending: Vec::new(alloc),
            by_target: Vec::new(alloc),
            by_source: Vec::new(alloc),
            target_hints: SearchHints::new(alloc),
            source_hints: SearchHints::new(alloc),
            staged: false,
        }
    }

    /// How many stable edges there are.
    pub fn count(&self) -> usize
        ensures count { result ≡ length self.now.stable }
        ensures rise { EdgesRise self.now }
    {
        self.stable.len()
    }

    /// How many pending edges there are.
    pub fn pending_count(&self) -> usize
        ensures count { result ≡ length self.now.pending }
        ensures rise { EdgesRise self.now }
    {
        self.pending.len()
    }

    /// Whether an edge of this number is pending, in time logarithmic in the number of edges.
    pub fn is_pending(&self, number: u32) -> bool
        ensures { result ≡ is_some (find (λ e. e.number == number) self.now.pending) }
    {
        holds_number(self.pending.as_slice(), number)
    }

    /// The stable edges into a vertex, in rising number, mostly found in constant time. It takes at most time
    /// logarithmic in the number of edges.
    pub fn edges_into(&self, v: u32) -> &[NumberedEdge]
        ensures edges { result.now ≡ filter (λ e. e.edge.dst == v) self.now.stable }
        ensures rise { EdgesRise self.now }
    {
        edges_at(
            &self.target_hints,
            self.by_target.as_slice(),
            End::Target,
            v,
        )
    }

    /// The stable edges out of a vertex, in rising number, mostly found in constant time. It takes at most time
    /// logarithmic in the number of edges.
    pub fn edges_out_of(&self, v: u32) -> &[NumberedEdge]
        ensures edges { result.now ≡ filter (λ e. e.edge.src == v) self.now.stable }
        ensures rise { EdgesRise self.now }
    {
        edges_at(
            &self.source_hints,
            self.by_source.as_slice(),
            End::Source,
            v,
        )
    }

    /// The `i`-th stable edge into a vertex, counted from 0 in rising number, found as by `edges_into`.
    pub fn into_vertex(&self, v: u32, i: usize) -> Option<NumberedEdge>
        ensures edge { result ≡ slice_get (filter (λ e. e.edge.dst == v) self.now.stable) i }
        ensures next_fits { IfSome result (λ _. i + 1 < 2 ^ 64) }
        ensures rise { EdgesRise self.now }
    {
        self.edges_into(v).get(i).copied()
    }

    /// The `i`-th stable edge out of a vertex, counted from 0 in rising number, found as by `edges_out_of`.
    pub fn out_of(&self, v: u32, i: usize) -> Option<NumberedEdge>
        ensures edge { result ≡ slice_get (filter (λ e. e.edge.src == v) self.now.stable) i }
        ensures next_fits { IfSome result (λ _. i + 1 < 2 ^ 64) }
        ensures rise { EdgesRise self.now }
    {
        self.edges_out_of(v).get(i).copied()
    }

    /// Adds a pending edge, whose number is not pending yet. An edge above all others costs amortized constant time
    /// and a search, any other the time to move those above it.
    ///
    /// The one error is that memory ran out; then both layers are as before.
    pub fn stage_edge(&mut self, edge: NumberedEdge) -> Result<(), OutOfMemory>
        requires fresh { IsNone (find (λ e. e.number == edge.number) self.old.pending) }
        ensures ok { OnOk result (self.new ≡ record self.old { pending = with_item number_of edge self.old.pending }) }
        ensures err { OnErr result (self.new ≡ self.old) }
    {
        let count = self.pending.len() + 1;
        make_room(&mut self.stable, count)?;
        make_room(&mut self.by_target, count)?;
        make_room(&mut self.by_source, count)?;
        self.target_hints.reserve(count)?;
        self.source_hints.reserve(count)?;
        put_edge(&mut self.pending, edge)?;
        self.staged = true;
        Ok(())
    }

    /// Adds pending edges of rising numbers, each in the place of that of its number if there is one. It takes time
    /// linear in the pending edges and these.
    ///
    /// # Errors
    ///
    /// `OutOfMemory` if memory runs out. Then both layers are as before.
    pub fn stage_edges(&mut self, alloc: Global, edges: &[NumberedEdge]) -> Result<(), OutOfMemory>
        requires rise { RisesBy number_of edges.now }
        ensures ok { OnOk result (self.new
            ≡ record self.old { pending = with_items number_of edges.now self.old.pending }) }
        ensures err { OnErr result (self.new ≡ self.old) }
    {
        let all = merge(alloc, self.pending.as_slice(), edges)?;
        let count = all.len();
        make_room(&mut self.stable, count)?;
        make_room(&mut self.by_target, count)?;
        make_room(&mut self.by_source, count)?;
        self.target_hints.reserve(count)?;
        self.source_hints.reserve(count)?;
        make_room(&mut self.pending, count)?;
        copy_over(&mut self.pending, all.as_slice());
        self.staged = true;
        Ok(())
    }

    /// Makes the stable layer equal to the pending one. It takes no memory, linear-logarithmic time where an edge was
    /// staged since the last `install` or `discard`, and else constant time.
    pub fn install(&mut self)
        ensures { self.new ≡ record self.old { stable = self.old.pending } }
    {
        if self.staged {
            copy_over(&mut self.stable, self.pending.as_slice());
            index_edges(&mut self.by_target, End::Target, self.pending.as_slice());
            index_edges(&mut self.by_source, End::Source, self.pending.as_slice());
            fill_hints(
                &mut self.target_hints,
                End::Target,
                self.by_target.as_slice(),
            );
            fill_hints(
                &mut self.source_hints,
                End::Source,
                self.by_source.as_slice(),
            );
            self.staged = false;
        }
    }

    /// Makes the pending layer equal to the stable one. It takes no memory, linear time where an edge was staged since
    /// the last `install` or `discard`, and else constant time.
    pub fn discard(&mut self)
        ensures { self.new ≡ record self.old { pending = self.old.stable } }
    {
        if self.staged {
            copy_over(&mut self.pending, self.stable.as_slice());
            self.staged = false;
        }
    }
}

/// How many edges have a number below this one.
fn place_of(edges: &[NumberedEdge], number: u32) -> usize
    requires { RisesBy number_of edges.now }
    ensures { result ≡ prefix_len (λ e. nat_lt e.number number) edges.now }
{
    edges.partition_point(|edge| edge.number < number)
}

/// Whether an edge has this number.
fn holds_number(edges: &[NumberedEdge], number: u32) -> bool
    requires { RisesBy number_of edges.now }
    ensures { result ≡ is_some (find (λ e. e.number == number) edges.now) }
{
    let at = place_of(edges, number);
    if at < edges.len() && edges[at].number == number {
        true
    } else {
        false
    }
}

/// Puts an edge at its number.
fn put_edge(edges: &mut Vec<NumberedEdge>, edge: NumberedEdge) -> Result<(), OutOfMemory>
    requires rises { RisesBy number_of edges.old.items }
    requires fresh { IsNone (find (λ e. e.number == edge.number) edges.old.items) }
    ensures ok { OnOk result (edges.new.items ≡ with_item number_of edge edges.old.items) }
    ensures err { OnErr result (edges.new.items ≡ edges.old.items) }
    ensures rises { RisesBy number_of edges.new.items }
    ensures len { vec_len edges.new ≤ vec_len edges.old + 1 }
    ensures capacity { vec_capacity edges.old ≤ vec_capacity edges.new }
{
    let at = place_of(edges.as_slice(), edge.number);
    edges.insert(at, edge)?;
    Ok(())
}
