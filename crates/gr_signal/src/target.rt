ghost use Rattle.std.specs.Prelude.{◌≡◌, ◌<◌, ℕ, List, [], IfOk, map};
ghost use Rattle.std.specs.List.{filter};
ghost use Rattle.gr_base.specs.Rising.{RisesBy, has};
ghost use Rattle.gr_batch.specs.declared.body.NewValue.{NewValue};
ghost use Rattle.gr_rules.specs.Round.{woke_by};
ghost use Rattle.gr_signal.specs.Signals.{is_target, target_of, signalled, signals_to, calls_to};

use crate::edge_targets::targets_of;
use gr_arcs::Arcs;
use gr_base::{Items, OutOfMemory, PlaceSet};
use gr_program::Datum;
use gr_rows::Rows;
use std::alloc::Global;
use std::marker::Model;

/// A vertex to which an edge of a place leads from a woken one, with the place that masters it and those that hold it.
#[derive(Clone, Copy, Debug, PartialEq, Eq)]
pub struct Target {
    pub vertex: u32,
    pub master: u8,
    pub holders: PlaceSet,
}

/// The targets of the edges of a place from woken vertices, by rising vertex: what the Signal and Call batches to all
/// places are made of.
///
/// Contracts see the list itself.
#[derive(Debug, Drop)]
pub struct Targets {
    items: Items<Target>,
}

impl Model for Targets {
    ghost use Rattle.std.specs.Prelude.{List};
    ghost use Rattle.gr_base.specs.Rising.{RisesBy};
    ghost use Rattle.gr_signal.specs.declared.target.Target.{Target};

    ghost Value = { List Target };

    ghost view = { λ t. t.items };

    ghost invariant = { λ t. RisesBy (λ x. x.vertex) t.items };
}

impl Targets {
    /// No targets. It takes no memory.
    pub fn none(alloc: Global) -> Targets
        ensures { result ≡ [] }
    {
        Targets {
            items: Items::new(alloc),
        }
    }

    /// The targets that the place `to` masters: the Signal body to that place. It takes time linear in the targets.
    ///
    /// # Errors
    ///
    /// `OutOfMemory` if memory runs out.
    pub fn mastered_by(&self, alloc: Global, to: u8) -> Result<Items<u32>, OutOfMemory>
        ensures body { IfOk result (λ body. body ≡ signals_to self.now to) }
        ensures rise { IfOk result (λ body. RisesBy (λ v. v) body) }
    {
        let mut body = Items::new(alloc);
        for target in self.items.as_slice() {
            if target.master == to {
                body.push(target.vertex)?;
            }
        }
        Ok(body)
    }

    /// The targets that `place` masters and the place `to` holds: what the first calls the second for. It takes time
    /// linear in the targets.
    ///
    /// # Errors
    ///
    /// `OutOfMemory` if memory runs out.
    pub fn called_to(&self, alloc: Global, place: u8, to: u8) -> Result<Items<u32>, OutOfMemory>
        requires place { to < 64 }
        ensures body { IfOk result (λ body. body ≡ calls_to self.now place to) }
        ensures rise { IfOk result (λ body. RisesBy (λ v. v) body) }
    {
        let mut body = Items::new(alloc);
        for target in self.items.as_slice() {
            if target.master == place && target.holders.has(to) {
                body.push(target.vertex)?;
            }
        }
        Ok(body)
    }
}

/// The targets of the stable edges from woken vertices that have a stable copy.
///
/// It takes a search among the place's edges for each woken vertex, and sorts the targets of the edges out of
/// these vertices. For each target it takes a search among the copies.
///
/// # Errors
///
/// `OutOfMemory` if memory runs out.
pub fn targets_from<V: Datum>(
    alloc: Global,
    rows: &Rows<V>,
    arcs: &Arcs,
    woken: &[u32],
) -> Result<Targets, OutOfMemory>
    ensures targets { IfOk result (λ targets. targets
        ≡ map target_of (filter (λ c. is_target woken.now arcs.now.stable c.vertex) rows.now.stable)) }
    ensures signal { IfOk result (λ targets. (news : List (NewValue V))
        → ((v : ℕ) → has woken.now v ≡ woke_by news v)
        → targets ≡ signalled news rows.now.stable arcs.now.stable) }
{
    let ends = targets_of(alloc, arcs, woken)?;
    as_targets(alloc, rows, ends.as_slice())
}

/// The listed vertices that have a stable copy, as targets. The vertices rise.
fn as_targets<V: Datum>(
    alloc: Global,
    rows: &Rows<V>,
    vertices: &[u32],
) -> Result<Targets, OutOfMemory>
    requires { RisesBy (λ v. v) vertices.now }
    ensures { IfOk result (λ targets. targets
        ≡ map target_of (filter (λ c. has vertices.now c.vertex) rows.now.stable)) }
{
    let mut items = Items::new(alloc);
    for v in vertices {
        if let Some(copy) = rows.get(*v) {
            items.push(Target {
                vertex: copy.vertex,
                master: copy.master,
                holders: copy.holders,
            })?;
        }
    }
    Ok(Targets { items })
}
