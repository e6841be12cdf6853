ghost use Rattle.std.specs.Prelude.{◌≡◌, ◌++◌, ℕ, map, OnOk, IfOk};
ghost use Rattle.gr_base.specs.Rising.{RisesBy, has};
ghost use Rattle.gr_signal.specs.Signals.{is_target};

use gr_arcs::Arcs;
use gr_base::{Items, NumberedEdge, OutOfMemory};
use std::alloc::Global;

/// The targets of the stable edges out of woken vertices, rising, each once.
///
/// It takes a search among the edges for each woken vertex, and sorts the targets of the edges out of it.
///
/// # Errors
///
/// `OutOfMemory` if memory runs out.
pub(crate) fn targets_of(
    alloc: Global,
    arcs: &Arcs,
    woken: &[u32],
) -> Result<Items<u32>, OutOfMemory>
    ensures members { IfOk result (λ targets. (v : ℕ) → has targets v ≡ is_target woken.now arcs.now.stable v) }
    ensures rise { IfOk result (λ targets. RisesBy (λ v. v) targets) }
{
    let mut targets = ends_of(alloc, arcs, woken)?;
    targets.sort_unstable();
    targets.dedup();
    Ok(Items::from_vec(targets))
}

/// The targets of the stable edges out of woken vertices, in any order, one for each edge.
fn ends_of(alloc: Global, arcs: &Arcs, woken: &[u32]) -> Result<Vec<u32>, OutOfMemory>
    ensures { IfOk result (λ ends. (v : ℕ) → has ends.items v ≡ is_target woken.now arcs.now.stable v) }
{
    let mut ends = Vec::new(alloc);
    for v in woken {
        push_targets(&mut ends, arcs.edges_out_of(*v))?;
    }
    Ok(ends)
}

/// Adds the target of each edge.
fn push_targets(ends: &mut Vec<u32>, edges: &[NumberedEdge]) -> Result<(), OutOfMemory>
    ensures { OnOk result (ends.new.items ≡ ends.old.items ++ map (λ e. e.edge.dst) edges.now) }
{
    for edge in edges {
        ends.push(edge.edge.dst)?;
    }
    Ok(())
}
