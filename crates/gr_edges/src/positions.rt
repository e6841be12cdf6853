ghost use Rattle.std.specs.Prelude.{◌≡◌, ◌<◌, true, length, nat_lt, slice_index_or, IfOk, IfSome};
ghost use Rattle.std.specs.List.{prefix_len};
ghost use Rattle.gr_base.specs.Rising.{RisesBy, has};
ghost use Rattle.gr_edges.specs.Vertices.{id_of, ids};

use crate::graph::VertexInfo;
use gr_base::{Items, OutOfMemory};
use std::alloc::Global;

/// The position of the vertex of an id: how many vertices have lesser ids.
///
/// The hints are those that `position_hints` makes of these vertices, though any serve: what a hint names is checked.
/// In constant time if the hint of the id is right, else with a logarithm in the vertices.
pub fn position_of(vertices: &[VertexInfo], hints: &[u32], id: u32) -> usize
    requires rise { RisesBy id_of vertices.now }
    requires stands { has (ids vertices.now) id ≡ true }
    ensures position { result ≡ prefix_len (λ v. nat_lt v.id id) vertices.now }
    ensures within { result < length vertices.now }
    ensures found { (d : VertexInfo) → id_of (slice_index_or vertices.now result d) ≡ id }
{
    match hinted_position(vertices, hints, id) {
        Some(position) => position,
        None => searched_position(vertices, id),
    }
}

// The position that the hint of an id names, if the vertex of that id stands there.
fn hinted_position(vertices: &[VertexInfo], hints: &[u32], id: u32) -> Option<usize>
    requires rise { RisesBy id_of vertices.now }
    ensures position { IfSome result (λ at. at ≡ prefix_len (λ v. nat_lt v.id id) vertices.now) }
    ensures within { IfSome result (λ at. at < length vertices.now) }
    ensures found { IfSome result (λ at. (d : VertexInfo) → id_of (slice_index_or vertices.now at d) ≡ id) }
{
    if hints.is_empty() {
        return None;
    }
    let at = hints[id as usize & (hints.len() - 1)] as usize;
    if at < vertices.len() && vertices[at].id == id {
        Some(at)
    } else {
        None
    }
}

// The position of the vertex of an id, by halving.
fn searched_position(vertices: &[VertexInfo], id: u32) -> usize
    requires rise { RisesBy id_of vertices.now }
    requires stands { has (ids vertices.now) id ≡ true }
    ensures position { result ≡ prefix_len (λ v. nat_lt v.id id) vertices.now }
    ensures within { result < length vertices.now }
    ensures found { (d : VertexInfo) → id_of (slice_index_or vertices.now result d) ≡ id }
{
    vertices.partition_point(|v| v.id < id)
}

/// Hints by which `position_of` finds these vertices: the position of each, at the last bits of its id.
///
/// In time and memory linear in the vertices: there are at most eight times as many hints, or one if there is none.
/// Of vertices that share a hint, the last has it. None share one if the ids are below four times their number.
pub fn position_hints(alloc: Global, vertices: &[VertexInfo]) -> Result<Items<u32>, OutOfMemory>
    ensures some { IfOk result (λ hints. 0 < length hints) }
{
    let slots = hint_count(vertices);
    let mut hints = vec![in alloc; 0; slots]?;
    for (position, vertex) in vertices.iter().enumerate() {
        let slot = vertex.id as usize & (slots - 1);
        hints[slot] = position.min(u32::MAX as usize) as u32;
    }
    Ok(Items::from_vec(hints))
}

// A power of two, past the greatest id or four times the vertices, whichever is less.
fn hint_count(vertices: &[VertexInfo]) -> usize
    ensures { 0 < result }
{
    match vertices {
        [.., last] => (last.id as usize + 1)
            .min(vertices.len().min(1 << 32) * 4)
            .next_power_of_two(),
        _ => 1,
    }
}
