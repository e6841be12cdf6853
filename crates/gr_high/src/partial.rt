ghost use Rattle.std.specs.Prelude.{◌≡◌, IfOk, IfSome, IsSomeAnd, IsTrue, nat_lt, find, ◌==◌};
ghost use Rattle.std.specs.List.{All, list_any, prefix_len};
ghost use Rattle.gr_base.specs.Rising.{RisesBy};
ghost use Rattle.gr_rules.specs.Rows.{row, into};
ghost use Rattle.gr_rules.specs.Round.{gather_line, gather_body};
ghost use Rattle.gr_low.specs.Sources.{SourcesReady};
ghost use Rattle.gr_high.specs.Parts.{is_due_high, with_part};

use gr_arcs::Arcs;
use gr_base::{Items, OutOfMemory};
use gr_batch::Part;
use gr_cut::is_high;
use gr_low::gather_low;
use gr_program::{Datum, VertexCopy, VertexProgram};
use gr_rows::Rows;
use std::alloc::Global;

/// The parts of sums that a place sends to the place `to` before new values are computed: one for each vertex that is
/// due, has more than `theta` edges into it, is mastered by `to` and has a stable edge into it here.
///
/// It goes through the due copies only. For each due high vertex that `to` masters it costs a search among the
/// edges, and if that finds one, what the sum costs. The one error is that memory ran out.
pub fn partials<P: VertexProgram>(
    alloc: Global,
    program: &P,
    rows: &Rows<P::Value>,
    arcs: &Arcs,
    theta: u32,
    to: u8,
) -> Result<Items<Part<P::Acc>>, OutOfMemory>
    requires sources { SourcesReady (P.program_of program.now) rows.now.stable arcs.now.stable }
    ensures body { IfOk result (λ parts. parts
        ≡ gather_body (P.program_of program.now) theta to rows.now.stable arcs.now.stable) }
    ensures rise { IfOk result (λ parts. RisesBy (λ x. x.vertex) parts) }
    ensures high { IfOk result (λ parts.
        All (λ x. IsSomeAnd (row rows.now.stable x.vertex) (λ c. IsTrue (is_due_high theta c))) parts) }
    ensures kept { IfOk result (λ parts. All (λ x. IsTrue ((P.program_of program.now).is_acc x.acc)) parts) }
{
    let mut parts = Items::new(alloc);
    let mut i = 0;
    while let Some(copy) = rows.due_at(i) {
        if let Some(part) = part_of(program, rows, arcs, theta, to, &copy) {
            parts.push(part)?;
        }
        i += 1;
    }
    Ok(parts)
}

/// A sum joined with the part of a vertex, or the sum as it is where there is none. It takes no memory, and time
/// logarithmic in the number of parts.
pub fn join_partials<P: VertexProgram>(
    program: &P,
    own: P::Acc,
    parts: &[Part<P::Acc>],
    v: u32,
) -> P::Acc
    requires rise { RisesBy (λ x. x.vertex) parts.now }
    requires own { IsTrue ((P.program_of program.now).is_acc own) }
    requires parts { All (λ x. IsTrue ((P.program_of program.now).is_acc x.acc)) parts.now }
    ensures sum { result ≡ with_part (P.program_of program.now) own (find (λ x. x.vertex == v) parts.now) }
    ensures kept { IsTrue ((P.program_of program.now).is_acc result) }
{
    match part_for(parts, v) {
        Some(part) => program.join(own, part.acc),
        None => own,
    }
}

/// The part of a copy's vertex, where it is sent to the place `to`.
fn part_of<P: VertexProgram>(
    program: &P,
    rows: &Rows<P::Value>,
    arcs: &Arcs,
    theta: u32,
    to: u8,
    copy: &VertexCopy<P::Value>,
) -> Option<Part<P::Acc>>
    requires { SourcesReady (P.program_of program.now) rows.now.stable arcs.now.stable }
    ensures part { result ≡ gather_line (P.program_of program.now) theta to rows.now.stable arcs.now.stable copy.now }
    ensures kept { IfSome result (λ x. IsTrue ((P.program_of program.now).is_acc x.acc)) }
{
    if !copy.due {
        return None;
    }
    if !is_high(copy.indeg, theta) {
        return None;
    }
    if copy.master != to {
        return None;
    }
    if !has_edge_into(arcs, copy.vertex) {
        return None;
    }
    Some(Part {
        vertex: copy.vertex,
        acc: gather_low(program, rows, arcs, copy.vertex),
    })
}

/// Whether a stable edge goes into a vertex.
fn has_edge_into(arcs: &Arcs, v: u32) -> bool
    ensures { result ≡ list_any (into v) arcs.now.stable }
{
    !arcs.edges_into(v).is_empty()
}

/// The part of a vertex.
fn part_for<A: Datum>(parts: &[Part<A>], v: u32) -> Option<Part<A>>
    requires { RisesBy (λ x. x.vertex) parts.now }
    ensures { result ≡ find (λ x. x.vertex == v) parts.now }
{
    let at = place_of(parts, v);
    if at < parts.len() && parts[at].vertex == v {
        Some(parts[at])
    } else {
        None
    }
}

/// How many parts have a vertex below this one.
fn place_of<A: Datum>(parts: &[Part<A>], v: u32) -> usize
    requires { RisesBy (λ x. x.vertex) parts.now }
    ensures { result ≡ prefix_len (λ x. nat_lt x.vertex v) parts.now }
{
    parts.partition_point(|part| part.vertex < v)
}
