ghost use Rattle.std.specs.Prelude.{IsTrue, ◌≡◌, ◌<◌, ◌≤◌, ◌+◌, ◌^◌, IfSome, slice_get, nat_lt, length, filter, ◌==◌};
ghost use Rattle.std.specs.List.{prefix_len};
ghost use Rattle.std.specs.List.Sorted.{IsNonDecreasingBy};
ghost use Rattle.std.specs.Vec.{vec_capacity};
ghost use Rattle.gr_base.specs.Rising.{RisesBy};
ghost use Rattle.gr_arcs.specs.End.{vertex_at};
ghost use Rattle.gr_arcs.specs.Index.{IsIndex};
ghost use Rattle.gr_arcs.specs.Layers.{number_of};

use crate::copies::copy_over;
use crate::end::End;
use gr_base::NumberedEdge;
use gr_numbered::SearchHints;

/// How many edges are looked at one by one before a search.
const FEW_EDGES: usize = 8;

/// Makes an index of a layer: its edges by rising vertex at one end, and those of a vertex by rising number. It
/// takes no memory, and linear-logarithmic time.
pub fn index_edges(index: &mut Vec<NumberedEdge>, end: End, edges: &[NumberedEdge])
    requires rises { RisesBy number_of edges.now }
    requires room { length edges.now ≤ vec_capacity index.old }
    ensures index { IsIndex end edges.now index.new.items }
    ensures capacity { vec_capacity index.old ≤ vec_capacity index.new }
{
    copy_over(index, edges);
    index.sort_unstable_by_key(|edge| (end.of(&edge.edge), edge.number));
}

/// Makes hints those of an index, in linear time. It takes no memory.
pub fn fill_hints(hints: &mut SearchHints, end: End, index: &[NumberedEdge]) {
    let greatest = match index.last() {
        Some(edge) => end.of(&edge.edge),
        None => 0,
    };
    hints.begin(greatest);
    for (at, edge) in index.iter().enumerate() {
        hints.note(end.of(&edge.edge), at);
    }
    hints.end(index.len());
}

/// How many edges of an index have at this end a vertex below a number. It takes constant time if the hints are those
/// of the index and their buckets have few edges, and else at most logarithmic time.
fn count_below(hints: &SearchHints, index: &[NumberedEdge], end: End, bound: u64) -> usize
    requires { IsNonDecreasingBy (λ e. vertex_at end e.edge) index.now }
    ensures count { result ≡ prefix_len (λ e. nat_lt (vertex_at end e.edge) bound) index.now }
    ensures within { result ≤ length index.now }
{
    let (from, to) = hints.range(bound, index.len());
    let at = from + index[from..to].partition_point(|edge| u64::from(end.of(&edge.edge)) < bound);
    if divides(index, at, end, bound) {
        at
    } else {
        count_below_anywhere(index, end, bound)
    }
}

/// The same, in logarithmic time.
fn count_below_anywhere(index: &[NumberedEdge], end: End, bound: u64) -> usize
    requires { IsNonDecreasingBy (λ e. vertex_at end e.edge) index.now }
    ensures count { result ≡ prefix_len (λ e. nat_lt (vertex_at end e.edge) bound) index.now }
    ensures within { result ≤ length index.now }
{
    index.partition_point(|edge| u64::from(end.of(&edge.edge)) < bound)
}

/// Whether the edges before a position have at this end a vertex below a number, and those from there on do not. It
/// looks at the two beside the position, since the vertices do not fall.
fn divides(index: &[NumberedEdge], at: usize, end: End, bound: u64) -> bool
    requires sorted { IsNonDecreasingBy (λ e. vertex_at end e.edge) index.now }
    requires within { at ≤ length index.now }
    ensures { IsTrue result → prefix_len (λ e. nat_lt (vertex_at end e.edge) bound) index.now ≡ at }
{
    if at > 0 && u64::from(end.of(&index[at - 1].edge)) >= bound {
        return false;
    }
    if at < index.len() && u64::from(end.of(&index[at].edge)) < bound {
        return false;
    }
    true
}

/// How many edges of an index have at this end at most this vertex, if so many have a lesser one. It looks at the next
/// few edges first, since most vertices have few.
fn count_through(
    hints: &SearchHints,
    index: &[NumberedEdge],
    end: End,
    v: u64,
    below: usize,
) -> usize
    requires sorted { IsNonDecreasingBy (λ e. vertex_at end e.edge) index.now }
    requires within { below ≤ length index.now }
    requires number { v < 2 ^ 32 }
    ensures count { result ≡ prefix_len (λ e. nat_lt (vertex_at end e.edge) (v + 1)) index.now }
    ensures within { result ≤ length index.now }
{
    let few = index.len().min(below.saturating_add(FEW_EDGES));
    let mut at = below;
    while at < few && u64::from(end.of(&index[at].edge)) <= v {
        at += 1;
    }
    if divides(index, at, end, v + 1) {
        at
    } else {
        count_below(hints, index, end, v + 1)
    }
}

/// The edges of an index that have this vertex at this end, found as by `count_below`.
pub fn edges_at<'a>(
    hints: &SearchHints,
    index: &'a [NumberedEdge],
    end: End,
    v: u32,
) -> &'a [NumberedEdge]
    requires { IsNonDecreasingBy (λ e. vertex_at end e.edge) index.now }
    ensures { result.now ≡ filter (λ e. vertex_at end e.edge == v) index.now }
{
    let v = u64::from(v);
    let first = count_below(hints, index, end, v);
    let past = count_through(hints, index, end, v, first);
    let rest = &index[first..];
    &rest[..past - first]
}
