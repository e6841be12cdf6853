ghost use Rattle.std.specs.Prelude.{◌≡◌, IsSomeAnd, IsTrue, filter};
ghost use Rattle.gr_rules.specs.Rows.{row, into};
ghost use Rattle.gr_rules.specs.Round.{along_row, own_sum};
ghost use Rattle.gr_low.specs.Sources.{IsSource, SourcesReady};

use gr_arcs::Arcs;
use gr_base::NumberedEdge;
use gr_program::VertexProgram;
use gr_rows::Rows;

/// The sum of what the stable edges into a vertex bring to it, joined from the unit in rising number: an edge that
/// stands twice in the graph brings its part twice, and a vertex with no edge here has the unit. It takes no memory.
///
/// It takes a search among the place's edges, and for each edge into the vertex one among its copies, mostly in
/// constant time each.
pub fn gather_low<P: VertexProgram>(
    program: &P,
    rows: &Rows<P::Value>,
    arcs: &Arcs,
    v: u32,
) -> P::Acc
    requires sources { SourcesReady (P.program_of program.now) rows.now.stable (filter (into v) arcs.now.stable) }
    ensures sum { result ≡ own_sum (P.program_of program.now) rows.now.stable arcs.now.stable v }
    ensures kept { IsTrue ((P.program_of program.now).is_acc result) }
{
    let mut sum = program.unit();
    for edge in arcs.edges_into(v) {
        let part = contribution(program, rows, *edge);
        sum = program.join(sum, part);
    }
    sum
}

/// What an edge brings to its target from the copy of its source.
fn contribution<P: VertexProgram>(program: &P, rows: &Rows<P::Value>, arc: NumberedEdge) -> P::Acc
    requires { IsSomeAnd (row rows.now.stable arc.edge.src) (IsSource (P.program_of program.now)) }
    ensures value { result ≡ along_row (P.program_of program.now) (row rows.now.stable arc.edge.src) arc.edge.weight }
    ensures kept { IsTrue ((P.program_of program.now).is_acc result) }
{
    match rows.get(arc.edge.src) {
        Some(copy) => match copy.value {
            Some(value) => program.along(value, arc.edge.weight, copy.outdeg),
            None => program.unit(),
        },
        None => program.unit(),
    }
}
