use gr_arcs::Arcs;
use gr_base::PlaceSet;
use gr_batch::Stage;
use gr_flight::Inbox;
use gr_program::VertexProgram;

/// A place in a round: in which epoch, the other parties, the stage that it is at, whether its new values are computed
/// and staged, and the threshold above which a vertex is high.
#[derive(Drop)]
pub(crate) struct Party {
    pub(crate) place: u8,
    pub(crate) epoch: u64,
    pub(crate) others: PlaceSet,
    pub(crate) stage: Stage,
    pub(crate) has_new_values: bool,
    pub(crate) theta: u32,
}

/// What a place reads in a round and leaves as it is: the program, its edges, and the batches that came.
#[derive(Drop)]
pub struct Given<'a, P: VertexProgram> {
    pub program: &'a P,
    pub arcs: &'a Arcs,
    pub inbox: &'a Inbox<P::Value, P::Acc>,
}
