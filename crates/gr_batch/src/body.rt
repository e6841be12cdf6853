use gr_base::Items;
use gr_program::{Datum, VertexCopy};

/// The part of a vertex's sum that the edges at one place make.
#[derive(Clone, Copy, Debug, PartialEq, Eq)]
pub struct Part<A> {
    pub vertex: u32,
    pub acc: A,
}

/// A new value of a vertex, and whether its change wakes the targets of the vertex's edges.
#[derive(Clone, Copy, Debug, PartialEq, Eq)]
pub struct NewValue<V> {
    pub vertex: u32,
    pub value: V,
    pub wake: bool,
}

/// What a batch carries, by the stage in which it is sent. The vertices rise.
///
/// In a round: parts of sums for the masters of high vertices; new values for the holders; vertices that an edge at
/// the sender signals to their masters; vertices that are due next for their holders. In a rebuild: vertices that the
/// sender lacks and asks for; copies that it grants.
#[derive(Debug, Drop)]
pub enum Body<V: Datum, A: Datum> {
    Gather(Items<Part<A>>),
    Update(Items<NewValue<V>>),
    Signal(Items<u32>),
    Call(Items<u32>),
    Ask(Items<u32>),
    Grant(Items<VertexCopy<V>>),
}
