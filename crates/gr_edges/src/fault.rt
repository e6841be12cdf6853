ghost use Rattle.std.specs.Prelude.{◌≡◌};

use gr_base::OutOfMemory;

/// Why a text is no graph, with the number of its first faulty line, counted from 1.
#[derive(Clone, Copy, Debug, PartialEq, Eq)]
pub enum GraphFault {
    /// A field of digits is above 4294967295.
    NumberTooLarge(u32),
    /// A field has another byte than a digit, or there are more than three fields.
    BadLine(u32),
    /// The edges up to this line are more than 4194304.
    TooManyEdges(u32),
    /// The ids up to this line are more than 1048576.
    TooManyVertices(u32),
    /// Memory ran out.
    OutOfMemory,
}

impl From<OutOfMemory> for GraphFault {
    ghost use Rattle.gr_edges.specs.declared.fault.GraphFault.TheVariants.{OutOfMemory};

    ghost from_gives = { λ _ e. e ≡ OutOfMemory };

    fn from(_: OutOfMemory) -> GraphFault {
        GraphFault::OutOfMemory
    }
}
