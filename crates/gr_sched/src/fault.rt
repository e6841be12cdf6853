ghost use Rattle.std.specs.Prelude.{◌≡◌};

use gr_base::OutOfMemory;

/// Why a text is no schedule, with the number of its first faulty line, counted from 1.
#[derive(Clone, Copy, Debug, PartialEq, Eq)]
pub enum SchedFault {
    /// The line is none of the forms.
    BadLine(u32),
    /// The line names a place that is not there.
    PlaceOutOfRange(u32),
    /// The line is event line 200001.
    TooManyEvents(u32),
    /// Memory ran out.
    OutOfMemory,
}

impl From<OutOfMemory> for SchedFault {
    ghost use Rattle.gr_sched.specs.declared.fault.SchedFault.TheVariants.{OutOfMemory};

    ghost from_gives = { λ _ e. e ≡ OutOfMemory };

    fn from(_: OutOfMemory) -> SchedFault {
        SchedFault::OutOfMemory
    }
}
