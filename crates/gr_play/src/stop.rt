ghost use Rattle.std.specs.Prelude.{◌≡◌};

use gr_base::OutOfMemory;
use gr_outside::FileFault;

/// Why a schedule is not played on.
#[derive(Clone, Copy, Debug, PartialEq, Eq)]
pub(crate) enum Stop {
    TraceFault,
    NoMemory,
}

impl From<OutOfMemory> for Stop {
    ghost use Rattle.gr_play.specs.declared.stop.Stop.TheVariants.{NoMemory};

    ghost from_gives = { λ _ s. s ≡ NoMemory };

    fn from(_: OutOfMemory) -> Stop {
        Stop::NoMemory
    }
}

impl From<FileFault> for Stop {
    ghost use Rattle.gr_play.specs.Inside.Stops.{stop_of};

    ghost from_gives = { λ f s. s ≡ stop_of f };

    fn from(fault: FileFault) -> Stop {
        match fault {
            FileFault::Failed => Stop::TraceFault,
            FileFault::OutOfMemory => Stop::NoMemory,
        }
    }
}
