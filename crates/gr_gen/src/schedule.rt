ghost use Rattle.std.specs.Prelude.{◌≡◌, IfOk};
ghost use Rattle.gr_gen.specs.Generated.{schedule_of};

use gr_base::{Items, OutOfMemory};
use gr_sched::{Event, Line};
use std::alloc::Global;

/// The schedule of a seed, for a cluster of four places: to the next commit, a crash, to the next commit, a repair,
/// and to the end. The place that crashes is the seed modulo 4, and it keeps nothing.
pub fn schedule_of(alloc: Global, seed: u32) -> Result<Items<Line>, OutOfMemory>
    ensures { IfOk result (λ lines. lines ≡ schedule_of seed) }
{
    let place = (seed % 4) as u8;
    let lines = [
        Line::Settle,
        Line::Step(Event::Crash(place, 0)),
        Line::Settle,
        Line::Step(Event::Repair),
        Line::Finish,
    ];
    Items::from_slice(alloc, &lines)
}
