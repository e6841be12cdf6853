ghost use Rattle.std.specs.Prelude.{◌≡◌, ◌↔◌, false, Some, IsNone, IsTrue, take};
ghost use Rattle.std.specs.List.{find};
ghost use Rattle.gr_base.specs.Places.{below};
ghost use Rattle.gr_view.specs.Modes.{is_over, is_failed};
ghost use Rattle.gr_cluster.specs.Tables.{host};
ghost use Rattle.gr_cluster.specs.Todo.{can_work};
ghost use Rattle.gr_cluster.specs.Canonical.{canonical_decision, next_canonical};

use gr_base::PlaceSet;
use gr_core::Cluster;
use gr_program::VertexProgram;
use gr_sched::Event;
use gr_view::Mode;

/// The event that comes next where nobody chooses: the delivery of the first batch in flight; else the work of the
/// least place that can work; else, after a failure and where no further live place is down, a recovery with a spare
/// for each of the first dead places; else a barrier. None exactly where the run is over.
///
/// It takes no memory, and for each place the time to look at its inbox.
pub fn next_canonical<P: VertexProgram>(cluster: &Cluster<P>) -> Option<Event>
    ensures event { result ≡ next_canonical cluster.now.cluster }
    ensures none { IsNone result ↔ IsTrue (is_over cluster.now.cluster.coordinator.mode) }
{
    match cluster.mode() {
        Mode::Done | Mode::Lost => None,
        _ => Some(next_event(cluster)),
    }
}

// The event that comes next in a run that is not over.
fn next_event<P: VertexProgram>(cluster: &Cluster<P>) -> Event
    requires { is_over cluster.now.cluster.coordinator.mode ≡ false }
    ensures { Some result ≡ next_canonical cluster.now.cluster }
{
    if cluster.flight_len() > 0 {
        return Event::Deliver(0);
    }
    match cluster.first_worker() {
        Some(p) => Event::Work(p),
        None => decision(cluster),
    }
}

// What is asked of the coordinator: after a failure a recovery, unless a further live place is down, and else a
// barrier.
fn decision<P: VertexProgram>(cluster: &Cluster<P>) -> Event
    ensures { result ≡ canonical_decision cluster.now.cluster }
{
    let coordinator = cluster.coordinator();
    let unseen = cluster.down_among(coordinator.live).count() > 0;
    if is_failed(coordinator.mode) & !unseen {
        Event::Recover(first_places(coordinator.dead, coordinator.spares))
    } else {
        Event::Barrier
    }
}

// A failure was found, and no recovery is open yet.
fn is_failed(mode: Mode) -> bool
    ensures { result ≡ is_failed mode }
{
    match mode {
        Mode::Failed => true,
        _ => false,
    }
}

// The first places of a set, at most so many.
fn first_places(places: PlaceSet, count: u8) -> PlaceSet
    ensures { result ≡ take count places }
{
    let _known = places.has(0);
    let mut first = PlaceSet::none();
    let mut left = count;
    for p in 0..64 {
        if places.has(p) & (left > 0) {
            first = first.with(p);
            left -= 1;
        }
    }
    first
}
