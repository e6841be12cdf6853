// A coordinator through commits, failures, recoveries and a repair.
ghost use Rattle.std.specs.Prelude.{IsTrue};
ghost use Rattle.gr_view.specs.Room.{HasRoom};

use crate::{Coordinator, Mode, Opening, Verdict};
use gr_base::PlaceSet;

// Whether the numbers are far from the ends of their types.
fn has_room(coordinator: &Coordinator) -> bool
    ensures { IsTrue result → HasRoom coordinator.now }
{
    if coordinator.epoch > 99 {
        return false;
    }
    if coordinator.commits > 99 {
        return false;
    }
    if coordinator.round > 99 {
        return false;
    }
    if coordinator.spares > 99 {
        return false;
    }
    coordinator.reborn.count() < 99
}

fn report(coordinator: &mut Coordinator, p: u8, due: u32) -> bool {
    if p > 63 {
        return false;
    }
    if coordinator.due > 99 {
        return false;
    }
    if due > 99 {
        return false;
    }
    if !coordinator.parties().has(p) {
        return false;
    }
    if coordinator.ready.has(p) {
        return false;
    }
    coordinator.report(p, due);
    true
}

fn barrier(coordinator: &mut Coordinator, crashed: PlaceSet) -> Option<Verdict> {
    if !has_room(coordinator) {
        return None;
    }
    if let Mode::Failed = coordinator.mode {
        if coordinator.live.includes(crashed) {
            return Some(coordinator.barrier(crashed));
        }
        return None;
    }
    if coordinator.parties().includes(crashed) {
        return Some(coordinator.barrier(crashed));
    }
    None
}

fn open_recovery(
    coordinator: &mut Coordinator,
    rebirth: PlaceSet,
    any_lost: bool,
) -> Option<Opening> {
    if has_room(coordinator) {
        return Some(coordinator.open_recovery(rebirth, any_lost));
    }
    None
}

fn open_repair(coordinator: &mut Coordinator) -> Option<u64> {
    if has_room(coordinator) {
        return coordinator.open_repair();
    }
    Some(0)
}

fn discard(coordinator: &mut Coordinator, crashed: PlaceSet) -> Option<u64> {
    if !has_room(coordinator) {
        return Some(0);
    }
    if coordinator.parties().includes(crashed) {
        return coordinator.discard(crashed);
    }
    Some(0)
}

#[test]
fn a_round_is_committed_once_all_have_reported(rt: HostRuntime) {
    let nobody = PlaceSet::none();
    let mut coordinator = Coordinator::new(2, 1, 9, true);
    assert_eq!(rt; coordinator.parties(), PlaceSet::all(2));
    assert!(rt; report(&mut coordinator, 1, 4));
    assert_eq!(rt;
        barrier(&mut coordinator, nobody),
        Some(Verdict::NotReady(0))
    );
    assert!(rt; report(&mut coordinator, 0, 3));
    assert_eq!(rt;
        barrier(&mut coordinator, nobody),
        Some(Verdict::Committed(1, 1, 7))
    );
    assert_eq!(rt; coordinator.mode, Mode::Running);
}

#[test]
fn a_failure_is_followed_by_recoveries_and_a_repair(rt: HostRuntime) {
    let nobody = PlaceSet::none();
    let first = nobody.with(0);
    let second = nobody.with(1);
    let mut coordinator = Coordinator::new(3, 2, 9, true);
    assert_eq!(rt;
        open_recovery(&mut coordinator, nobody, false),
        Some(Opening::Idle)
    );
    assert_eq!(rt;
        barrier(&mut coordinator, first.with(1)),
        Some(Verdict::Failed(first.with(1)))
    );
    assert_eq!(rt; barrier(&mut coordinator, nobody), Some(Verdict::Idle));
    assert_eq!(rt; open_repair(&mut coordinator), None);
    assert_eq!(rt;
        open_recovery(&mut coordinator, first.with(1), false),
        Some(Opening::Opened(2))
    );
    assert_eq!(rt; discard(&mut coordinator, first), Some(3));
    assert_eq!(rt; coordinator.spares, 1);
    assert_eq!(rt;
        open_recovery(&mut coordinator, second, false),
        Some(Opening::Opened(4))
    );
    assert!(rt; report(&mut coordinator, 1, 0));
    assert!(rt; report(&mut coordinator, 2, 5));
    assert_eq!(rt;
        barrier(&mut coordinator, nobody),
        Some(Verdict::Committed(1, 0, 5))
    );
    assert_eq!(rt; coordinator.parties(), second.with(2));
    assert_eq!(rt; coordinator.retired, first);
    assert_eq!(rt; open_repair(&mut coordinator), Some(6));
    assert_eq!(rt; discard(&mut coordinator, nobody), Some(7));
    assert_eq!(rt; coordinator.mode, Mode::Running);
}

#[test]
fn a_lost_vertex_ends_the_run(rt: HostRuntime) {
    let nobody = PlaceSet::none();
    let all = PlaceSet::all(1);
    let mut coordinator = Coordinator::new(1, 0, 9, true);
    assert_eq!(rt; barrier(&mut coordinator, all), Some(Verdict::Failed(all)));
    assert_eq!(rt;
        open_recovery(&mut coordinator, nobody, true),
        Some(Opening::Lost)
    );
    assert_eq!(rt; barrier(&mut coordinator, nobody), Some(Verdict::Idle));
    assert_eq!(rt; discard(&mut coordinator, nobody), None);
}
