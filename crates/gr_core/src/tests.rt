// A cluster at load, a run of one that nothing disturbs, and what comes of crashes.
ghost use Rattle.std.specs.Prelude.{◌≡◌, ◌≤◌, ◌<◌, ◌-◌, ◌^◌, true, length};
ghost use Rattle.gr_view.specs.Modes as modes;

use crate::{Cluster, Host};
use gr_base::{OutOfMemory, PlaceSet};
use gr_batch::{Outcome, Stage};
use gr_edges::read_graph;
use gr_job::read_job;
use gr_min::{Distance, Shortest};
use gr_program::VertexCopy;
use gr_sched::Event;
use gr_view::Mode;
use std::alloc::Global;
use std::test::Fail;

fn loaded(alloc: Global, graph: &[u8], job: &[u8]) -> Result<Cluster<Shortest>, Fail>
    requires { length graph.now ≤ 268435456 }
{
    let graph = read_graph(alloc, graph, false)?;
    let job = read_job(alloc, job)?;
    Ok(Cluster::load(alloc, &graph, &job, Shortest { source: 0 })?)
}

const TWO_PLACES: &[u8] = b"places = 2\nprogram = \"shortest\"\nsource = 0\n";

const WITH_A_SPARE: &[u8] = b"places = 2\nprogram = \"shortest\"\nsource = 0\nspares = 1\n";

const THREE_PLACES: &[u8] = b"places = 3\nprogram = \"shortest\"\nsource = 0\n";

fn triangle(alloc: Global) -> Result<Cluster<Shortest>, Fail> {
    loaded(alloc, b"0 1\n1 2\n0 2", TWO_PLACES)
}

fn copy_at(cluster: &Cluster<Shortest>, p: u8, v: u32) -> Option<VertexCopy<Distance>> {
    if p < cluster.places() {
        return cluster.copy_at(p, v);
    }
    None
}

fn can_work(cluster: &Cluster<Shortest>, p: u8) -> bool {
    if p >= cluster.places() {
        return false;
    }
    cluster.can_work(p)
}

// A copy that both places have.
fn everywhere(
    vertex: u32,
    indeg: u32,
    outdeg: u32,
    master: u8,
    length: u64,
) -> Option<VertexCopy<Distance>> {
    Some(VertexCopy {
        vertex,
        indeg,
        outdeg,
        master,
        holders: PlaceSet::all(2),
        value: Some(Distance(length)),
        due: true,
    })
}

#[test]
fn both_places_hold_each_vertex_of_a_triangle(rt: HostRuntime) -> Result<(), Fail> {
    let cluster = triangle(rt.alloc())?;
    assert_eq!(rt; cluster.places(), 2);
    assert_eq!(rt; cluster.up(), PlaceSet::all(2));
    assert_eq!(rt; cluster.flight_len(), 0);
    assert_eq!(rt; cluster.coordinator().limit, 1000);
    assert_eq!(rt; cluster.mode(), Mode::Running);
    assert_eq!(rt; cluster.rounds(), 0);
    assert_eq!(rt;
        (can_work(&cluster, 0), can_work(&cluster, 1)),
        (true, true)
    );
    let far = u64::MAX;
    for (vertex, indeg, outdeg, master, length) in [
        (0, 0, 2, 0, 0),
        (1, 1, 1, 1, far),
        (2, 2, 0, 0, far),
    ] {
        for p in 0..2 {
            assert_eq!(rt;
                copy_at(&cluster, p, vertex),
                everywhere(vertex, indeg, outdeg, master, length)
            );
        }
    }
    assert_eq!(rt; copy_at(&cluster, 0, 3), None);
    Ok(())
}

// Whether no count of the cluster is at its end.
fn has_room(cluster: &Cluster<Shortest>) -> bool
    ensures flight { result ≡ true → length cluster.now.cluster.flight < 2 ^ 32 - 1 }
    ensures serial { result ≡ true → cluster.now.cluster.serial < 2 ^ 64 - 1 }
    ensures epoch { result ≡ true → cluster.now.cluster.coordinator.epoch < 2 ^ 64 - 1 }
    ensures commits { result ≡ true → cluster.now.cluster.coordinator.commits < 2 ^ 64 - 1 }
{
    let coordinator = cluster.coordinator();
    if cluster.flight_len() == u32::MAX || cluster.serial == u64::MAX {
        return false;
    }
    coordinator.epoch != u64::MAX && coordinator.commits != u64::MAX
}

// The outcome of an event, if nothing forbids it.
fn take(
    cluster: &mut Cluster<Shortest>,
    event: Event,
) -> Result<Option<Outcome<Distance, Distance>>, OutOfMemory> {
    if !has_room(cluster) {
        return Ok(None);
    }
    match event {
        Event::Work(p) | Event::Crash(p, _) => {
            if p >= cluster.places() {
                return Ok(None);
            }
            Ok(Some(cluster.step(event)?))
        }
        _ => Ok(Some(cluster.step(event)?)),
    }
}

// Takes an event, if nothing forbids it.
fn play(cluster: &mut Cluster<Shortest>, event: Event) -> Result<(), OutOfMemory> {
    let _outcome = take(cluster, event)?;
    Ok(())
}

// Works and deliveries in turn, until there is nothing left to do in a round or a rebuild of two places.
fn settle(cluster: &mut Cluster<Shortest>) -> Result<(), OutOfMemory> {
    for _ in 0..30 {
        for event in [
            Event::Work(0),
            Event::Work(1),
            Event::Deliver(0),
            Event::Discarded(0),
        ] {
            play(cluster, event)?;
        }
    }
    Ok(())
}

// Rounds and rebuilds one after the other, each with its barrier.
fn go_on(cluster: &mut Cluster<Shortest>) -> Result<(), OutOfMemory> {
    for _ in 0..5 {
        settle(cluster)?;
        play(cluster, Event::Barrier)?;
    }
    Ok(())
}

// The `i`-th value of a run that is done: its vertex and its distance.
fn result_at(cluster: &Cluster<Shortest>, i: usize) -> Result<Option<(u32, u64)>, OutOfMemory> {
    match cluster.mode() {
        Mode::Done => match cluster.results()?.as_slice().get(i) {
            Some(x) => Ok(Some((x.vertex, x.value.0))),
            None => Ok(None),
        },
        _ => Ok(None),
    }
}

#[test]
fn a_graph_without_vertices_is_done_at_load(rt: HostRuntime) -> Result<(), Fail> {
    let empty = loaded(rt.alloc(), b"", TWO_PLACES)?;
    assert_eq!(rt; empty.mode(), Mode::Done);
    assert_eq!(rt; result_at(&empty, 0)?, None);
    Ok(())
}

#[test]
fn a_run_ends_with_the_distances(rt: HostRuntime) -> Result<(), Fail> {
    let mut cluster = triangle(rt.alloc())?;
    assert_eq!(rt; result_at(&cluster, 0)?, None);
    go_on(&mut cluster)?;
    assert_eq!(rt; (cluster.mode(), cluster.rounds()), (Mode::Done, 2));
    assert_eq!(rt;
        (can_work(&cluster, 0), can_work(&cluster, 1)),
        (false, false)
    );
    for (i, value) in [
        (0, Some((0, 0))),
        (1, Some((1, 1))),
        (2, Some((2, 1))),
        (3, None),
    ] {
        assert_eq!(rt; result_at(&cluster, i)?, value);
    }
    Ok(())
}

// What an event told, for the outcomes of crashes and of what follows them.
#[derive(Clone, Copy, Debug, PartialEq, Eq)]
enum Told {
    Idle,
    Adopted(u64),
    Crashed(u32),
    Failed(PlaceSet),
    Opened(u64),
    LostFound(u32),
    Discarded(u64),
    Else,
}

fn answered(outcome: &Option<Outcome<Distance, Distance>>) -> Told {
    match outcome {
        Some(Outcome::Idle) => Told::Idle,
        Some(Outcome::Adopted(epoch)) => Told::Adopted(*epoch),
        Some(Outcome::Crashed(kept)) => Told::Crashed(*kept),
        Some(Outcome::Failed(places)) => Told::Failed(*places),
        Some(Outcome::Opened(epoch)) => Told::Opened(*epoch),
        Some(Outcome::LostFound(count)) => Told::LostFound(*count),
        Some(Outcome::Discarded(epoch)) => Told::Discarded(*epoch),
        _ => Told::Else,
    }
}

// The `i`-th lost vertex of a run that has lost some.
fn lost_at(cluster: &Cluster<Shortest>, i: usize) -> Result<Option<u32>, OutOfMemory> {
    match cluster.mode() {
        Mode::Lost => Ok(cluster.lost_list()?.as_slice().get(i).copied()),
        _ => Ok(None),
    }
}

#[test]
fn a_vertex_whose_holders_are_dead_is_lost(rt: HostRuntime) -> Result<(), Fail> {
    let mut cluster = loaded(rt.alloc(), b"0 1\n1 2\n0 2", THREE_PLACES)?;
    let recover = Event::Recover(PlaceSet::none());
    let crashed = PlaceSet::none().with(0).with(2);
    for (event, outcome) in [
        (recover, Told::Idle),
        (Event::Crash(0, 0), Told::Crashed(0)),
        (Event::Crash(0, 0), Told::Idle),
        (Event::Work(0), Told::Idle),
        (Event::Crash(2, 9), Told::Crashed(0)),
        (Event::Barrier, Told::Failed(crashed)),
        (Event::Barrier, Told::Idle),
        (Event::Discard, Told::Idle),
        (Event::Work(1), Told::Adopted(1)),
        (Event::Work(1), Told::Idle),
        (recover, Told::LostFound(1)),
        (Event::Barrier, Told::Idle),
    ] {
        assert_eq!(rt; answered(&take(&mut cluster, event)?), outcome);
    }
    assert_eq!(rt; cluster.mode(), Mode::Lost);
    assert_eq!(rt; cluster.up(), PlaceSet::none().with(1));
    assert_eq!(rt;
        (lost_at(&cluster, 0)?, lost_at(&cluster, 1)?),
        (Some(2), None)
    );
    assert_eq!(rt; copy_at(&cluster, 0, 0), None);
    Ok(())
}

#[test]
fn what_is_opened_is_dropped_again(rt: HostRuntime) -> Result<(), Fail> {
    let mut cluster = triangle(rt.alloc())?;
    for (event, outcome, mode) in [
        (Event::Discard, Told::Discarded(1), Mode::Running),
        (Event::Repair, Told::Opened(2), Mode::Repairing),
        (Event::Repair, Told::Idle, Mode::Repairing),
        (Event::Discard, Told::Discarded(3), Mode::Running),
        (Event::Work(0), Told::Adopted(3), Mode::Running),
        (Event::Crash(1, 0), Told::Crashed(0), Mode::Running),
        (
            Event::Barrier,
            Told::Failed(PlaceSet::none().with(1)),
            Mode::Failed,
        ),
        (
            Event::Recover(PlaceSet::none()),
            Told::Opened(5),
            Mode::Recovering,
        ),
        (Event::Discard, Told::Discarded(6), Mode::Failed),
    ] {
        assert_eq!(rt; answered(&take(&mut cluster, event)?), outcome);
        assert_eq!(rt; cluster.mode(), mode);
    }
    let coordinator = cluster.coordinator();
    assert_eq!(rt; coordinator.live, PlaceSet::none().with(0));
    assert_eq!(rt; coordinator.dead, PlaceSet::none().with(1));
    assert!(rt; copy_at(&cluster, 0, 2).is_some());
    Ok(())
}

#[test]
fn a_recovery_goes_on_to_the_distances(rt: HostRuntime) -> Result<(), Fail> {
    let last = PlaceSet::none().with(1);
    for (rebirth, live) in [
        (last, PlaceSet::all(2)),
        (PlaceSet::none(), PlaceSet::none().with(0)),
    ] {
        let mut cluster = loaded(rt.alloc(), b"0 1\n1 2\n0 2", WITH_A_SPARE)?;
        settle(&mut cluster)?;
        for event in [Event::Crash(1, 0), Event::Barrier, Event::Recover(rebirth)] {
            play(&mut cluster, event)?;
        }
        assert_eq!(rt; cluster.mode(), Mode::Recovering);
        go_on(&mut cluster)?;
        assert_eq!(rt; (cluster.mode(), cluster.rounds()), (Mode::Done, 2));
        assert_eq!(rt; (cluster.up(), cluster.coordinator().live), (live, live));
        for (i, value) in [
            (0, Some((0, 0))),
            (1, Some((1, 1))),
            (2, Some((2, 1))),
            (3, None),
        ] {
            assert_eq!(rt; result_at(&cluster, i)?, value);
        }
    }
    Ok(())
}

#[test]
fn the_types_have_these_fields_and_no_others(rt: HostRuntime) -> Result<(), Fail> {
    let mut cluster = triangle(rt.alloc())?;
    settle(&mut cluster)?;
    play(&mut cluster, Event::Crash(0, 0))?;
    let Cluster {
        alloc: _,
        hosts,
        logs,
        flight,
        serial,
        coordinator,
        places,
        losses,
        theta,
        program,
        kept,
        resting,
        retired,
    } = &cluster;
    assert_eq!(rt; (hosts.len(), logs.len(), *places), (2, 2, 2));
    assert_eq!(rt; (flight.len(), *serial, coordinator.epoch), (0, 8, 0));
    assert_eq!(rt; (*losses, *theta, program.source), (1, 100, 0));
    assert!(rt; kept.at(0).is_none());
    assert_eq!(rt; *resting, PlaceSet::none());
    assert!(rt; retired.is_none());
    let found = match hosts.as_slice() {
        [None, Some(host)] => {
            let Host {
                rows,
                arcs,
                inbox: _,
                epoch,
                installed,
                round,
                appended,
            } = host;
            assert_eq!(rt; (rows.count(), arcs.count()), (3, 1));
            assert_eq!(rt; (*epoch, *installed), (0, 0));
            assert_eq!(rt; round.stage(), Stage::End);
            assert!(rt; !*appended);
            true
        }
        _ => false,
    };
    assert!(rt; found);
    Ok(())
}
