// Small worlds, whose steps, copies and results are known.
mod stepped;
mod texts;

use gr_base::PlaceSet;
use gr_min::Shortest;
use gr_sched::Event;
use gr_sum::{InDegree, Rank};
use std::test::Fail;
use stepped::Stepped;
use texts::{Told, round_on_two_places};

#[test]
fn an_edge_on_two_places(rt: HostRuntime) -> Result<(), Fail> {
    let mut run = Stepped::load(
        rt.alloc(),
        b"0 1",
        b"places = 2\nprogram = \"indegree\"\n",
        InDegree,
    )?;
    let loaded = b"0 has 0:0:1:0:0,1:0:1 1:1:0:1:0,1:-:1\n1 has 0:0:1:0:0,1:0:1 1:1:0:1:0,1:0:1\n";
    assert_eq!(rt; run.copies(3)?.as_slice(), loaded.as_slice());
    let lines = b"work 0 compute gather
work 0 send 0 gather to 1
delivered 0 from 0 to 1 epoch 0 round 0 gather taken
work 1 compute gather
work 1 send 1 gather to 0
delivered 1 from 1 to 0 epoch 0 round 0 gather taken
work 0 compute update
work 0 send 2 update to 1
delivered 2 from 0 to 1 epoch 0 round 0 update taken 0:0:0
work 1 compute update
work 1 send 3 update to 0
delivered 3 from 1 to 0 epoch 0 round 0 update taken
work 0 compute signal
work 0 send 4 signal to 1
delivered 4 from 0 to 1 epoch 0 round 0 signal taken
work 1 compute signal
work 1 send 5 signal to 0
delivered 5 from 1 to 0 epoch 0 round 0 signal taken
work 0 compute call
work 0 send 6 call to 1
delivered 6 from 0 to 1 epoch 0 round 0 call taken
work 1 compute call
work 1 send 7 call to 0
delivered 7 from 1 to 0 epoch 0 round 0 call taken
work 0 compute end
work 0 ready 0
work 1 compute end
work 1 ready 0
barrier committed 1 round 1 due 0
";
    assert_eq!(rt; run.settle()?.as_slice(), lines.as_slice());
    let done = b"0 has 0:0:1:0:0,1:0:0 1:1:0:1:0,1:-:0\n1 has 0:0:1:0:0,1:0:0 1:1:0:1:0,1:1:0\n";
    assert_eq!(rt; run.copies(3)?.as_slice(), done.as_slice());
    assert_eq!(rt;
        run.results()?.as_slice(),
        b"done 1 2\n0 0\n1 1\n".as_slice()
    );
    Ok(())
}

#[test]
fn ranks_along_a_chain_after_each_of_three_rounds(rt: HostRuntime) -> Result<(), Fail> {
    let alloc = rt.alloc();
    let job = b"places = 2\nspares = 1\nprogram = \"rank\"\n";
    let mut run = Stepped::load(alloc, b"0 1\n2 3\n3 4\n4 5\n5 6", job, Rank)?;
    let loaded =
        b"0 has 0:0:1:0:0,1:1000000:1 1:1:0:1:0,1:-:1 2:0:1:0:0,1:1000000:1 3:1:1:1:0,1:1000000:1 \
          4:1:1:0:0,1:1000000:1 5:1:1:1:0,1:1000000:1 6:1:0:0:0,1:1000000:1\n\
          1 has 0:0:1:0:0,1:1000000:1 1:1:0:1:0,1:1000000:1 2:0:1:0:0,1:1000000:1 3:1:1:1:0,1:1000000:1 \
          4:1:1:0:0,1:1000000:1 5:1:1:1:0,1:1000000:1 6:1:0:0:0,1:-:1\n";
    assert_eq!(rt; run.copies(7)?.as_slice(), loaded.as_slice());
    let lines = round_on_two_places(
        alloc,
        0,
        &Told {
            update: [
                b" 0:150000:1 2:150000:1 4:1000000:0",
                b" 3:1000000:0 5:1000000:0",
            ],
            call: [b"", b" 1 3"],
            due: [0, 2],
        },
    )?;
    assert_eq!(rt; run.settle()?.as_slice(), lines.as_slice());
    let copies =
        b"0 has 0:0:1:0:0,1:150000:0 1:1:0:1:0,1:-:1 2:0:1:0:0,1:150000:0 3:1:1:1:0,1:1000000:1 \
          4:1:1:0:0,1:1000000:0 5:1:1:1:0,1:1000000:0 6:1:0:0:0,1:1000000:0\n\
          1 has 0:0:1:0:0,1:150000:0 1:1:0:1:0,1:1000000:1 2:0:1:0:0,1:150000:0 3:1:1:1:0,1:1000000:1 \
          4:1:1:0:0,1:1000000:0 5:1:1:1:0,1:1000000:0 6:1:0:0:0,1:-:0\n";
    assert_eq!(rt; run.copies(7)?.as_slice(), copies.as_slice());
    let lines = round_on_two_places(
        alloc,
        1,
        &Told {
            update: [b"", b" 3:277500:1"],
            call: [b" 4", b""],
            due: [1, 0],
        },
    )?;
    assert_eq!(rt; run.settle()?.as_slice(), lines.as_slice());
    let copies =
        b"0 has 0:0:1:0:0,1:150000:0 1:1:0:1:0,1:-:0 2:0:1:0:0,1:150000:0 3:1:1:1:0,1:277500:0 4:1:1:0:0,1:1000000:1 \
          5:1:1:1:0,1:1000000:0 6:1:0:0:0,1:1000000:0\n\
          1 has 0:0:1:0:0,1:150000:0 1:1:0:1:0,1:277500:0 2:0:1:0:0,1:150000:0 3:1:1:1:0,1:277500:0 \
          4:1:1:0:0,1:1000000:1 5:1:1:1:0,1:1000000:0 6:1:0:0:0,1:-:0\n";
    assert_eq!(rt; run.copies(7)?.as_slice(), copies.as_slice());
    let lines = round_on_two_places(
        alloc,
        2,
        &Told {
            update: [b" 4:385875:1", b""],
            call: [b"", b" 5"],
            due: [0, 1],
        },
    )?;
    assert_eq!(rt; run.settle()?.as_slice(), lines.as_slice());
    let copies =
        b"0 has 0:0:1:0:0,1:150000:0 1:1:0:1:0,1:-:0 2:0:1:0:0,1:150000:0 3:1:1:1:0,1:277500:0 4:1:1:0:0,1:385875:0 \
          5:1:1:1:0,1:1000000:1 6:1:0:0:0,1:1000000:0\n\
          1 has 0:0:1:0:0,1:150000:0 1:1:0:1:0,1:277500:0 2:0:1:0:0,1:150000:0 3:1:1:1:0,1:277500:0 \
          4:1:1:0:0,1:385875:0 5:1:1:1:0,1:1000000:1 6:1:0:0:0,1:-:0\n";
    assert_eq!(rt; run.copies(7)?.as_slice(), copies.as_slice());
    assert_eq!(rt; run.results()?.as_slice(), b"".as_slice());
    Ok(())
}

#[test]
fn an_event_that_is_not_enabled_changes_nothing(rt: HostRuntime) -> Result<(), Fail> {
    let alloc = rt.alloc();
    let job = b"places = 2\nprogram = \"indegree\"\n";
    let mut run = Stepped::load(alloc, b"0 1", job, InDegree)?;
    let loaded = run.copies(2)?;
    for (event, line) in [
        (Event::Deliver(0), b"deliver 0 idle\n".as_slice()),
        (Event::Discarded(0), b"drop 0 idle\n"),
        (Event::Barrier, b"barrier notready 0\n"),
        (Event::Work(1), b"work 1 compute gather\n"),
        (Event::Work(1), b"work 1 send 0 gather to 0\n"),
        (Event::Work(1), b"work 1 wait gather 0\n"),
        (Event::Discarded(0), b"drop 0 idle\n"),
        (Event::Deliver(1), b"deliver 1 idle\n"),
        (
            Event::Deliver(0),
            b"delivered 0 from 1 to 0 epoch 0 round 0 gather taken\n",
        ),
        (Event::Deliver(0), b"deliver 0 idle\n"),
        (Event::Barrier, b"barrier notready 0\n"),
    ] {
        let mut lines = Vec::new(alloc);
        run.take(event, &mut lines)?;
        assert_eq!(rt; lines.as_slice(), line);
    }
    assert_eq!(rt; run.copies(2)?.as_slice(), loaded.as_slice());
    Ok(())
}

#[test]
fn a_vertex_is_lost_with_its_last_holder(rt: HostRuntime) -> Result<(), Fail> {
    let mut run = Stepped::load(
        rt.alloc(),
        b"0 1\n1 2\n0 2",
        b"places = 3\nprogram = \"shortest\"\nsource = 0\n",
        Shortest { source: 0 },
    )?;
    let recover = Event::Recover(PlaceSet::none());
    let mut lines = Vec::new(rt.alloc());
    for event in [
        recover,
        Event::Crash(0, 0),
        Event::Crash(2, 7),
        Event::Work(0),
        Event::Barrier,
        Event::Work(1),
        recover,
        Event::Repair,
    ] {
        run.take(event, &mut lines)?;
    }
    let told = b"recover idle
crash 0 kept 0
crash 2 kept 0
work 0 idle
barrier failed 0 2
work 1 adopt 1
recover lost 1
repair idle
";
    assert_eq!(rt; lines.as_slice(), told.as_slice());
    assert_eq!(rt; run.results()?.as_slice(), b"lost 1\n2\n".as_slice());
    Ok(())
}

#[test]
fn a_round_that_was_dropped_is_begun_anew(rt: HostRuntime) -> Result<(), Fail> {
    let mut run = Stepped::load(
        rt.alloc(),
        b"0 1\n1 2\n0 2",
        b"places = 2\nprogram = \"shortest\"\nsource = 0\n",
        Shortest { source: 0 },
    )?;
    run.settle()?;
    let mut lines = Vec::new(rt.alloc());
    for event in [
        Event::Discard,
        Event::Work(0),
        Event::Work(0),
        Event::Repair,
        Event::Work(0),
        Event::Discard,
    ] {
        run.take(event, &mut lines)?;
    }
    let told = b"discard epoch 2
work 0 install 1
work 0 adopt 2
repair epoch 3
work 0 adopt 3
discard epoch 4
";
    assert_eq!(rt; lines.as_slice(), told.as_slice());
    run.settle()?;
    assert_eq!(rt;
        run.results()?.as_slice(),
        b"done 2 3\n0 0\n1 1\n2 1\n".as_slice()
    );
    Ok(())
}
