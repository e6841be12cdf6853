// The texts of outcomes, results and endings, to the byte.
use gr_base::{Items, PlaceSet};
use gr_batch::{Batch, Body, Fate, NewValue, Outcome, Part, Stage};
use gr_program::VertexCopy;
use gr_report::{push_lost, push_outcome, push_results, push_unfinished};
use gr_sched::Event;
use gr_sum::Amount;
use std::alloc::Global;
use std::test::Fail;

fn sent(body: Body<Amount, Amount>) -> Batch<Amount, Amount> {
    Batch {
        serial: 12,
        epoch: 3,
        round: 1,
        sender: 1,
        receiver: 0,
        body,
    }
}

fn granted(vertex: u32, value: Option<Amount>) -> VertexCopy<Amount> {
    VertexCopy {
        vertex,
        indeg: 4,
        outdeg: 5,
        master: 1,
        holders: PlaceSet::all(2).with(63),
        value,
        due: true,
    }
}

#[test]
fn a_line_for_each_outcome_of_work(rt: HostRuntime) -> Result<(), Fail> {
    let alloc = rt.alloc();
    let mut into = Vec::new(alloc);
    push_outcome::<Amount, Amount>(alloc, &mut into, Event::Crash(1, 0), &Outcome::Idle)?;
    push_outcome::<Amount, Amount>(alloc, &mut into, Event::Work(2), &Outcome::Installed(3))?;
    push_outcome::<Amount, Amount>(alloc, &mut into, Event::Work(2), &Outcome::Adopted(4))?;
    push_outcome::<Amount, Amount>(
        alloc,
        &mut into,
        Event::Work(2),
        &Outcome::Computed(Stage::Signal),
    )?;
    push_outcome::<Amount, Amount>(
        alloc,
        &mut into,
        Event::Work(2),
        &Outcome::Sent(8, Stage::Ask, 0),
    )?;
    push_outcome::<Amount, Amount>(alloc, &mut into, Event::Work(0), &Outcome::Appended(66))?;
    push_outcome::<Amount, Amount>(alloc, &mut into, Event::Work(0), &Outcome::Ready(1))?;
    push_outcome::<Amount, Amount>(
        alloc,
        &mut into,
        Event::Work(0),
        &Outcome::Waiting(Stage::Call, 3),
    )?;
    assert_eq!(rt;
        into.as_slice(),
        b"crash 1 idle\n\
          work 2 install 3\n\
          work 2 adopt 4\n\
          work 2 compute signal\n\
          work 2 send 8 ask to 0\n\
          work 0 append 66\n\
          work 0 ready 1\n\
          work 0 wait call 3\n"
            .as_slice()
    );
    Ok(())
}

#[test]
fn a_line_for_each_other_outcome(rt: HostRuntime) -> Result<(), Fail> {
    let alloc = rt.alloc();
    let mut into = Vec::new(alloc);
    let places = PlaceSet::none().with(3).with(0);
    push_outcome::<Amount, Amount>(alloc, &mut into, Event::Discarded(3), &Outcome::Dropped(17))?;
    push_outcome::<Amount, Amount>(alloc, &mut into, Event::Crash(63, 9), &Outcome::Crashed(4))?;
    push_outcome::<Amount, Amount>(alloc, &mut into, Event::Barrier, &Outcome::Failed(places))?;
    push_outcome::<Amount, Amount>(
        alloc,
        &mut into,
        Event::Barrier,
        &Outcome::Committed(2, 1, 5),
    )?;
    push_outcome::<Amount, Amount>(alloc, &mut into, Event::Barrier, &Outcome::NotReady(1))?;
    push_outcome::<Amount, Amount>(
        alloc,
        &mut into,
        Event::Recover(places),
        &Outcome::Opened(3),
    )?;
    push_outcome::<Amount, Amount>(alloc, &mut into, Event::Repair, &Outcome::Opened(5))?;
    push_outcome::<Amount, Amount>(
        alloc,
        &mut into,
        Event::Recover(places),
        &Outcome::LostFound(1),
    )?;
    push_outcome::<Amount, Amount>(alloc, &mut into, Event::Discard, &Outcome::Discarded(6))?;
    assert_eq!(rt;
        into.as_slice(),
        b"dropped 17\n\
          crash 63 kept 4\n\
          barrier failed 0 3\n\
          barrier committed 2 round 1 due 5\n\
          barrier notready 1\n\
          recover epoch 3 rebirth 0 3\n\
          repair epoch 5\n\
          recover lost 1\n\
          discard epoch 6\n"
            .as_slice()
    );
    Ok(())
}

#[test]
fn the_items_of_a_delivered_batch(rt: HostRuntime) -> Result<(), Fail> {
    let alloc = rt.alloc();
    let mut parts = Items::new(alloc);
    parts.push(Part {
        vertex: 5,
        acc: Amount(2),
    })?;
    let mut values = Items::new(alloc);
    values.push(NewValue {
        vertex: 0,
        value: Amount(3),
        wake: true,
    })?;
    values.push(NewValue {
        vertex: 9,
        value: Amount(4),
        wake: false,
    })?;
    let mut called = Items::new(alloc);
    called.push(1)?;
    called.push(20)?;
    let mut copies = Items::new(alloc);
    copies.push(granted(7, None))?;
    copies.push(granted(8, Some(Amount(6))))?;
    let mut into = Vec::new(alloc);
    push_outcome(
        alloc,
        &mut into,
        Event::Deliver(0),
        &Outcome::Delivered(sent(Body::Gather(parts)), Fate::Taken),
    )?;
    push_outcome(
        alloc,
        &mut into,
        Event::Deliver(0),
        &Outcome::Delivered(sent(Body::Update(values)), Fate::Stale),
    )?;
    push_outcome(
        alloc,
        &mut into,
        Event::Deliver(0),
        &Outcome::Delivered(sent(Body::Call(called)), Fate::Down),
    )?;
    push_outcome(
        alloc,
        &mut into,
        Event::Deliver(0),
        &Outcome::Delivered(sent(Body::Grant(copies)), Fate::Taken),
    )?;
    assert_eq!(rt;
        into.as_slice(),
        b"delivered 12 from 1 to 0 epoch 3 round 1 gather taken 5:2\n\
          delivered 12 from 1 to 0 epoch 3 round 1 update stale 0:3:1 9:4:0\n\
          delivered 12 from 1 to 0 epoch 3 round 1 call down 1 20\n\
          delivered 12 from 1 to 0 epoch 3 round 1 grant taken 7:4:5:1:0,1,63:-:1 8:4:5:1:0,1,63:6:1\n"
            .as_slice()
    );
    Ok(())
}

#[test]
fn how_a_run_ends(rt: HostRuntime) -> Result<(), Fail> {
    let alloc = rt.alloc();
    let mut into = Vec::new(alloc);
    push_lost(alloc, &mut into, [2, 10].as_slice())?;
    push_unfinished(alloc, &mut into, 4)?;
    assert_eq!(rt;
        into.as_slice(),
        b"lost 2\n2\n10\nunfinished 4\n".as_slice()
    );
    Ok(())
}
