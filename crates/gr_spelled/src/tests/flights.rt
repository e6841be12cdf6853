// Batches on their way, and the senders that an inbox misses.
use gr_base::{Items, PlaceSet};
use gr_batch::{Batch, Body, Stage};
use gr_flight::{Flight, Inbox};
use gr_sum::Amount;
use std::alloc::Global;
use std::test::Fail;

fn signal(alloc: Global, serial: u64, epoch: u64, sender: u8) -> Batch<Amount, Amount> {
    Batch {
        serial,
        epoch,
        round: 0,
        sender,
        receiver: 0,
        body: Body::Signal(Items::new(alloc)),
    }
}

#[test]
fn a_batch_leaves_the_flight_once(rt: HostRuntime) -> Result<(), Fail> {
    let alloc = rt.alloc();
    let mut flight = Flight::new(alloc);
    flight.send(signal(alloc, 5, 0, 1))?;
    assert_eq!(rt; flight.place_of(5), Some(0));
    assert_eq!(rt; flight.peek(0).map(|batch| batch.serial), Some(5));
    assert!(rt; flight.take(1).is_none());
    assert_eq!(rt; flight.take(0).map(|batch| batch.serial), Some(5));
    assert_eq!(rt; flight.place_of(5), None);
    Ok(())
}

#[test]
fn an_inbox_names_the_missing_sender(rt: HostRuntime) -> Result<(), Fail> {
    let alloc = rt.alloc();
    let senders = PlaceSet::all(3).without(0);
    let mut inbox = Inbox::new(alloc);
    inbox.put(signal(alloc, 0, 4, 1))?;
    assert_eq!(rt; inbox.has_all(4, Stage::Signal, senders.without(2)), None);
    assert_eq!(rt; inbox.has_all(4, Stage::Signal, senders), Some(2));
    assert_eq!(rt; inbox.has_all(4, Stage::Call, senders), Some(1));
    inbox.forget_below(4);
    assert_eq!(rt;
        inbox.find(1, 4, Stage::Signal).map(|batch| batch.serial),
        Some(0)
    );
    inbox.forget_below(5);
    assert!(rt; inbox.find(1, 4, Stage::Signal).is_none());
    Ok(())
}
