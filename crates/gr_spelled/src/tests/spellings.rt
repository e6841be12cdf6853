// The bytes of batches and of grants, against worked cases.
use gr_base::{Items, PlaceSet};
use gr_batch::{Batch, Body, NewValue, Part, Stage, copy_of, decode, encode, laws, stage_of};
use gr_program::VertexCopy;
use gr_sum::Amount;
use std::alloc::Global;
use std::test::Fail;

fn batch(sender: u8, receiver: u8, body: Body<Amount, Amount>) -> Batch<Amount, Amount> {
    Batch {
        serial: 2,
        epoch: 0,
        round: 0,
        sender,
        receiver,
        body,
    }
}

fn spelling(alloc: Global, batch: &Batch<Amount, Amount>) -> Result<Vec<u8>, Fail> {
    let mut bytes = Vec::new(alloc);
    encode(alloc, batch, &mut bytes)?;
    Ok(bytes)
}

#[test]
fn batches_are_spelled(rt: HostRuntime) -> Result<(), Fail> {
    let alloc = rt.alloc();
    let mut parts = Items::new(alloc);
    parts.push(Part {
        vertex: 0,
        acc: Amount(2),
    })?;
    let part = batch(1, 0, Body::Gather(parts));
    let want = [0x02, 0x00, 0x00, 0x00, 0x01, 0x00, 0x01, 0x00, 0x02];
    assert_eq!(rt; spelling(alloc, &part)?.as_slice(), want.as_slice());
    let mut values = Items::new(alloc);
    values.push(NewValue {
        vertex: 0,
        value: Amount(150000),
        wake: true,
    })?;
    let value = batch(0, 1, Body::Update(values));
    let want = [
        0x02, 0x00, 0x00, 0x01, 0x00, 0x01, 0x01, 0x00, 0xf0, 0x93, 0x09, 0x01,
    ];
    assert_eq!(rt; spelling(alloc, &value)?.as_slice(), want.as_slice());
    assert_eq!(rt;
        spelling(alloc, &copy_of(alloc, &value)?)?.as_slice(),
        want.as_slice()
    );
    Ok(())
}

#[test]
fn grants_are_spelled(rt: HostRuntime) -> Result<(), Fail> {
    let alloc = rt.alloc();
    let mut copies = Items::new(alloc);
    copies.push(VertexCopy {
        vertex: 300,
        indeg: 1,
        outdeg: 0,
        master: 63,
        holders: PlaceSet::none().with(0).with(63),
        value: Some(Amount(7)),
        due: true,
    })?;
    let granted = batch(0, 1, Body::Grant(copies));
    assert_eq!(rt; stage_of(&granted), Stage::Grant);
    let want = [
        2, 0, 0, 5, 0, 1, 1, 0xac, 0x02, 1, 0, 63, 0x81, 0x80, 0x80, 0x80, 0x80, 0x80, 0x80, 0x80,
        0x80, 0x01, 1, 7, 1,
    ];
    assert_eq!(rt; spelling(alloc, &granted)?.as_slice(), want.as_slice());
    Ok(())
}

#[test]
fn spellings_are_read(rt: HostRuntime) -> Result<(), Fail> {
    let alloc = rt.alloc();
    laws::no_spelling_begins_another::<Amount, Amount>();
    let bytes = [0x02, 0x00, 0x00, 0x00, 0x01, 0x00, 0x01, 0x00, 0x02];
    let part: Batch<Amount, Amount> = decode(alloc, &bytes)?.ok_or("a part is spelled")?;
    assert_eq!(rt; (part.serial, part.epoch, part.round), (2, 0, 0));
    assert_eq!(rt; (part.sender, part.receiver), (1, 0));
    if let Body::Gather(parts) = &part.body {
        let want = Part {
            vertex: 0,
            acc: Amount(2),
        };
        assert_eq!(rt; parts.as_slice(), [want].as_slice());
    } else {
        return Err("a part is gathered".into());
    }
    let bytes = [
        0x02, 0x00, 0x00, 0x01, 0x00, 0x01, 0x01, 0x00, 0xf0, 0x93, 0x09, 0x01,
    ];
    let value: Batch<Amount, Amount> = decode(alloc, &bytes)?.ok_or("a value is spelled")?;
    if let Body::Update(values) = &value.body {
        let want = NewValue {
            vertex: 0,
            value: Amount(150000),
            wake: true,
        };
        assert_eq!(rt; values.as_slice(), [want].as_slice());
    } else {
        return Err("a value is new".into());
    }
    Ok(())
}

#[test]
fn other_bytes_are_refused(rt: HostRuntime) -> Result<(), Fail> {
    let spelled: [&[u8]; 4] = [
        &[2, 0, 0, 4, 1, 0, 2, 3, 4],
        &[2, 0, 0, 5, 0, 1, 1, 5, 1, 1, 0, 3, 1, 7, 1],
        &[2, 0, 0, 5, 0, 1, 1, 5, 1, 1, 0, 3, 0, 1],
        &[
            255, 255, 255, 255, 255, 255, 255, 255, 255, 1, 0, 0, 2, 1, 0, 0,
        ],
    ];
    for bytes in spelled {
        let read: Option<Batch<Amount, Amount>> = decode(rt.alloc(), bytes)?;
        assert!(rt; read.is_some(), "{bytes:?}");
    }
    let refused: [&[u8]; 16] = [
        // a byte more, a byte less, a number that is spelled longer
        &[2, 0, 0, 0, 1, 0, 1, 0, 2, 0],
        &[2, 0, 0, 0, 1, 0, 1, 0],
        &[0x82, 0, 0, 0, 0, 1, 0, 1, 0, 2],
        &[2, 0, 0, 1, 0, 1, 1, 0, 0xf0, 0x93, 0x09, 1, 0],
        &[2, 0, 0, 1, 0, 1, 1, 0, 0xf0, 0x93, 0x09],
        &[2, 0, 0, 1, 0, 1, 1, 0, 0xf0, 0x93, 0x89, 0, 1],
        // a serial of 2 ^ 64, a round of 2 ^ 32, no such stage
        &[
            128, 128, 128, 128, 128, 128, 128, 128, 128, 2, 0, 0, 2, 1, 0, 0,
        ],
        &[2, 0, 128, 128, 128, 128, 16, 2, 1, 0, 0],
        &[2, 0, 0, 6, 1, 0, 0],
        // a sender that is the receiver, and one that is no place
        &[2, 0, 0, 2, 1, 1, 0],
        &[2, 0, 0, 2, 64, 1, 0],
        // equal and falling vertices, a mark that is neither 0 nor 1
        &[2, 0, 0, 4, 1, 0, 2, 3, 3],
        &[2, 0, 0, 4, 1, 0, 2, 3, 2],
        &[2, 0, 0, 1, 0, 1, 1, 0, 5, 2],
        // a master that is not among the holders
        &[2, 0, 0, 5, 0, 1, 1, 5, 1, 1, 2, 3, 0, 1],
        &[],
    ];
    for bytes in refused {
        let read: Option<Batch<Amount, Amount>> = decode(rt.alloc(), bytes)?;
        assert!(rt; read.is_none(), "{bytes:?}");
    }
    Ok(())
}
