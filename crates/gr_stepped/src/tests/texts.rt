// The lines of whole rounds in the order in which nobody chooses, but for what the batches bring.
use gr_base::push_number;
use std::alloc::Global;
use std::test::Fail;

/// What is told in a round on two places, by its sender: the new values, the calls, and how many vertices are due next.
pub(crate) struct Told {
    pub(crate) update: [&'static [u8]; 2],
    pub(crate) call: [&'static [u8]; 2],
    pub(crate) due: [u8; 2],
}

/// The lines of round `k` on two places, from 0.
pub(crate) fn round_on_two_places(alloc: Global, k: u8, told: &Told) -> Result<Vec<u8>, Fail> {
    let mut text = Vec::new(alloc);
    let none = b"".as_slice();
    exchange(alloc, &mut text, k, 0, b"gather", [none, none])?;
    exchange(alloc, &mut text, k, 2, b"update", told.update)?;
    exchange(alloc, &mut text, k, 4, b"signal", [none, none])?;
    exchange(alloc, &mut text, k, 6, b"call", told.call)?;
    push(
        alloc,
        &mut text,
        b"work 0 compute end\nwork 0 ready ",
        u64::from(told.due[0]),
    )?;
    push(
        alloc,
        &mut text,
        b"\nwork 1 compute end\nwork 1 ready ",
        u64::from(told.due[1]),
    )?;
    push(alloc, &mut text, b"\nbarrier committed ", u64::from(k) + 1)?;
    push(alloc, &mut text, b" round ", u64::from(k) + 1)?;
    push(
        alloc,
        &mut text,
        b" due ",
        u64::from(told.due[0]) + u64::from(told.due[1]),
    )?;
    text.push(b'\n')?;
    Ok(text)
}

// The lines of a stage in which each place sends to the other. So many batches were sent before in the round.
fn exchange(
    alloc: Global,
    text: &mut Vec<u8>,
    k: u8,
    before: u8,
    stage: &[u8],
    items: [&[u8]; 2],
) -> Result<(), Fail> {
    let first = 8 * u64::from(k) + u64::from(before);
    for (p, q, serial, items) in [(0, 1, first, items[0]), (1, 0, first + 1, items[1])] {
        if k > 0 && before == 0 {
            push(alloc, text, b"work ", p)?;
            push(alloc, text, b" install ", u64::from(k))?;
            push(alloc, text, b"\nwork ", p)?;
            push(alloc, text, b" adopt ", u64::from(k))?;
            text.push(b'\n')?;
        }
        push(alloc, text, b"work ", p)?;
        text.extend_from_slice(b" compute ")?;
        text.extend_from_slice(stage)?;
        push(alloc, text, b"\nwork ", p)?;
        push(alloc, text, b" send ", serial)?;
        text.push(b' ')?;
        text.extend_from_slice(stage)?;
        push(alloc, text, b" to ", q)?;
        push(alloc, text, b"\ndelivered ", serial)?;
        push(alloc, text, b" from ", p)?;
        push(alloc, text, b" to ", q)?;
        push(alloc, text, b" epoch ", u64::from(k))?;
        push(alloc, text, b" round ", u64::from(k))?;
        text.push(b' ')?;
        text.extend_from_slice(stage)?;
        text.extend_from_slice(b" taken")?;
        text.extend_from_slice(items)?;
        text.push(b'\n')?;
    }
    Ok(())
}

// Appends a word and a number.
fn push(alloc: Global, text: &mut Vec<u8>, word: &[u8], number: u64) -> Result<(), Fail> {
    text.extend_from_slice(word)?;
    push_number(alloc, text, number)?;
    Ok(())
}
