ghost use Rattle.std.specs.Prelude.{◌≡◌, ◌++◌, codes, IsTrue, OnOk, OnErr};
ghost use Rattle.gr_report.specs.Goes.{goes_with};
ghost use Rattle.gr_batch.specs.Bodies.{stage_of_body};
ghost use Rattle.gr_sched.specs.Words.{word};
ghost use Rattle.gr_batch.specs.Telling.{telling};
ghost use Rattle.gr_report.specs.Trace.{stage_text, place_of_event, work_text, opened_text};
ghost use Rattle.gr_report.specs.Trace.{delivered_text, outcome_text, outcome_line};

use crate::items::write_body;
use crate::words::{write_fate, write_named, write_stage, write_text};
use gr_base::OutOfMemory;
use gr_batch::{Batch, Body, Fate, Outcome, Stage};
use gr_program::Datum;
use gr_sched::{Event, write_event, write_places, write_rebirth, write_word};
use std::alloc::Global;

/// The length of most lines, in bytes.
const LINE_SIZE: usize = 128;

/// Appends the line of a trace for an event and what came of it.
///
/// The line is made aside and then copied, so a line that has no room leaves `into` as it was. In time linear in the
/// line.
pub fn push_outcome<V: Datum, A: Datum>(
    alloc: Global,
    into: &mut Vec<u8>,
    event: Event,
    outcome: &Outcome<V, A>,
) -> Result<(), OutOfMemory>
    requires goes { IsTrue (goes_with event outcome.now) }
    ensures ok { OnOk result (into.new.items ≡ into.old.items
        ++ outcome_line (telling V.numbers_of A.numbers_of) event outcome.now) }
    ensures err { OnErr result (into.new.items ≡ into.old.items) }
{
    let mut line = Vec::with_capacity(alloc, LINE_SIZE)?;
    write_outcome(alloc, &mut line, event, outcome)?;
    line.push(b'\n')?;
    into.extend_from_slice(line.as_slice())?;
    Ok(())
}

fn write_outcome<V: Datum, A: Datum>(
    alloc: Global,
    line: &mut Vec<u8>,
    event: Event,
    outcome: &Outcome<V, A>,
) -> Result<(), OutOfMemory>
    ensures { OnOk result (line.new.items ≡ line.old.items
        ++ outcome_text (telling V.numbers_of A.numbers_of) event outcome.now) }
{
    match outcome {
        Outcome::Idle => {
            write_event(alloc, line, event)?;
            write_text(line, b" idle")
        }
        Outcome::Installed(count) => write_work(alloc, line, event, b" install", *count),
        Outcome::Adopted(epoch) => write_work(alloc, line, event, b" adopt", *epoch),
        Outcome::Computed(stage) => write_computed(alloc, line, event, *stage),
        Outcome::Sent(serial, stage, place) => {
            write_sent(alloc, line, event, *serial, *stage, *place)
        }
        Outcome::Appended(bytes) => write_work(alloc, line, event, b" append", *bytes),
        Outcome::Ready(due) => write_work(alloc, line, event, b" ready", u64::from(*due)),
        Outcome::Waiting(stage, place) => write_waiting(alloc, line, event, *stage, *place),
        Outcome::Delivered(batch, fate) => write_delivered(alloc, line, batch, *fate),
        Outcome::Dropped(serial) => write_named(alloc, line, b"dropped", *serial),
        Outcome::Crashed(kept) => write_crashed(alloc, line, event, *kept),
        Outcome::Failed(places) => {
            write_text(line, b"barrier failed")?;
            write_places(alloc, line, *places)
        }
        Outcome::Committed(count, round, due) => {
            write_committed(alloc, line, *count, *round, *due)
        }
        Outcome::NotReady(place) => {
            write_named(alloc, line, b"barrier notready", u64::from(*place))
        }
        Outcome::Opened(epoch) => write_opened(alloc, line, event, *epoch),
        Outcome::LostFound(count) => {
            write_named(alloc, line, b"recover lost", u64::from(*count))
        }
        Outcome::Discarded(epoch) => write_named(alloc, line, b"discard epoch", *epoch),
    }
}

fn place_of(event: Event) -> u8
    ensures { result ≡ place_of_event event }
{
    match event {
        Event::Work(p) => p,
        Event::Crash(p, _) => p,
        _ => 0,
    }
}

// A place's work, and a number that came of it.
fn write_work(
    alloc: Global,
    line: &mut Vec<u8>,
    event: Event,
    name: &[u8],
    n: u64,
) -> Result<(), OutOfMemory>
    ensures { OnOk result (line.new.items ≡ line.old.items ++ (work_text event ++ name.now ++ word n)) }
{
    write_named(alloc, line, b"work", u64::from(place_of(event)))?;
    write_named(alloc, line, name, n)
}

fn write_computed(
    alloc: Global,
    line: &mut Vec<u8>,
    event: Event,
    stage: Stage,
) -> Result<(), OutOfMemory>
    ensures { OnOk result (line.new.items ≡ line.old.items
        ++ (work_text event ++ codes " compute " ++ stage_text stage)) }
{
    write_named(alloc, line, b"work", u64::from(place_of(event)))?;
    write_text(line, b" compute ")?;
    write_stage(line, stage)
}

fn write_sent(
    alloc: Global,
    line: &mut Vec<u8>,
    event: Event,
    serial: u64,
    stage: Stage,
    place: u8,
) -> Result<(), OutOfMemory>
    ensures { OnOk result (line.new.items ≡ line.old.items ++ (work_text event ++ codes " send" ++ word serial
        ++ codes " " ++ stage_text stage ++ codes " to" ++ word place)) }
{
    write_work(alloc, line, event, b" send", serial)?;
    write_text(line, b" ")?;
    write_stage(line, stage)?;
    write_named(alloc, line, b" to", u64::from(place))
}

fn write_waiting(
    alloc: Global,
    line: &mut Vec<u8>,
    event: Event,
    stage: Stage,
    place: u8,
) -> Result<(), OutOfMemory>
    ensures { OnOk result (line.new.items ≡ line.old.items
        ++ (work_text event ++ codes " wait " ++ stage_text stage ++ word place)) }
{
    write_named(alloc, line, b"work", u64::from(place_of(event)))?;
    write_text(line, b" wait ")?;
    write_stage(line, stage)?;
    write_word(alloc, line, u64::from(place))
}

fn write_crashed(
    alloc: Global,
    line: &mut Vec<u8>,
    event: Event,
    kept: u32,
) -> Result<(), OutOfMemory>
    ensures { OnOk result (line.new.items ≡ line.old.items
        ++ (codes "crash" ++ word (place_of_event event) ++ codes " kept" ++ word kept)) }
{
    write_named(alloc, line, b"crash", u64::from(place_of(event)))?;
    write_named(alloc, line, b" kept", u64::from(kept))
}

fn write_committed(
    alloc: Global,
    line: &mut Vec<u8>,
    count: u64,
    round: u32,
    due: u32,
) -> Result<(), OutOfMemory>
    ensures { OnOk result (line.new.items ≡ line.old.items
        ++ (codes "barrier committed" ++ word count ++ codes " round" ++ word round ++ codes " due" ++ word due)) }
{
    write_named(alloc, line, b"barrier committed", count)?;
    write_next_round(alloc, line, round, due)
}

fn write_next_round(
    alloc: Global,
    line: &mut Vec<u8>,
    round: u32,
    due: u32,
) -> Result<(), OutOfMemory>
    ensures { OnOk result (line.new.items ≡ line.old.items
        ++ (codes " round" ++ word round ++ codes " due" ++ word due)) }
{
    write_named(alloc, line, b" round", u64::from(round))?;
    write_named(alloc, line, b" due", u64::from(due))
}

fn write_opened(
    alloc: Global,
    line: &mut Vec<u8>,
    event: Event,
    epoch: u64,
) -> Result<(), OutOfMemory>
    ensures { OnOk result (line.new.items ≡ line.old.items ++ opened_text event epoch) }
{
    match event {
        Event::Recover(places) => {
            write_named(alloc, line, b"recover epoch", epoch)?;
            write_rebirth(alloc, line, places)
        }
        _ => write_named(alloc, line, b"repair epoch", epoch),
    }
}

fn write_delivered<V: Datum, A: Datum>(
    alloc: Global,
    line: &mut Vec<u8>,
    batch: &Batch<V, A>,
    fate: Fate,
) -> Result<(), OutOfMemory>
    ensures { OnOk result (line.new.items ≡ line.old.items
        ++ delivered_text (telling V.numbers_of A.numbers_of) batch.now fate) }
{
    write_named(alloc, line, b"delivered", batch.serial)?;
    write_named(alloc, line, b" from", u64::from(batch.sender))?;
    write_named(alloc, line, b" to", u64::from(batch.receiver))?;
    write_named(alloc, line, b" epoch", batch.epoch)?;
    write_named(alloc, line, b" round", u64::from(batch.round))?;
    write_text(line, b" ")?;
    write_stage_of(line, &batch.body)?;
    write_text(line, b" ")?;
    write_fate(line, fate)?;
    write_body(alloc, line, &batch.body)
}

fn write_stage_of<V: Datum, A: Datum>(
    line: &mut Vec<u8>,
    body: &Body<V, A>,
) -> Result<(), OutOfMemory>
    ensures { OnOk result (line.new.items ≡ line.old.items ++ stage_text (stage_of_body body.now)) }
{
    match body {
        Body::Gather(_) => write_stage(line, Stage::Gather),
        Body::Update(_) => write_stage(line, Stage::Update),
        Body::Signal(_) => write_stage(line, Stage::Signal),
        Body::Call(_) => write_stage(line, Stage::Call),
        Body::Ask(_) => write_stage(line, Stage::Ask),
        Body::Grant(_) => write_stage(line, Stage::Grant),
    }
}
