ghost use Rattle.std.specs.Prelude.{◌≡◌, ℕ, ◌<◌, ◌≤◌, ◌++◌, [], length, if◌then◌else◌, OnOk, OnErr};
ghost use Rattle.std.specs.List.{All};
ghost use Rattle.gr_base.specs.Places.{IsPlaces};
ghost use Rattle.gr_base.specs.Rising.{has};
ghost use Rattle.gr_sched.specs.Printed.{IsEvent, IsLine, IsWithin, IsReadAs};
ghost use Rattle.gr_sched.specs.Reading.{max_events};
ghost use Rattle.gr_sched.specs.Text.{line_text, schedule_text};
ghost use Rattle.gr_sched.specs.Words.{word};
ghost use Rattle.gr_sched.specs.EventText.{words, keep_text, rebirth_text, event_text};

use crate::event::{Event, Line};
use gr_base::{OutOfMemory, PlaceSet, push_number};
use std::alloc::Global;

/// Appends a schedule, a line for each of its lines. A crash that keeps nothing is told as `crash p`, and the places
/// of a rebirth rise. In time linear in the text, which is made aside and then copied.
///
/// Up to 200000 lines are read again from it, for any number of places above those that they name.
pub fn print_schedule(alloc: Global, lines: &[Line], into: &mut Vec<u8>) -> Result<(), OutOfMemory>
    ensures ok { OnOk result (into.new.items ≡ into.old.items ++ schedule_text lines.now) }
    ensures err { OnErr result (into.new.items ≡ into.old.items) }
    ensures read_back { OnOk result (length lines.now ≤ max_events → (places : ℕ) → All (IsWithin places) lines.now →
        IsReadAs places (schedule_text lines.now) lines.now) }
{
    let mut text = Vec::new(alloc);
    for line in lines {
        write_line(alloc, &mut text, *line)?;
    }
    into.extend_from_slice(text.as_slice())?;
    Ok(())
}

fn write_line(alloc: Global, text: &mut Vec<u8>, line: Line) -> Result<(), OutOfMemory>
    ensures told { OnOk result (text.new.items ≡ text.old.items ++ line_text line) }
    ensures line { OnOk result (IsLine line) }
{
    match line {
        Line::Step(event) => {
            write_event(alloc, text, event)?;
            write_name(text, b"\n")
        }
        Line::Settle => write_name(text, b"settle\n"),
        Line::Finish => write_name(text, b"finish\n"),
    }
}

/// Appends an event as it stands in a schedule, without a line end. Where memory runs out a part of it may stand
/// there.
pub fn write_event(alloc: Global, text: &mut Vec<u8>, event: Event) -> Result<(), OutOfMemory>
    ensures told { OnOk result (text.new.items ≡ text.old.items ++ event_text event) }
    ensures event { OnOk result (IsEvent event) }
{
    match event {
        Event::Work(p) => write_numbered(alloc, text, b"work", u64::from(p)),
        Event::Deliver(i) => write_numbered(alloc, text, b"deliver", u64::from(i)),
        Event::Discarded(i) => write_numbered(alloc, text, b"drop", u64::from(i)),
        Event::Crash(p, keep) => {
            write_numbered(alloc, text, b"crash", u64::from(p))?;
            write_keep(alloc, text, keep)
        }
        Event::Barrier => write_name(text, b"barrier"),
        Event::Recover(places) => {
            write_name(text, b"recover")?;
            write_rebirth(alloc, text, places)
        }
        Event::Repair => write_name(text, b"repair"),
        Event::Discard => write_name(text, b"discard"),
    }
}

fn write_name(text: &mut Vec<u8>, name: &[u8]) -> Result<(), OutOfMemory>
    ensures { OnOk result (text.new.items ≡ text.old.items ++ name.now) }
{
    text.extend_from_slice(name)?;
    Ok(())
}

fn write_numbered(alloc: Global, text: &mut Vec<u8>, name: &[u8], n: u64) -> Result<(), OutOfMemory>
    ensures { OnOk result (text.new.items ≡ text.old.items ++ (name.now ++ word n)) }
{
    text.extend_from_slice(name)?;
    write_word(alloc, text, n)
}

fn write_keep(alloc: Global, text: &mut Vec<u8>, keep: u32) -> Result<(), OutOfMemory>
    ensures { OnOk result (text.new.items ≡ text.old.items ++ keep_text keep) }
{
    if keep == 0 {
        Ok(())
    } else {
        write_numbered(alloc, text, b" keep", u64::from(keep))
    }
}

/// Appends the places that start anew, where there are some. Where memory runs out a part of them may stand there.
pub fn write_rebirth(alloc: Global, text: &mut Vec<u8>, places: PlaceSet) -> Result<(), OutOfMemory>
    ensures told { OnOk result (text.new.items ≡ text.old.items ++ rebirth_text places) }
    ensures places { OnOk result (IsPlaces places) }
{
    if places.count() == 0 {
        Ok(())
    } else {
        write_name(text, b" rebirth")?;
        write_places(alloc, text, places)
    }
}

/// Appends the places of a set, rising, a blank before each. Where memory runs out a part of them may stand there.
pub fn write_places(alloc: Global, text: &mut Vec<u8>, places: PlaceSet) -> Result<(), OutOfMemory>
    ensures told { OnOk result (text.new.items ≡ text.old.items ++ words places) }
    ensures places { OnOk result (IsPlaces places) }
{
    for p in 0..64 {
        write_member(alloc, text, places, p)?;
    }
    Ok(())
}

// Appends a place where the set holds it.
fn write_member(
    alloc: Global,
    text: &mut Vec<u8>,
    places: PlaceSet,
    p: u8,
) -> Result<(), OutOfMemory>
    requires { p < 64 }
    ensures told { OnOk result (text.new.items ≡ text.old.items ++ (if has places p then word p else [])) }
    ensures places { IsPlaces places }
{
    if places.has(p) {
        write_word(alloc, text, u64::from(p))
    } else {
        Ok(())
    }
}

/// Appends a blank and a number. Where memory runs out a part of it may stand there.
pub fn write_word(alloc: Global, text: &mut Vec<u8>, n: u64) -> Result<(), OutOfMemory>
    ensures { OnOk result (text.new.items ≡ text.old.items ++ word n) }
{
    text.push(b' ')?;
    push_number(alloc, text, n)?;
    Ok(())
}
