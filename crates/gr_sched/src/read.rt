ghost use Rattle.std.specs.Prelude.{◌≡◌, ◌≤◌, ◌⊎◌, [], ◌++◌, length, Some, None, OnOk, IfOk, IfErr};
ghost use Rattle.std.specs.Option.{option_or};
ghost use Rattle.gr_sched.specs.Reading.{max_events, lines_of, said, schedule_of};
ghost use Rattle.gr_sched.specs.Reading.{fault_of_line, fault_of_count, first_fault};

use crate::event::Line;
use crate::fault::SchedFault;
use crate::line::{LineFound, read_line};
use gr_base::{Items, OutOfMemory};
use gr_text::line_len;
use std::alloc::Global;

const MAX_EVENTS: usize = 200000;

/// Reads a schedule for a cluster of so many places, line by line.
///
/// Words stand between spaces and tabs, and numbers are decimal and of 32 bits. Lines without words and those that
/// begin with `#` are skipped. The others are `work p`, `deliver i`, `drop i`, `crash p`, `crash p keep n`, `barrier`,
/// `recover`, `recover rebirth p ..`, `repair`, `discard`, `settle` and `finish`. In time linear in the bytes.
pub fn read_schedule(alloc: Global, bytes: &[u8], places: u8) -> Result<Items<Line>, SchedFault>
    requires small { length bytes.now ≤ 268435456 }
    requires places { places ≤ 64 }
    ensures accepted { OnOk result (first_fault (lines_of places bytes.now) ≡ None) }
    ensures lines { IfOk result (λ lines. lines ≡ schedule_of (lines_of places bytes.now)) }
    ensures few { IfOk result (λ lines. length lines ≤ max_events) }
    ensures refused { IfErr result (λ fault. (fault ≡ SchedFault.OutOfMemory)
        ⊎ (first_fault (lines_of places bytes.now) ≡ Some fault)) }
{
    let mut lines = Items::new(alloc);
    take_lines(&mut lines, bytes, places)?;
    Ok(lines)
}

// Takes what the lines of a text say, up to the first faulty one.
fn take_lines(lines: &mut Items<Line>, bytes: &[u8], places: u8) -> Result<(), SchedFault>
    requires small { length bytes.now ≤ 268435456 }
    requires places { places ≤ 64 }
    requires no_line { lines.old ≡ [] }
    ensures accepted { OnOk result (first_fault (lines_of places bytes.now) ≡ None) }
    ensures lines { OnOk result (lines.new ≡ schedule_of (lines_of places bytes.now)) }
    ensures few { OnOk result (length lines.new ≤ max_events) }
    ensures refused { IfErr result (λ fault. (fault ≡ SchedFault.OutOfMemory)
        ⊎ (first_fault (lines_of places bytes.now) ≡ Some fault)) }
{
    let mut rest = bytes;
    let mut done: u32 = 0;
    'lines: loop {
        let len = line_len(rest);
        let found = read_line(&rest[..len], places);
        take_line(lines, done + 1, &found)?;
        if len == rest.len() {
            return Ok(());
        }
        rest = &rest[len + 1..];
        done += 1;
    }
}

// Takes what the line with this number says.
fn take_line(lines: &mut Items<Line>, number: u32, found: &LineFound) -> Result<(), SchedFault>
    ensures lines { OnOk result (lines.new ≡ lines.old ++ said found.now) }
    ensures sound { OnOk result (fault_of_line number found.now ≡ None) }
    ensures count { OnOk result (fault_of_count max_events number lines.new ≡ None) }
    ensures few { OnOk result (length lines.new ≤ max_events) }
    ensures err { IfErr result (λ fault. (fault ≡ SchedFault.OutOfMemory) ⊎ (option_or (fault_of_line number found.now)
        (fault_of_count max_events number (lines.old ++ said found.now)) ≡ Some fault)) }
{
    check_line(number, found)?;
    add_line(lines, found)?;
    check_count(number, lines)
}

fn check_line(number: u32, found: &LineFound) -> Result<(), SchedFault>
    ensures ok { OnOk result (fault_of_line number found.now ≡ None) }
    ensures err { IfErr result (λ fault. fault_of_line number found.now ≡ Some fault) }
{
    match found {
        LineFound::Bad => Err(SchedFault::BadLine(number)),
        LineFound::Misplaced => Err(SchedFault::PlaceOutOfRange(number)),
        LineFound::Skipped => Ok(()),
        LineFound::Found(_) => Ok(()),
    }
}

fn add_line(lines: &mut Items<Line>, found: &LineFound) -> Result<(), OutOfMemory>
    ensures { OnOk result (lines.new ≡ lines.old ++ said found.now) }
{
    match found {
        LineFound::Found(line) => lines.push(*line),
        LineFound::Skipped => Ok(()),
        LineFound::Misplaced => Ok(()),
        LineFound::Bad => Ok(()),
    }
}

fn check_count(number: u32, lines: &Items<Line>) -> Result<(), SchedFault>
    ensures ok { OnOk result (fault_of_count max_events number lines.now ≡ None) }
    ensures few { OnOk result (length lines.now ≤ max_events) }
    ensures err { IfErr result (λ fault. fault_of_count max_events number lines.now ≡ Some fault) }
{
    if lines.len() > MAX_EVENTS {
        Err(SchedFault::TooManyEvents(number))
    } else {
        Ok(())
    }
}
