ghost use Rattle.std.specs.Prelude.{◌≡◌, ◌<◌, ◌++◌, [], false, codes, decimal, if◌then◌else◌, OnOk, IfOk};
ghost use Rattle.gr_base.specs.Places.{IsPlaces};
ghost use Rattle.gr_base.specs.Rising.{has};
ghost use Rattle.gr_sched.specs.Words.{word};
ghost use Rattle.gr_report.specs.Trace.{stage_text, fate_text, comma_text, mark_text};

use gr_base::{OutOfMemory, PlaceSet, push_number};
use gr_batch::{Fate, Stage};
use gr_program::Datum;
use gr_sched::write_word;
use std::alloc::Global;

// Each of these appends to a line that is thrown away where memory runs out.

pub fn write_text(line: &mut Vec<u8>, text: &[u8]) -> Result<(), OutOfMemory>
    ensures { OnOk result (line.new.items ≡ line.old.items ++ text.now) }
{
    line.extend_from_slice(text)?;
    Ok(())
}

/// A name, a blank and a number.
pub fn write_named(
    alloc: Global,
    line: &mut Vec<u8>,
    name: &[u8],
    n: u64,
) -> Result<(), OutOfMemory>
    ensures { OnOk result (line.new.items ≡ line.old.items ++ (name.now ++ word n)) }
{
    line.extend_from_slice(name)?;
    write_word(alloc, line, n)
}

pub fn write_stage(line: &mut Vec<u8>, stage: Stage) -> Result<(), OutOfMemory>
    ensures { OnOk result (line.new.items ≡ line.old.items ++ stage_text stage) }
{
    match stage {
        Stage::Gather => write_text(line, b"gather"),
        Stage::Update => write_text(line, b"update"),
        Stage::Signal => write_text(line, b"signal"),
        Stage::Call => write_text(line, b"call"),
        Stage::Ask => write_text(line, b"ask"),
        Stage::Grant => write_text(line, b"grant"),
        Stage::End => write_text(line, b"end"),
    }
}

pub fn write_fate(line: &mut Vec<u8>, fate: Fate) -> Result<(), OutOfMemory>
    ensures { OnOk result (line.new.items ≡ line.old.items ++ fate_text fate) }
{
    match fate {
        Fate::Taken => write_text(line, b"taken"),
        Fate::Stale => write_text(line, b"stale"),
        Fate::Down => write_text(line, b"down"),
    }
}

pub fn write_mark(line: &mut Vec<u8>, mark: bool) -> Result<(), OutOfMemory>
    ensures { OnOk result (line.new.items ≡ line.old.items ++ mark_text mark) }
{
    if mark {
        write_text(line, b"1")
    } else {
        write_text(line, b"0")
    }
}

/// The numbers that tell a value or a sum, joined by commas.
pub fn write_datum<D: Datum>(
    alloc: Global,
    line: &mut Vec<u8>,
    datum: &D,
) -> Result<(), OutOfMemory>
    ensures { OnOk result (line.new.items ≡ line.old.items ++ comma_text (D.numbers_of datum.now)) }
{
    for i in 0..D::WIDTH {
        write_next(alloc, line, i == 0, datum.number_at(i))?;
    }
    Ok(())
}

/// The places of a set, joined by commas.
pub fn write_holders(
    alloc: Global,
    line: &mut Vec<u8>,
    holders: PlaceSet,
) -> Result<(), OutOfMemory>
    ensures { OnOk result (line.new.items ≡ line.old.items ++ comma_text holders) }
{
    let mut is_first = true;
    for p in 0..64 {
        is_first = write_holder(alloc, line, is_first, holders, p)?;
    }
    Ok(())
}

// Appends a place where the set holds it, and tells whether none stands there yet.
fn write_holder(
    alloc: Global,
    line: &mut Vec<u8>,
    is_first: bool,
    holders: PlaceSet,
    p: u8,
) -> Result<bool, OutOfMemory>
    requires { p < 64 }
    ensures told { OnOk result (line.new.items ≡ line.old.items
        ++ (if has holders p then (if is_first then decimal p else codes "," ++ decimal p) else [])) }
    ensures first { IfOk result (λ none. none ≡ (if has holders p then false else is_first)) }
    ensures places { IsPlaces holders }
{
    if holders.has(p) {
        write_next(alloc, line, is_first, u64::from(p))?;
        Ok(false)
    } else {
        Ok(is_first)
    }
}

// A number of a joined list.
fn write_next(alloc: Global, line: &mut Vec<u8>, is_first: bool, n: u64) -> Result<(), OutOfMemory>
    ensures { OnOk result (line.new.items ≡ line.old.items
        ++ (if is_first then decimal n else codes "," ++ decimal n)) }
{
    if !is_first {
        line.push(b',')?;
    }
    push_number(alloc, line, n)?;
    Ok(())
}
