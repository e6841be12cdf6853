ghost use Rattle.std.specs.Prelude.{◌≡◌, ◌≤◌, [], nat_lt, if◌then◌else◌, option_map};
ghost use Rattle.gr_base.specs.Places.{with_place};
ghost use Rattle.gr_text.specs.Fields.{fields_of};
ghost use Rattle.gr_sched.specs.Fields.{all_numbers};
ghost use Rattle.gr_sched.specs.Reading.{keyword_of, bare, kept_of, crash_at, crash_of, reborn_at};
ghost use Rattle.gr_sched.specs.Reading.{rebirth_of, recover_of, said_by, places_of, placed, line_of};

use crate::event::{Event, Line};
use crate::field::{read_number, read_only_number};
use gr_base::PlaceSet;
use gr_text::{next_field, without_return};

/// What a line says.
#[derive(Clone, Copy, Debug, PartialEq, Eq)]
pub enum LineFound {
    Skipped,
    Found(Line),
    Misplaced,
    Bad,
}

/// The first word of a line.
#[derive(Clone, Copy, Debug, PartialEq, Eq)]
pub enum Keyword {
    Work,
    Deliver,
    Drop,
    Crash,
    Barrier,
    Recover,
    Repair,
    Discard,
    Settle,
    Finish,
    Unknown,
}

fn read_keyword(name: &[u8]) -> Keyword
    ensures { result ≡ keyword_of name.now }
{
    if name == b"work".as_slice() {
        Keyword::Work
    } else if name == b"deliver".as_slice() {
        Keyword::Deliver
    } else if name == b"drop".as_slice() {
        Keyword::Drop
    } else if name == b"crash".as_slice() {
        Keyword::Crash
    } else if name == b"barrier".as_slice() {
        Keyword::Barrier
    } else if name == b"recover".as_slice() {
        Keyword::Recover
    } else if name == b"repair".as_slice() {
        Keyword::Repair
    } else if name == b"discard".as_slice() {
        Keyword::Discard
    } else if name == b"settle".as_slice() {
        Keyword::Settle
    } else if name == b"finish".as_slice() {
        Keyword::Finish
    } else {
        Keyword::Unknown
    }
}

/// Reads a line of a schedule for so many places.
pub fn read_line(line: &[u8], places: u8) -> LineFound
    requires { places ≤ 64 }
    ensures { result ≡ line_of places line.now }
{
    match next_field(without_return(line)) {
        None => LineFound::Skipped,
        Some((name, rest)) => {
            if name[0] == b'#' {
                LineFound::Skipped
            } else {
                read_words(read_keyword(name), rest, places)
            }
        }
    }
}

// Reads the words after a keyword.
fn read_words(keyword: Keyword, rest: &[u8], places: u8) -> LineFound
    requires { places ≤ 64 }
    ensures { result ≡ placed places (said_by keyword (fields_of rest.now)) }
{
    match keyword {
        Keyword::Work => read_work(rest, places),
        Keyword::Deliver => read_deliver(rest, places),
        Keyword::Drop => read_drop(rest, places),
        Keyword::Crash => read_crash(rest, places),
        Keyword::Barrier => read_bare(rest, Line::Step(Event::Barrier), places),
        Keyword::Recover => read_recover(rest, places),
        Keyword::Repair => read_bare(rest, Line::Step(Event::Repair), places),
        Keyword::Discard => read_bare(rest, Line::Step(Event::Discard), places),
        Keyword::Settle => read_bare(rest, Line::Settle, places),
        Keyword::Finish => read_bare(rest, Line::Finish, places),
        Keyword::Unknown => LineFound::Bad,
    }
}

// A line of one word, which names no place.
fn read_bare(rest: &[u8], line: Line, places: u8) -> LineFound
    requires { places_of line ≡ [] }
    ensures { result ≡ placed places (bare line (fields_of rest.now)) }
{
    match next_field(rest) {
        None => LineFound::Found(line),
        Some(_) => LineFound::Bad,
    }
}

fn read_work(rest: &[u8], places: u8) -> LineFound
    requires { places ≤ 64 }
    ensures { result ≡ placed places (said_by Keyword.Work (fields_of rest.now)) }
{
    match read_only_number(rest) {
        None => LineFound::Bad,
        Some(p) => {
            if p < u32::from(places) {
                LineFound::Found(Line::Step(Event::Work(p as u8)))
            } else {
                LineFound::Misplaced
            }
        }
    }
}

fn read_deliver(rest: &[u8], places: u8) -> LineFound
    ensures { result ≡ placed places (said_by Keyword.Deliver (fields_of rest.now)) }
{
    match read_only_number(rest) {
        None => LineFound::Bad,
        Some(i) => LineFound::Found(Line::Step(Event::Deliver(i))),
    }
}

fn read_drop(rest: &[u8], places: u8) -> LineFound
    ensures { result ≡ placed places (said_by Keyword.Drop (fields_of rest.now)) }
{
    match read_only_number(rest) {
        None => LineFound::Bad,
        Some(i) => LineFound::Found(Line::Step(Event::Discarded(i))),
    }
}

fn read_crash(rest: &[u8], places: u8) -> LineFound
    requires { places ≤ 64 }
    ensures { result ≡ placed places (crash_of (fields_of rest.now)) }
{
    match next_field(rest) {
        None => LineFound::Bad,
        Some((place, more)) => crash_found(read_number(place), read_kept(more), places),
    }
}

fn crash_found(place: Option<u32>, kept: Option<u32>, places: u8) -> LineFound
    requires { places ≤ 64 }
    ensures { result ≡ placed places (crash_at place kept) }
{
    match (place, kept) {
        (Some(p), Some(n)) => {
            if p < u32::from(places) {
                LineFound::Found(Line::Step(Event::Crash(p as u8, n)))
            } else {
                LineFound::Misplaced
            }
        }
        _ => LineFound::Bad,
    }
}

fn read_kept(rest: &[u8]) -> Option<u32>
    ensures { result ≡ kept_of (fields_of rest.now) }
{
    match next_field(rest) {
        None => Some(0),
        Some((word, more)) => {
            if word == b"keep".as_slice() {
                read_only_number(more)
            } else {
                None
            }
        }
    }
}

fn read_recover(rest: &[u8], places: u8) -> LineFound
    requires { places ≤ 64 }
    ensures { result ≡ placed places (recover_of (fields_of rest.now)) }
{
    match next_field(rest) {
        None => LineFound::Found(Line::Step(Event::Recover(PlaceSet::none()))),
        Some((word, more)) => {
            if word == b"rebirth".as_slice() {
                read_rebirth(more, places)
            } else {
                LineFound::Bad
            }
        }
    }
}

fn read_rebirth(rest: &[u8], places: u8) -> LineFound
    requires { places ≤ 64 }
    ensures { result ≡ placed places (rebirth_of (fields_of rest.now)) }
{
    match next_field(rest) {
        None => LineFound::Bad,
        Some(_) => read_places(rest, places),
    }
}

// Reads the places of a rebirth, each field once.
fn read_places(rest: &[u8], places: u8) -> LineFound
    requires { places ≤ 64 }
    ensures { result ≡ placed places (option_map reborn_at (all_numbers (fields_of rest.now))) }
{
    let mut left = rest;
    let mut reborn = PlaceSet::none();
    let mut is_misplaced = false;
    'fields: while let Some((field, more)) = next_field(left) {
        match read_number(field) {
            None => return LineFound::Bad,
            Some(p) => {
                reborn = with_number(reborn, p, places);
                is_misplaced = is_misplaced | (p >= u32::from(places));
                left = more;
            }
        }
    }
    if is_misplaced {
        LineFound::Misplaced
    } else {
        LineFound::Found(Line::Step(Event::Recover(reborn)))
    }
}

// A set with one more place, if that is there.
fn with_number(reborn: PlaceSet, p: u32, places: u8) -> PlaceSet
    requires { places ≤ 64 }
    ensures { result ≡ (if nat_lt p places then with_place reborn p else reborn) }
{
    if p < u32::from(places) {
        reborn.with(p as u8)
    } else {
        reborn
    }
}
