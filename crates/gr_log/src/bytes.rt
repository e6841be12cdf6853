ghost use Rattle.std.specs.Prelude.{◌≡◌, ◌+◌, ◌≤◌, ◌<◌, ◌^◌, ◌++◌, ◌∷◌, Some, length, take, drop, OnOk, OnErr};
ghost use Rattle.std.specs.Int.{from_le_bytes, w32, w64};
ghost use Rattle.std.specs.List.{All};
ghost use Rattle.gr_base.specs.Places.{word_of};
ghost use Rattle.gr_base.specs.PlaceBits.{members_from, is_bit};
ghost use Rattle.gr_base.specs.declared.records.NumberedEdge.{NumberedEdge as TheEdge};
ghost use Rattle.gr_log.specs.Bytes.{record_bytes};
ghost use Rattle.gr_log.specs.Reading.{held_in, kept_in, first_record};
ghost use Rattle.gr_log.specs.declared.record.LogRecord.TheVariants as entry;

use crate::LogRecord;
use gr_base::{Edge, NumberedEdge, OutOfMemory, PlaceSet};

// The tags of the records.
const HELD: u8 = 0x43;

const KEPT: u8 = 0x45;

// The record that stands whole at the start.
pub(crate) fn first_record(bytes: &[u8]) -> Option<LogRecord>
    ensures { result ≡ first_record bytes.now }
{
    if bytes.is_empty() {
        return None;
    }
    if bytes[0] == HELD {
        if bytes.len() < 22 {
            return None;
        }
        return Some(held(&bytes[1..22]));
    }
    if bytes[0] == KEPT {
        if bytes.len() < 17 {
            return None;
        }
        return Some(kept(&bytes[1..17]));
    }
    None
}

fn held(bytes: &[u8]) -> LogRecord
    requires { length bytes.now ≡ 21 }
    ensures { result ≡ held_in bytes.now }
{
    LogRecord::Held {
        vertex: number_at(bytes, 0),
        indeg: number_at(bytes, 4),
        outdeg: number_at(bytes, 8),
        master: bytes[12],
        holders: places_of(word_at(bytes, 13)),
    }
}

fn kept(bytes: &[u8]) -> LogRecord
    requires { length bytes.now ≡ 16 }
    ensures { result ≡ kept_in bytes.now }
{
    let edge = Edge {
        src: number_at(bytes, 4),
        dst: number_at(bytes, 8),
        weight: number_at(bytes, 12),
    };
    LogRecord::Kept(NumberedEdge {
        number: number_at(bytes, 0),
        edge,
    })
}

// The number that stands in four bytes.
fn number_at(bytes: &[u8], at: usize) -> u32
    requires { at + 4 ≤ length bytes.now }
    ensures { result ≡ from_le_bytes w32 (drop at bytes.now) }
{
    u32::from_le_bytes([bytes[at], bytes[at + 1], bytes[at + 2], bytes[at + 3]])
}

// The number that stands in eight bytes.
fn word_at(bytes: &[u8], at: usize) -> u64
    requires { at + 8 ≤ length bytes.now }
    ensures { result ≡ from_le_bytes w64 (drop at bytes.now) }
{
    u64::from_le_bytes([
        bytes[at],
        bytes[at + 1],
        bytes[at + 2],
        bytes[at + 3],
        bytes[at + 4],
        bytes[at + 5],
        bytes[at + 6],
        bytes[at + 7],
    ])
}

// The places whose bits are set.
fn places_of(word: u64) -> PlaceSet
    ensures { result ≡ members_from (is_bit word) 0 64 }
{
    let mut places = PlaceSet::none();
    for p in 0..64u8 {
        if (word >> p) & 1 == 1 {
            places = places.with(p);
        }
    }
    places
}

// The word with a bit for each place.
fn word_of(places: PlaceSet) -> u64
    ensures { members_from (is_bit result) 0 64 ≡ places }
{
    let mut word: u64 = 0;
    for p in 0..64u8 {
        if places.has(p) {
            word |= 1 << p;
        }
    }
    word
}

// Appends the bytes of a record.
pub(crate) fn push_record(into: &mut Vec<u8>, item: LogRecord) -> Result<(), OutOfMemory>
    ensures ok { OnOk result (into.new.items ≡ into.old.items ++ record_bytes item) }
    ensures err { OnErr result (into.new.items ≡ into.old.items) }
    ensures read_again { first_record (record_bytes item) ≡ Some item }
    ensures bytes { All (λ b. b < 256) (record_bytes item) }
{
    match item {
        LogRecord::Held {
            vertex,
            indeg,
            outdeg,
            master,
            holders,
        } => {
            let bytes = held_bytes(vertex, indeg, outdeg, master, holders);
            into.extend_from_slice(&bytes)?;
        }
        LogRecord::Kept(edge) => {
            let bytes = kept_bytes(edge.number, edge.edge.src, edge.edge.dst, edge.edge.weight);
            into.extend_from_slice(&bytes)?;
        }
    }
    Ok(())
}

fn held_bytes(vertex: u32, indeg: u32, outdeg: u32, master: u8, holders: PlaceSet) -> [u8; 22]
    ensures written { result ≡ record_bytes (entry.Held vertex indeg outdeg master holders) }
    ensures read_again { first_record result ≡ Some (entry.Held vertex indeg outdeg master holders) }
    ensures bytes { All (λ b. b < 256) result }
{
    let v = vertex.to_le_bytes();
    let i = indeg.to_le_bytes();
    let o = outdeg.to_le_bytes();
    let h = word_of(holders).to_le_bytes();
    [
        HELD, v[0], v[1], v[2], v[3], i[0], i[1], i[2], i[3], o[0], o[1], o[2], o[3], master, h[0],
        h[1], h[2], h[3], h[4], h[5], h[6], h[7],
    ]
}

fn kept_bytes(number: u32, src: u32, dst: u32, weight: u32) -> [u8; 17]
    ensures written { result ≡ record_bytes (entry.Kept (record {
      number = number;
      edge = record { src = src; dst = dst; weight = weight };
    })) }
    ensures read_again { first_record result
        ≡ Some (entry.Kept (record { number = number; edge = record { src = src; dst = dst; weight = weight } })) }
    ensures bytes { All (λ b. b < 256) result }
{
    let n = number.to_le_bytes();
    let s = src.to_le_bytes();
    let d = dst.to_le_bytes();
    let w = weight.to_le_bytes();
    [
        KEPT, n[0], n[1], n[2], n[3], s[0], s[1], s[2], s[3], d[0], d[1], d[2], d[3], w[0], w[1],
        w[2], w[3],
    ]
}
