//! Schedules: what happens to a cluster, event by event, as lines of a text.
#![tactic(auto)]

mod event;
mod fault;
mod field;
mod line;
mod print;
mod read;

pub use event::{Event, Line};
pub use fault::SchedFault;
pub use print::{print_schedule, write_event, write_places, write_rebirth, write_word};
pub use read::read_schedule;

#[cfg(test)]
mod tests {
    use super::*;
    use std::test::Fail;

    #[test]
    fn a_schedule_is_read_and_printed(rt: HostRuntime) -> Result<(), Fail> {
        let cases = [
            (b"".as_slice(), b"".as_slice()),
            (
                b"crash 1 keep 0\nrecover rebirth 3 0 3",
                b"crash 1\nrecover rebirth 0 3\n",
            ),
            (
                b"work 003\nwork\t0 \r\ndeliver 4294967295",
                b"work 3\nwork 0\ndeliver 4294967295\n",
            ),
            (b" # work\n\n#\r\n \t\n\r\ndrop 00", b"drop 0\n"),
            (b"crash 3 keep 4294967295\n", b"crash 3 keep 4294967295\n"),
            (
                b"barrier\nrecover\nrepair\ndiscard",
                b"barrier\nrecover\nrepair\ndiscard\n",
            ),
            (b"  settle\r\n\tfinish \n", b"settle\nfinish\n"),
            (b"recover  rebirth\t2", b"recover rebirth 2\n"),
        ];
        let alloc = rt.alloc();
        for (text, printed) in cases {
            let lines = read_schedule(alloc, text, 4)?;
            let mut into = Vec::new(alloc);
            print_schedule(alloc, lines.as_slice(), &mut into)?;
            assert_eq!(rt; into.as_slice(), printed);
        }
        Ok(())
    }

    #[test]
    fn places_reach_from_0_to_63(rt: HostRuntime) -> Result<(), Fail> {
        let text = b"work 63\nrecover rebirth 63 0\n".as_slice();
        let alloc = rt.alloc();
        let lines = read_schedule(alloc, text, 64)?;
        assert_eq!(rt; lines.len(), 2);
        let found = read_schedule(alloc, b"work 64", 64);
        assert!(rt; matches!(found, Err(SchedFault::PlaceOutOfRange(1))));
        let found = read_schedule(alloc, b"work 0", 0);
        assert!(rt; matches!(found, Err(SchedFault::PlaceOutOfRange(1))));
        Ok(())
    }

    #[test]
    fn the_first_faulty_line_is_named(rt: HostRuntime) {
        let cases = [
            (b"settle\n# x\nwork".as_slice(), SchedFault::BadLine(3)),
            (b"work 4", SchedFault::PlaceOutOfRange(1)),
            (b"work 260", SchedFault::PlaceOutOfRange(1)),
            (b"work 4294967295", SchedFault::PlaceOutOfRange(1)),
            (b"work 4294967296", SchedFault::BadLine(1)),
            (b"crash 4 keep 4294967296", SchedFault::BadLine(1)),
            (b"crash 4 keep 1\nx", SchedFault::PlaceOutOfRange(1)),
            (b"crash 1 keep", SchedFault::BadLine(1)),
            (b"crash p keep 1", SchedFault::BadLine(1)),
            (b"recover rebirth", SchedFault::BadLine(1)),
            (b"recover rebirth 4 x", SchedFault::BadLine(1)),
            (b"recover rebirth 0 4 1", SchedFault::PlaceOutOfRange(1)),
            (b"recover 1", SchedFault::BadLine(1)),
            (b"work 1 2", SchedFault::BadLine(1)),
            (b"work -1", SchedFault::BadLine(1)),
            (b"Work 1", SchedFault::BadLine(1)),
            (b"settle 1", SchedFault::BadLine(1)),
            (b"work 1\r \n", SchedFault::BadLine(1)),
            (b"% work 1", SchedFault::BadLine(1)),
            (b"work 1 # x", SchedFault::BadLine(1)),
        ];
        for (text, fault) in cases {
            let found = read_schedule(rt.alloc(), text, 4);
            assert!(rt; matches!(found, Err(named) if named == fault));
        }
    }

    #[test]
    fn as_many_events_as_may_be_and_one_more(rt: HostRuntime) -> Result<(), Fail> {
        let alloc = rt.alloc();
        let mut text = Vec::new(alloc);
        text.extend_from_slice(b"# events\n")?;
        for i in 0..200000 {
            text.extend_from_slice(b"repair\n")?;
        }
        assert!(rt; text.len() <= 268435456);
        let lines = read_schedule(alloc, text.as_slice(), 1)?;
        assert_eq!(rt; lines.len(), 200000);
        text.extend_from_slice(b"\nwork 0\n")?;
        assert!(rt; text.len() <= 268435456);
        let found = read_schedule(alloc, text.as_slice(), 1);
        assert!(rt; matches!(found, Err(SchedFault::TooManyEvents(200003))));
        Ok(())
    }
}
