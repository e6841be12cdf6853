//! The log of a place: what survives the loss of its memory.
#![tactic(auto)]

mod bytes;
mod edge_log;
mod record;

pub use edge_log::EdgeLog;
pub use record::LogRecord;

#[cfg(test)]
mod tests {
    use super::*;
    use crate::bytes::push_record;
    use gr_base::{Edge, NumberedEdge, PlaceSet};
    use std::test::Fail;

    fn held(vertex: u32) -> LogRecord {
        LogRecord::Held {
            vertex,
            indeg: 0,
            outdeg: 0,
            master: 1,
            holders: PlaceSet::all(2),
        }
    }

    fn kept() -> LogRecord {
        let edge = Edge {
            src: 0,
            dst: 1,
            weight: 1,
        };
        LogRecord::Kept(NumberedEdge { number: 0, edge })
    }

    #[test]
    fn records_have_their_bytes(rt: HostRuntime) -> Result<(), Fail> {
        let mut bytes = Vec::new(rt.alloc());
        push_record(&mut bytes, held(5))?;
        push_record(&mut bytes, kept())?;
        let written =
            b"\x43\x05\0\0\0\0\0\0\0\0\0\0\0\x01\x03\0\0\0\0\0\0\0\x45\0\0\0\0\0\0\0\0\x01\0\0\0\x01\0\0\0";
        assert_eq!(rt; bytes.as_slice(), written.as_slice());
        Ok(())
    }

    #[test]
    fn committed_records_are_read(rt: HostRuntime) -> Result<(), Fail> {
        let mut log = EdgeLog::new(rt.alloc());
        log.append(held(5))?;
        log.append(kept())?;
        assert_eq!(rt; log.length(), 39);
        assert_eq!(rt; log.committed(), 0);
        assert_eq!(rt; log.records()?.len(), 0);
        log.commit();
        log.append(held(6))?;
        assert_eq!(rt; log.committed(), 39);
        assert_eq!(rt; log.records()?.as_slice(), [held(5), kept()].as_slice());
        log.cut_tail();
        assert_eq!(rt; log.length(), 39);
        Ok(())
    }

    #[test]
    fn a_crash_keeps_the_start_of_the_tail(rt: HostRuntime) -> Result<(), Fail> {
        for keep in [0u32, 1, 21, 22] {
            let mut log = EdgeLog::new(rt.alloc());
            log.append(kept())?;
            log.commit();
            log.append(held(5))?;
            assert_eq!(rt; log.tear(keep), keep);
            assert_eq!(rt; log.length(), 17 + keep as usize);
            assert_eq!(rt; log.tear(99), keep);
            assert_eq!(rt; log.records()?.as_slice(), [kept()].as_slice());
        }
        Ok(())
    }
}
