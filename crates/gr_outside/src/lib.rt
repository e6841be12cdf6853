//! Files and sinks as the engine sees them: what they hold, where they tell it, and how often they failed.
#![tactic(auto)]

mod fail_list;
mod faults;
mod files;
mod loads;
mod memory_file;
mod memory_files;
mod memory_sink;
mod real_files;
mod real_sink;
mod sink;

pub use faults::{FileFault, LoadFault, SinkFault};
pub use files::Files;
pub use memory_files::MemoryFiles;
pub use memory_sink::MemorySink;
pub use real_files::RealFiles;
pub use real_sink::RealSink;
pub use sink::{Sink, write_whole};

#[cfg(test)]
mod tests {
    use super::*;
    use gr_base::Items;
    use std::fs;
    use std::io::BufWriter;
    use std::test::Fail;

    #[test]
    fn a_load_stops_past_its_limit(rt: HostRuntime) -> Result<(), Fail> {
        let alloc = rt.alloc();
        let mut files = MemoryFiles::new(alloc, Items::new(alloc));
        files.add("g", b"12345")?;
        for (name, limit, answer, text) in [
            ("g", 4, "long", b"12345".as_slice()),
            ("g", 5, "whole", b"12345".as_slice()),
            ("h", 5, "failed", b"".as_slice()),
        ] {
            let mut into = Vec::new(alloc);
            assert_eq!(rt; word(&files.load(alloc, name, limit, &mut into)), answer);
            assert_eq!(rt; into.as_slice(), text);
        }
        Ok(())
    }

    #[test]
    fn a_listed_call_fails_and_leaves_the_files(rt: HostRuntime) -> Result<(), Fail> {
        let alloc = rt.alloc();
        let mut files = MemoryFiles::new(alloc, Items::from_slice(alloc, &[3, 5])?);
        files.begin(alloc, "t")?;
        assert_eq!(rt; files.append(alloc, b"ab")?, 2);
        assert!(rt; matches!(files.append(alloc, b"cd"), Err(FileFault::Failed)));
        assert_eq!(rt; files.append(alloc, b"e")?, 1);
        assert!(rt; matches!(files.begin(alloc, "t"), Err(FileFault::Failed)));
        assert_eq!(rt; files.bytes_of("t"), Some(b"abe".as_slice()));
        Ok(())
    }

    #[test]
    fn the_second_put_fails(rt: HostRuntime) -> Result<(), Fail> {
        let alloc = rt.alloc();
        let mut sink = MemorySink::new(alloc, Items::from_slice(alloc, &[2])?);
        write_whole(alloc, &mut sink, b"ab")?;
        assert!(rt; matches!(write_whole(alloc, &mut sink, b"cd"), Err(SinkFault::Failed)));
        write_whole(alloc, &mut sink, b"e")?;
        assert_eq!(rt; sink.taken(), b"abe".as_slice());
        Ok(())
    }

    #[test]
    fn real_files_are_written_and_read(rt: HostRuntime) -> Result<(), Fail> {
        let alloc = rt.alloc();
        let text = vec![in alloc; b'x'; 200000]?;
        let mut files = RealFiles::new(&rt);
        files.begin(alloc, "written.tmp")?;
        assert_eq!(rt; files.append(alloc, &text)?, text.len());
        for (name, limit, answer, count) in [
            ("written.tmp", 200000u32, "whole", 200000),
            ("written.tmp", 199999, "long", 200000),
            ("written.tmp", 70000, "long", 70001),
            ("absent.tmp", 200000, "failed", 0),
            (".", 200000, "failed", 0),
        ] {
            let mut into = Vec::new(alloc);
            assert_eq!(rt;
                word(&files.load(alloc, name, limit as usize, &mut into)),
                answer
            );
            assert_eq!(rt; into.len(), count);
        }
        fs::remove_file(&rt, "written.tmp")?;
        assert!(rt; matches!(files.begin(alloc, "."), Err(FileFault::Failed)));
        Ok(())
    }

    #[test]
    fn a_real_sink_loses_no_byte_silently(rt: HostRuntime) -> Result<(), Fail> {
        let alloc = rt.alloc();
        let mut sink = RealSink::new(BufWriter::new(alloc, fs::create(&rt, "taken.tmp")?)?);
        write_whole(alloc, &mut sink, b"text")?;
        assert_eq!(rt; fs::read_to_string(&rt, "taken.tmp")?.as_str(), "text");
        fs::remove_file(&rt, "taken.tmp")?;

        // a disk that is full, without and behind a buffer
        let mut sink = RealSink::new(fs::create(&rt, "/dev/full")?);
        assert!(rt;
            matches!(
                write_whole(alloc, &mut sink, b"text"),
                Err(SinkFault::Failed)
            )
        );
        let mut sink = RealSink::new(BufWriter::new(alloc, fs::create(&rt, "/dev/full")?)?);
        assert!(rt;
            matches!(
                write_whole(alloc, &mut sink, b"text"),
                Err(SinkFault::Failed)
            )
        );
        Ok(())
    }

    fn word(loaded: &Result<(), LoadFault>) -> &'static str {
        match loaded {
            Ok(()) => "whole",
            Err(LoadFault::TooLong) => "long",
            Err(LoadFault::Failed) => "failed",
            Err(LoadFault::OutOfMemory) => "out of memory",
        }
    }
}
