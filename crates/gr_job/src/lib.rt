//! The job of a run: a TOML document read by its table of keys.
#![tactic(auto)]

mod document;
mod fault;
mod job;
mod kinds;
mod name;
mod read;

pub use fault::{JobFault, KeyText};
pub use job::{Job, ProgramChoice};
pub use read::read_job;

#[cfg(test)]
mod tests {
    use super::*;
    use std::alloc::{AllocError, Global};
    use std::test::Fail;

    /// Documents, and what each is read as: the job's values in order, or the fault.
    const DOCUMENTS: [(&str, &str); 31] = [
        (
            "places = 2\nprogram = \"shortest\"\nsource = 0\n",
            "2 0 1 100 1000 false shortest 0",
        ),
        (
            "places = 64\n\
             spares = 64\n\
             losses = 7\n\
             theta = 4294967295\n\
             rounds = 10000\n\
             undirected = true\n\
             program = \"core\"\n\
             source = 4294967295\n\
             k = 4294967295\n\
             seeds = [0, 4294967295]\n",
            "64 64 7 4294967295 10000 true core 4294967295",
        ),
        (
            "seeds = [3, 1, 3]\n\
             k = 2\n\
             source = 4\n\
             program = \"reach\"\n\
             undirected = false\n\
             rounds = 1\n\
             theta = 0\n\
             losses = 0\n\
             spares = 0\n\
             places = 1\n",
            "1 0 0 0 1 false reach [3, 1, 3]",
        ),
        (
            "places = 2\nprogram = \"hops\"\nsource = 5",
            "2 0 1 100 1000 false hops 5",
        ),
        (
            "places = 2\nprogram = \"rank\"",
            "2 0 1 100 1000 false rank",
        ),
        (
            "places = 2\nprogram = \"indegree\"",
            "2 0 1 100 1000 false indegree",
        ),
        (
            "places = 2\nprogram = \"reach\"\nseeds = []",
            "2 0 1 100 1000 false reach []",
        ),
        (
            "\u{feff}# a job\r\nplaces = 0x10\r\n\"program\" = 'labels'\r\n",
            "16 0 1 100 1000 false labels",
        ),
        ("", "missing places"),
        ("places = 2", "missing program"),
        ("program = \"labels\"", "missing places"),
        ("spares = \"x\"\ncolour = 1", "unknown key colour"),
        ("places = 0\nspares = true", "out of range places"),
        ("places = 65\nprogram = \"labels\"", "out of range places"),
        ("places = -1", "out of range places"),
        ("places = \"2\"", "wrong type places"),
        ("places = 2.0", "wrong type places"),
        ("places = { count = 2 }", "wrong type places"),
        ("places.count = 2", "wrong type places"),
        ("[places]\ncount = 2", "wrong type places"),
        ("places = 2\nprogram = 3", "wrong type program"),
        (
            "places = 2\nprogram = \"dijkstra\"\nsource = \"x\"",
            "unknown program",
        ),
        ("places = 2\nprogram = \"Labels\"", "unknown program"),
        ("places = 2\nprogram = \"shortest\"", "missing source"),
        (
            "places = 2\nprogram = \"hops\"\nk = \"x\"",
            "missing source",
        ),
        ("places = 2\nprogram = \"core\"\nseeds = 3", "missing k"),
        ("places = 2\nprogram = \"reach\"", "missing seeds"),
        ("places =", "not TOML"),
        ("places = 2\nplaces = 2", "not TOML"),
        ("places = 9223372036854775808", "not TOML"),
        ("places = 1e400", "not TOML"),
    ];

    /// Lines that a job of two places for `labels` has besides, and what it is read as.
    const ADDED: [(&str, &str); 32] = [
        (
            "source = 3\nk = 1\nseeds = [1]",
            "2 0 1 100 1000 false labels",
        ),
        (
            "seeds = [7, 7, 7, 7, 7, 7, 7, 7, 7, 7, 7, 7, 7, 7, 7, 7, 7, 7, 7, 7, 7, 7, 7, 7, 7, 7, 7, 7, 7, 7, 7, \
             7, 7, 7, 7, 7, 7, 7, 7, 7, 7, 7, 7, 7, 7, 7, 7, 7, 7, 7, 7, 7, 7, 7, 7, 7, 7, 7, 7, 7, 7, 7, 7, 7]",
            "2 0 1 100 1000 false labels",
        ),
        ("theta = 9_9", "2 0 1 99 1000 false labels"),
        ("spares = 65", "out of range spares"),
        ("spares = \"1\"", "wrong type spares"),
        ("losses = 8\ntheta = \"x\"", "out of range losses"),
        ("losses = [1]", "wrong type losses"),
        ("theta = 4294967296", "out of range theta"),
        ("theta = 9223372036854775807", "out of range theta"),
        ("theta = 1979-05-27", "wrong type theta"),
        ("theta = inf", "wrong type theta"),
        ("rounds = 0", "out of range rounds"),
        ("rounds = 10001\nundirected = 1", "out of range rounds"),
        ("rounds = false", "wrong type rounds"),
        ("undirected = 1", "wrong type undirected"),
        ("undirected = \"true\"\nrounds = 0", "out of range rounds"),
        ("source = 4294967296", "out of range source"),
        ("source = -1\nk = \"x\"", "out of range source"),
        ("source = \"0\"", "wrong type source"),
        ("k = 4294967296", "out of range k"),
        ("k = true\nseeds = 1", "wrong type k"),
        ("seeds = 3", "wrong type seeds"),
        ("seeds = [4294967296]", "out of range seeds"),
        ("seeds = [0, -1]", "out of range seeds"),
        (
            "seeds = [7, 7, 7, 7, 7, 7, 7, 7, 7, 7, 7, 7, 7, 7, 7, 7, 7, 7, 7, 7, 7, 7, 7, 7, 7, 7, 7, 7, 7, 7, 7, \
             7, 7, 7, 7, 7, 7, 7, 7, 7, 7, 7, 7, 7, 7, 7, 7, 7, 7, 7, 7, 7, 7, 7, 7, 7, 7, 7, 7, 7, 7, 7, 7, 7, 7]",
            "out of range seeds",
        ),
        ("seeds = [4294967296, \"7\"]", "wrong type seeds"),
        (
            "seeds = [7, 7, 7, 7, 7, 7, 7, 7, 7, 7, 7, 7, 7, 7, 7, 7, 7, 7, 7, 7, 7, 7, 7, 7, 7, 7, 7, 7, 7, 7, 7, \
             7, 7, 7, 7, 7, 7, 7, 7, 7, 7, 7, 7, 7, 7, 7, 7, 7, 7, 7, 7, 7, 7, 7, 7, 7, 7, 7, 7, 7, \
             7, 7, 7, 7, 7, [7]]",
            "wrong type seeds",
        ),
        ("colour = 1", "unknown key colour"),
        (
            "zeta = 1\nColour = 1\nalpha = 1\nplace = 1",
            "unknown key Colour",
        ),
        ("spares = 65\n\"\" = 1", "unknown key "),
        ("a.b = 1", "unknown key a"),
        ("[job]\nk = 1", "unknown key job"),
    ];

    fn shown(alloc: Global, program: &ProgramChoice) -> Result<String, AllocError> {
        match program {
            ProgramChoice::Shortest(source) => format!(in alloc; "shortest {source}"),
            ProgramChoice::Hops(source) => format!(in alloc; "hops {source}"),
            ProgramChoice::Labels => format!(in alloc; "labels"),
            ProgramChoice::Rank => format!(in alloc; "rank"),
            ProgramChoice::InDegree => format!(in alloc; "indegree"),
            ProgramChoice::Core(k) => format!(in alloc; "core {k}"),
            ProgramChoice::Reach(seeds) => format!(in alloc; "reach {:?}", seeds.as_slice()),
        }
    }

    fn about(alloc: Global, fault: &str, key: &KeyText) -> Result<String, AllocError> {
        let key = std::str::from_utf8(key.as_bytes()).unwrap_or("?");
        format!(in alloc; "{fault} {key}")
    }

    fn answer(alloc: Global, bytes: &[u8]) -> Result<String, AllocError> {
        match read_job(alloc, bytes) {
            Ok(job) => {
                let program = shown(alloc, &job.program)?;
                format!(in alloc;
                    "{} {} {} {} {} {} {program}",
                    job.places, job.spares, job.losses, job.theta, job.rounds, job.undirected
                )
            }
            Err(JobFault::NotToml) => format!(in alloc; "not TOML"),
            Err(JobFault::UnknownKey(key)) => about(alloc, "unknown key", &key),
            Err(JobFault::Missing(key)) => about(alloc, "missing", &key),
            Err(JobFault::WrongType(key)) => about(alloc, "wrong type", &key),
            Err(JobFault::OutOfRange(key)) => about(alloc, "out of range", &key),
            Err(JobFault::UnknownProgram) => format!(in alloc; "unknown program"),
            Err(JobFault::OutOfMemory) => format!(in alloc; "out of memory"),
        }
    }

    #[test]
    fn jobs_are_read_by_their_table(rt: HostRuntime) -> Result<(), Fail> {
        let alloc = rt.alloc();
        for (text, wanted) in DOCUMENTS.iter() {
            let read = answer(alloc, text.as_bytes())?;
            assert_eq!(rt; read.as_str(), *wanted, "{text}");
        }
        for (lines, wanted) in ADDED.iter() {
            let text = format!(in alloc; "places = 2\nprogram = \"labels\"\n{lines}\n")?;
            let read = answer(alloc, text.as_bytes())?;
            assert_eq!(rt; read.as_str(), *wanted, "{text}");
        }
        let no_text = answer(alloc, b"places = 2 # \xff")?;
        assert_eq!(rt; no_text.as_str(), "not TOML");
        Ok(())
    }
}
