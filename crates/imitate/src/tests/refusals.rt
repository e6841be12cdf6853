use super::{NONE, PLAIN, RUN, SHORTEST, TRIANGLE, answer, file_after};
use std::test::Fail;

const USAGE: &str =
    "2\nusage: imitate run GRAPH JOB SCHEDULE TRACE, plain GRAPH JOB, load SEED SIZE\n";

const NO_FORM: [&[&str]; 14] = [
    &[],
    &["--help"],
    &["plain", "g"],
    &["plain", "g", "j", "s", "t"],
    &["run"],
    &["run", "g", "j"],
    &["run", "g", "j", "s"],
    &["run", "g", "j", "s", "t", "u"],
    &["load", "0"],
    &["load", "0", "0"],
    &["load", "0", "100001"],
    &["load", "4294967296", "1"],
    &["load", "", "1"],
    &["load", "0", "1 "],
];

#[test]
fn words_of_no_form(rt: HostRuntime) -> Result<(), Fail> {
    for words in NO_FORM {
        let answer = answer(rt.alloc(), words, [TRIANGLE, SHORTEST, "finish"], NONE)?;
        assert_eq!(rt; answer.as_slice(), USAGE.as_bytes());
    }
    Ok(())
}

#[test]
fn inputs_that_are_missing(rt: HostRuntime) -> Result<(), Fail> {
    let rows = [
        (["plain", "no", "j"].as_slice(), "3\ncannot read no\n"),
        (["plain", "g", "no"].as_slice(), "3\ncannot read no\n"),
        (["plain", "x", "y"].as_slice(), "3\ncannot read x\n"),
        (
            ["run", "no", "j", "s", "t"].as_slice(),
            "3\ncannot read no\n",
        ),
        (
            ["run", "g", "no", "s", "t"].as_slice(),
            "3\ncannot read no\n",
        ),
        (
            ["run", "g", "j", "no", "t"].as_slice(),
            "3\ncannot read no\n",
        ),
        (["run", "x", "y", "z", "t"].as_slice(), "3\ncannot read x\n"),
    ];
    for (words, text) in rows {
        for [graph, job, schedule] in [[TRIANGLE, SHORTEST, "finish"], ["x", "places =", "x"]] {
            let answer = answer(rt.alloc(), words, [graph, job, schedule], NONE)?;
            assert_eq!(rt; answer.as_slice(), text.as_bytes());
        }
    }
    Ok(())
}

// A graph and a job that are refused, with a schedule, and what is said.
const REFUSED: [[&str; 4]; 8] = [
    [
        "0 1\n1 2\n0 2\n1 2.5\n",
        SHORTEST,
        "x",
        "5\ngraph line 4: bad line\n",
    ],
    [
        "4294967296 1\n",
        SHORTEST,
        "x",
        "5\ngraph line 1: number too large\n",
    ],
    [
        "",
        "places = 65\nprogram = \"shortest\"\nsource = 0",
        "x",
        "6\njob: out of range places\n",
    ],
    [
        "",
        "places = 2\nsource = 0\n",
        "x",
        "6\njob: missing program\n",
    ],
    [
        "x",
        "places = 2\nprogram = \"rank\"\ncolour = 1",
        "x",
        "6\njob: unknown key colour\n",
    ],
    [
        "",
        "places = \"2\"\nprogram = \"rank\"",
        "x",
        "6\njob: wrong type places\n",
    ],
    [
        "",
        "places = 2\nprogram = \"ranks\"",
        "x",
        "6\njob: unknown program\n",
    ],
    ["x", "places =", "x", "6\njob: not TOML\n"],
];

#[test]
fn graphs_and_jobs_that_are_refused(rt: HostRuntime) -> Result<(), Fail> {
    for [graph, job, schedule, text] in REFUSED {
        for words in [PLAIN, RUN] {
            let answer = answer(rt.alloc(), words, [graph, job, schedule], NONE)?;
            assert_eq!(rt; answer.as_slice(), text.as_bytes(), "{graph} with {job}");
        }
    }
    Ok(())
}

#[test]
fn schedules_that_are_refused(rt: HostRuntime) -> Result<(), Fail> {
    let rows = [
        ("crash", "7\nschedule line 1: bad line\n"),
        ("work 2", "7\nschedule line 1: place out of range\n"),
        ("finish\n# x\n\nwork\n", "7\nschedule line 4: bad line\n"),
    ];
    for (schedule, text) in rows {
        let answer = answer(rt.alloc(), RUN, [TRIANGLE, SHORTEST, schedule], NONE)?;
        assert_eq!(rt; answer.as_slice(), text.as_bytes(), "{schedule}");
    }
    Ok(())
}

// The first two lines of the trace of the triangle.
const TWO_LINES: &str = "work 0 compute gather\nwork 0 send 0 gather to 1\n";

#[test]
fn calls_that_fail(rt: HostRuntime) -> Result<(), Fail> {
    let inputs = [TRIANGLE, SHORTEST, "finish"];
    let rows = [
        ([1, 0], "3\ncannot read g\n", ""),
        ([2, 0], "3\ncannot read j\n", ""),
        ([3, 0], "3\ncannot read s\n", ""),
        ([4, 0], "10\ncannot write t\n", ""),
        ([5, 0], "10\ncannot write t\n", ""),
        ([6, 0], "10\ncannot write t\n", "work 0 compute gather\n"),
        ([7, 0], "10\ncannot write t\n", TWO_LINES),
    ];
    for (failing, text, trace) in rows {
        let answer = answer(rt.alloc(), RUN, inputs, failing)?;
        assert_eq!(rt; answer.as_slice(), text.as_bytes());
        let bytes = file_after(rt.alloc(), "t", RUN, inputs, failing)?;
        assert_eq!(rt; bytes.as_slice(), trace.as_bytes());
    }
    Ok(())
}

#[test]
fn an_output_that_fails(rt: HostRuntime) -> Result<(), Fail> {
    for words in [PLAIN, RUN] {
        let answer = answer(rt.alloc(), words, [TRIANGLE, SHORTEST, "finish"], [0, 1])?;
        assert_eq!(rt; answer.as_slice(), b"11\ncannot write output\n".as_slice());
    }
    Ok(())
}
