use super::{NONE, RUN, SHORTEST, SPOKES, TRIANGLE, answer, file_after};
use std::test::Fail;

const ONE_PLACE: &str =
    "places = 1\nlosses = 0\ntheta = 4294967295\nprogram = \"shortest\"\nsource = 0\n";

const IN_DEGREE: &str = "places = 2\nprogram = \"indegree\"";

// The trace of the edge from 0 to 1 at one place.
const ALONE: &str = "work 0 compute gather
work 0 compute update
work 0 compute signal
work 0 compute call
work 0 compute end
work 0 ready 0
barrier committed 1 round 1 due 0
";

// The same, where the barrier comes before the place is ready.
const NOT_READY: &str = "work 0 compute gather
work 0 compute update
work 0 compute signal
work 0 compute call
work 0 compute end
barrier notready 0
";

// The trace of that edge at two places, where each vertex has both holders.
const TWO_PLACES: &str = "work 0 compute gather
work 0 send 0 gather to 1
delivered 0 from 0 to 1 epoch 0 round 0 gather taken
work 1 compute gather
work 1 send 1 gather to 0
delivered 1 from 1 to 0 epoch 0 round 0 gather taken
work 0 compute update
work 0 send 2 update to 1
delivered 2 from 0 to 1 epoch 0 round 0 update taken 0:0:0
work 1 compute update
work 1 send 3 update to 0
delivered 3 from 1 to 0 epoch 0 round 0 update taken
work 0 compute signal
work 0 send 4 signal to 1
delivered 4 from 0 to 1 epoch 0 round 0 signal taken
work 1 compute signal
work 1 send 5 signal to 0
delivered 5 from 1 to 0 epoch 0 round 0 signal taken
work 0 compute call
work 0 send 6 call to 1
delivered 6 from 0 to 1 epoch 0 round 0 call taken
work 1 compute call
work 1 send 7 call to 0
delivered 7 from 1 to 0 epoch 0 round 0 call taken
work 0 compute end
work 0 ready 0
work 1 compute end
work 1 ready 0
barrier committed 1 round 1 due 0
";

// The trace of the spokes at three places, as far as the first part comes to the hub.
const FIRST_PART: &str = "work 1 compute gather
work 1 send 0 gather to 0
delivered 0 from 1 to 0 epoch 0 round 0 gather taken 0:2
";

const PARTS: &str = "places = 3\nlosses = 0\ntheta = 3\nprogram = \"indegree\"";

const ONE_EDGE: &str = "0\ndone 1 2\n0 0\n1 1\n";

const UNFINISHED: &str = "9\nunfinished 0\n";

// A graph, a job and a schedule; the answer, and the whole trace.
const WHOLE: [[&str; 5]; 6] = [
    ["", IN_DEGREE, "", "0\ndone 0 0\n", ""],
    ["0 1\n", IN_DEGREE, "finish", ONE_EDGE, TWO_PLACES],
    ["0 1\n", ONE_PLACE, "finish", ONE_EDGE, ALONE],
    [
        "0 1\n",
        ONE_PLACE,
        "work 0\nwork 0\nwork 0\nwork 0\nwork 0\nwork 0\nbarrier\n",
        ONE_EDGE,
        ALONE,
    ],
    [
        "0 1\n",
        ONE_PLACE,
        "work 0\nwork 0\nwork 0\nwork 0\nwork 0\nbarrier\n",
        UNFINISHED,
        NOT_READY,
    ],
    [
        SPOKES,
        PARTS,
        "work 1\nwork 1\ndeliver 0\n",
        UNFINISHED,
        FIRST_PART,
    ],
];

#[test]
fn whole_traces(rt: HostRuntime) -> Result<(), Fail> {
    for [graph, job, schedule, text, trace] in WHOLE {
        let answer = answer(rt.alloc(), RUN, [graph, job, schedule], NONE)?;
        assert_eq!(rt; answer.as_slice(), text.as_bytes(), "{schedule}");
        let bytes = file_after(rt.alloc(), "t", RUN, [graph, job, schedule], NONE)?;
        assert_eq!(rt; bytes.as_slice(), trace.as_bytes(), "{schedule}");
    }
    Ok(())
}

// Whether a line stands in a trace.
fn has_line(trace: &[u8], line: &str) -> bool {
    trace
        .split(|b| *b == b'\n')
        .any(|part| part == line.as_bytes())
}

const HIGH: &str = "places = 3\ntheta = 3\nprogram = \"indegree\"";

const LOW: &str = "places = 3\ntheta = 6\nprogram = \"indegree\"";

const CROSSED: &str = "work 0\nwork 0\nwork 1\nwork 1\ndeliver 1\ndeliver 0\nfinish\n";

// A graph, a job, a schedule, and a line of the trace.
const LINES: [[&str; 4]; 10] = [
    [
        SPOKES,
        HIGH,
        "finish",
        "delivered 2 from 1 to 0 epoch 0 round 0 gather taken 0:2",
    ],
    [
        SPOKES,
        HIGH,
        "finish",
        "delivered 4 from 2 to 0 epoch 0 round 0 gather taken 0:2",
    ],
    [
        SPOKES,
        LOW,
        "finish",
        "delivered 0 from 0 to 1 epoch 0 round 0 gather taken",
    ],
    [
        SPOKES,
        LOW,
        "finish",
        "delivered 1 from 0 to 2 epoch 0 round 0 gather taken",
    ],
    [
        SPOKES,
        LOW,
        "finish",
        "delivered 2 from 1 to 0 epoch 0 round 0 gather taken",
    ],
    [
        SPOKES,
        LOW,
        "finish",
        "delivered 3 from 1 to 2 epoch 0 round 0 gather taken",
    ],
    [
        SPOKES,
        LOW,
        "finish",
        "delivered 4 from 2 to 0 epoch 0 round 0 gather taken",
    ],
    [
        SPOKES,
        LOW,
        "finish",
        "delivered 7 from 2 to 1 epoch 0 round 0 gather taken",
    ],
    [
        TRIANGLE,
        SHORTEST,
        CROSSED,
        "delivered 1 from 1 to 0 epoch 0 round 0 gather taken",
    ],
    [
        TRIANGLE,
        SHORTEST,
        CROSSED,
        "delivered 0 from 0 to 1 epoch 0 round 0 gather taken",
    ],
];

#[test]
fn lines_of_traces(rt: HostRuntime) -> Result<(), Fail> {
    for [graph, job, schedule, line] in LINES {
        let trace = file_after(rt.alloc(), "t", RUN, [graph, job, schedule], NONE)?;
        assert!(rt; has_line(&trace, line), "{line}");
    }
    Ok(())
}

// The first lines of the trace of the triangle, where the batch that was sent later is delivered first.
const FIRST_LINES: &str = "work 0 compute gather
work 0 send 0 gather to 1
work 1 compute gather
work 1 send 1 gather to 0
delivered 1 from 1 to 0 epoch 0 round 0 gather taken
delivered 0 from 0 to 1 epoch 0 round 0 gather taken
";

// A trace may take the place of an input, which was read before.
#[test]
fn a_trace_in_the_place_of_an_input(rt: HostRuntime) -> Result<(), Fail> {
    for name in ["g", "j", "s", "t"] {
        let words = ["run", "g", "j", "s", name];
        let trace = file_after(
            rt.alloc(),
            name,
            &words,
            [TRIANGLE, SHORTEST, CROSSED],
            NONE,
        )?;
        assert!(rt; trace.starts_with(FIRST_LINES.as_bytes()), "{name}");
    }
    Ok(())
}
