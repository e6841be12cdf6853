use super::{NONE, RUN, TRIANGLE, answer, file_after};
use std::test::Fail;

const TWO_PLACES: &str = "places = 2\nprogram = \"shortest\"\nsource = 0\n";

const THREE_PLACES: &str = "places = 3\nprogram = \"shortest\"\nsource = 0\n";

const ONE_SPARE: &str = "places = 2\nspares = 1\nprogram = \"shortest\"\nsource = 0\n";

const TWO_SPARES: &str = "places = 3\nspares = 2\nlosses = 2\nprogram = \"shortest\"\nsource = 0\n";

const FOUR_PLACES: &str = "places = 4\nlosses = 2\nprogram = \"shortest\"\nsource = 0\n";

const RANK: &str = "places = 2\nspares = 1\nprogram = \"rank\"\n";

const CHAIN: &str = "0 1\n2 3\n3 4\n4 5\n5 6\n";

const FROM_0: &str = "0\ndone 2 3\n0 0\n1 1\n2 1\n";

const RANKS: &str =
    "0\ndone 5 7\n0 150000\n1 277500\n2 150000\n3 277500\n4 385875\n5 477993\n6 556294\n";

const LOST: &str = "8\nlost 1\n2\n";

// The trace from the crash to the commit of the recovery, with a spare for place 0.
const REBORN: &str = "crash 0 kept 0
work 1 install 1
work 1 adopt 1
work 1 compute gather
work 1 send 8 gather to 0
delivered 8 from 1 to 0 epoch 1 round 1 gather down
barrier failed 0
work 1 adopt 2
recover epoch 3 rebirth 0
work 0 compute ask
work 0 send 9 ask to 1
delivered 9 from 0 to 1 epoch 3 round 1 ask taken
work 1 adopt 3
work 1 compute ask
work 1 send 10 ask to 0
delivered 10 from 1 to 0 epoch 3 round 1 ask taken
work 0 compute grant
work 0 send 11 grant to 1
delivered 11 from 0 to 1 epoch 3 round 1 grant taken
work 1 compute grant
work 1 send 12 grant to 0
delivered 12 from 1 to 0 epoch 3 round 1 grant taken 0:0:2:0:0,1:0:0 1:1:1:1:0,1:1:0 2:2:0:0:0,1:1:1
work 0 compute end
work 0 append 66
work 0 ready 1
work 1 compute end
work 1 append 66
work 1 ready 0
barrier committed 2 round 1 due 1
";

// The trace from the crash to the end, where place 1 takes over.
const TAKEN_OVER: &str = "crash 0 kept 0
barrier failed 0
work 1 install 1
work 1 adopt 2
recover epoch 3
work 1 adopt 3
work 1 compute ask
work 1 compute grant
work 1 compute end
work 1 append 100
work 1 ready 1
barrier committed 2 round 1 due 1
work 1 install 2
work 1 adopt 4
work 1 compute gather
work 1 compute update
work 1 compute signal
work 1 compute call
work 1 compute end
work 1 ready 0
barrier committed 3 round 2 due 0
";

// A vertex without readers has no value at its mirrors: where its master was lost, it is due at every copy.
const OWED: &str =
    "delivered 27 from 0 to 1 epoch 5 round 3 grant taken 0:0:1:0:0,1:150000:0 1:1:0:1:0,1:-:1 2:0:1:0:0,1:150000:0 3:1:1:1:0,1:277500:0 4:1:1:0:0,1:385875:0 5:1:1:1:0,1:1000000:1 6:1:0:0:0,1:-:0
";

// A place crashes in its recovery, and keeps a part of the record that it appended.
const TORN: &str = "work 1 append 22
crash 1 kept 7
";

const TORN_SCHEDULE: &str = "settle
crash 0
barrier
recover
work 1\nwork 1\nwork 1\nwork 1\nwork 1
work 2\nwork 2\nwork 2\nwork 2\nwork 2
work 3\nwork 3\nwork 3\nwork 3\nwork 3
deliver 0\ndeliver 0\ndeliver 0\ndeliver 0\ndeliver 0\ndeliver 0
work 1\nwork 1\nwork 1
work 2\nwork 2\nwork 2
work 3\nwork 3\nwork 3
deliver 0\ndeliver 0\ndeliver 0\ndeliver 0\ndeliver 0\ndeliver 0
work 1\nwork 1
crash 1 keep 7
finish
";

// A graph, a job and a schedule; the answer, and a part of the trace.
const CRASHES: [[&str; 5]; 15] = [
    [
        TRIANGLE,
        ONE_SPARE,
        "settle\ncrash 0\nfinish\n",
        FROM_0,
        REBORN,
    ],
    [
        TRIANGLE,
        TWO_PLACES,
        "settle\ncrash 0\nbarrier\nfinish\n",
        FROM_0,
        TAKEN_OVER,
    ],
    [TRIANGLE, FOUR_PLACES, TORN_SCHEDULE, FROM_0, TORN],
    [
        CHAIN,
        RANK,
        "settle\nsettle\nsettle\ncrash 1\nfinish\n",
        RANKS,
        OWED,
    ],
    [
        TRIANGLE,
        THREE_PLACES,
        "crash 0\ncrash 2\nfinish\n",
        LOST,
        "recover lost 1\n",
    ],
    [
        TRIANGLE,
        THREE_PLACES,
        "crash 2\nsettle\ncrash 0\nfinish\n",
        LOST,
        "recover lost 1\n",
    ],
    [
        TRIANGLE,
        THREE_PLACES,
        "crash 2\nsettle\nrepair\nsettle\ncrash 0\nfinish\n",
        FROM_0,
        "work 1 append 100\nwork 1 ready 3\nbarrier committed 3 round 0 due 3\n",
    ],
    [
        TRIANGLE,
        TWO_PLACES,
        "deliver 0\ncrash 1\nwork 1\n",
        "9\nunfinished 0\n",
        "deliver 0 idle\ncrash 1 kept 0\nwork 1 idle\n",
    ],
    [
        TRIANGLE,
        TWO_SPARES,
        "crash 0\nbarrier\nrecover rebirth 0\ncrash 0\nfinish\n",
        FROM_0,
        "recover epoch 2 rebirth 0\ncrash 0 kept 0\nwork 1 adopt 2\n",
    ],
    [
        TRIANGLE,
        ONE_SPARE,
        "crash 0\nbarrier\nrecover rebirth 0\ndiscard\nfinish\n",
        FROM_0,
        "crash 0 kept 0\nbarrier failed 0\nrecover epoch 2 rebirth 0\ndiscard epoch 3\n",
    ],
    [
        TRIANGLE,
        TWO_PLACES,
        "crash 0\nbarrier\nrecover rebirth 0\nfinish\n",
        FROM_0,
        "crash 0 kept 0\nbarrier failed 0\nrecover rebirth 0 idle\n",
    ],
    [
        TRIANGLE,
        TWO_PLACES,
        "settle\ndiscard\nfinish\n",
        FROM_0,
        "barrier committed 1 round 1 due 1\ndiscard epoch 2\n",
    ],
    [
        TRIANGLE,
        THREE_PLACES,
        "repair\nfinish\n",
        FROM_0,
        "repair epoch 1\nwork 0 adopt 1\n",
    ],
    [
        TRIANGLE,
        THREE_PLACES,
        "crash 2\nbarrier\nrecover\ncrash 0\nfinish\n",
        LOST,
        "barrier failed 0\nwork 1 adopt 3\nrecover lost 1\n",
    ],
    [
        TRIANGLE,
        ONE_SPARE,
        "crash 0\nbarrier\nrecover rebirth 0\ndiscard\ncrash 0\nfinish\n",
        FROM_0,
        "recover epoch 2 rebirth 0\ndiscard epoch 3\ncrash 0 idle\n",
    ],
];

// Whether a part stands in a trace.
fn has_part(trace: &[u8], part: &str) -> bool {
    for i in 0..trace.len() {
        if trace[i..].starts_with(part.as_bytes()) {
            return true;
        }
    }
    false
}

#[test]
fn runs_with_crashes(rt: HostRuntime) -> Result<(), Fail> {
    for [graph, job, schedule, text, part] in CRASHES {
        let answer = answer(rt.alloc(), RUN, [graph, job, schedule], NONE)?;
        assert_eq!(rt; answer.as_slice(), text.as_bytes(), "{schedule}");
        let trace = file_after(rt.alloc(), "t", RUN, [graph, job, schedule], NONE)?;
        assert!(rt; has_part(&trace, part), "{schedule}");
    }
    Ok(())
}
