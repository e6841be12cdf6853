use super::{NONE, PLAIN, RUN, SHORTEST, SPOKES, TRIANGLE, answer};
use std::alloc::Global;
use std::test::Fail;

const FIVE_LINES: &str =
    "places = 2\nlosses = 0\ntheta = 4294967295\nprogram = \"shortest\"\nsource = 0\n";

const DIRECTED: &str = "# Directed graph\r\n# FromNodeId\tToNodeId\r\n0\t1\r\n1\t2";

const RANK: &str = "places = 2\nprogram = \"rank\"";

const IN_DEGREE: &str = "places = 2\nprogram = \"indegree\"";

const ZEROS: &str = "0\ndone 1 7\n0 6\n1 0\n2 0\n3 0\n4 0\n5 0\n6 0\n";

const FROM_0: &str = "0\ndone 2 3\n0 0\n1 1\n2 1\n";

// What `plain` prints of a graph and a job, and `run` too, whatever its schedule is.
const ROWS: [[&str; 3]; 19] = [
    ["", FIVE_LINES, "0\ndone 0 0\n"],
    [TRIANGLE, FIVE_LINES, FROM_0],
    [TRIANGLE, SHORTEST, FROM_0],
    ["0  1", FIVE_LINES, "0\ndone 1 2\n0 0\n1 1\n"],
    ["7\n", FIVE_LINES, "0\ndone 1 1\n7 inf\n"],
    [
        DIRECTED,
        "places = 1\nprogram = \"shortest\"\nsource = 0",
        "0\ndone 2 3\n0 0\n1 1\n2 2\n",
    ],
    [
        DIRECTED,
        "places = 1\nprogram = \"labels\"",
        "0\ndone 2 3\n0 0\n1 0\n2 0\n",
    ],
    ["", IN_DEGREE, "0\ndone 0 0\n"],
    ["5\n", IN_DEGREE, "0\ndone 1 1\n5 0\n"],
    [
        SPOKES,
        "places = 3\ntheta = 3\nprogram = \"indegree\"",
        ZEROS,
    ],
    [
        SPOKES,
        "places = 3\ntheta = 6\nprogram = \"indegree\"",
        ZEROS,
    ],
    [
        "0 1\n",
        "places = 2\nprogram = \"rank\"\nrounds = 1\n",
        "0\ndone 1 2\n0 150000\n1 1000000\n",
    ],
    [
        "0 1\n",
        "places = 2\nprogram = \"rank\"\nrounds = 9\n",
        "0\ndone 2 2\n0 150000\n1 277500\n",
    ],
    [
        "0 1\n0 1\n1 1\n",
        RANK,
        "0\ndone 2 2\n0 150000\n1 1850000\n",
    ],
    [
        "0 1\n2 3\n3 4\n4 5\n5 6\n",
        "places = 2\nspares = 1\nprogram = \"rank\"",
        "0\ndone 5 7\n0 150000\n1 277500\n2 150000\n3 277500\n4 385875\n5 477993\n6 556294\n",
    ],
    [
        "0 2\n1 2\n3 0\n3 1\n",
        "places = 2\nprogram = \"hops\"\nsource = 3",
        "0\ndone 2 4\n0 1 3\n1 1 3\n2 2 0\n3 0 3\n",
    ],
    [
        "7\n",
        "places = 2\nprogram = \"hops\"\nsource = 0",
        "0\ndone 1 1\n7 inf inf\n",
    ],
    [
        "0 1\n1 2\n2 0\n2 3\n",
        "places = 2\nundirected = true\nprogram = \"core\"\nk = 2",
        "0\ndone 2 4\n0 1\n1 1\n2 1\n3 0\n",
    ],
    [
        "0 1\n3 1\n1 2\n",
        "places = 2\nprogram = \"reach\"\nseeds = [0, 3]",
        "0\ndone 2 4\n0 1\n1 3\n2 3\n3 2\n",
    ],
];

#[test]
fn results_of_small_graphs(rt: HostRuntime) -> Result<(), Fail> {
    for [graph, job, text] in ROWS {
        for words in [PLAIN, RUN] {
            let answer = answer(rt.alloc(), words, [graph, job, "finish"], NONE)?;
            assert_eq!(rt; answer.as_slice(), text.as_bytes(), "{graph} with {job}");
        }
    }
    Ok(())
}

#[test]
fn results_of_schedules(rt: HostRuntime) -> Result<(), Fail> {
    let rows = [
        "finish",
        "work 0\nwork 0\nwork 1\nwork 1\ndeliver 1\ndeliver 0\nfinish\n",
        "settle\n\n# twice\r\nsettle\r\n",
    ];
    for schedule in rows {
        let answer = answer(rt.alloc(), RUN, [TRIANGLE, SHORTEST, schedule], NONE)?;
        assert_eq!(rt; answer.as_slice(), FROM_0.as_bytes(), "{schedule}");
    }
    Ok(())
}

// So many lines of an edge from 0 to 1.
fn many_edges(alloc: Global, count: u32) -> Result<String, Fail> {
    let mut text = String::new(alloc);
    for _ in 0..count {
        text.push_str("0 1\n")?;
    }
    Ok(text)
}

#[test]
fn a_graph_of_many_bytes(rt: HostRuntime) -> Result<(), Fail> {
    let graph = many_edges(rt.alloc(), 1100)?;
    for words in [PLAIN, RUN] {
        let answer = answer(rt.alloc(), words, [&graph, IN_DEGREE, "finish"], NONE)?;
        assert_eq!(rt; answer.as_slice(), b"0\ndone 1 2\n0 0\n1 1100\n".as_slice());
    }
    Ok(())
}

#[test]
fn generated_input(rt: HostRuntime) -> Result<(), Fail> {
    let rows = [
        (
            "0",
            "1",
            "0\nload 0 1 vertices 1 rounds 1 events 123 sum 0\n",
        ),
        (
            "000",
            "0001",
            "0\nload 0 1 vertices 1 rounds 1 events 123 sum 0\n",
        ),
        (
            "5",
            "1000",
            "0\nload 5 1000 vertices 251 rounds 10 events 1465 sum 3265\n",
        ),
    ];
    for (seed, size, text) in rows {
        let words = ["load", seed, size];
        let answer = answer(rt.alloc(), &words, ["", "", ""], NONE)?;
        assert_eq!(rt; answer.as_slice(), text.as_bytes(), "{seed} {size}");
    }
    Ok(())
}
