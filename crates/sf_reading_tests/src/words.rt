//! The words of a command, and the first one that is at fault.

use sf_words::{Order, WordFault, read};

#[test]
fn words_are_their_orders(rt: HostRuntime) {
    let verify = Order::Verify {
        file: "a",
        workers: 1,
    };
    let four = Order::Verify {
        file: "a",
        workers: 4,
    };
    let cases: [(&[&str], Order); 19] = [
        (&["verify", "a"], verify),
        (&["verify", "--", "a"], verify),
        (&["verify", "a", "--"], verify),
        (&["verify", "--workers", "4", "a"], four),
        (&["verify", "--workers=4", "a"], four),
        (&["verify", "a", "--workers", "0000000000000000004"], four),
        (
            &["verify", "--workers=64", "--", "-a=b"],
            Order::Verify {
                file: "-a=b",
                workers: 64,
            },
        ),
        (
            &["verify", "--", "--workers=4"],
            Order::Verify {
                file: "--workers=4",
                workers: 1,
            },
        ),
        (
            &["verify", "--", "--"],
            Order::Verify {
                file: "--",
                workers: 1,
            },
        ),
        (
            &["recheck", "a", "b"],
            Order::Recheck {
                file: "a",
                proof: "b",
            },
        ),
        (
            &["run", "a", "b", "c"],
            Order::Run {
                file: "a",
                entry: "b",
                state: "c",
                steps: 1_000_000,
                waits: 1_000_000,
            },
        ),
        (
            &[
                "run",
                "--waits=16777216",
                "a",
                "--steps",
                "281474976710656",
                "b",
                "c",
            ],
            Order::Run {
                file: "a",
                entry: "b",
                state: "c",
                steps: 281_474_976_710_656,
                waits: 16_777_216,
            },
        ),
        (&["demo", "1000"], Order::Demo { procedures: 1000 }),
        (&["order", "a"], Order::Ranking { file: "a" }),
        (&["order", "--", "-a"], Order::Ranking { file: "-a" }),
        (&["order", "order"], Order::Ranking { file: "order" }),
        (
            &["replay", "a", "--", "b", "-c", "d"],
            Order::Replay {
                file: "a",
                entry: "b",
                state: "-c",
                schedule: "d",
            },
        ),
        (
            &["journal", "a", "b", "c"],
            Order::Journal {
                file: "a",
                entry: "b",
                state: "c",
                steps: 1_000_000,
                waits: 1_000_000,
            },
        ),
        (
            &["journal", "a", "--waits=3", "b", "--steps", "2", "--", "-c"],
            Order::Journal {
                file: "a",
                entry: "b",
                state: "-c",
                steps: 2,
                waits: 3,
            },
        ),
    ];
    for (words, order) in cases {
        assert!(rt; read(rt.alloc(), words) == Ok(order));
    }
}

#[test]
fn other_words_are_refused(rt: HostRuntime) {
    let cases: [&[&str]; 44] = [
        &[],
        &["--help"],
        &["help"],
        &["--version"],
        &["verify"],
        &["verify", "a", "b"],
        &["verify", ""],
        &["verify", "-"],
        &["verify", "--", "-"],
        &["verify", "-a"],
        &["verify", "a", "--help"],
        &["verify", "a", "-h"],
        &["verify", "a", "--workers"],
        &["verify", "a", "--workers", "--"],
        &["verify", "a", "--workers", "-1"],
        &["verify", "a", "--workers", "0"],
        &["verify", "a", "--workers", "65"],
        &["verify", "a", "--workers", "+2"],
        &["verify", "a", "--workers="],
        &["verify", "a", "--workers=00000000000000000001"],
        &["verify", "a", "--workers", "1", "--workers", "1"],
        &["verify", "a", "--worker=1"],
        &["verify", "a", "--steps=1"],
        &["Verify", "a"],
        &["--", "verify", "a"],
        &["recheck", "a"],
        &["recheck", "a", "b", "--workers=1"],
        &["run", "a", "b"],
        &["run", "a", "b", "c", "--steps=281474976710657"],
        &["run", "a", "b", "c", "--waits=16777217"],
        &["order"],
        &["order", ""],
        &["order", "a", "b"],
        &["order", "a", "--workers=1"],
        &["orders", "a"],
        &["replay", "a", "b", "c"],
        &["replay", "a", "b", "c", ""],
        &["replay", "a", "b", "c", "d", "e"],
        &["replay", "a", "b", "c", "d", "--steps=1"],
        &["journal", "a", "b"],
        &["journal", "a", "b", "c", "--workers=1"],
        &["journal", "a", "b", "c", "--steps=0"],
        &["demo", "0"],
        &["demo", "1001"],
    ];
    for words in cases {
        assert!(rt; read(rt.alloc(), words) == Err(WordFault::Usage));
    }
}
