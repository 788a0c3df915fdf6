//! Files of just as many of something as there may be, and of one more.

use super::super::{is_answered, is_refused};
use super::answers::EMPTY;
use std::alloc::Global;
use std::test::Fail;

/// Files of so many numbered things: a beginning, what comes before each number, what comes between
/// two, and an end; how many there may be, the answer to so many, and the place at which
/// one more is refused.
const COUNTS: [((&str, &str, &str, &str), u32, &str, &str); 8] = [
    (("f(", "p", ",", ") { }"), 256, EMPTY, "1:1173"),
    (
        ("f(", "p", ",", ") { p0 = nil; }"),
        256,
        "accepted\nprocedure f\nassign\nassign\nreturn\nend\n",
        "1:1173",
    ),
    (("f() { local ", "p", ",", "; }"), 256, EMPTY, "1:1183"),
    (("f(a) { local ", "p", ",", "; }"), 255, EMPTY, "1:1179"),
    (
        ("", "resource r", "()[]\n", "()[]"),
        64,
        "accepted\n",
        "65:1",
    ),
    (("", "a", ",", ";"), 16, "accepted\n", "1:55"),
    (
        ("resource r (", "p", ",", ") []"),
        256,
        "accepted\n",
        "1:1183",
    ),
    (
        ("resource a (x) [] resource r (", "p", ",", ") []"),
        255,
        "accepted\n",
        "1:1196",
    ),
];

/// That many numbered texts, with a text between two of them, a beginning and an end.
fn numbered(alloc: Global, parts: (&str, &str, &str, &str), count: u32) -> Result<String, Fail> {
    let (begin, each, between, end) = parts;
    let mut file = String::from_str(alloc, begin)?;
    for i in 0..count {
        if i > 0 {
            file.push_str(between)?;
        }
        file.push_str(format!(in alloc; "{each}{i}")?.as_str())?;
    }
    file.push_str(end)?;
    Ok(file)
}

#[test]
fn limits_of_counts(rt: HostRuntime) -> Result<(), Fail> {
    let alloc = rt.alloc();
    for (parts, limit, answer, place) in COUNTS {
        let within = numbered(alloc, parts, limit)?;
        is_answered(&rt, within.as_bytes(), answer)?;
        let beyond = numbered(alloc, parts, limit.saturating_add(1))?;
        let fault = format!(in alloc; "26 TooMany at {place}")?;
        is_refused(&rt, beyond.as_bytes(), fault.as_str())?;
    }
    Ok(())
}

#[test]
fn a_thousand_procedures_and_one_more(rt: HostRuntime) -> Result<(), Fail> {
    let alloc = rt.alloc();
    let procedures = ("", "p", "(){}\n", "(){}");
    let lines = (
        "accepted\n",
        "procedure p",
        "\nreturn\nend\n",
        "\nreturn\nend\n",
    );
    let within = numbered(alloc, procedures, 1000)?;
    let proof = numbered(alloc, lines, 1000)?;
    is_answered(&rt, within.as_bytes(), proof.as_str())?;
    let beyond = numbered(alloc, procedures, 1001)?;
    is_refused(&rt, beyond.as_bytes(), "26 TooMany at 1001:1")
}

/// Files of things that are nested: a beginning, an opening, a closing, and an end; how many openings
/// there may be, how often `then` is taken in the proof of so many, and the place at which one more
/// is refused.
const NESTS: [((&str, &str, &str, &str), u32, u32, &str); 3] = [
    (
        ("f() [", "if nil == nil then emp else ", "", "emp] { }"),
        63,
        1,
        "1:1789",
    ),
    (("f() {", "{", "}", "}"), 64, 0, "1:70"),
    (("f(x) {", "if (x==x) ", "", "{ } }"), 63, 63, "1:647"),
];

/// A beginning, so many openings and as many closings, and an end.
fn nested(alloc: Global, parts: (&str, &str, &str, &str), count: u32) -> Result<String, Fail> {
    let (begin, open, close, end) = parts;
    let mut file = String::from_str(alloc, begin)?;
    for _ in 0..count {
        file.push_str(open)?;
    }
    for _ in 0..count {
        file.push_str(close)?;
    }
    file.push_str(end)?;
    Ok(file)
}

#[test]
fn limits_of_nesting(rt: HostRuntime) -> Result<(), Fail> {
    let alloc = rt.alloc();
    let proof = ("accepted\nprocedure f\n", "then\n", "", "return\nend\n");
    for (parts, limit, thens, place) in NESTS {
        let answer = nested(alloc, proof, thens)?;
        let within = nested(alloc, parts, limit)?;
        is_answered(&rt, within.as_bytes(), answer.as_str())?;
        let beyond = nested(alloc, parts, limit.saturating_add(1))?;
        let fault = format!(in alloc; "11 TooDeep at {place}")?;
        is_refused(&rt, beyond.as_bytes(), fault.as_str())?;
    }
    Ok(())
}
