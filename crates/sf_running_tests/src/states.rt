//! `read` and `write` of states' texts, for files that are read from their texts. The answers were
//! worked out by hand.

use sf_files::fitted;
use sf_foot::{Finish, Start};
use sf_precise::Arranged;
use sf_state::{StartFault, entry, read, write};
use std::alloc::{AllocError, Global};
use std::test::Fail;

/// A cell each, a list between two ends, a tree, and what a resource owns.
const FILE: &[u8] = b"resource mm (f) [list(f)]
resource pair (a, b) [a|->hd:b]
alloc(x;) [] { }
one(x) [x|->] { }
two(x) [x|-> * x|->] { }
seg(x, y) [lseg(x, y)] { }
wood(p) [tree(p)] { }
bits(x; y) [if x == nil then emp else x|->tl:y] { }
taken(x) [x|-> * a == nil] { }
";

/// The fault as it is printed.
fn told(alloc: Global, fault: &StartFault) -> Result<String, AllocError> {
    match fault {
        StartFault::BadLine(line) => format!(in alloc; "70 line {line}"),
        StartFault::Twice(name) => named(alloc, "71", name.as_bytes()),
        StartFault::Missing(name) => named(alloc, "72", name.as_bytes()),
        StartFault::Unknown(name) => named(alloc, "73", name.as_bytes()),
        StartFault::Unmet(name) => named(alloc, "74", name.as_bytes()),
        StartFault::LeftOver(location) => format!(in alloc; "75 @{location}"),
        StartFault::FreeEntry(name) => named(alloc, "76", name.as_bytes()),
        StartFault::TooLong => format!(in alloc; "77"),
        StartFault::OutOfMemory => format!(in alloc; "memory"),
    }
}

/// The kind with a name.
fn named(alloc: Global, kind: &str, name: &[u8]) -> Result<String, AllocError> {
    let name = String::from_utf8_lossy(alloc, name)?;
    format!(in alloc; "{kind} {name}")
}

/// The parts' sizes and the first unit of a start.
fn shown(alloc: Global, start: &Start) -> Result<String, AllocError> {
    let mut text = String::new(alloc);
    for part in &start.parts {
        let size = format!(in alloc; "{}, ", part.len())?;
        text.push_str(size.as_str())?;
    }
    let unit = format!(in alloc; "unit {}", start.unit)?;
    text.push_str(unit.as_str())?;
    Ok(text)
}

/// What is said of the start of a procedure with the text.
fn says(alloc: Global, p: &Arranged, name: &str, text: &[u8]) -> Result<String, AllocError> {
    match entry(alloc, p, name) {
        Ok(f) => match read(alloc, p, f, text) {
            Ok(start) => shown(alloc, &start),
            Err(fault) => told(alloc, &fault),
        },
        Err(fault) => told(alloc, &fault),
    }
}

#[test]
fn texts_are_starts_or_say_why_not(rt: HostRuntime) -> Result<(), Fail> {
    let cases: [(&str, &[u8], &str); 30] = [
        ("none", b"", "73 none"),
        ("taken", b"", "76 taken"),
        ("alloc", b"?", "70 line 1"),
        ("alloc", b"x = nil\nmm.f = nil\n@1 up=3", "73 up"),
        ("alloc", b"mm.f = nil\nmm.f = nil", "71 mm.f"),
        ("alloc", b"x = nil\nmm.f = nil\npair.b = nil", "72 pair.a"),
        (
            "alloc",
            b"x = nil\nmm.f = 3\npair.a = @1\npair.b = nil\n@1",
            "74 resource mm",
        ),
        (
            "alloc",
            b"x = nil\nmm.f = nil\npair.a = @1\npair.b = 5\n@1",
            "74 resource pair",
        ),
        (
            "alloc",
            b"x = nil\nmm.f = nil\npair.a = @1\npair.b = nil",
            "74 resource pair",
        ),
        (
            "alloc",
            b"x = nil\nmm.f = @1\npair.a = @1\npair.b = nil\n@1",
            "74 resource pair",
        ),
        (
            "alloc",
            b"x = nil\nmm.f = nil\npair.a = @1\npair.b = nil\n@1",
            "0, 0, 1, unit 2",
        ),
        (
            "alloc",
            b"x = @9\nmm.f = @3\npair.a = @1\npair.b = nil\n@1\n@3 tl=@2\n@2",
            "0, 2, 1, unit 10",
        ),
        (
            "alloc",
            b"x = nil\nmm.f = nil\npair.a = @1\npair.b = nil\n@1 r=@40",
            "0, 0, 1, unit 41",
        ),
        (
            "alloc",
            b"x = nil\nmm.f = nil\npair.a = @1\npair.b = @7\n@1 hd=@7",
            "0, 0, 1, unit 8",
        ),
        (
            "alloc",
            b"x = nil\nmm.f = nil\npair.a = @1\npair.b = nil\n@1\n@9\n@7",
            "75 @7",
        ),
        (
            "one",
            b"x = @1\nmm.f = nil\npair.a = @2\npair.b = nil\n@1\n@2",
            "1, 0, 1, unit 3",
        ),
        (
            "one",
            b"x = @1\nmm.f = nil\npair.a = @1\npair.b = nil\n@1",
            "74 resource pair",
        ),
        (
            "one",
            b"x = @1\nmm.f = @1\npair.a = @1\npair.b = nil\n@1",
            "74 resource mm",
        ),
        (
            "one",
            b"x = @2\nmm.f = nil\npair.a = @1\npair.b = nil\n@1",
            "74 pre",
        ),
        (
            "one",
            b"x = nil\nmm.f = 3\npair.a = nil\npair.b = nil\n@5",
            "74 pre",
        ),
        (
            "two",
            b"x = @1\nmm.f = nil\npair.a = @2\npair.b = nil\n@1\n@2",
            "74 pre",
        ),
        (
            "seg",
            b"x=@3\ny=@5\nmm.f=@5\npair.a=@1\npair.b=nil\n@1\n@3 tl=@4\n@4 tl=@5\n@5",
            "2, 1, 1, unit 6",
        ),
        (
            "seg",
            b"x=@3\ny=@5\nmm.f=nil\npair.a=@1\npair.b=nil\n@1\n@3 tl=@4\n@4 tl=@5\n@5",
            "75 @5",
        ),
        (
            "seg",
            b"x=@3\ny=@5\nmm.f=nil\npair.a=@1\npair.b=nil\n@1\n@3 tl=@4\n@4 tl=@3\n",
            "74 pre",
        ),
        (
            "wood",
            b"p=nil\nmm.f=nil\npair.a=@1\npair.b=nil\n@1\n@7",
            "75 @7",
        ),
        (
            "wood",
            b"p=@2\nmm.f=nil\npair.a=@1\npair.b=nil\n@1\n@2 l=@3 r=@4\n@3\n@4",
            "3, 0, 1, unit 5",
        ),
        (
            "wood",
            b"p=@2\nmm.f=nil\npair.a=@1\npair.b=nil\n@1\n@2 l=@3 r=@3\n@3",
            "74 pre",
        ),
        (
            "bits",
            b"finished\r\n\tx = NULL\r\ny=-007\nmm.f=nil\n# @8\npair.a=@01\npair.b=nil\n@001\n",
            "0, 0, 1, unit 2",
        ),
        (
            "bits",
            b"x=@4\ny=5\nmm.f=nil\npair.a=@1\npair.b=nil\n@1\n@4 tl=5",
            "1, 0, 1, unit 5",
        ),
        (
            "bits",
            b"x=@4611686018427387903\ny=5\nmm.f=nil\npair.a=@1\npair.b=nil\n@1\n@4611686018427387903 tl=5",
            "1, 0, 1, unit 4611686018427387904",
        ),
    ];
    let alloc = rt.alloc();
    let Some(p) = fitted(alloc, FILE) else {
        assert!(rt; false);
        return Ok(());
    };
    for (name, text, answer) in cases {
        let said = says(alloc, &p, name, text)?;
        assert_eq!(rt; said.as_str(), answer);
    }
    Ok(())
}

/// The text of a start as it is written, if it is one.
fn rewritten(alloc: Global, p: &Arranged, name: &str, text: &[u8]) -> Result<Vec<u8>, AllocError> {
    let Ok(f) = entry(alloc, p, name) else {
        return Ok(Vec::new(alloc));
    };
    let Ok(start) = read(alloc, p, f, text) else {
        return Ok(Vec::new(alloc));
    };
    let Start { vars, heap, .. } = start;
    write(alloc, p, f, &Finish { vars, heap })
}

#[test]
fn states_are_written_in_one_form(rt: HostRuntime) -> Result<(), Fail> {
    let cases: [(&str, &[u8], &[u8]); 3] = [
        (
            "wood",
            b"p=@2\nmm.f=nil\npair.a=@1\npair.b=-7\n@04\n@1 hd=-07\n@2 r=@4 l=@3\n@3",
            b"p = @2
mm.f = nil
pair.a = @1
pair.b = -7
@1 hd=-7 tl=nil l=nil r=nil
@2 hd=nil tl=nil l=@3 r=@4
@3 hd=nil tl=nil l=nil r=nil
@4 hd=nil tl=nil l=nil r=nil
",
        ),
        (
            "bits",
            b"pair.b=NULL\npair.a=@12\ny=00\nx=NULL\n@12\nmm.f=nil",
            b"x = nil\ny = 0\nmm.f = nil\npair.a = @12\npair.b = nil\n@12 hd=nil tl=nil l=nil r=nil\n",
        ),
        (
            "alloc",
            b"x = @4611686018427387903\nmm.f = nil\npair.a = @1\npair.b = @9\n@1 hd=@9",
            b"x = @4611686018427387903\nmm.f = nil\npair.a = @1\npair.b = @9\n@1 hd=@9 tl=nil l=nil r=nil\n",
        ),
    ];
    let alloc = rt.alloc();
    let Some(p) = fitted(alloc, FILE) else {
        assert!(rt; false);
        return Ok(());
    };
    for (name, text, form) in cases {
        let written = rewritten(alloc, &p, name, text)?;
        assert!(rt; written.as_slice() == form);
        assert!(rt; rewritten(alloc, &p, name, &written)?.as_slice() == form);
    }
    Ok(())
}
