//! `elaborate`, with ample memory.

ghost use Rattle.std.specs.Prelude.{◌≤◌, map};
ghost use Rattle.sf_ast.specs.Depth.{items_depth};
ghost use Rattle.sf_ast.specs.View.{item_of};
ghost use Rattle.sf_base.specs.declared.limits.TheConstants.{NESTING};

use sf_ast::{File, Item, SurfaceNames, Word};
use sf_base::Place;
use sf_elab::elaborate;
use std::alloc::{AllocError, Global};
use std::test::Fail;

/// A file of those items.
fn file(items: Vec<Item>) -> File
    requires { items_depth (map item_of items.items) ≤ NESTING }
{
    File { items }
}

#[test]
fn file_without_items_has_the_usual_fields(rt: HostRuntime) {
    let counts = match elaborate(rt.alloc(), b"", file(Vec::new(rt.alloc()))) {
        Ok(program) => (program.fields.len(), program.procedures.len()),
        Err(_) => (0, 1),
    };
    assert_eq!(rt; counts, (4, 0));
}

/// A file that declares one field, whose name has that span.
fn field(alloc: Global, start: usize, end: usize) -> Result<File, AllocError> {
    let first = Word {
        start,
        end,
        place: Place { line: 1, column: 1 },
    };
    let more = Vec::new(alloc);
    let items = vec![in alloc; Item::Fields(SurfaceNames { first, more })]?;
    Ok(file(items))
}

#[test]
fn names_are_the_bytes_of_their_spans(rt: HostRuntime) -> Result<(), Fail> {
    let rows = [
        (0, 2, b"hd".as_slice()),
        (3, 4, b"\xff"),
        (1, 5, b"d \xff;"),
        (3, 9, b"\xff;"),
        (7, 9, b""),
        (4, 3, b""),
    ];
    for (start, end, name) in rows {
        let file = field(rt.alloc(), start, end)?;
        match elaborate(rt.alloc(), b"hd \xff;", file) {
            Ok(program) => {
                assert_eq!(rt; program.fields.len(), 1, "{start} {end}");
                for field in &program.fields {
                    assert_eq!(rt; field.as_bytes(), name, "{start} {end}");
                }
            }
            Err(_) => assert!(rt; false, "{start} {end}"),
        }
    }
    Ok(())
}
