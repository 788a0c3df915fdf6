//! The file, line by line.

ghost use Rattle.std.specs.Prelude.{◌≡◌, ◌++◌, IfOk};
ghost use Rattle.sf_base.specs.Results.{Appends};
ghost use Rattle.sf_gen.specs.Made.{hand_text, made_text, name_text, procedure_text, tree_text};

use itoa::Buffer;
use std::alloc::{AllocError, Global};

/// What a procedure that gives a tree up has before its first call.
const TREE_HEAD: &str = "(p) [tree(p)] { local i, j; if (p == nil) { } else { i = p->l; j = p->r; ";
/// What it has after the name that its second call has.
const TREE_END: &str = "(j); dispose(p); } } []\n";
/// What a procedure that hands a cell over has after its name.
const HAND: &str = "(y) [y|->] { with mm when (true) { y->tl = f; f = y; } } []\n";

/// The text of a file of that many procedures: a resource, and then by turns a
/// procedure that gives a tree up by two tasks and one that hands a cell over to the resource. An
/// `Err` means that memory ran out.
pub fn make(alloc: Global, procedures: u32) -> Result<Vec<u8>, AllocError>
    ensures { IfOk result (λ text. text.items ≡ made_text procedures) }
{
    let mut text = Vec::from_slice(alloc, b"resource mm (f) [list(f)]\n")?;
    for before in 0..procedures {
        put_procedure(&mut text, before + 1)?;
    }
    Ok(text)
}

/// Appends the procedure of that number. An `Err` means that memory ran out.
fn put_procedure(text: &mut Vec<u8>, number: u32) -> Result<(), AllocError>
    ensures { Appends result text.old.items text.new.items (procedure_text number) }
{
    if number % 2 == 1 {
        return put_tree(text, number);
    }
    put_hand(text, number)
}

/// Appends a text. An `Err` means that memory ran out.
fn put(text: &mut Vec<u8>, more: &str) -> Result<(), AllocError>
    ensures { Appends result text.old.items text.new.items more.now }
{
    text.extend_from_slice(more.as_bytes())?;
    Ok(())
}

/// Appends the name of the procedure of that number, and a text. An `Err` means that memory ran
/// out.
fn put_named(text: &mut Vec<u8>, number: u32, more: &str) -> Result<(), AllocError>
    ensures { Appends result text.old.items text.new.items (name_text number ++ more.now) }
{
    put(text, "d")?;
    put(text, Buffer::new().format(number))?;
    put(text, more)
}

/// Appends a procedure that gives a tree up, its two subtrees by two tasks. An `Err` means that
/// memory ran out.
fn put_tree(text: &mut Vec<u8>, number: u32) -> Result<(), AllocError>
    ensures { Appends result text.old.items text.new.items (tree_text number) }
{
    put_named(text, number, TREE_HEAD)?;
    put_named(text, number, "(i) || ")?;
    put_named(text, number, TREE_END)
}

/// Appends a procedure that hands a cell over to the resource. An `Err` means that memory ran out.
fn put_hand(text: &mut Vec<u8>, number: u32) -> Result<(), AllocError>
    ensures { Appends result text.old.items text.new.items (hand_text number) }
{
    put_named(text, number, HAND)
}
