//! The text of a proof: the line of the verdict, and then a line for each tag.

ghost use Rattle.std.specs.Prelude.{◌≡◌, IfOk};
ghost use Rattle.sf_base.specs.Results.{Appends};
ghost use Rattle.sf_core.specs.Program.ProgramView.{program_of};
ghost use Rattle.sf_proof.specs.ProofText.{atom_text, procedure_text, proof_text, split_text, tag_text, term_text};

use itoa::Buffer;
use sf_base::ProcId;
use sf_core::Program;
use sf_sym::{Tag, Term};
use std::alloc::{AllocError, Global};

/// The text of a proof of the program by these tags. A `procedure` line of a procedure that isn't
/// there has no name. An `Err` means out of memory.
pub fn proof_text(alloc: Global, p: &Program, tags: &[Tag]) -> Result<Vec<u8>, AllocError>
    ensures { IfOk result (λ text. text.items ≡ proof_text (program_of p.now) tags.now) }
{
    let mut text = Vec::from_slice(alloc, b"accepted\n")?;
    for tag in tags {
        put_tag(&mut text, p, *tag)?;
        put(&mut text, "\n")?;
    }
    Ok(text)
}

/// Appends a text. An `Err` means out of memory.
pub fn put(text: &mut Vec<u8>, more: &str) -> Result<(), AllocError>
    ensures { Appends result text.old.items text.new.items more.now }
{
    text.extend_from_slice(more.as_bytes())?;
    Ok(())
}

/// Appends a tag that names an atom. An `Err` means out of memory.
fn put_atom(text: &mut Vec<u8>, tag: &str, atom: u32) -> Result<(), AllocError>
    ensures { Appends result text.old.items text.new.items (atom_text tag.now atom) }
{
    put(text, tag)?;
    put(text, " ")?;
    put(text, Buffer::new().format(atom))
}

/// Appends a term. An `Err` means out of memory.
pub fn put_term(text: &mut Vec<u8>, t: Term) -> Result<(), AllocError>
    ensures { Appends result text.old.items text.new.items (term_text t) }
{
    match t {
        Term::Nil => put(text, "nil"),
        Term::Int(i) => put(text, Buffer::new().format(i)),
        Term::Sym(n) => {
            put(text, "s")?;
            put(text, Buffer::new().format(n))
        }
    }
}

/// Appends the tag that splits by two terms. An `Err` means out of memory.
fn put_split(text: &mut Vec<u8>, t: Term, u: Term) -> Result<(), AllocError>
    ensures { Appends result text.old.items text.new.items (split_text t u) }
{
    put(text, "split ")?;
    put_term(text, t)?;
    put(text, " ")?;
    put_term(text, u)
}

/// Appends the tag that begins a procedure. An `Err` means out of memory.
fn put_procedure(text: &mut Vec<u8>, p: &Program, f: ProcId) -> Result<(), AllocError>
    ensures { Appends result text.old.items text.new.items (procedure_text (program_of p.now) f) }
{
    put(text, "procedure ")?;
    text.extend_from_slice(p.name_of(f))?;
    Ok(())
}

/// Appends a tag. An `Err` means out of memory.
fn put_tag(text: &mut Vec<u8>, p: &Program, tag: Tag) -> Result<(), AllocError>
    ensures { Appends result text.old.items text.new.items (tag_text (program_of p.now) tag) }
{
    match tag {
        Tag::Procedure(f) => put_procedure(text, p, f),
        Tag::Absurd => put(text, "absurd"),
        Tag::Drop(a) => put_atom(text, "drop", a),
        Tag::Force(a) => put_atom(text, "force", a),
        Tag::Split(t, u) => put_split(text, t, u),
        Tag::Unroll(a) => put_atom(text, "unroll", a),
        Tag::Back(a) => put_atom(text, "back", a),
        Tag::Assign => put(text, "assign"),
        Tag::Look(a) => put_atom(text, "look", a),
        Tag::Mutate(a) => put_atom(text, "mutate", a),
        Tag::New => put(text, "new"),
        Tag::Dispose(a) => put_atom(text, "dispose", a),
        Tag::Then => put(text, "then"),
        Tag::Else => put(text, "else"),
        Tag::Loop => put(text, "loop"),
        Tag::Around => put(text, "around"),
        Tag::Again => put(text, "again"),
        Tag::Call => put(text, "call"),
        Tag::Fork => put(text, "fork"),
        Tag::Enter => put(text, "enter"),
        Tag::Exit => put(text, "exit"),
        Tag::Return => put(text, "return"),
        Tag::Give => put(text, "give"),
        Tag::End => put(text, "end"),
        Tag::Add => put(text, "add"),
        Tag::Bind => put(text, "bind"),
        Tag::Same => put(text, "same"),
        Tag::Apart => put(text, "apart"),
        Tag::Cell(a) => put_atom(text, "cell", a),
        Tag::Empty => put(text, "empty"),
        Tag::Exact(a) => put_atom(text, "exact", a),
        Tag::Head(a) => put_atom(text, "head", a),
        Tag::Join(a) => put_atom(text, "join", a),
        Tag::Node(a) => put_atom(text, "node", a),
    }
}
