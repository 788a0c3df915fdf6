//! The whole page.

ghost use Rattle.std.specs.Prelude.{IfOk};
ghost use Rattle.sf_page.specs.Written.{IsPage};

use crate::bytes::between;
use crate::fixed::{Fixed, fixed_text};
use crate::html::Html;
use crate::markup::{Class, Element};
use crate::model::Page;
use crate::scene::put_text;
use crate::source::put_source;
use crate::walk::{put_run, put_track};
use std::alloc::{AllocError, Global};

/// What is to be known of a page.
const NOTE: &str = "An unproved drawing over proved parts. Dashed: more cells; grey: handed over.";

/// Appends the head. An `Err` means out of memory.
fn put_top(out: &mut Html, page: &Page) -> Result<(), AllocError> {
    out.open(Element::Div, Class::Top, &[])?;
    put_text(out, Element::H1, Class::Title, &page.title)?;
    put_text(out, Element::P, Class::Summary, &page.summary)?;
    put_text(out, Element::P, Class::Note, NOTE.as_bytes())?;
    out.close(Element::Div)
}

/// Appends all that can be walked. An `Err` means out of memory.
fn put_walks(out: &mut Html, alloc: Global, page: &Page) -> Result<(), AllocError> {
    out.open(Element::Div, Class::Tracks, &[])?;
    let mut n: u32 = 0;
    for track in &page.tracks {
        put_track(out, alloc, n, track)?;
        n = n.saturating_add(1);
    }
    if let Some(run) = &page.run {
        put_run(out, alloc, n, run)?;
    }
    out.close(Element::Div)
}

/// A page as one file of HTML: under its title pieces of a page, with each text escaped, between what
/// is the same in each page. An `Err` means out of memory.
pub fn make_page(alloc: Global, page: &Page) -> Result<Vec<u8>, AllocError>
    ensures { IfOk result (λ bytes. ∥ IsPage page.now.title.items bytes.items ∥₁) }
{
    let mut body = Html::new(alloc);
    put_top(&mut body, page)?;
    put_source(&mut body, &page.source, &page.marks)?;
    put_walks(&mut body, alloc, page)?;
    let body = body.into_bytes();
    let head = fixed_text(Fixed::Head);
    let style = fixed_text(Fixed::Style);
    let script = fixed_text(Fixed::Script);
    let bytes = between(alloc, head, &page.title, style, &body, script)?;
    Ok(bytes)
}
