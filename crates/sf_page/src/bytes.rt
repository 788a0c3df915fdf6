//! How markup and escaped text are appended to bytes.

ghost use Rattle.std.specs.Prelude.{◌≡◌, ◌++◌, codes, IfOk};
ghost use Rattle.sf_base.specs.Results.{Appends};
ghost use Rattle.sf_page.specs.Escaped.{escaped, escaped_byte};
ghost use Rattle.sf_page.specs.Markup.{closing_text, number_text, numbers_text, opening_text};

use crate::markup::{
    Class, Element, Number, class_text, element_text, number_after, number_before,
};
use itoa::Buffer;
use std::alloc::{AllocError, Global};

/// Appends a text as it is. An `Err` means out of memory.
pub fn put(bytes: &mut Vec<u8>, text: &str) -> Result<(), AllocError>
    ensures { Appends result bytes.old.items bytes.new.items text.now }
{
    bytes.extend_from_slice(text.as_bytes())?;
    Ok(())
}

/// Appends a byte, escaped. An `Err` means out of memory.
fn put_byte(bytes: &mut Vec<u8>, byte: u8) -> Result<(), AllocError>
    ensures { Appends result bytes.old.items bytes.new.items (escaped_byte byte) }
{
    match byte {
        b'&' => put(bytes, "&amp;"),
        b'<' => put(bytes, "&lt;"),
        b'>' => put(bytes, "&gt;"),
        b'"' => put(bytes, "&quot;"),
        b'\'' => put(bytes, "&#39;"),
        _ => {
            bytes.push(byte)?;
            Ok(())
        }
    }
}

/// Appends a text, escaped. An `Err` means out of memory.
pub fn put_escaped(bytes: &mut Vec<u8>, text: &[u8]) -> Result<(), AllocError>
    ensures { Appends result bytes.old.items bytes.new.items (escaped text.now) }
{
    for byte in text {
        put_byte(bytes, *byte)?;
    }
    Ok(())
}

/// Appends an attribute with its value. An `Err` means out of memory.
fn put_number(bytes: &mut Vec<u8>, number: Number) -> Result<(), AllocError>
    ensures { Appends result bytes.old.items bytes.new.items (number_text number) }
{
    put(bytes, number_before(number.attribute))?;
    put(bytes, Buffer::new().format(number.value))?;
    put(bytes, number_after(number.attribute))
}

/// Appends attributes with their values. An `Err` means out of memory.
fn put_numbers(bytes: &mut Vec<u8>, numbers: &[Number]) -> Result<(), AllocError>
    ensures { Appends result bytes.old.items bytes.new.items (numbers_text numbers.now) }
{
    for number in numbers {
        put_number(bytes, *number)?;
    }
    Ok(())
}

/// Appends the tag that opens an element. An `Err` means out of memory.
pub fn put_opening(
    bytes: &mut Vec<u8>,
    element: Element,
    class: Class,
    numbers: &[Number],
) -> Result<(), AllocError>
    ensures { Appends result bytes.old.items bytes.new.items
        (opening_text element class numbers.now) }
{
    put(bytes, "<")?;
    put(bytes, element_text(element))?;
    put(bytes, " class=\"")?;
    put(bytes, class_text(class))?;
    put(bytes, "\"")?;
    put_numbers(bytes, numbers)?;
    put(bytes, ">")
}

/// Appends the tag that closes an element. An `Err` means out of memory.
pub fn put_closing(bytes: &mut Vec<u8>, element: Element) -> Result<(), AllocError>
    ensures { Appends result bytes.old.items bytes.new.items (closing_text element) }
{
    put(bytes, "</")?;
    put(bytes, element_text(element))?;
    put(bytes, ">")
}

/// A title and a body between texts, the title escaped. An `Err` means out of memory.
pub fn between(
    alloc: Global,
    head: &str,
    title: &[u8],
    style: &str,
    body: &[u8],
    script: &str,
) -> Result<Vec<u8>, AllocError>
    ensures { IfOk result (λ bytes. bytes.items
        ≡ head.now ++ (escaped title.now ++ (style.now ++ (body.now ++ script.now)))) }
{
    let mut bytes = Vec::new(alloc);
    put(&mut bytes, head)?;
    put_escaped(&mut bytes, title)?;
    put(&mut bytes, style)?;
    bytes.extend_from_slice(body)?;
    put(&mut bytes, script)?;
    Ok(bytes)
}
