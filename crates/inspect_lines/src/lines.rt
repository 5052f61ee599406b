//! The text in which counts are told.

ghost use Rattle.std.specs.Prelude.{◌≡◌, ◌++◌, IfOk, OnOk};
ghost use Rattle.inspect_lines.specs.Lines.{line_of, lines_of};

use crate::Counts;
use itoa::Buffer;
use std::alloc::{AllocError, Global};

/// A line for each count, in the order of the fields: its name, a colon, a space, the number in decimal, a line feed.
///
/// # Errors
///
/// Want of memory.
pub fn lines_of(alloc: Global, counts: &Counts) -> Result<Vec<u8>, AllocError>
    ensures { IfOk result (λ text. text.items ≡ lines_of counts.now) }
{
    let mut text = Vec::new(alloc);
    put_line(&mut text, b"types", counts.types)?;
    put_line(&mut text, b"functions", counts.functions)?;
    put_line(&mut text, b"tables", counts.tables)?;
    put_line(&mut text, b"memories", counts.memories)?;
    put_line(&mut text, b"tags", counts.tags)?;
    put_line(&mut text, b"globals", counts.globals)?;
    put_line(&mut text, b"elements", counts.elements)?;
    put_line(&mut text, b"data", counts.data)?;
    put_line(&mut text, b"imports", counts.imports)?;
    put_line(&mut text, b"exports", counts.exports)?;
    put_line(&mut text, b"operators", counts.operators)?;
    Ok(text)
}

// Puts a line behind the text.
fn put_line(text: &mut Vec<u8>, name: &[u8], count: u64) -> Result<(), AllocError>
    ensures { OnOk result (text.new.items ≡ text.old.items ++ line_of name.now count) }
{
    let mut buffer = Buffer::new();
    text.extend_from_slice(name)?;
    text.extend_from_slice(b": ")?;
    text.extend_from_slice(buffer.format(count).as_bytes())?;
    text.extend_from_slice(b"\n")
}
