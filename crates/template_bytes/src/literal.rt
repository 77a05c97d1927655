ghost use Rattle.std.specs.Prelude.{◌≡◌, ℕ, ◌<◌, ◌≤◌, List, ◌++◌, length, OnOk};
ghost use Rattle.template_bytes.specs.Chunks.{size_bytes, chunk_bytes};
ghost use Rattle.template_bytes.specs.Literals.{IsChunk, literal_bytes};

use std::alloc::AllocError;

// The most bytes of a chunk: its size is written as two bytes.
const CHUNK_LIMIT: usize = 65_535;

// The first size that is written as two bytes.
const LONG_SIZE: u16 = 128;

// The byte in front of a size of two bytes.
const LONG_MARK: u8 = 0x80;

// The first chunk of a text, and what is behind it.
fn first_chunk(text: &str) -> (&str, &str)
    requires { 0 < length text.now }
    ensures { IsChunk text.now result.0.now result.1.now }
{
    text.split_at(text.floor_char_boundary(CHUNK_LIMIT))
}

// The size of a chunk: a byte, or a mark and two bytes.
fn push_size(bytes: &mut Vec<u8>, size: u16) -> Result<(), AllocError>
    ensures { OnOk result (bytes.new.items ≡ bytes.old.items ++ size_bytes size) }
{
    if size < LONG_SIZE {
        bytes.push(size as u8)?;
        return Ok(());
    }
    bytes.push(LONG_MARK)?;
    bytes.extend_from_slice(&size.to_le_bytes())?;
    Ok(())
}

// A chunk: its size, and its bytes.
fn push_chunk(bytes: &mut Vec<u8>, chunk: &str) -> Result<(), AllocError>
    requires { length chunk.now ≤ CHUNK_LIMIT }
    ensures { OnOk result (bytes.new.items ≡ bytes.old.items ++ chunk_bytes chunk.now) }
{
    push_size(bytes, chunk.len() as u16)?;
    bytes.extend_from_slice(chunk.as_bytes())?;
    Ok(())
}

/// Writes a literal: chunks of at most 65,535 bytes, each as long as it can be with an end at a character's end.
///
/// An empty text writes nothing. Where memory is refused, the bytes may end inside a chunk.
pub(crate) fn push_literal(bytes: &mut Vec<u8>, text: &str) -> Result<(), AllocError>
    ensures { OnOk result (bytes.new.items ≡ bytes.old.items ++ literal_bytes text.now) }
{
    let mut rest = text;
    while !rest.is_empty() {
        let (chunk, behind) = first_chunk(rest);
        push_chunk(bytes, chunk)?;
        rest = behind;
    }
    Ok(())
}
