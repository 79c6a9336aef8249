// The call write index.
ghost use Rattle.theory.specs.Index.{WritesIndex};
ghost use Rattle.answers.specs.Said.{text_said};

use super::faces::write_faces;
use super::length::text_length;
use answers::counts::{Size, Text};
use limits::refusal::Refusal;
use limits::size::judge_size_to_write;

// Writes a mesh of `vertices` vertices, whose triangles are `list`, three corners each, as an index text, in the first
// bytes of `out`. Its triangles may be none, and are not looked at. Refusals 2, 4 and 5.
pub fn write_index(vertices: u64, list: &[u16], out: &mut [u8]) -> Result<Text, Refusal>
    ensures { WritesIndex vertices list.now out.old (text_said result) out.new }
{
    judge_size_to_write(vertices, list.len())?;
    let bytes = text_length(list);
    if out.len() < bytes {
        return Err(Refusal::TooShort);
    }
    write_faces(out, list);
    let size = Size {
        vertices: vertices as usize,
        triangles: list.len() / 3,
    };
    Ok(Text { size, bytes })
}
