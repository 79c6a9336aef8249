// The call read index.
ghost use Rattle.theory.specs.Index.{ReadsIndex};
ghost use Rattle.answers.specs.Said.{frames_said};

use super::corners::write_corners;
use super::faces::judge_text;
use answers::counts::Size;
use limits::refusal::Refusal;
use limits::size::judge_size_to_read;

// Reads a mesh of `vertices` vertices from its index text: its triangles, three corners each, in the first entries of
// `out`. Its corners are not judged against `vertices`. Refusals 14, 4 and 5.
pub fn read_index(vertices: u64, text: &[u8], out: &mut [u16]) -> Result<Size, Refusal>
    ensures { ReadsIndex vertices text.now out.old (frames_said result) out.new }
{
    let triangles = judge_text(text)?;
    judge_size_to_read(vertices, triangles, out.len())?;
    write_corners(text, out);
    Ok(Size {
        vertices: vertices as usize,
        triangles,
    })
}
