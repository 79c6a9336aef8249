// The call write frames.
ghost use Rattle.theory.specs.Frames.{WritesFrames};
ghost use Rattle.answers.specs.Said.{frames_said};

use super::writing::write;
use answers::counts::Size;
use limits::refusal::Refusal;
use limits::size::judge_write_size;

// Writes a mesh of `vertices` vertices, whose triangles are `list`, three corners each, as frames, in the first
// entries of `out`. Its triangles may be none, and are not looked at. Refusals 2, 4 and 5.
pub fn write_frames(vertices: u64, list: &[u16], out: &mut [u8]) -> Result<Size, Refusal>
    ensures { WritesFrames vertices list.now out.old (frames_said result) out.new }
{
    judge_write_size(vertices, list.len(), out.len())?;
    let vertices = vertices as usize;
    write(vertices, list, out);
    Ok(Size {
        vertices,
        triangles: list.len() / 3,
    })
}
