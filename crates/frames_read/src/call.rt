// The call read frames.
ghost use Rattle.theory.specs.Frames.{ReadsFrames};
ghost use Rattle.answers.specs.Said.{frames_said};

use super::digits::Digits;
use super::lines::take_mesh;
use super::reading::{judge_triangles, write_triangles};
use answers::counts::Size;
use limits::refusal::Refusal;
use limits::size::judge_size_to_read;

// Reads a mesh from its frames, `bytes`: its triangles, three corners each, in the first entries of `out`. Refusals 4,
// 5 and 12.
pub fn read_frames(bytes: &[u8], out: &mut [u16]) -> Result<Size, Refusal>
    ensures { ReadsFrames bytes.now out.old (frames_said result) out.new }
{
    let digits = Digits::new();
    let Some((vertices, triangles, rest)) = take_mesh(bytes, &digits) else {
        return Err(Refusal::LineWrong { line: 0 });
    };
    let size = Size {
        vertices: vertices as usize,
        triangles: triangles as usize,
    };
    judge_size_to_read(vertices as u64, size.triangles, out.len())?;
    judge_triangles(rest, &digits, size.triangles)?;
    write_triangles(rest, &digits, size.triangles, out);
    Ok(size)
}
