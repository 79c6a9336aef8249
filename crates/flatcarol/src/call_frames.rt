// The calls read frames and write frames.
ghost use Rattle.theory.specs.Frames.{ReadsFrames, WritesFrames};
ghost use Rattle.answers.specs.Answers.{frames_answer_of};

use answers::answers::FramesAnswer;
use frames_read::call::read_frames;
use frames_write::call::write_frames;

// Reads a mesh from its frames, `bytes`: its triangles, three corners each, in the first entries of `out`. Refusals 4,
// 5 and 12.
pub fn flatcarol_read_frames(bytes: &[u8], out: &mut [u16]) -> FramesAnswer
    ensures { ReadsFrames bytes.now out.old (frames_answer_of result) out.new }
{
    read_frames(bytes, out).into()
}

// Writes a mesh of `vertices` vertices, whose triangles are `list`, three corners each, as frames, in the first
// entries of `out`. Its triangles may be none, and are not looked at. Refusals 2, 4 and 5.
pub fn flatcarol_write_frames(vertices: u64, list: &[u16], out: &mut [u8]) -> FramesAnswer
    ensures { WritesFrames vertices list.now out.old (frames_answer_of result)
        out.new }
{
    write_frames(vertices, list, out).into()
}
