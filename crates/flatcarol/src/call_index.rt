// The calls read index and write index.
ghost use Rattle.theory.specs.Index.{ReadsIndex, WritesIndex};
ghost use Rattle.answers.specs.Answers.{frames_answer_of, text_answer_of};

use answers::answers::{FramesAnswer, TextAnswer};
use index_read::call::read_index;
use index_write::call::write_index;

// Reads a mesh of `vertices` vertices from its index text, the coordIndex of a VRML97 IndexedFaceSet: its triangles,
// three corners each, in the first entries of `out`. Its corners are not judged against `vertices`. Refusals 14, 4 and
// 5, in this order.
pub fn flatcarol_read_index(vertices: u64, text: &[u8], out: &mut [u16]) -> FramesAnswer
    ensures { ReadsIndex vertices text.now out.old (frames_answer_of result)
        out.new }
{
    read_index(vertices, text, out).into()
}

// Writes a mesh of `vertices` vertices, whose triangles are `list`, three corners each, as an index text, in the first
// bytes of `out`. Its triangles may be none, and are not looked at. Refusals 2, 4 and 5.
pub fn flatcarol_write_index(vertices: u64, list: &[u16], out: &mut [u8]) -> TextAnswer
    ensures { WritesIndex vertices list.now out.old (text_answer_of result)
        out.new }
{
    write_index(vertices, list, out).into()
}
