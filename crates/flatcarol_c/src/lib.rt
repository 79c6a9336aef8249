// The library for C: each of Flatcarol's public calls (`flatcarol`) under the name and with the promise that it has there,
// as C calls it. The archive is made of this crate. Assumes nothing.
#![tactic(auto)]

ghost use Rattle.std.specs.Prelude.{[], ◌∷◌};
ghost use Rattle.theory.specs.Calls.{Splits, UndoesOne, UndoesSeveral};
ghost use Rattle.answers.specs.Answers.{answer_of, one_answer_of, outputs, several_answer_of, frames_answer_of, text_answer_of};
ghost use Rattle.theory.specs.Frames.{ReadsFrames, WritesFrames};
ghost use Rattle.theory.specs.Index.{ReadsIndex, WritesIndex};

use answers::answers::{Answer, FramesAnswer, OneAnswer, SeveralAnswer, TextAnswer};
use flatcarol::{call_frames, call_index, call_split, call_undo_one, call_undo_several};

// Splits a mesh of `vertices` vertices, whose triangles are `list`, three corners each: every triangle becomes four,
// in the first entries of `out`. Refusals 2 to 10.
#[unsafe(no_mangle)]
pub extern "C" fn flatcarol_split(
    vertices: u64,
    list: &[u16],
    out: &mut [u16],
    work1: &mut [u16],
    work2: &mut [u16],
    work3: &mut [u16],
    work4: &mut [u16],
    work5: &mut [u16],
) -> Answer
    ensures { Splits vertices list.now out.old
        (work1.old ∷ work2.old ∷ work3.old ∷ work4.old
        ∷ work5.old ∷ [])
        (answer_of result) out.new
        (work1.new ∷ work2.new ∷ work3.new ∷ work4.new
        ∷ work5.new ∷ []) }
{
    call_split::flatcarol_split(vertices, list, out, work1, work2, work3, work4, work5)
}

// Undoes one split of a mesh of `vertices` vertices, whose triangles are `list`, three corners each, in the role asked
// of triangle 0 (0 to 3), or in the least role that has a reading (4): the coarse mesh goes to the first entries of
// `mesh`, and the number of each vertex and of each triangle in its splitting to those of the two maps. Refusals 1 to
// 11.
#[unsafe(no_mangle)]
pub extern "C" fn flatcarol_undo_one(
    vertices: u64,
    list: &[u16],
    asked: u64,
    mesh: &mut [u16],
    vertex_map: &mut [u16],
    triangle_map: &mut [u16],
    work1: &mut [u16],
    work2: &mut [u16],
    work3: &mut [u16],
    work4: &mut [u16],
    work5: &mut [u16],
    work6: &mut [u16],
    work7: &mut [u16],
    work8: &mut [u16],
    work9: &mut [u16],
) -> OneAnswer
    ensures { UndoesOne vertices list.now asked
        (outputs mesh.old vertex_map.old triangle_map.old)
        (work1.old ∷ work2.old ∷ work3.old ∷ work4.old
        ∷ work5.old ∷ work6.old ∷ work7.old ∷ work8.old
        ∷ work9.old ∷ [])
        (one_answer_of result)
        (outputs mesh.new vertex_map.new triangle_map.new)
        (work1.new ∷ work2.new ∷ work3.new ∷ work4.new
        ∷ work5.new ∷ work6.new ∷ work7.new ∷ work8.new
        ∷ work9.new ∷ []) }
{
    call_undo_one::flatcarol_undo_one(
        vertices,
        list,
        asked,
        mesh,
        vertex_map,
        triangle_map,
        work1,
        work2,
        work3,
        work4,
        work5,
        work6,
        work7,
        work8,
        work9,
    )
}

// Undoes up to `asked` splits, at most 7, of a mesh of `vertices` vertices, whose triangles are `list`, three corners
// each, level by level, each in the least role that has a reading: the mesh that is left goes to the first entries of
// `out`. It stops where no role has one. Refusals 1 to 10.
#[unsafe(no_mangle)]
pub extern "C" fn flatcarol_undo_several(
    vertices: u64,
    list: &[u16],
    asked: u64,
    out: &mut [u16],
    work1: &mut [u16],
    work2: &mut [u16],
    work3: &mut [u16],
    work4: &mut [u16],
    work5: &mut [u16],
    work6: &mut [u16],
    work7: &mut [u16],
    work8: &mut [u16],
    work9: &mut [u16],
    work10: &mut [u16],
) -> SeveralAnswer
    ensures { UndoesSeveral vertices list.now asked out.old
        (work1.old ∷ work2.old ∷ work3.old ∷ work4.old
        ∷ work5.old ∷ work6.old ∷ work7.old ∷ work8.old
        ∷ work9.old ∷ work10.old ∷ [])
        (several_answer_of result) out.new
        (work1.new ∷ work2.new ∷ work3.new ∷ work4.new
        ∷ work5.new ∷ work6.new ∷ work7.new ∷ work8.new
        ∷ work9.new ∷ work10.new ∷ []) }
{
    call_undo_several::flatcarol_undo_several(
        vertices, list, asked, out, work1, work2, work3, work4, work5, work6, work7, work8, work9,
        work10,
    )
}

// Reads a mesh from its frames, `bytes`: its triangles, three corners each, in the first entries of `out`. Refusals 4,
// 5 and 12.
#[unsafe(no_mangle)]
pub extern "C" fn flatcarol_read_frames(bytes: &[u8], out: &mut [u16]) -> FramesAnswer
    ensures { ReadsFrames bytes.now out.old (frames_answer_of result) out.new }
{
    call_frames::flatcarol_read_frames(bytes, out)
}

// Writes a mesh of `vertices` vertices, whose triangles are `list`, three corners each, as frames, in the first
// entries of `out`. Its triangles may be none, and are not looked at. Refusals 2, 4 and 5.
#[unsafe(no_mangle)]
pub extern "C" fn flatcarol_write_frames(
    vertices: u64,
    list: &[u16],
    out: &mut [u8],
) -> FramesAnswer
    ensures { WritesFrames vertices list.now out.old (frames_answer_of result)
        out.new }
{
    call_frames::flatcarol_write_frames(vertices, list, out)
}

// Reads a mesh of `vertices` vertices from its index text, the coordIndex of a VRML97 IndexedFaceSet: its triangles,
// three corners each, in the first entries of `out`. Its corners are not judged against `vertices`. Refusals 14, 4 and
// 5, in this order.
#[unsafe(no_mangle)]
pub extern "C" fn flatcarol_read_index(vertices: u64, text: &[u8], out: &mut [u16]) -> FramesAnswer
    ensures { ReadsIndex vertices text.now out.old (frames_answer_of result)
        out.new }
{
    call_index::flatcarol_read_index(vertices, text, out)
}

// Writes a mesh of `vertices` vertices, whose triangles are `list`, three corners each, as an index text, in the first
// bytes of `out`. Its triangles may be none, and are not looked at. Refusals 2, 4 and 5.
#[unsafe(no_mangle)]
pub extern "C" fn flatcarol_write_index(vertices: u64, list: &[u16], out: &mut [u8]) -> TextAnswer
    ensures { WritesIndex vertices list.now out.old (text_answer_of result)
        out.new }
{
    call_index::flatcarol_write_index(vertices, list, out)
}
