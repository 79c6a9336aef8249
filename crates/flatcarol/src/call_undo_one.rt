// The call undo one.
ghost use Rattle.std.specs.Prelude.{[], ◌∷◌};
ghost use Rattle.theory.specs.Calls.{UndoesOne};
ghost use Rattle.answers.specs.Answers.{one_answer_of, outputs};

use answers::answers::OneAnswer;
use calls_sizes::judge_undo_one_size;
use calls_undo_one::undo_mesh;
use calls_work::{clear_nine, shortest};

// Undoes one split of a mesh of `vertices` vertices, whose triangles are `list`, three corners each, in the role asked
// of triangle 0 (0 to 3), or in the least role that has a reading (4): the coarse mesh goes to the first entries of
// `mesh`, and the number of each vertex and of each triangle in its splitting to those of the two maps. Refusals 1 to
// 11.
pub fn flatcarol_undo_one(
    vertices: u64,
    list: &[u16],
    asked: u64,
    mesh: &mut [u16],
    vertex_map: &mut [u16],
    triangle_map: &mut [u16],
    work1: &mut [u16],
    work2: &mut [u16],
    work3: &mut [u16],
    work4: &mut [u16],
    work5: &mut [u16],
    work6: &mut [u16],
    work7: &mut [u16],
    work8: &mut [u16],
    work9: &mut [u16],
) -> OneAnswer
    ensures { UndoesOne vertices list.now asked
        (outputs mesh.old vertex_map.old triangle_map.old)
        (work1.old ∷ work2.old ∷ work3.old ∷ work4.old
        ∷ work5.old ∷ work6.old ∷ work7.old ∷ work8.old
        ∷ work9.old ∷ [])
        (one_answer_of result)
        (outputs mesh.new vertex_map.new triangle_map.new)
        (work1.new ∷ work2.new ∷ work3.new ∷ work4.new
        ∷ work5.new ∷ work6.new ∷ work7.new ∷ work8.new
        ∷ work9.new ∷ []) }
{
    let work = shortest(
        work1.len(),
        &[
            work2.len(),
            work3.len(),
            work4.len(),
            work5.len(),
            work6.len(),
            work7.len(),
            work8.len(),
            work9.len(),
        ],
    );
    let sized = judge_undo_one_size(
        vertices,
        list.len(),
        asked,
        mesh.len(),
        vertex_map.len(),
        triangle_map.len(),
        work,
    );
    let answer = undo_mesh(
        sized,
        vertices,
        list,
        asked,
        mesh,
        vertex_map,
        triangle_map,
        work1,
        work2,
        work3,
        work4,
        work5,
        work6,
        work7,
        work8,
        work9,
    );
    clear_nine(
        work1, work2, work3, work4, work5, work6, work7, work8, work9,
    );
    answer.into()
}
