// The call undo several.
ghost use Rattle.std.specs.Prelude.{[], ◌∷◌};
ghost use Rattle.theory.specs.Calls.{UndoesSeveral};
ghost use Rattle.answers.specs.Answers.{several_answer_of};

use answers::answers::SeveralAnswer;
use calls_sizes::judge_undo_several_size;
use calls_undo_several::undo_mesh_levels;
use calls_work::{clear_ten, shortest};

// Undoes up to `asked` splits, at most 7, of a mesh of `vertices` vertices, whose triangles are `list`, three corners
// each, level by level, each in the least role that has a reading: the mesh that is left goes to the first entries of
// `out`. It stops where no role has one. Refusals 1 to 10.
pub fn flatcarol_undo_several(
    vertices: u64,
    list: &[u16],
    asked: u64,
    out: &mut [u16],
    work1: &mut [u16],
    work2: &mut [u16],
    work3: &mut [u16],
    work4: &mut [u16],
    work5: &mut [u16],
    work6: &mut [u16],
    work7: &mut [u16],
    work8: &mut [u16],
    work9: &mut [u16],
    work10: &mut [u16],
) -> SeveralAnswer
    ensures { UndoesSeveral vertices list.now asked out.old
        (work1.old ∷ work2.old ∷ work3.old ∷ work4.old
        ∷ work5.old ∷ work6.old ∷ work7.old ∷ work8.old
        ∷ work9.old ∷ work10.old ∷ [])
        (several_answer_of result) out.new
        (work1.new ∷ work2.new ∷ work3.new ∷ work4.new
        ∷ work5.new ∷ work6.new ∷ work7.new ∷ work8.new
        ∷ work9.new ∷ work10.new ∷ []) }
{
    let work = shortest(
        work1.len(),
        &[
            work2.len(),
            work3.len(),
            work4.len(),
            work5.len(),
            work6.len(),
            work7.len(),
            work8.len(),
            work9.len(),
            work10.len(),
        ],
    );
    let sized = judge_undo_several_size(vertices, list.len(), asked, out.len(), work);
    let answer = undo_mesh_levels(
        sized, vertices, list, asked, out, work1, work2, work3, work4, work5, work6, work7, work8,
        work9, work10,
    );
    clear_ten(
        work1, work2, work3, work4, work5, work6, work7, work8, work9, work10,
    );
    answer.into()
}
