// The call split.
ghost use Rattle.std.specs.Prelude.{[], ◌∷◌};
ghost use Rattle.theory.specs.Calls.{Splits};
ghost use Rattle.answers.specs.Answers.{answer_of};

use answers::answers::Answer;
use calls_sizes::judge_split_size;
use calls_split::split_mesh;
use calls_work::{clear_five, shortest};

// Splits a mesh of `vertices` vertices, whose triangles are `list`, three corners each: every triangle becomes four,
// in the first entries of `out`. Refusals 2 to 10.
pub fn flatcarol_split(
    vertices: u64,
    list: &[u16],
    out: &mut [u16],
    work1: &mut [u16],
    work2: &mut [u16],
    work3: &mut [u16],
    work4: &mut [u16],
    work5: &mut [u16],
) -> Answer
    ensures { Splits vertices list.now out.old
        (work1.old ∷ work2.old ∷ work3.old ∷ work4.old
        ∷ work5.old ∷ [])
        (answer_of result) out.new
        (work1.new ∷ work2.new ∷ work3.new ∷ work4.new
        ∷ work5.new ∷ []) }
{
    let work = shortest(
        work1.len(),
        &[work2.len(), work3.len(), work4.len(), work5.len()],
    );
    let sized = judge_split_size(vertices, list.len(), out.len(), work);
    let answer = split_mesh(
        sized, vertices, list, out, work1, work2, work3, work4, work5,
    );
    clear_five(work1, work2, work3, work4, work5);
    answer.into()
}
