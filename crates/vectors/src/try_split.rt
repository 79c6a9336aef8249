// The call split on the present mesh.
use crate::buffers::{LONG, NOISE};
use crate::present::Present;
use crate::print::{print_mesh, say_left};
use flatcarol::call_split::flatcarol_split;
use std::io;

// Splits the present mesh and prints the answer. If it is accepted, the result takes the mesh's place.
pub fn try_split<R: Print>(rt: &R, present: &mut Present) -> io::Result<()> {
    let lent = present.lent;
    let need = present.work_need();
    let out = &mut [NOISE; LONG][..lent.room(1, present.split_need(), LONG)];
    let work1 = &mut [NOISE; LONG][..lent.room(2, need, LONG)];
    let work2 = &mut [NOISE; LONG][..lent.room(3, need, LONG)];
    let work3 = &mut [NOISE; LONG][..lent.room(4, need, LONG)];
    let work4 = &mut [NOISE; LONG][..lent.room(5, need, LONG)];
    let work5 = &mut [NOISE; LONG][..lent.room(6, need, LONG)];
    let answer = flatcarol_split(
        present.vertices,
        present.list(),
        out,
        work1,
        work2,
        work3,
        work4,
        work5,
    );
    say_left(rt, &[work1, work2, work3, work4, work5])?;
    println!(rt;
        "split {} {} {} {} {} {}",
        answer.refusal,
        answer.place,
        answer.vertices,
        answer.triangles,
        answer.edges,
        answer.boundary_edges,
    )?;
    if let Some(list) = print_mesh(rt, out, answer.refusal, answer.triangles)? {
        present.keep(answer.vertices, list);
    }
    Ok(())
}
