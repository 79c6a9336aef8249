// The calls undo one and undo several on the present mesh.
use crate::buffers::{LONG, NOISE};
use crate::present::Present;
use crate::print::{Entries, print_mesh, print_output, say_left};
use flatcarol::call_undo_one::flatcarol_undo_one;
use flatcarol::call_undo_several::flatcarol_undo_several;
use std::io;

// Undoes one split of the present mesh, as asked, and prints the answer.
pub fn try_one<R: Print>(rt: &R, asked: u64, present: &Present) -> io::Result<()> {
    let lent = present.lent;
    let need = present.work_need();
    let mesh = &mut [NOISE; LONG][..lent.room(1, present.coarse_need(), LONG)];
    let vertex_map = &mut [NOISE; LONG][..lent.room(2, present.vertices as usize, LONG)];
    let triangle_map = &mut [NOISE; LONG][..lent.room(3, present.triangles(), LONG)];
    let work1 = &mut [NOISE; LONG][..lent.room(4, need, LONG)];
    let work2 = &mut [NOISE; LONG][..lent.room(5, need, LONG)];
    let work3 = &mut [NOISE; LONG][..lent.room(6, need, LONG)];
    let work4 = &mut [NOISE; LONG][..lent.room(7, need, LONG)];
    let work5 = &mut [NOISE; LONG][..lent.room(8, need, LONG)];
    let work6 = &mut [NOISE; LONG][..lent.room(9, need, LONG)];
    let work7 = &mut [NOISE; LONG][..lent.room(10, need, LONG)];
    let work8 = &mut [NOISE; LONG][..lent.room(11, need, LONG)];
    let work9 = &mut [NOISE; LONG][..lent.room(12, need, LONG)];
    let answer = flatcarol_undo_one(
        present.vertices,
        present.list(),
        asked,
        mesh,
        vertex_map,
        triangle_map,
        work1,
        work2,
        work3,
        work4,
        work5,
        work6,
        work7,
        work8,
        work9,
    );
    println!(rt;
        "one {asked} {} {} {} {} {} {} {}",
        answer.refusal,
        answer.place,
        answer.vertices,
        answer.triangles,
        answer.edges,
        answer.boundary_edges,
        answer.role,
    )?;
    say_left(rt, &[work1, work2, work3, work4, work5])?;
    say_left(rt, &[work5, work6, work7, work8, work9])?;
    let accepted = answer.refusal == 0;
    print_output(rt, mesh, accepted.then_some(present.coarse_need()))?;
    print_output(
        rt,
        vertex_map,
        accepted.then_some(present.vertices as usize),
    )?;
    print_output(rt, triangle_map, accepted.then_some(present.triangles()))?;
    Ok(())
}

// What becomes of the mesh that undo several wrote, besides that it is printed.
#[derive(Clone, Copy, PartialEq, Eq)]
pub enum Fate {
    // It takes the place of the present mesh.
    Kept,
    Dropped,
}

// Undoes several splits of the present mesh, as asked, and prints the answer.
pub fn try_several<R: Print>(
    rt: &R,
    asked: u64,
    fate: Fate,
    present: &mut Present,
) -> io::Result<()> {
    let lent = present.lent;
    let need = present.work_need();
    let out = &mut [NOISE; LONG][..lent.room(1, present.several_need(), LONG)];
    let work1 = &mut [NOISE; LONG][..lent.room(2, need, LONG)];
    let work2 = &mut [NOISE; LONG][..lent.room(3, need, LONG)];
    let work3 = &mut [NOISE; LONG][..lent.room(4, need, LONG)];
    let work4 = &mut [NOISE; LONG][..lent.room(5, need, LONG)];
    let work5 = &mut [NOISE; LONG][..lent.room(6, need, LONG)];
    let work6 = &mut [NOISE; LONG][..lent.room(7, need, LONG)];
    let work7 = &mut [NOISE; LONG][..lent.room(8, need, LONG)];
    let work8 = &mut [NOISE; LONG][..lent.room(9, need, LONG)];
    let work9 = &mut [NOISE; LONG][..lent.room(10, need, LONG)];
    let work10 = &mut [NOISE; LONG][..lent.room(11, need, LONG)];
    let answer = flatcarol_undo_several(
        present.vertices,
        present.list(),
        asked,
        out,
        work1,
        work2,
        work3,
        work4,
        work5,
        work6,
        work7,
        work8,
        work9,
        work10,
    );
    say_left(rt, &[work1, work2, work3, work4, work5])?;
    say_left(rt, &[work6, work7, work8, work9, work10])?;
    println!(rt;
        "several {asked} {} {} {} {} {} {} {}{}",
        answer.refusal,
        answer.place,
        answer.vertices,
        answer.triangles,
        answer.edges,
        answer.boundary_edges,
        answer.levels,
        Entries(&answer.roles),
    )?;
    let mesh = print_mesh(rt, out, answer.refusal, answer.triangles)?;
    if let (Fate::Kept, Some(list)) = (fate, mesh) {
        present.keep(answer.vertices, list);
    }
    Ok(())
}
