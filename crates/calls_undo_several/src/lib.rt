// What undo several does once its sizes are judged: all but the clearing of its work buffers. It takes time linear in
// vertices and triangles at each level, and assumes nothing.
#![tactic(auto)]

ghost use Rattle.answers.specs.Said.{several_said};
ghost use Rattle.undo_role.specs.Buffers.{buffers};
ghost use Rattle.calls_undo_several.specs.UndoingSeveral.{SeveralLent, UndoesLevels};

use answers::counts::Counts;
use answers::levels::Levels;
use limits::refusal::Refusal;
use lists::copy;
use mesh_counts::{count_boundary, count_edges};
use mesh_judge::judge;
use mesh_rings::mesh::Mesh;
use undo_levels::undo_levels;

// Gives the refusal that 1 to 5 came to; or judges 6 to 10, counts the edges by their rings, and undoes the levels, from
// a copy of the list in `current`. It leaves in the work buffers what it pleases, and promises what undo several promises
// for when they are cleared.
pub fn undo_mesh_levels(
    sized: Result<(), Refusal>,
    vertices: u64,
    list: &[u16],
    asked: u64,
    out: &mut [u16],
    current: &mut [u16],
    other: &mut [u16],
    rows: &mut [u16],
    ring: &mut [u16],
    marks: &mut [u16],
    coarse: &mut [u16],
    numbers: &mut [u16],
    map: &mut [u16],
    faces: &mut [u16],
    table: &mut [u16],
) -> Result<Levels, Refusal>
    requires { SeveralLent sized vertices list.now asked out.old current.old
        (buffers other.old rows.old ring.old marks.old coarse.old numbers.old map.old faces.old
        table.old) }
    ensures { UndoesLevels vertices list.now asked out.old current.old
        (buffers other.old rows.old ring.old marks.old
        coarse.old numbers.old map.old faces.old table.old)
        (several_said result) out.new }
{
    sized?;
    let vertices = vertices as usize;
    let triangles = list.len() / 3;
    let mesh = Mesh {
        vertices,
        triangles,
        list,
    };
    judge(mesh, ring, marks, coarse, numbers, map)?;
    let edges = count_edges(ring, 3 * triangles);
    let boundary = count_boundary(ring, 3 * triangles);
    copy(list, current, 3 * triangles);
    Ok(undo_levels(
        asked,
        Counts {
            vertices,
            triangles,
            edges,
            boundary,
        },
        current,
        out,
        other,
        rows,
        ring,
        marks,
        coarse,
        numbers,
        map,
        faces,
        table,
    ))
}
