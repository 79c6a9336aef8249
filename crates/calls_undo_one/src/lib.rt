// What undo one does once its sizes are judged: all but the clearing of its work buffers. It takes time linear in
// vertices and triangles, and assumes nothing.
#![tactic(auto)]

ghost use Rattle.answers.specs.Answers.{outputs};
ghost use Rattle.answers.specs.Said.{one_said};
ghost use Rattle.undo_role.specs.Buffers.{buffers};
ghost use Rattle.calls_undo_one.specs.Undoing.{UndoLent, UndoesMesh};

use answers::taken::{Undone, answer_taken, write_reading};
use limits::refusal::Refusal;
use mesh_counts::count_boundary;
use mesh_judge::judge;
use mesh_rings::mesh::Mesh;
use undo_cover::cover::{Covering, cover};
use undo_roles::chosen_role;

// Gives the refusal that 1 to 5 came to; or judges 6 to 10, makes the covering mesh, takes the role asked, and gives 15
// or 11 or writes the reading. No role has one where the triangles are no multiple of four. The boundary edges are
// counted while the mesh's rings are there; those of the coarse mesh follow from them. It leaves in the work buffers
// what it pleases, and promises what undo one promises for when they are cleared. They hold the mesh's rings (`ring`)
// while it is judged, then the covering mesh with its rings (`other`, `rows`, `ring`), then what a role makes (see
// `try_role`).
pub fn undo_mesh(
    sized: Result<(), Refusal>,
    vertices: u64,
    list: &[u16],
    asked: u64,
    mesh: &mut [u16],
    vertex_map: &mut [u16],
    triangle_map: &mut [u16],
    other: &mut [u16],
    rows: &mut [u16],
    ring: &mut [u16],
    marks: &mut [u16],
    coarse: &mut [u16],
    numbers: &mut [u16],
    map: &mut [u16],
    faces: &mut [u16],
    table: &mut [u16],
) -> Result<Undone, Refusal>
    requires { UndoLent sized vertices list.now asked
        (outputs mesh.old vertex_map.old triangle_map.old)
        (buffers other.old rows.old ring.old marks.old coarse.old numbers.old map.old faces.old
        table.old) }
    ensures { UndoesMesh vertices list.now asked
        (outputs mesh.old vertex_map.old triangle_map.old)
        (buffers other.old rows.old ring.old marks.old
        coarse.old numbers.old map.old faces.old table.old)
        (one_said result)
        (outputs mesh.new vertex_map.new triangle_map.new) }
{
    sized?;
    let vertices = vertices as usize;
    let triangles = list.len() / 3;
    let input = Mesh {
        vertices,
        triangles,
        list,
    };
    judge(input, ring, marks, coarse, numbers, map)?;
    if triangles % 4 != 0 {
        return Err(Refusal::NoReading);
    }
    let boundary = count_boundary(ring, 3 * triangles);
    cover(input, other, rows, ring, marks, coarse, numbers, map);
    let covering = Covering { other, rows, ring };
    let taken = chosen_role(
        asked, input, covering, marks, coarse, numbers, map, faces, table,
    );
    write_reading(
        taken,
        vertices,
        triangles,
        coarse,
        map,
        faces,
        mesh,
        vertex_map,
        triangle_map,
    );
    answer_taken(taken, vertices, boundary)
}
