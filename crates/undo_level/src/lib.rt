// One level of undo several: the least role that has a reading, and the rings of the coarser mesh for the next level.
// It takes time linear in vertices and triangles, and assumes nothing.
#![tactic(auto)]

ghost use Rattle.undo_role.specs.Buffers.{buffers};
ghost use Rattle.undo_level.specs.Level.{LevelLent, LevelTried};

use answers::taken::RoleRead;
use mesh_rings::mesh::Mesh;
use mesh_rings::ring::ring_table;
use undo_cover::cover::{Covering, cover};
use undo_roles::least_role;

// Undoes a proper mesh, the rings of whose edges stand in `ring`, in the least role that has a reading: the coarse mesh
// goes to `coarse`, and its rings to `ring`. None is taken where no role has one, as where the triangles are no
// multiple of four; whether one has one by the old rule does not matter here. The other buffers hold the covering mesh
// (`other`, `rows`) and what the roles leave.
pub fn undo_least(
    mesh: Mesh<'_>,
    other: &mut [u16],
    rows: &mut [u16],
    ring: &mut [u16],
    marks: &mut [u16],
    coarse: &mut [u16],
    numbers: &mut [u16],
    map: &mut [u16],
    faces: &mut [u16],
    table: &mut [u16],
) -> Option<RoleRead>
    requires { LevelLent mesh.vertices mesh.triangles mesh.list.now
        (buffers other.old rows.old ring.old marks.old coarse.old numbers.old map.old faces.old
        table.old) }
    ensures { LevelTried mesh.entry.vertices mesh.entry.triangles mesh.entry.list.now coarse.new
        ring.new result }
{
    if mesh.triangles % 4 != 0 {
        return None;
    }
    cover(mesh, other, rows, ring, marks, coarse, numbers, map);
    let covering = Covering { other, rows, ring };
    let Ok(reading) = least_role(mesh, covering, marks, coarse, numbers, map, faces, table) else {
        return None;
    };
    let coarser = Mesh {
        vertices: reading.vertices,
        triangles: reading.triangles,
        list: &coarse[..3 * reading.triangles],
    };
    ring_table(coarser, marks, numbers, map, faces, ring);
    Some(reading)
}
