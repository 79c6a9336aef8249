// One role of an undo: what is reached from its start tile over the edges of the covering mesh is numbered, mapped and
// compared, and it is here that tables become readings. Every table stands at the front of a slice that the caller
// lends, which may be longer: a count beside it says how long it is. It takes time linear in vertices and triangles,
// and assumes nothing.
#![tactic(auto)]

ghost use Rattle.undo_role.specs.Buffers.{buffers};
ghost use Rattle.std.specs.Prelude.{◌≡◌};
ghost use Rattle.undo_role.specs.Tried.{RoleLent, TriedRole, no_reading_of};

use answers::taken::{NoReading, RoleRead};
use mesh_rings::mesh::Mesh;
use undo_compare::Mismatch;
use undo_cover::cover::Covering;
use undo_stages::{compare_all, find_tiles, map_triangles, map_vertices, number_tiles};

// Tries a role of triangle 0. Where it has a reading, the coarse mesh stands in `coarse`, the vertex map in `map` and
// the triangle map in `faces`; otherwise these hold what they please. Where it has a reading by the old rule alone, the
// answer is the least triangle that disagrees. Stage by stage the buffers hold:
//     find_tiles     marks: the tiles that are reached; faces: their rows; map: a queue; table: the edges opened
//     number_tiles   coarse: the coarse mesh; numbers: the vertices on its half-edges; map: ranks; table: marks of
//                    vertices, then the rings of the coarse mesh
//     map_vertices   map: the vertex map; table: the corners of the tiles
//     map_triangles  faces: the triangle map; table: the claims
//     compare_all    table: the splitting
// The buffers are parameters here and in the crates above, and no struct: Rattle does not cover a call that is lent
// several fields of a struct of `&mut` slices.
pub fn try_role(
    role: usize,
    mesh: Mesh<'_>,
    cover: Covering<'_>,
    marks: &mut [u16],
    coarse: &mut [u16],
    numbers: &mut [u16],
    map: &mut [u16],
    faces: &mut [u16],
    table: &mut [u16],
) -> Result<RoleRead, NoReading>
    requires { RoleLent role mesh.vertices mesh.triangles mesh.list.now
        (buffers cover.other.now cover.rows.now cover.ring.now marks.old coarse.old numbers.old
        map.old faces.old table.old) }
    ensures { TriedRole role mesh.entry.vertices mesh.entry.triangles mesh.entry.list.now coarse.new
        map.new faces.new result }
{
    let Some(count) = find_tiles(0, role, mesh.triangles, cover, marks, faces, map, table) else {
        return Err(NoReading::Nothing);
    };
    let Some(kept) = number_tiles(
        mesh.vertices,
        mesh.triangles,
        count,
        cover.ring,
        marks,
        faces,
        coarse,
        numbers,
        map,
        table,
    ) else {
        return Err(NoReading::Nothing);
    };
    if !map_vertices(mesh, count, marks, faces, coarse, numbers, map, table) {
        return Err(NoReading::Nothing);
    }
    if !map_triangles(mesh.triangles, cover.other, marks, faces, table) {
        return Err(NoReading::Nothing);
    }
    let compared = compare_all(mesh, count, coarse, numbers, map, faces, table);
    match compared {
        Ok(()) => Ok(RoleRead {
            role,
            vertices: kept,
            triangles: count,
        }),
        Err(mismatch) => Err(no_reading(mismatch)),
    }
}

// Why a role has no reading, where the triangles do not all agree. (No `From`: both types are of other crates.)
fn no_reading(mismatch: Mismatch) -> NoReading
    ensures { result ≡ no_reading_of mismatch }
{
    match mismatch {
        Mismatch::InsideOut { triangle } => NoReading::InsideOut { triangle },
        Mismatch::Differ => NoReading::Nothing,
    }
}
