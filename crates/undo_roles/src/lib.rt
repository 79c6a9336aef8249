// The least role that has a reading, and the role that is asked for. It takes time linear in vertices and triangles,
// and assumes nothing.
#![tactic(auto)]

ghost use Rattle.undo_role.specs.Buffers.{buffers};
ghost use Rattle.undo_role.specs.Tried.{RolesLent};
ghost use Rattle.undo_roles.specs.Least.{LeastTried};
ghost use Rattle.undo_roles.specs.Choices.{ChoiceLent, ChosenTried};

use answers::taken::{NoReading, RoleRead, earlier};
use limits::limits::Limits;
use mesh_rings::mesh::Mesh;
use undo_cover::cover::Covering;
use undo_role::try_role;

// How many roles there are: 0 to 3. A role is a number and no enum, as its side is counted from it, and `asked` is the
// rules' number, 4 for any role.
const ROLES: usize = 4;

// Tries the roles from 0 to 3 and stops at the first that has a reading, which is left in `coarse`, `map` and `faces`.
// A role that has one by the old rule alone is remembered, and answered where no role has a reading. It is compiled into
// its callers: as a call of its own it would copy the mesh and the covering mesh once more to the stack.
#[inline(always)]
pub fn least_role(
    mesh: Mesh<'_>,
    cover: Covering<'_>,
    marks: &mut [u16],
    coarse: &mut [u16],
    numbers: &mut [u16],
    map: &mut [u16],
    faces: &mut [u16],
    table: &mut [u16],
) -> Result<RoleRead, NoReading>
    requires { RolesLent mesh.vertices mesh.triangles mesh.list.now
        (buffers cover.other.now cover.rows.now cover.ring.now marks.old coarse.old numbers.old
        map.old faces.old table.old) }
    ensures { LeastTried mesh.entry.vertices mesh.entry.triangles mesh.entry.list.now coarse.new
        map.new faces.new result }
{
    let mut remembered = Err(NoReading::Nothing);
    for role in 0..ROLES {
        match try_role(role, mesh, cover, marks, coarse, numbers, map, faces, table) {
            Ok(reading) => return Ok(reading),
            Err(why) => remembered = earlier(remembered, Err(why)),
        }
    }
    remembered
}

// Tries the role asked, or all roles where any will do. The reading is left in `coarse`, `map` and `faces`.
pub fn chosen_role(
    asked: u64,
    mesh: Mesh<'_>,
    cover: Covering<'_>,
    marks: &mut [u16],
    coarse: &mut [u16],
    numbers: &mut [u16],
    map: &mut [u16],
    faces: &mut [u16],
    table: &mut [u16],
) -> Result<RoleRead, NoReading>
    requires { ChoiceLent asked mesh.vertices mesh.triangles mesh.list.now
        (buffers cover.other.now cover.rows.now cover.ring.now marks.old coarse.old numbers.old
        map.old faces.old table.old) }
    ensures { ChosenTried asked mesh.entry.vertices mesh.entry.triangles mesh.entry.list.now
        coarse.new map.new faces.new result }
{
    if asked == Limits::ANY_ROLE {
        return least_role(mesh, cover, marks, coarse, numbers, map, faces, table);
    }
    try_role(
        asked as usize,
        mesh,
        cover,
        marks,
        coarse,
        numbers,
        map,
        faces,
        table,
    )
}
