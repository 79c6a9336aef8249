// Undo several: a mesh is undone level by level, each in the least role that has a reading. The function calls itself
// on the quarter-size mesh, with one level less allowed. Every table stands at the front of a slice that the caller
// lends, which may be longer: a count beside it says how long it is. It takes time linear in vertices and triangles at
// each level, and assumes nothing.
#![tactic(auto)]

ghost use Rattle.std.specs.Prelude.{◌*◌, take};
ghost use Rattle.undo_role.specs.Buffers.{buffers};
ghost use Rattle.undo_level.specs.Level.{LevelLent, LevelTried};
ghost use Rattle.undo_levels.specs.Levels.{LevelsLent, LevelsUndone};

use answers::counts::{Counts, coarse_counts};
use answers::levels::{Levels, one_more, stop};
use answers::taken::RoleRead;
use mesh_rings::mesh::Mesh;
use undo_level::undo_least;

// Undoes at most `allowance` levels of the proper mesh in the first entries of `list`, of which so much is counted, the
// rings of whose edges stand in `ring`, and writes the mesh that is left to the first entries of `out`. At the next
// level `list` and `coarse` change places.
pub fn undo_levels(
    allowance: u64,
    counts: Counts,
    list: &mut [u16],
    out: &mut [u16],
    other: &mut [u16],
    rows: &mut [u16],
    ring: &mut [u16],
    marks: &mut [u16],
    coarse: &mut [u16],
    numbers: &mut [u16],
    map: &mut [u16],
    faces: &mut [u16],
    table: &mut [u16],
) -> Levels
    requires { LevelsLent allowance counts list.old out.old (buffers other.old rows.old
        ring.old marks.old coarse.old numbers.old map.old faces.old table.old) }
    ensures { LevelsUndone allowance counts.vertices (take (3 * counts.triangles) list.old)
        out.old out.new result }
{
    if allowance == 0 {
        return stop(counts, list, out); // none is allowed
    }
    let vertices = counts.vertices;
    let triangles = counts.triangles;
    let Some(reading) = one_level(
        vertices,
        triangles,
        &list[..3 * triangles],
        other,
        rows,
        ring,
        marks,
        coarse,
        numbers,
        map,
        faces,
        table,
    ) else {
        return stop(counts, list, out); // no role has a reading
    };
    let rest = undo_levels(
        allowance - 1,
        coarse_counts(
            vertices,
            counts.boundary,
            reading.vertices,
            reading.triangles,
        ),
        coarse,
        out,
        other,
        rows,
        ring,
        marks,
        list,
        numbers,
        map,
        faces,
        table,
    );
    one_more(reading.role, rest)
}

// One level, by `undo_least`. It is a call of its own, so that what it takes of the stack is free again for the levels
// after it, and takes the mesh in parts, which are handed on without a copy: `undo_levels` has little on the stack at
// each level.
#[inline(never)]
fn one_level(
    vertices: usize,
    triangles: usize,
    list: &[u16],
    other: &mut [u16],
    rows: &mut [u16],
    ring: &mut [u16],
    marks: &mut [u16],
    coarse: &mut [u16],
    numbers: &mut [u16],
    map: &mut [u16],
    faces: &mut [u16],
    table: &mut [u16],
) -> Option<RoleRead>
    requires { LevelLent vertices triangles list.now
        (buffers other.old rows.old ring.old marks.old coarse.old numbers.old map.old faces.old
        table.old) }
    ensures { LevelTried vertices triangles list.now coarse.new ring.new result }
{
    let mesh = Mesh {
        vertices,
        triangles,
        list,
    };
    undo_least(
        mesh, other, rows, ring, marks, coarse, numbers, map, faces, table,
    )
}
