// Refusals 1 to 5 of the calls, which are judged from numbers alone. It takes the same few steps whatever it is given,
// and assumes nothing.
#![tactic(auto)]

ghost use Rattle.std.specs.Prelude.{◌/◌, ◌≤◌, [], ◌∷◌};
ghost use Rattle.theory.specs.Limits.{most_triangles, most_vertices};
ghost use Rattle.theory.specs.Refusals.{too_short};
ghost use Rattle.theory.specs.Calls.{work_rooms, split_rooms, split_size_rules};
ghost use Rattle.theory.specs.Calls.{undo_one_rooms, undo_one_size_rules, undo_several_rooms, undo_several_size_rules};
ghost use Rattle.limits.specs.Judged.{JudgedAs};

use limits::refusal::Refusal;
use limits::size::{judge_levels, judge_role, judge_size_to_split, judge_size_to_undo};

// 2 to 5 of a split, whose output has `out` entries and whose shortest work buffer has `work`; `Ok` where none is given.
pub fn judge_split_size(
    vertices: u64,
    entries: usize,
    out: usize,
    work: usize,
) -> Result<(), Refusal>
    ensures { JudgedAs (split_size_rules vertices entries
        (split_rooms vertices (entries / 3) out (work ∷ []))) result }
{
    judge_size_to_split(vertices, entries)?;
    let triangles = entries / 3;
    judge_room(vertices as usize, triangles, out, 12 * triangles, work)
}

// 1 to 5 of undo one, whose outputs have `mesh`, `vertex_map` and `triangle_map` entries, and whose shortest work
// buffer has `work`; `Ok` where none is given.
pub fn judge_undo_one_size(
    vertices: u64,
    entries: usize,
    asked: u64,
    mesh: usize,
    vertex_map: usize,
    triangle_map: usize,
    work: usize,
) -> Result<(), Refusal>
    ensures { JudgedAs (undo_one_size_rules vertices entries asked
        (undo_one_rooms vertices (entries / 3) mesh vertex_map triangle_map (work ∷ []))) result }
{
    judge_role(asked)?;
    judge_size_to_undo(vertices, entries)?;
    judge_undo_one_room(
        vertices as usize,
        entries / 3,
        mesh,
        vertex_map,
        triangle_map,
        work,
    )
}

// 1 to 5 of undo several, whose output has `out` entries and whose shortest work buffer has `work`; `Ok` where none
// is given.
pub fn judge_undo_several_size(
    vertices: u64,
    entries: usize,
    asked: u64,
    out: usize,
    work: usize,
) -> Result<(), Refusal>
    ensures { JudgedAs (undo_several_size_rules vertices entries asked
        (undo_several_rooms vertices (entries / 3) out (work ∷ []))) result }
{
    judge_levels(asked)?;
    judge_size_to_undo(vertices, entries)?;
    let triangles = entries / 3;
    judge_room(vertices as usize, triangles, out, 3 * triangles, work)
}

// 5 of a call with one output, of which `needed` entries are needed; `Ok` where it is not given.
fn judge_room(
    vertices: usize,
    triangles: usize,
    out: usize,
    needed: usize,
    work: usize,
) -> Result<(), Refusal>
    requires vertices_le_most_vertices { vertices ≤ most_vertices }
    requires triangles_le_most_triangles { triangles ≤ most_triangles }
    ensures { JudgedAs (too_short (record { lent = out; needed = needed }
        ∷ work_rooms vertices triangles (work ∷ [])) ∷ []) result }
{
    if out < needed {
        return Err(Refusal::TooShort);
    }
    if work < vertices + 3 * triangles {
        return Err(Refusal::TooShort);
    }
    Ok(())
}

// 5 of undo one; `Ok` where it is not given.
fn judge_undo_one_room(
    vertices: usize,
    triangles: usize,
    mesh: usize,
    vertex_map: usize,
    triangle_map: usize,
    work: usize,
) -> Result<(), Refusal>
    requires vertices_le_most_vertices { vertices ≤ most_vertices }
    requires triangles_le_most_triangles { triangles ≤ most_triangles }
    ensures { JudgedAs (too_short (undo_one_rooms vertices triangles mesh vertex_map triangle_map
        (work ∷ [])) ∷ []) result }
{
    if mesh < 3 * (triangles / 4) {
        return Err(Refusal::TooShort);
    }
    if vertex_map < vertices {
        return Err(Refusal::TooShort);
    }
    if triangle_map < triangles {
        return Err(Refusal::TooShort);
    }
    if work < vertices + 3 * triangles {
        return Err(Refusal::TooShort);
    }
    Ok(())
}
