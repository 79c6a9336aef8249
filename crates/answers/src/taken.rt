// What an undo takes, and what becomes of it.
ghost use Rattle.std.specs.Prelude.{◌≡◌, ◌≤◌};
ghost use Rattle.answers.specs.Answers.{outputs};
ghost use Rattle.answers.specs.Taken.{earlier_of, ReadingLent, left_by, kept_of, undone_of, refusal_of};

use super::counts::{Counts, coarse_counts};
use limits::refusal::Refusal;
use lists::copy;

// A role that has a reading, with the counts of its coarse mesh.
#[derive(Clone, Copy)]
pub struct RoleRead {
    pub role: usize,
    pub vertices: usize,
    pub triangles: usize,
}

// Why no reading is taken: there is one by the old rule alone, with the least triangle that stands in its way; or there
// is none.
#[derive(Clone, Copy, Debug, PartialEq, Eq)]
pub enum NoReading {
    InsideOut { triangle: usize },
    Nothing,
}

impl From<NoReading> for Refusal {
    ghost from_gives = { λ none refusal. refusal ≡ refusal_of none };

    // 15 at the triangle that stands in the way, or 11.
    fn from(none: NoReading) -> Refusal {
        match none {
            NoReading::InsideOut { triangle } => Refusal::InsideOut { triangle },
            NoReading::Nothing => Refusal::NoReading,
        }
    }
}

// What undo one comes to: the role that is undone, and what is counted of the coarse mesh.
#[derive(Clone, Copy)]
pub struct Undone {
    pub role: usize,
    pub counts: Counts,
}

// What is remembered of roles that have no reading, with one more: the first of them that has one by the old rule.
pub fn earlier(
    remembered: Result<RoleRead, NoReading>,
    tried: Result<RoleRead, NoReading>,
) -> Result<RoleRead, NoReading>
    ensures { result ≡ earlier_of remembered tried }
{
    let Err(NoReading::Nothing) = remembered else {
        return remembered;
    };
    tried
}

// Writes the reading that is taken, which stands in `coarse`, `map` and `faces`, to the outputs of an undo of so many
// vertices and triangles. Where no reading is taken it writes nothing. (The counts are parameters, since what is copied
// stands at the front of tables that may be longer.)
pub fn write_reading(
    taken: Result<RoleRead, NoReading>,
    vertices: usize,
    triangles: usize,
    coarse: &[u16],
    map: &[u16],
    faces: &[u16],
    mesh: &mut [u16],
    vertex_map: &mut [u16],
    triangle_map: &mut [u16],
)
    requires { ReadingLent taken vertices triangles coarse.now map.now faces.now
        (outputs mesh.old vertex_map.old triangle_map.old) }
    ensures { outputs mesh.new vertex_map.new triangle_map.new
        ≡ left_by taken vertices triangles coarse.now map.now faces.now
        (outputs mesh.old vertex_map.old triangle_map.old) }
{
    let Ok(reading) = taken else {
        return;
    };
    copy(coarse, mesh, 3 * reading.triangles);
    copy(map, vertex_map, vertices);
    copy(faces, triangle_map, triangles);
}

// What comes of what is taken from an input of so many vertices and boundary edges: the role, with what is counted of
// the coarse mesh, or 15 or 11.
pub fn answer_taken(
    taken: Result<RoleRead, NoReading>,
    vertices: usize,
    boundary: usize,
) -> Result<Undone, Refusal>
    requires { kept_of taken ≤ vertices }
    ensures { result ≡ undone_of taken vertices boundary }
{
    let reading = taken?;
    let counts = coarse_counts(vertices, boundary, reading.vertices, reading.triangles);
    Ok(Undone {
        role: reading.role,
        counts,
    })
}
