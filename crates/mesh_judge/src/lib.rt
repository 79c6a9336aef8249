// The judgement of a mesh: the first of refusals 6 to 10 that is given, at its least place, with the rings of the
// edges where none is. It rests on `limits`, which says what a judgement is, and on `mesh_faults` and `mesh_reach`,
// which search for each fault. It takes time linear in vertices and triangles, whatever the mesh, and assumes nothing.
#![tactic(auto)]

ghost use Rattle.limits.specs.Judged.{JudgedAs};
ghost use Rattle.mesh_faults.specs.Faults.{Whole};
ghost use Rattle.mesh_judge.specs.Judging.{corner_rules, connected_rules, JudgeLent, TrianglesLent};
ghost use Rattle.mesh_judge.specs.Judging.{TrianglesJudged, ConnectLent, MeshJudged};

use limits::refusal::Refusal;
use lists::first_zero;
use mesh_faults::{corner_not_below, equal_corners, in_no_triangle, same_as_earlier};
use mesh_reach::reach;
use mesh_rings::mesh::Mesh;
use mesh_rings::ring::ring_table;

// 6 and 7, which look at each triangle by itself.
fn judge_corners(mesh: Mesh<'_>) -> Result<(), Refusal>
    requires { Whole mesh.triangles mesh.list.now }
    ensures { JudgedAs (corner_rules mesh.entry.vertices mesh.entry.list.now) result }
{
    if let Some(triangle) = corner_not_below(mesh) {
        return Err(Refusal::CornerNotBelow { triangle });
    }
    if let Some(triangle) = equal_corners(mesh) {
        return Err(Refusal::EqualCorners { triangle });
    }
    Ok(())
}

// 8 and 9, with the rings of the edges, which stay in `ring`.
fn judge_triangles(
    mesh: Mesh<'_>,
    ring: &mut [u16],
    work1: &mut [u16],
    work2: &mut [u16],
    work3: &mut [u16],
    work4: &mut [u16],
) -> Result<(), Refusal>
    requires { TrianglesLent mesh.vertices mesh.triangles mesh.list.now ring.old work1.old work2.old
        work3.old work4.old }
    ensures { TrianglesJudged mesh.entry.vertices mesh.entry.triangles mesh.entry.list.now ring.new
        result }
{
    ring_table(mesh, work1, work2, work3, work4, ring);
    if let Some(triangle) = same_as_earlier(mesh, ring, work1, work2) {
        return Err(Refusal::SameAsEarlier { triangle });
    }
    if let Some(vertex) = in_no_triangle(mesh, work3) {
        return Err(Refusal::InNoTriangle { vertex });
    }
    Ok(())
}

// 10, which looks for a triangle that is not connected to triangle 0.
pub fn judge_connected(
    list: &[u16],
    ring: &[u16],
    marks: &mut [u16],
    queue: &mut [u16],
    opened: &mut [u16],
) -> Result<(), Refusal>
    requires { ConnectLent list.now ring.now marks.old queue.old opened.old }
    ensures { JudgedAs (connected_rules list.now) result }
{
    let triangles = list.len() / 3;
    reach(0, triangles, ring, marks, queue, opened);
    match first_zero(marks, triangles) {
        Some(triangle) => Err(Refusal::NotConnected { triangle }),
        None => Ok(()),
    }
}

// 6 to 10. Where none is given, `ring` holds the rings of the edges.
pub fn judge(
    mesh: Mesh<'_>,
    ring: &mut [u16],
    work1: &mut [u16],
    work2: &mut [u16],
    work3: &mut [u16],
    work4: &mut [u16],
) -> Result<(), Refusal>
    requires { JudgeLent mesh.vertices mesh.triangles mesh.list.now ring.old work1.old work2.old
        work3.old work4.old }
    ensures { MeshJudged mesh.entry.vertices mesh.entry.triangles mesh.entry.list.now ring.new
        result }
{
    judge_corners(mesh)?;
    judge_triangles(mesh, ring, work1, work2, work3, work4)?;
    judge_connected(mesh.list, ring, work1, work2, work3)
}
