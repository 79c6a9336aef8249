// What split does once its sizes are judged: all but the clearing of its work buffers. It takes time linear in vertices
// and triangles, and assumes nothing.
#![tactic(auto)]

ghost use Rattle.std.specs.Prelude.{[], ◌∷◌};
ghost use Rattle.answers.specs.Said.{said};
ghost use Rattle.calls_split.specs.Splitting.{SplitLent, SplitsMesh};

use answers::counts::{Counts, split_counts};
use limits::refusal::Refusal;
use mesh_counts::count_boundary;
use mesh_judge::judge;
use mesh_rings::mesh::Mesh;
use split::{number_edges, write_fours};

// Gives the refusal that 2 to 5 came to, or judges 6 to 10 and splits. What is counted of the splitting follows from
// what is counted of the mesh. It leaves in the work buffers what it pleases, and promises what split promises for when
// they are cleared: `ring` holds the rings of the edges, and `work1` the vertices on them.
pub fn split_mesh(
    sized: Result<(), Refusal>,
    vertices: u64,
    list: &[u16],
    out: &mut [u16],
    ring: &mut [u16],
    work1: &mut [u16],
    work2: &mut [u16],
    work3: &mut [u16],
    work4: &mut [u16],
) -> Result<Counts, Refusal>
    requires { SplitLent sized vertices list.now out.old
        (ring.old ∷ work1.old ∷ work2.old ∷ work3.old ∷ work4.old ∷ []) }
    ensures { SplitsMesh vertices list.now out.old
        (ring.old ∷ work1.old ∷ work2.old ∷ work3.old ∷ work4.old ∷ [])
        (said result) out.new }
{
    sized?;
    let vertices = vertices as usize;
    let triangles = list.len() / 3;
    let mesh = Mesh {
        vertices,
        triangles,
        list,
    };
    judge(mesh, ring, work1, work2, work3, work4)?;
    let edges = number_edges(vertices, 3 * triangles, ring, work1);
    write_fours(list, triangles, work1, out);
    let boundary = count_boundary(ring, 3 * triangles);
    Ok(split_counts(Counts {
        vertices,
        triangles,
        edges,
        boundary,
    }))
}
