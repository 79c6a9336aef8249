// What each half-edge has for ends and for third vertex: one sequential pass for each table.
ghost use Rattle.std.specs.Prelude.{ℕ, ◌*◌};
ghost use Rattle.theory.specs.Splitting.{greater};
ghost use Rattle.lists.specs.Tables.{Tabulated};
ghost use Rattle.mesh_rings.specs.Tables.{PerHalfEdge, EntriesOf, third};

use super::mesh::Mesh;
use lists::write_three;

// The greater end of each half-edge.
pub fn greater_ends(mesh: Mesh<'_>, ends: &mut [u16])
    requires { PerHalfEdge mesh.triangles mesh.list.now ends.old }
    ensures { Tabulated (greater mesh.entry.list.now) (3 * mesh.entry.triangles) ends.new }
{
    tabulate(mesh, ends, |a, b, c| (a.max(b), b.max(c), c.max(a)));
}

// The vertex of its triangle that each half-edge does not touch.
pub fn third_vertices(mesh: Mesh<'_>, thirds: &mut [u16])
    requires { PerHalfEdge mesh.triangles mesh.list.now thirds.old }
    ensures { Tabulated (third mesh.entry.list.now) (3 * mesh.entry.triangles) thirds.new }
{
    tabulate(mesh, thirds, |a, b, c| (c, a, b));
}

// Fills a table triangle by triangle: `entries` makes those of its three half-edges of the vertices at its corners.
fn tabulate<F: Fn(u16, u16, u16) -> (u16, u16, u16)>(mesh: Mesh<'_>, table: &mut [u16], entries: F)
    requires lent { PerHalfEdge mesh.triangles mesh.list.now table.old }
    requires callable { F.IsAlwaysCallable entries }
    ensures { (g : ℕ → ℕ) → EntriesOf (F.post entries) g mesh.entry.triangles mesh.entry.list.now
        → Tabulated g (3 * mesh.entry.triangles) table.new }
{
    let list = mesh.list;
    for k in 0..mesh.triangles {
        let (x, y, z) = entries(list[3 * k], list[3 * k + 1], list[3 * k + 2]);
        write_three(table, k, x, y, z);
    }
}
