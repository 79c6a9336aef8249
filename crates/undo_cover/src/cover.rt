// The tables that all roles of an undo share: the other half-edge of each half-edge, the covering mesh and its rings.
ghost use Rattle.undo_cover.specs.Cover.{CoverLent, CoverMade};

use super::tiles::rows;
use mesh_mates::others;
use mesh_rings::ends::third_vertices;
use mesh_rings::mesh::Mesh;
use mesh_rings::ring::ring_table;

// The covering mesh of a mesh, as the roles read it: the other half-edge of each half-edge of the mesh, the rows, and
// the rings of their edges.
#[derive(Clone, Copy)]
pub struct Covering<'a> {
    pub other: &'a [u16],
    pub rows: &'a [u16],
    pub ring: &'a [u16],
}

// Makes the covering mesh of a proper mesh, the rings of whose edges stand in `ring`: the other half-edges go to
// `other`, the rows to `tiles`, and `ring` then holds the rings of the rows. (It takes no `Covering`, which is lent to
// read.)
pub fn cover(
    mesh: Mesh<'_>,
    other: &mut [u16],
    tiles: &mut [u16],
    ring: &mut [u16],
    work1: &mut [u16],
    work2: &mut [u16],
    work3: &mut [u16],
    work4: &mut [u16],
)
    requires { CoverLent mesh.vertices mesh.triangles mesh.list.now other.old tiles.old ring.old
        work1.old work2.old work3.old work4.old }
    ensures { CoverMade mesh.entry.triangles mesh.entry.list.now other.new tiles.new
        ring.new }
{
    let triangles = mesh.triangles;
    others(ring, 3 * triangles, other);
    third_vertices(mesh, work1);
    rows(triangles, other, work1, tiles);
    let covering = Mesh {
        list: &tiles[..3 * triangles],
        ..mesh
    };
    ring_table(covering, work1, work2, work3, work4, ring);
}
