// The faults of a mesh that refusals 6 to 9 report: for each the least place, if there is one. Every table stands at
// the front of a slice that the caller lends, which may be longer: a count beside it says how long it is. It rests on
// the loops of `lists` and the tables of `mesh_rings`, takes time linear in vertices and triangles, whatever the mesh,
// and assumes nothing.
#![tactic(auto)]

ghost use Rattle.std.specs.Prelude.{◌*◌};
ghost use Rattle.theory.specs.Refusals.{CornerNotBelow, EqualCorners, SameAsEarlier, InNoTriangle};
ghost use Rattle.lists.specs.Places.{Least};
ghost use Rattle.mesh_faults.specs.Faults.{Whole, HasEqual, SameLent, UsedLent, MarksLent, UsedMarks};
ghost use Rattle.mesh_faults.specs.Twins.{TwinsLent, TwinFound, MeetLent, Met};
ghost use Rattle.mesh_faults.specs.Looks.{SameTables, LookLent, WalkLent, Looked};

use lists::{at, fill, first_zero};
use mesh_rings::ends::third_vertices;
use mesh_rings::mesh::Mesh;

// 6: the least triangle with a corner that is not below the vertices.
pub fn corner_not_below(mesh: Mesh<'_>) -> Option<usize>
    requires { Whole mesh.triangles mesh.list.now }
    ensures { Least (CornerNotBelow mesh.entry.vertices mesh.entry.list.now) mesh.entry.triangles
        result }
{
    let vertices = mesh.vertices;
    mesh.list[..3 * mesh.triangles]
        .iter()
        .position(|corner| vertices <= *corner as usize)
        .map(|c| c / 3)
}

// 7: the least triangle with two equal corners.
pub fn equal_corners(mesh: Mesh<'_>) -> Option<usize>
    requires { Whole mesh.triangles mesh.list.now }
    ensures { Least (EqualCorners mesh.entry.list.now) mesh.entry.triangles result }
{
    let list = mesh.list;
    for k in 0..mesh.triangles {
        if has_equal(list[3 * k], list[3 * k + 1], list[3 * k + 2]) {
            return Some(k);
        }
    }
    None
}

// Whether two of three vertices are equal.
pub fn has_equal(a: u16, b: u16, c: u16) -> bool
    ensures { HasEqual a b c result }
{
    a == b || b == c || c == a
}

// 8: the least triangle that is the same as an earlier one. Two triangles are the same if they have an edge and the
// third vertex in common, so the least half-edge with an earlier twin tells.
pub fn same_as_earlier(
    mesh: Mesh<'_>,
    ring: &[u16],
    thirds: &mut [u16],
    stamp: &mut [u16],
) -> Option<usize>
    requires { SameLent mesh.vertices mesh.triangles mesh.list.now ring.now thirds.old stamp.old }
    ensures { Least (SameAsEarlier mesh.entry.list.now) mesh.entry.triangles result }
{
    third_vertices(mesh, thirds);
    fill(stamp, mesh.vertices, (3 * mesh.triangles) as u16);
    least_twin(3 * mesh.triangles, ring, thirds, stamp).map(|h| h / 3)
}

// The least of n half-edges with a twin before it, a half-edge with the same edge and the same third vertex. `stamp`
// holds n for each third vertex, which stands for none: an entry of a lent table has 16 bits, and no room for an Option.
fn least_twin(n: usize, ring: &[u16], thirds: &[u16], stamp: &mut [u16]) -> Option<usize>
    requires { TwinsLent n ring.now thirds.now stamp.old }
    ensures { TwinFound n ring.now thirds.now result }
{
    let mut search = TwinSearch {
        n,
        ring,
        thirds,
        stamp,
    };
    let mut least = n;
    for h in 0..n {
        least = search.look_at(h, least);
    }
    if least < n { Some(least) } else { None }
}

// The search for the least of n half-edges with a twin before it. Its methods take the least that was found so far, n
// where none was, and answer that with what they found: an Option would be one more branch at every half-edge.
#[derive(Drop)]
struct TwinSearch<'a> {
    n: usize,
    ring: &'a [u16],
    thirds: &'a [u16],
    stamp: &'a mut [u16],
}

impl TwinSearch<'_> {
    // Looks at the edge that ends its ring at half-edge h: where h is the last on its edge, the others are looked at, one
    // of two at once.
    fn look_at(&mut self, h: usize, least: usize) -> usize
        requires { LookLent h self.old }
        ensures same { SameTables self.old self.new }
        ensures looked { Looked h least self.old result self.new }
    {
        let next = at(self.ring, h);
        if at(self.ring, next) == h {
            if self.thirds[next] == self.thirds[h] {
                if next < h {
                    return least.min(h);
                }
            }
            return least;
        }
        if h < next {
            return least;
        }
        self.walk_to(h, least)
    }

    // Looks at an edge with three and more half-edges, of which h is the last, from the first to h. `stamp[v]` is h where
    // one of those before has the third vertex v.
    fn walk_to(&mut self, h: usize, least: usize) -> usize
        requires { WalkLent h self.old }
        ensures same { SameTables self.old self.new }
        ensures looked { Looked h least self.old result self.new }
    {
        let mut found = least;
        let mut x = at(self.ring, h);
        while x < h {
            found = self.meet(x, h, found);
            x = at(self.ring, x);
        }
        self.meet(h, h, found)
    }

    // Meets half-edge x of the ring that ends at h: where its third vertex was met before, x is a twin.
    fn meet(&mut self, x: usize, h: usize, least: usize) -> usize
        requires { MeetLent x h self.old.thirds.now self.old.stamp.now }
        ensures same { SameTables self.old self.new }
        ensures met { Met x h self.old.thirds.now least self.old.stamp.now result self.new.stamp.now }
    {
        let v = at(self.thirds, x);
        let met = self.stamp[v] as usize;
        self.stamp[v] = h as u16;
        if met == h {
            return least.min(x);
        }
        least
    }
}

// 9: the least vertex in no triangle.
pub fn in_no_triangle(mesh: Mesh<'_>, marks: &mut [u16]) -> Option<usize>
    requires { UsedLent mesh.vertices mesh.triangles mesh.list.now marks.old }
    ensures { Least (InNoTriangle mesh.entry.vertices mesh.entry.list.now) mesh.entry.vertices
        result }
{
    fill(marks, mesh.vertices, 0);
    mark_used(mesh, marks);
    first_zero(marks, mesh.vertices)
}

// Marks the vertices of the triangles, on marks that are all 0.
pub fn mark_used(mesh: Mesh<'_>, marks: &mut [u16])
    requires { MarksLent mesh.vertices mesh.triangles mesh.list.now marks.old }
    ensures { UsedMarks mesh.entry.vertices mesh.entry.list.now (3 * mesh.entry.triangles)
        marks.new }
{
    for corner in &mesh.list[..3 * mesh.triangles] {
        marks[*corner as usize] = 1;
    }
}
