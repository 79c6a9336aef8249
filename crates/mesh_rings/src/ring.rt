// The ring table of a list: for each half-edge the next one on the same edge, and for the last one the first.
ghost use Rattle.std.specs.Prelude.{◌*◌, ◌≡◌, set, take, replicate};
ghost use Rattle.theory.specs.Mesh.{at};
ghost use Rattle.theory.specs.Splitting.{lesser, first_on};
ghost use Rattle.mesh_rings.specs.Ring.{RingBy, Chosen};
ghost use Rattle.mesh_rings.specs.Chains.{ChainLent, Chained, PutLent};
ghost use Rattle.mesh_rings.specs.Making.{RingLent, JoinLent, Joined};

use super::ends::greater_ends;
use super::mesh::Mesh;
use lists::{at, fill};

// Makes the rings of the edges of a mesh, whose corners are below its vertices. Half-edges are chained by their lesser
// end, and a walk along each chain joins those with the same greater end. The other slices are left as they come.
pub fn ring_table(
    mesh: Mesh<'_>,
    greater: &mut [u16],
    head: &mut [u16],
    stamp: &mut [u16],
    last: &mut [u16],
    ring: &mut [u16],
)
    requires { RingLent mesh.vertices mesh.triangles mesh.list.now greater.old head.old stamp.old
        last.old ring.old }
    ensures { RingBy (3 * mesh.entry.triangles) (first_on mesh.entry.list.now) ring.new }
{
    greater_ends(mesh, greater);
    chain(mesh, head, ring);
    fill(stamp, mesh.vertices, mesh.vertices as u16);
    for u in 0..mesh.vertices {
        join(
            u,
            at(head, u),
            3 * mesh.triangles,
            greater,
            stamp,
            last,
            ring,
        );
    }
}

// Chains the half-edges by their lesser ends, which are below the vertices: `head[u]` is the first half-edge with the
// lesser end u, and `link[h]` the next one with that of h, each 3 times the triangles where there is none: the tables
// are the caller's, 16 bits an entry, which leaves no room for an `Option`.
fn chain(mesh: Mesh<'_>, head: &mut [u16], link: &mut [u16])
    requires { ChainLent mesh.vertices mesh.triangles mesh.list.now head.old link.old }
    ensures { Chained (lesser mesh.entry.list.now) mesh.entry.vertices (3 * mesh.entry.triangles)
        head.new link.new }
{
    fill(head, mesh.vertices, (3 * mesh.triangles) as u16);
    link_back(mesh, head, link);
}

// The chains, from heads that are all empty: from the last triangle to the first, each half-edge is put in front of
// its chain.
fn link_back(mesh: Mesh<'_>, head: &mut [u16], link: &mut [u16])
    requires chain_lent { ChainLent mesh.vertices mesh.triangles mesh.list.now head.old link.old }
    requires head_value { take mesh.vertices head.old
        ≡ replicate mesh.vertices (3 * mesh.triangles) }
    ensures { Chained (lesser mesh.entry.list.now) mesh.entry.vertices (3 * mesh.entry.triangles)
        head.new link.new }
{
    let list = mesh.list;
    for k in (0..mesh.triangles).rev() {
        let a = list[3 * k];
        let b = list[3 * k + 1];
        let c = list[3 * k + 2];
        put_first(3 * k + 2, c.min(a), head, link);
        put_first(3 * k + 1, b.min(c), head, link);
        put_first(3 * k, a.min(b), head, link);
    }
}

// (`head` and `link` are no struct, here and above: Rattle lends no two `&mut` fields of one to a call.)
// Puts half-edge h in front of the chain of its lesser end `key`.
fn put_first(h: usize, key: u16, head: &mut [u16], link: &mut [u16])
    requires { PutLent h key head.old link.old }
    ensures headed { head.new ≡ set head.old key h }
    ensures linked { link.new ≡ set link.old h (at head.old key) }
{
    let key = key as usize;
    link[h] = head[key];
    head[key] = h as u16;
}

// Joins the half-edges of one chain, from `start`, to the rings of their edges: those with the same greater end.
// `stamp[x]` is u where this chain has met the greater end x, and `last[x]` is then the last half-edge that did (a number
// and no Option: an entry of a lent table has 16 bits). Each link is read before its place takes the ring's.
fn join(
    u: usize,
    start: usize,
    n: usize,
    greater: &[u16],
    stamp: &mut [u16],
    last: &mut [u16],
    ring: &mut [u16],
)
    requires { JoinLent u start n greater.now stamp.old last.old ring.old }
    ensures { Joined u start n greater.now stamp.old ring.old
        stamp.new ring.new }
{
    let mut h = start;
    while h < n {
        let x = at(greater, h);
        let prev = chosen(at(stamp, x), u, at(last, x), h);
        stamp[x] = u as u16;
        last[x] = h as u16;
        let next = at(ring, h);
        ring[h] = h as u16;
        ring[h] = ring[prev];
        ring[prev] = h as u16;
        h = next;
    }
}

// `one` where s is u, else `other`: a value that is chosen, since a branch here is one that no processor foresees.
#[tactic(auto, using(crate::specs::Ring::met, crate::specs::Ring::new))]
pub fn chosen(s: usize, u: usize, one: usize, other: usize) -> usize
    ensures { Chosen s u one other result }
{
    if s == u { one } else { other }
}
