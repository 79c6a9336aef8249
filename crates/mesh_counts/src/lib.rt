// How many edges a mesh has, and how many of them are boundary edges, by the rings of its edges. Each count goes once
// over the half-edges, in 16 bits, as wide as the links, so that a processor compares several at a time. Every table
// stands at the front of a slice that the caller lends, which may be longer: a count beside it says how long it is.
// Assumes nothing.
#![tactic(auto)]

ghost use Rattle.std.specs.Prelude.{◌≡◌, leb, eqb};
ghost use Rattle.theory.specs.Splitting.{edges, boundary_edges};
ghost use Rattle.mesh_counts.specs.Counts.{CountLent, CountOf, PassingOf};

// How many edges the first `halves` half-edges are on, where `ring` has the rings of the edges: each edge has one last
// half-edge, from which the ring leads back, to itself or to an earlier one.
pub fn count_edges(ring: &[u16], halves: usize) -> usize
    requires { CountLent halves ring.now }
    ensures { CountOf edges halves ring.now result }
{
    count_passing(ring, halves, |next, h| next <= h)
}

// How many of these are boundary edges: the half-edge of one triangle is alone on its ring, which leads to itself.
pub fn count_boundary(ring: &[u16], halves: usize) -> usize
    requires { CountLent halves ring.now }
    ensures { CountOf boundary_edges halves ring.now result }
{
    count_passing(ring, halves, |next, h| next == h)
}

// How many of the first `halves` half-edges pass the test, which is told where the ring leads from a half-edge, and
// the half-edge.
fn count_passing<F: Fn(u16, u16) -> bool>(ring: &[u16], halves: usize, passes: F) -> usize
    requires lent { CountLent halves ring.now }
    requires callable { F.IsAlwaysCallable passes }
    ensures { PassingOf (F.post passes) halves ring.now result }
{
    let mut count: u16 = 0;
    for (h, next) in ring[..halves].iter().enumerate() {
        count += u16::from(passes(*next, h as u16));
    }
    count as usize
}
