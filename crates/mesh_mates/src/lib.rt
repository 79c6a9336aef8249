// The other half-edge on an edge of two, by the rings of the edges: the table of mates that an undo goes by. Every
// table stands at the front of a slice that the caller lends, which may be longer: a count beside it says how long it
// is. It takes time linear in the half-edges, and assumes nothing.
#![tactic(auto)]

ghost use Rattle.std.specs.Prelude.{◌<◌, length};
ghost use Rattle.lists.specs.Decides.{Decides};
ghost use Rattle.mesh_mates.specs.Others.{OthersLent, OthersOf, HasMate};

use lists::at;
use mesh_rings::ring::chosen;

// For each of n half-edges the other one on its edge where there are two: itself where it is alone, and `n` where
// there are three and more. The table is the caller's, 16 bits an entry, which leaves no room for an enum.
pub fn others(ring: &[u16], n: usize, other: &mut [u16])
    requires { OthersLent n ring.now other.old }
    ensures { OthersOf n ring.now other.new }
{
    for h in 0..n {
        let next = at(ring, h);
        other[h] = chosen(at(ring, next), h, next, n) as u16;
    }
}

// Whether half-edge h has a mate: the entry is another half-edge.
#[tactic(auto, using(crate::proofs::Mates::alone, crate::proofs::Mates::mate_below))]
pub fn has_mate(h: usize, halves: usize, other: &[u16]) -> bool
    requires { h < length other.now }
    ensures { Decides (HasMate halves other.now h) result }
{
    let across = at(other, h);
    if across == h {
        return false;
    }
    across < halves
}
