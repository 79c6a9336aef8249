// The entries of the marked triangles of a list, one triangle after the other, and the same of a table of half-edges.
ghost use Rattle.std.specs.Prelude.{◌≡◌, refl};
ghost use Rattle.theory.specs.Mesh.{at};
ghost use Rattle.undo_match.specs.Runs.{three_of};
ghost use Rattle.undo_match.specs.Selected.{SelectLent, Selected, CornersLent};
ghost use Rattle.undo_match.specs.Selected.{RingLent, RingSelected, LinksLent, HalfLent, selected_half};

use crate::marked::{Runs, write_marked};
use lists::at;

// Copies the corners of the marked triangles to the front of `out`, in order. Answers how many are marked.
pub fn select(triangles: usize, list: &[u16], marks: &[u16], out: &mut [u16]) -> usize
    requires { SelectLent triangles list.now marks.now out.old }
    ensures { Selected triangles list.now marks.now result out.new }
{
    write_marked(&Corners { list }, triangles, marks, out)
}

// The corners of a triangle.
#[derive(Drop)]
struct Corners<'a> {
    list: &'a [u16],
}

impl Runs<3> for Corners<'_> {
    ghost run = { λ corners k. three_of (at corners.list.now) k };

    ghost lent = { λ corners k. CornersLent k corners.list.now };

    fn write(&self, k: usize, place: usize, out: &mut [u16]) {
        out[place] = self.list[3 * k];
        out[place + 1] = self.list[3 * k + 1];
        out[place + 2] = self.list[3 * k + 2];
    }

    ghost long = { λ corners k. refl };
}

// The rings of the marked triangles' edges, as half-edges of the selected list: `rank` has the rank of each marked
// triangle among the marked ones.
pub fn selected_ring(triangles: usize, ring: &[u16], marks: &[u16], rank: &[u16], out: &mut [u16])
    requires { RingLent triangles ring.now marks.now rank.now out.old }
    ensures { RingSelected triangles ring.now marks.now rank.now
        out.new }
{
    write_marked(&Links { ring, rank }, triangles, marks, out);
}

// The links of a triangle's half-edges, as half-edges of the selected list.
#[derive(Drop)]
struct Links<'a> {
    ring: &'a [u16],
    rank: &'a [u16],
}

impl Runs<3> for Links<'_> {
    ghost run = { λ links k. three_of (λ h. selected_half links.rank.now (at links.ring.now h)) k };

    ghost lent = { λ links k. LinksLent k links.ring.now links.rank.now };

    fn write(&self, k: usize, place: usize, out: &mut [u16]) {
        out[place] = selected_half(at(self.ring, 3 * k), self.rank);
        out[place + 1] = selected_half(at(self.ring, 3 * k + 1), self.rank);
        out[place + 2] = selected_half(at(self.ring, 3 * k + 2), self.rank);
    }

    ghost long = { λ links k. refl };
}

// The half-edge of the selected list that half-edge h becomes.
fn selected_half(h: usize, rank: &[u16]) -> u16
    requires { HalfLent h rank.now }
    ensures { result ≡ selected_half rank.now h }
{
    let k = h / 3;
    (3 * at(rank, k) + (h - 3 * k)) as u16
}
