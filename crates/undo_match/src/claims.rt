// Which input triangle stands for which triangle of the splitting: a tile for its centre, and for each corner triangle
// the one across the tile's edge that ends at the corner.
ghost use Rattle.std.specs.Prelude.{refl};
ghost use Rattle.undo_match.specs.Claims.{ClaimsLent, Claimed, FourLent, claims_of};

use crate::marked::{Runs, write_marked};

// For each triangle of the splitting of the marked tiles the input triangle that is claimed for it.
pub fn claims(triangles: usize, marks: &[u16], other: &[u16], out: &mut [u16])
    requires { ClaimsLent triangles marks.now other.now out.old }
    ensures { Claimed triangles marks.now other.now
        out.new }
{
    write_marked(&Four { other }, triangles, marks, out);
}

// The four of a triangle: itself, and those across its edges.
#[derive(Drop)]
struct Four<'a> {
    other: &'a [u16],
}

impl Runs<4> for Four<'_> {
    ghost run = { λ four k. claims_of four.other.now k };

    ghost lent = { λ four k. FourLent k four.other.now };

    fn write(&self, k: usize, place: usize, out: &mut [u16]) {
        out[place] = k as u16;
        out[place + 1] = self.other[3 * k + 2] / 3;
        out[place + 2] = self.other[3 * k] / 3;
        out[place + 3] = self.other[3 * k + 1] / 3;
    }

    ghost long = { λ four k. refl };
}
