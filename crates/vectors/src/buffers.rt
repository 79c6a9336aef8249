// Buffers for the calls. All are cut from arrays of one length, which are full of noise. Each buffer has an array of
// its own: of an array of arrays the borrow checker lends no two to one call.
ghost use Rattle.std.specs.Prelude.{◌≤◌};

use crate::text::{Text, Wrong};

// The entries of every array: those of a work buffer for 32,767 vertices and 16,384 triangles, and 8 to spare. Any mesh
// that needs more is refused for its size.
pub const LONG: usize = 81927;

// What the entries of the arrays hold at first. It is no vertex and no triangle of an accepted mesh, and its two bytes
// are the same, so that filling an array is quick.
pub const NOISE: u16 = 0xC3C3;

// So many entries or bytes of an array, or all `most` that it has.
pub fn at_most(count: u64, most: usize) -> usize
    ensures { result ≤ most }
{
    most.min(count as usize)
}

// The most entries that buffers have to spare.
const SPARE: u64 = 8;

// Each buffer has `spare` entries more than it needs, but the buffer number `short`, counted from 1 in the order of the
// call, has `fewer` entries fewer than it needs, or none. (`short` is 0 for none: it is a number of the text.)
#[derive(Clone, Copy, Default)]
pub struct Lent {
    spare: usize,
    short: u64,
    fewer: u64,
}

impl Lent {
    // Takes from the text how buffers are lent from here on.
    pub fn take(text: &mut Text) -> Result<Lent, Wrong> {
        let spare = text.number()?;
        if spare > SPARE {
            return Err(Wrong);
        }
        Ok(Lent {
            spare: spare as usize,
            short: text.number()?,
            fewer: text.number()?,
        })
    }

    // How many entries of an array of `most` are lent as the buffer of this number, which needs so many. It is not
    // inlined: between its branches the compiler fills an array twice.
    #[inline(never)]
    pub fn room(self, number: u64, need: usize, most: usize) -> usize
        ensures { result ≤ most }
    {
        let room = if number == self.short {
            need.saturating_sub(self.fewer as usize)
        } else {
            need.saturating_add(self.spare)
        };
        room.min(most)
    }
}
