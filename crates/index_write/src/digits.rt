// Numbers in decimal digits.
ghost use Rattle.std.specs.Prelude.{◌≡◌};
ghost use Rattle.theory.specs.Index.{digits_needed, decimal, corner_text};
ghost use Rattle.frames_write.specs.Putting.{Room, Put};

use frames_write::puts::Writer;

// How many digits a corner takes. Each is counted without a branch, which no processor could foresee where the corners
// of a mesh stand in any order.
#[tactic(auto, unfolding(theory::specs::Index::digits_needed))]
pub(crate) fn digits_needed(value: usize) -> usize
    ensures { result ≡ digits_needed value }
{
    1 + usize::from(value >= 10)
        + usize::from(value >= 100)
        + usize::from(value >= 1_000)
        + usize::from(value >= 10_000)
}

// Puts a number, digit by digit from its last one back. (Not by std's printing: the promise names each byte, and would have
// to be proved of what that writes.)
fn put_number(out: &mut Writer, value: usize)
    requires { Room (decimal value) out.old }
    ensures { Put (decimal value) out.old out.new }
{
    let end = out.place + digits_needed(value);
    let mut left = value;
    for at in (out.place..end).rev() {
        out.bytes[at] = b'0' + (left % 10) as u8;
        left /= 10;
    }
    out.place = end;
}

// Puts a corner and the blank after it.
#[tactic(auto, unfolding(theory::specs::Index::corner_text))]
pub(crate) fn put_corner(out: &mut Writer, value: usize)
    requires { Room (corner_text value) out.old }
    ensures { Put (corner_text value) out.old out.new }
{
    put_number(out, value);
    out.put_byte(b' ');
}
