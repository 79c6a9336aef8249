// The lines of frames, each read whole or not at all.
ghost use Rattle.std.specs.Prelude.{◌≡◌, ◌<◌};
ghost use Rattle.theory.specs.Frames.{take_line};
ghost use Rattle.frames_read.specs.Parts.{LineStarted};
ghost use Rattle.frames_read.specs.Given.{given, mesh_given, triangle_given};

use super::digits::Digits;
use super::ends::take_end;
use super::numbers::{take_kind, take_number};

// The first frame, 4D and two numbers: the counts of the mesh, and what is left after it. This and the next are two and
// no generic function, since that answers an array, and the calls keep no array on the stack but few that are named.
pub(crate) fn take_mesh<'a>(bytes: &'a [u8], digits: &Digits) -> Option<(u16, u16, &'a [u8])>
    ensures { mesh_given result ≡ given (take_line 0x4D 2 bytes.now) }
{
    let rest = start_line(bytes, digits, 0x4D, 2)?;
    let (vertices, rest) = take_number(rest, digits)?;
    let (triangles, rest) = take_number(rest, digits)?;
    let rest = take_end(rest)?;
    Some((vertices, triangles, rest))
}

// A triangle's frame, 46 and three numbers: its corners, and what is left after it. It is compiled into the loops over
// the lines, with all that it calls.
#[inline(always)]
pub(crate) fn take_triangle<'a>(
    bytes: &'a [u8],
    digits: &Digits,
) -> Option<(u16, u16, u16, &'a [u8])>
    ensures { triangle_given result ≡ given (take_line 0x46 3 bytes.now) }
{
    let rest = start_line(bytes, digits, 0x46, 3)?;
    let (a, rest) = take_number(rest, digits)?;
    let (b, rest) = take_number(rest, digits)?;
    let (c, rest) = take_number(rest, digits)?;
    let rest = take_end(rest)?;
    Some((a, b, c, rest))
}

// The start of a line of a kind with so many numbers: what is left after its kind. It asks once whether enough bytes
// are left for the whole line, and its parts no more.
#[inline(always)]
fn start_line<'a>(bytes: &'a [u8], digits: &Digits, kind: u16, numbers: usize) -> Option<&'a [u8]>
    requires small { kind < 256 }
    requires few { numbers < 4 }
    ensures { LineStarted kind numbers bytes.now result }
{
    if bytes.len() < 3 + 4 * numbers {
        return None;
    }
    take_kind(bytes, digits, kind)
}
