// Reading the lines of triangles: all are judged before the first corner is written, so that a refusal writes nothing.
// The two loops are not compiled into the call, where they would have fewer registers. They are two, since a line that
// cannot be read means a refusal in one and nothing in the other, and one for both would take a closure whose contract is
// longer than the second loop.
ghost use Rattle.std.specs.Prelude.{◌<◌, []};
ghost use Rattle.theory.specs.Frames.{take_triangles};
ghost use Rattle.frames_read.specs.Judging.{LinesJudged, CornersLent, CornersWritten};

use super::digits::Digits;
use super::lines::take_triangle;
use limits::refusal::Refusal;
use lists::write_three;

// Judges the lines of so many triangles: each must be as required, and nothing come after the last.
#[inline(never)]
pub(crate) fn judge_triangles(
    bytes: &[u8],
    digits: &Digits,
    triangles: usize,
) -> Result<(), Refusal>
    requires { triangles < 65536 }
    ensures { LinesJudged (take_triangles triangles 1 [] bytes.now) result }
{
    let mut rest = bytes;
    for k in 0..triangles {
        let Some((_, _, _, after)) = take_triangle(rest, digits) else {
            return Err(Refusal::LineWrong { line: k + 1 });
        };
        rest = after;
    }
    if !rest.is_empty() {
        return Err(Refusal::LineWrong {
            line: triangles + 1,
        });
    }
    Ok(())
}

// Writes the corners of so many triangles, whose lines are judged, to the front of `out`.
#[inline(never)]
pub(crate) fn write_triangles(bytes: &[u8], digits: &Digits, triangles: usize, out: &mut [u16])
    requires { CornersLent triangles bytes.now out.old }
    ensures { CornersWritten triangles bytes.now out.old out.new }
{
    let mut rest = bytes;
    for k in 0..triangles {
        let (a, b, c, after) = take_triangle(rest, digits).unwrap();
        write_three(out, k, a, b, c);
        rest = after;
    }
}
