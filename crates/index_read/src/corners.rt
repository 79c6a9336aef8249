// Writing the corners of an index text that was judged right.
ghost use Rattle.index_read.specs.Faces.{CornersLent, CornersWritten};

use super::runs::{Run, next_run, take_run};

// Writes all corners of a text that is right, in order, to the front of `out`. The walk is that of `judge_text`: one
// function for both would take a closure, whose contract is longer than the second loop.
pub(crate) fn write_corners(text: &[u8], out: &mut [u16])
    requires { CornersLent text.now out.old }
    ensures { CornersWritten text.now out.old out.new }
{
    let mut at = next_run(text, 0);
    let mut corners = 0;
    while at < text.len() {
        // Every run was judged right.
        let (run, end) = take_run(text, at).unwrap();
        if let Run::Corner(corner) = run {
            out[corners] = corner;
            corners += 1;
        }
        at = next_run(text, end);
    }
}
