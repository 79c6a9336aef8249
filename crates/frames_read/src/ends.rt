// The ends of lines.
ghost use Rattle.std.specs.Prelude.{◌≡◌, ◌<◌, length};
ghost use Rattle.theory.specs.Frames.{take_lf, take_end};
ghost use Rattle.frames_read.specs.Parts.{rest_of};

// What is left after the LF that follows a CR.
fn take_lf(bytes: &[u8]) -> Option<&[u8]>
    ensures { rest_of result ≡ take_lf bytes.now }
{
    match bytes {
        [b'\n', rest @ ..] => Some(rest),
        _ => None,
    }
}

// What is left after the end of a line: LF, which is looked for first as most files have it, or CR and LF.
pub(crate) fn take_end(bytes: &[u8]) -> Option<&[u8]>
    requires { 0 < length bytes.now }
    ensures { rest_of result ≡ take_end bytes.now }
{
    match bytes[0] {
        b'\n' => Some(&bytes[1..]),
        b'\r' => take_lf(&bytes[1..]),
        _ => None,
    }
}
