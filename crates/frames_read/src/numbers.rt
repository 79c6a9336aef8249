// The parts of a line, each read from the front of the bytes that are left: the line's kind, and a number of four
// digits. With each comes what is left after it. (std's parsing takes a sign, which frames do not have. The table of
// digits is a parameter beside the bytes: they change from part to part, and it is one.)
ghost use Rattle.std.specs.Prelude.{◌≡◌, ◌+◌, ◌≤◌, ◌<◌, length};
ghost use Rattle.theory.specs.Frames.{take_digits};
ghost use Rattle.frames_read.specs.Parts.{number_of, rest_of, take_kind};

use super::digits::Digits;

// The kind of a line, in two digits.
pub(crate) fn take_kind<'a>(bytes: &'a [u8], digits: &Digits, kind: u16) -> Option<&'a [u8]>
    requires there { 2 ≤ length bytes.now }
    requires small { kind < 256 }
    ensures { rest_of result ≡ take_kind kind bytes.now }
{
    if digits.value(bytes[0]) != kind / 16 {
        return None;
    }
    if digits.value(bytes[1]) != kind % 16 {
        return None;
    }
    Some(&bytes[2..])
}

// A number of four digits. They are tested together, since a byte that is none makes their sum too large.
pub(crate) fn take_number<'a>(bytes: &'a [u8], digits: &Digits) -> Option<(u16, &'a [u8])>
    requires { 4 ≤ length bytes.now }
    ensures { number_of result ≡ take_digits 4 0 bytes.now }
{
    let first = digits.value(bytes[0]);
    let second = digits.value(bytes[1]);
    let third = digits.value(bytes[2]);
    let fourth = digits.value(bytes[3]);
    if 4 * 15 < first + second + third + fourth {
        return None;
    }
    let number = 16 * (16 * (16 * first + second) + third) + fourth;
    Some((number, &bytes[4..]))
}
