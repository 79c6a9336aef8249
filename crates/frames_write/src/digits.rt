// Hexadecimal digits: the byte of a value.
ghost use Rattle.std.specs.Prelude.{◌≡◌, ◌<◌};
ghost use Rattle.theory.specs.Frames.{digit};

// The byte of the digit `value`. char::from_digit would give a lower-case letter.
#[tactic(auto, unfolding(theory::specs::Frames::digit))]
pub fn digit_byte(value: usize) -> u8
    requires { value < 16 }
    ensures { result ≡ digit value }
{
    if value < 10 {
        return b'0' + value as u8;
    }
    b'A' + (value - 10) as u8
}
