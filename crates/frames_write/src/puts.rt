// A buffer into which the parts of a text are put, each after the one before it.
#![tactic(auto, unfolding(theory::specs::Frames::two_digits, theory::specs::Frames::four_digits))]

ghost use Rattle.std.specs.Prelude.{◌≡◌, [], ◌∷◌};
ghost use Rattle.theory.specs.Frames.{two_digits, four_digits};
ghost use Rattle.frames_write.specs.Putting.{Room, Put};

use super::digits::digit_byte;

// The base of the digits.
const BASE: usize = 16;
// What the digits before the last one weigh: a number divided by a digit's weight ends in that digit.
const SECOND_LAST: usize = BASE;

const THIRD_LAST: usize = BASE * SECOND_LAST;

const FOURTH_LAST: usize = BASE * THIRD_LAST;

// A buffer, and the place of the next byte that is put into it.
#[derive(Drop)]
pub struct Writer<'a> {
    pub bytes: &'a mut [u8],
    pub place: usize,
}

impl<'a> Writer<'a> {
    // A writer at the front of a buffer.
    pub fn new(bytes: &'a mut [u8]) -> Writer<'a>
        ensures same { result.bytes.ghost_name ≡ bytes.entry.ghost_name }
        ensures untouched { result.bytes.now ≡ bytes.old }
        ensures front { result.place ≡ 0 }
    {
        Writer { bytes, place: 0 }
    }

    // One byte.
    pub fn put_byte(&mut self, byte: u8)
        requires { Room (byte ∷ []) self.old }
        ensures { Put (byte ∷ []) self.old self.new }
    {
        self.bytes[self.place] = byte;
        self.place += 1;
    }

    // The last two digits of `value`. (Not by std's printing: the promise names each byte, and would have to be proved of
    // what that writes. Two and four are two functions, of two lines and of four.)
    pub(crate) fn put_two(&mut self, value: usize)
        requires { Room (two_digits value) self.old }
        ensures { Put (two_digits value) self.old self.new }
    {
        self.put_byte(digit_byte(value / SECOND_LAST % BASE));
        self.put_byte(digit_byte(value % BASE));
    }

    // The last four digits of `value`.
    pub(crate) fn put_four(&mut self, value: usize)
        requires { Room (four_digits value) self.old }
        ensures { Put (four_digits value) self.old self.new }
    {
        self.put_byte(digit_byte(value / FOURTH_LAST % BASE));
        self.put_byte(digit_byte(value / THIRD_LAST % BASE));
        self.put_two(value);
    }
}
