// Hexadecimal digits: the value of a byte.
ghost use Rattle.std.specs.Prelude.{◌≤◌};
ghost use Rattle.frames_read.specs.Parts.{DigitTable, DigitGiven};

// The table of digits. To look a byte up takes the same time whatever it is; whether a digit is a letter would be
// guessed wrong half of the time. It is made once, and lent to those that look up.
#[derive(Drop)]
pub(crate) struct Digits {
    entries: [u8; 256],
    ghost right: { DigitTable entries },
}

impl Digits {
    // A row for sixteen bytes: the values of 0 to 9, A to F and a to f, and `N`, which is 78, for any other.
    pub(crate) fn new() -> Digits {
        Digits {
            entries: *b"\
                NNNNNNNNNNNNNNNN\
                NNNNNNNNNNNNNNNN\
                NNNNNNNNNNNNNNNN\
                \x00\x01\x02\x03\x04\x05\x06\x07\x08\x09NNNNNN\
                N\x0A\x0B\x0C\x0D\x0E\x0FNNNNNNNNN\
                NNNNNNNNNNNNNNNN\
                N\x0a\x0b\x0c\x0d\x0e\x0fNNNNNNNNN\
                NNNNNNNNNNNNNNNN\
                NNNNNNNNNNNNNNNN\
                NNNNNNNNNNNNNNNN\
                NNNNNNNNNNNNNNNN\
                NNNNNNNNNNNNNNNN\
                NNNNNNNNNNNNNNNN\
                NNNNNNNNNNNNNNNN\
                NNNNNNNNNNNNNNNN\
                NNNNNNNNNNNNNNNN",
        }
    }

    // The value of a byte as a digit; 78 where it is none, which is more than four digits are together. It is no Option:
    // an entry has 8 bits, and four values are added and tested once.
    pub(crate) fn value(&self, byte: u8) -> u16
        ensures given { DigitGiven byte result }
        ensures small { result ≤ 78 }
    {
        self.entries[byte as usize] as u16
    }
}
