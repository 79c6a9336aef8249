// The text of a file of cases: decimal numbers, with blanks and line feeds between them, comments, which go from a `#`
// to the end of its line, and bytes that are taken as they are. Takes any bytes.

// What of a text is still to be read.
#[derive(Drop)]
pub struct Text<'a> {
    rest: &'a [u8],
}

// What stands next in a text is not as it has to be.
#[derive(Debug, Drop)]
pub struct Wrong;

// The largest number that another digit may be put after.
const TENTH: u64 = 1844674407370955160;

impl<'a> Text<'a> {
    pub fn new(bytes: &'a [u8]) -> Text<'a> {
        Text { rest: bytes }
    }

    // The number that stands next, with gaps and comments before it, or none where the text ends.
    pub fn next(&mut self) -> Result<Option<u64>, Wrong> {
        self.skip();
        if self.rest.is_empty() {
            return Ok(None);
        }
        self.take_digits().map(Some)
    }

    // The number that has to stand next.
    pub fn number(&mut self) -> Result<u64, Wrong> {
        self.next()?.ok_or(Wrong)
    }

    // The entry of a list that has to stand next.
    pub fn entry(&mut self) -> Result<u16, Wrong> {
        u16::try_from(self.number()?).map_err(|_| Wrong)
    }

    // So many bytes, after the one that stands next.
    pub fn bytes(&mut self, count: u64) -> Result<&'a [u8], Wrong> {
        let (_, rest) = self.rest.split_first().ok_or(Wrong)?;
        let (bytes, rest) = rest.split_at_checked(count as usize).ok_or(Wrong)?;
        self.rest = rest;
        Ok(bytes)
    }

    // Goes on to the first byte that is no blank, no line feed and in no comment, or to the text's end.
    fn skip(&mut self) {
        let bytes = self.rest;
        let mut comment = false;
        for (i, byte) in bytes.iter().enumerate() {
            match byte {
                b'#' => comment = true,
                b'\n' => comment = false,
                b' ' => {}
                _ if comment => {}
                _ => {
                    self.rest = &bytes[i..];
                    return;
                }
            }
        }
        self.rest = &[];
    }

    // Takes the digits that stand next, which are some, and says their value. (In one pass: std's `parse` wants them found
    // and checked as a `str` before, and took 1.7 times as long.)
    fn take_digits(&mut self) -> Result<u64, Wrong> {
        let bytes = self.rest;
        let mut value: u64 = 0;
        for (i, byte) in bytes.iter().enumerate() {
            if !byte.is_ascii_digit() {
                self.rest = &bytes[i..];
                return (i > 0).then_some(value).ok_or(Wrong);
            }
            if value > TENTH {
                return Err(Wrong);
            }
            value = 10 * value + u64::from(byte - b'0');
        }
        self.rest = &[];
        Ok(value)
    }
}
