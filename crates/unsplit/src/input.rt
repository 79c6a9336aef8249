// An input, as standard input, read so that one that cannot be read is told from one that ends.
ghost use Rattle.std.specs.Prelude.{◌≤◌, length};
ghost use Rattle.unsplit.specs.Reading.{bytes_read};

use std::io;
use std::io::Read;

// Reads the input into the first bytes of `bytes`, until it ends or `bytes` is full, and says how many were read. It
// fails at the first call that fails, whatever was read before.
pub fn read_input<R: Read>(input: &mut R, bytes: &mut [u8]) -> io::Result<usize>
    ensures { bytes_read result ≤ length bytes.new }
{
    let mut count = 0;
    while count < bytes.len() {
        let more = input.read(&mut bytes[count..])?;
        if more == 0 {
            break;
        }
        count += more;
    }
    Ok(count)
}
