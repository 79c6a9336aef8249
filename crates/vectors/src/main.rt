// Answers a file of cases by the public calls. Standard input holds commands, which are numbers, with what they need
// after them (reference/README.md, "Vectors"): 1 and 2 make the present mesh, and 7 says how buffers are lent to the
// calls; 3 splits; 4, 5 and 6 undo; 8 and 9 read and write frames, 10 and 11 index texts. Each call is answered by a
// line of numbers and by what it wrote. Where the text is not so, the last line is `wrong`.
#![tactic(auto)]

ghost use Rattle.std.specs.Prelude.{◌≤◌, length};

mod buffers;
mod present;
mod print;
mod text;
mod try_read;
mod try_split;
mod try_undo;
mod try_write;

use buffers::Lent;
use present::Present;
use std::io;
use std::io::Read;
use text::{Text, Wrong};
use try_read::{Reader, try_read};
use try_split::try_split;
use try_undo::{Fate, try_one, try_several};
use try_write::{try_write, try_write_index};

// The bytes that a file of cases has at most.
const BYTES: usize = 262144;

// Why no more commands are obeyed: the text is not as it has to be, or an answer cannot be printed.
#[derive(Debug, Drop)]
enum Stop {
    Wrong,
    Unprinted,
}

impl From<Wrong> for Stop {
    fn from(_: Wrong) -> Stop {
        Stop::Wrong
    }
}

impl From<io::Error> for Stop {
    fn from(_: io::Error) -> Stop {
        Stop::Unprinted
    }
}

fn main(rt: HostRuntime) {
    if let Err(Stop::Wrong) = obey_all(&rt) {
        let _ = println!(rt; "wrong");
    }
}

// Reads the text and obeys its commands one after the other. Each has at least one byte, so that there are no more of
// them than bytes.
fn obey_all(rt: &HostRuntime) -> Result<(), Stop> {
    let mut bytes = [0u8; BYTES + 1];
    let count = read_text(&mut rt.stdin(), &mut bytes);
    if count > BYTES {
        return Err(Stop::Wrong);
    }
    let mut text = Text::new(&bytes[..count]);
    let mut present = Present::new();
    for _ in 0..count {
        let Some(command) = text.next()? else {
            break;
        };
        obey(rt, command, &mut text, &mut present)?;
    }
    Ok(())
}

// Reads the text into the first of these bytes, as far as there is room, and says how many they are. Where it cannot be
// read it ends.
fn read_text<R: Read>(input: &mut R, bytes: &mut [u8]) -> usize
    ensures { result ≤ length bytes.new }
{
    let mut count = 0;
    while count < bytes.len() {
        match input.read(&mut bytes[count..]) {
            Ok(more) if more > 0 => count += more,
            _ => break,
        }
    }
    count
}

// Obeys the command of this number, with what stands after it in the text.
fn obey<R: Print>(
    rt: &R,
    command: u64,
    text: &mut Text,
    present: &mut Present,
) -> Result<(), Stop> {
    match command {
        1 => present.take_mesh(text)?,
        2 => present.take_entries(3, text)?,
        3 => try_split(rt, present)?,
        4 => try_one(rt, text.number()?, present)?,
        5 => try_several(rt, text.number()?, Fate::Dropped, present)?,
        6 => try_several(rt, text.number()?, Fate::Kept, present)?,
        7 => present.lent = Lent::take(text)?,
        8 => try_read(rt, Reader::Frames, text, present)?,
        9 => try_write(rt, present)?,
        10 => {
            let vertices = text.number()?;
            try_read(rt, Reader::Index { vertices }, text, present)?;
        }
        11 => try_write_index(rt, text.number()?, present)?,
        _ => return Err(Stop::Wrong),
    }
    Ok(())
}
