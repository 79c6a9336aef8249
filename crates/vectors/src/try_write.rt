// The calls that write bytes: write frames and write index. Each prints the answer and all that was lent, where a byte
// that is as it was lent shows as one that the call never writes there.
use crate::buffers::at_most;
use crate::present::Present;
use flatcarol::call_frames::flatcarol_write_frames;
use flatcarol::call_index::flatcarol_write_index;
use std::io;

// The bytes of the frames of 16,385 triangles, and 8 to spare.
const FRAMES: usize = 245794;

// The most bytes of the index text of 16,384 triangles, and 8 to spare.
const TEXT: usize = 344072;

// Writes the frames of the present mesh.
pub fn try_write<R: Print>(rt: &R, present: &Present) -> io::Result<()> {
    let out = &mut [b'-'; FRAMES][..present.lent.room(1, present.write_need(), FRAMES)];
    let answer = flatcarol_write_frames(present.vertices, present.list(), out);
    println!(rt;
        "write {} {} {} {}",
        answer.refusal, answer.place, answer.vertices, answer.triangles,
    )?;
    print_bytes(rt, out)
}

// Writes the index text of the present mesh, with so many bytes lent.
pub fn try_write_index<R: Print>(rt: &R, room: u64, present: &Present) -> io::Result<()> {
    let out = &mut [b'.'; TEXT][..at_most(room, TEXT)];
    let answer = flatcarol_write_index(present.vertices, present.list(), out);
    println!(rt;
        "write-index {} {} {} {} {}",
        answer.refusal, answer.place, answer.vertices, answer.triangles, answer.bytes,
    )?;
    print_bytes(rt, out)
}

// Prints bytes as they are on a line.
fn print_bytes<R: Print>(rt: &R, bytes: &[u8]) -> io::Result<()> {
    rt.write_all(bytes)?;
    rt.write_all(b"\n")
}
