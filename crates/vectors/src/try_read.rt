// The calls that read bytes: read frames and read index.
use crate::Stop;
use crate::buffers::{LONG, NOISE, at_most};
use crate::present::Present;
use crate::print::print_mesh;
use crate::text::Text;
use flatcarol::call_frames::flatcarol_read_frames;
use flatcarol::call_index::flatcarol_read_index;

// What the bytes are read as: frames, or the index text of a mesh of so many vertices.
#[derive(Clone, Copy)]
pub enum Reader {
    Frames,
    Index { vertices: u64 },
}

// Reads the bytes that stand next in the text, and prints the answer. If it is accepted, the result takes the place of
// the present mesh. How many entries are lent comes first, then how many bytes they are, a byte between, which is a
// blank or a line feed, and then they.
pub fn try_read<R: Print>(
    rt: &R,
    reader: Reader,
    text: &mut Text,
    present: &mut Present,
) -> Result<(), Stop> {
    let room = at_most(text.number()?, LONG);
    let count = text.number()?;
    let bytes = text.bytes(count)?;
    let out = &mut [NOISE; LONG][..room];
    let (name, answer) = match reader {
        Reader::Frames => ("read", flatcarol_read_frames(bytes, out)),
        Reader::Index { vertices } => {
            let answer = flatcarol_read_index(vertices, bytes, out);
            ("read-index", answer)
        }
    };
    println!(rt;
        "{name} {} {} {} {}",
        answer.refusal, answer.place, answer.vertices, answer.triangles,
    )?;
    if let Some(list) = print_mesh(rt, out, answer.refusal, answer.triangles)? {
        present.keep(answer.vertices, list);
    }
    Ok(())
}
