// The program's answer: from the bytes of its input to the bytes of its text, in memory of fixed size. It goes a few
// times over the input and the mesh, and assumes nothing.
#![tactic(auto)]

pub mod print;
pub mod sizes;
pub mod undoing;

ghost use Rattle.theory.specs.Program.{Prints};
ghost use Rattle.program.specs.Answering.{TextLent, Printed, TextRoom, Answered};

use frames_read::call::read_frames;
use frames_write::puts::Writer;
use frames_write::text::put_answer;
use limits::program::judge_bytes;
use limits::refusal::Refusal;
use sizes::Sizes;
use undoing::print_mesh;

// Answers the bytes of an input: prints the text that document 01 gives for them and the role asked, at the front of
// `text`, and says how long it is.
pub fn answer(bytes: &[u8], asked: u64, text: &mut [u8]) -> usize
    requires { TextLent text.old }
    ensures { Printed (Prints bytes.now asked) text.old result text.new }
{
    let mut out = Writer::new(text);
    if let Err(refusal) = print_input(&mut out, bytes, asked) {
        put_answer(
            &mut out,
            refusal.number() as usize,
            0,
            refusal.place() as usize,
        );
    }
    out.place
}

// Prints what an input comes to. A refusal prints nothing: its line is left to the caller.
fn print_input(out: &mut Writer, bytes: &[u8], asked: u64) -> Result<(), Refusal>
    requires { TextRoom out.old }
    ensures { Answered (Prints bytes.now asked) out.old result out.new }
{
    judge_bytes(bytes.len())?;
    let mut list = [0u16; Sizes::CORNERS];
    let size = read_frames(bytes, &mut list)?;
    print_mesh(
        out,
        size.vertices as u64,
        &list[..3 * size.triangles],
        asked,
    )
}
