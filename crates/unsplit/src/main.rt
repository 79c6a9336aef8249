// The program: undoes one split of the mesh whose frames stand on standard input, in the least role that has a
// reading, and writes the answer to standard output as text. All that it decides of a mesh is in the crate `program`.
// Where standard input cannot be read it answers nothing; that, and an answer that cannot be written, it says on
// standard error, since a program here has no exit status of its own to give.
#![tactic(auto)]

mod input;

use input::read_input;
use limits::limits::Limits;
use program::answer;
use program::sizes::Sizes;
use std::io::Write;

fn main(rt: HostRuntime) {
    let mut bytes = [0u8; Sizes::INPUT];
    let mut text = [0u8; Sizes::TEXT];
    let Ok(count) = read_input(&mut rt.stdin(), &mut bytes) else {
        // Where this cannot be written either, there is nobody left to tell.
        let _ = eprintln!(rt; "unsplit: standard input cannot be read");
        return;
    };
    let long = answer(&bytes[..count], Limits::ANY_ROLE, &mut text);
    if rt.stdout().write_all(&text[..long]).is_err() {
        let _ = eprintln!(rt; "unsplit: the answer cannot be written to standard output");
    }
}
