// The lines of the program's answer that are not frames of a mesh: the answer itself, and the maps.
#![tactic(auto, unfolding(theory::specs::Frames::two_digits, theory::specs::Frames::four_digits, theory::specs::Frames::line, theory::specs::Program::answer_line, theory::specs::Program::map_lines))]

ghost use Rattle.theory.specs.Frames.{four_digits, line};
ghost use Rattle.theory.specs.Program.{answer_line, map_lines};
ghost use Rattle.frames_write.specs.Putting.{Room, Put};

use super::puts::Writer;
use lists::at;

// The answer: 41, the refusal's number, the role and the refusal's place.
pub fn put_answer(out: &mut Writer, number: usize, role: usize, fault: usize)
    requires { Room (answer_line number role fault) out.old }
    ensures { Put (answer_line number role fault) out.old out.new }
{
    out.put_two(0x41);
    out.put_two(number);
    out.put_two(role);
    out.put_four(fault);
    out.put_byte(b'\n');
}

// The frame of one entry of a map: its kind and the entry.
fn put_entry(out: &mut Writer, kind: usize, entry: usize)
    requires { Room (line kind (four_digits entry)) out.old }
    ensures { Put (line kind (four_digits entry)) out.old out.new }
{
    out.put_two(kind);
    out.put_four(entry);
    out.put_byte(b'\n');
}

// The frames of a map's entries, in order.
pub fn put_map(out: &mut Writer, kind: usize, entries: &[u16])
    requires { Room (map_lines kind entries.now) out.old }
    ensures { Put (map_lines kind entries.now) out.old out.new }
{
    // By its index, since the edit map_lines_exchanged takes the entry at another one.
    for k in 0..entries.len() {
        put_entry(out, kind, at(entries, k));
    }
}
