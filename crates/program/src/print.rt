// The text of an accepted mesh.
ghost use Rattle.theory.specs.Program.{reading_text};
ghost use Rattle.frames_write.specs.Putting.{Room, Put};

use frames_write::puts::Writer;
use frames_write::text::{put_answer, put_map};
use frames_write::writing::put_frames;

// Prints a reading in a role: a coarse mesh of so many vertices, whose corners are `mesh`, and the two maps.
#[tactic(auto, using(std::proofs::lemmas::Grind::common_steps), unfolding(theory::specs::Program::reading_text))]
pub(crate) fn print_reading(
    out: &mut Writer,
    role: usize,
    vertices: usize,
    mesh: &[u16],
    vertex_map: &[u16],
    triangle_map: &[u16],
)
    requires { Room (reading_text role
        (record { vertices = vertices; mesh = mesh.now; vertex_map = vertex_map.now; triangle_map = triangle_map.now }))
        out.old }
    ensures { Put (reading_text role
        (record { vertices = vertices; mesh = mesh.now; vertex_map = vertex_map.now; triangle_map = triangle_map.now }))
        out.old out.new }
{
    put_answer(out, 0, role, 0);
    put_frames(out, vertices, mesh);
    put_map(out, 0x56, vertex_map);
    put_map(out, 0x54, triangle_map);
}
