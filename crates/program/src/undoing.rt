// The answer to a mesh that has been read: undo one, and what is printed of it.
ghost use Rattle.theory.specs.Program.{PrintsMesh};
ghost use Rattle.program.specs.Answering.{TextRoom, Answered};

use super::print::print_reading;
use super::sizes::Sizes;
use calls_sizes::judge_undo_one_size;
use calls_undo_one::undo_mesh;
use frames_write::puts::Writer;
use limits::refusal::Refusal;

// Undoes one split of a mesh in the role asked, and prints the reading; a refusal prints nothing. The arrays are its own,
// and nobody sees what is left in them.
pub(crate) fn print_mesh(
    out: &mut Writer,
    vertices: u64,
    list: &[u16],
    asked: u64,
) -> Result<(), Refusal>
    requires { TextRoom out.old }
    ensures { Answered (PrintsMesh vertices list.now asked) out.old result out.new }
{
    let mut mesh = [0u16; Sizes::COARSE_CORNERS];
    let mut vertex_map = [0u16; Sizes::VERTICES];
    let mut triangle_map = [0u16; Sizes::TRIANGLES];
    let mut other = [0u16; Sizes::WORK];
    let mut rows = [0u16; Sizes::WORK];
    let mut ring = [0u16; Sizes::WORK];
    let mut marks = [0u16; Sizes::WORK];
    let mut coarse = [0u16; Sizes::WORK];
    let mut numbers = [0u16; Sizes::WORK];
    let mut map = [0u16; Sizes::WORK];
    let mut faces = [0u16; Sizes::WORK];
    let mut table = [0u16; Sizes::WORK];
    let sized = judge_undo_one_size(
        vertices,
        list.len(),
        asked,
        Sizes::COARSE_CORNERS,
        Sizes::VERTICES,
        Sizes::TRIANGLES,
        Sizes::WORK,
    );
    let undone = undo_mesh(
        sized,
        vertices,
        list,
        asked,
        &mut mesh,
        &mut vertex_map,
        &mut triangle_map,
        &mut other,
        &mut rows,
        &mut ring,
        &mut marks,
        &mut coarse,
        &mut numbers,
        &mut map,
        &mut faces,
        &mut table,
    )?;
    print_reading(
        out,
        undone.role,
        undone.counts.vertices,
        &mesh[..3 * undone.counts.triangles],
        &vertex_map[..vertices as usize],
        &triangle_map[..list.len() / 3],
    );
    Ok(())
}
