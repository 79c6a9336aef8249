// Writing frames: each line is put after the one before it.
#![tactic(auto, unfolding(theory::specs::Frames::two_digits, theory::specs::Frames::four_digits, theory::specs::Frames::line, theory::specs::Frames::mesh_line, theory::specs::Frames::triangle_line, theory::specs::Frames::triangle_lines, theory::specs::Frames::frames))]

ghost use Rattle.std.specs.Prelude.{◌≡◌, ◌+◌, ◌*◌, ◌≤◌, length};
ghost use Rattle.theory.specs.Calls.{written};
ghost use Rattle.theory.specs.Mesh.{triangles};
ghost use Rattle.theory.specs.Frames.{mesh_line, triangle_line, frames};
ghost use Rattle.frames_write.specs.Putting.{Room, Put, TriangleLent};

use super::puts::Writer;
use lists::at;

// The first frame: 4D and the counts of the mesh.
fn put_mesh(out: &mut Writer, vertices: usize, triangles: usize)
    requires { Room (mesh_line vertices triangles) out.old }
    ensures { Put (mesh_line vertices triangles) out.old out.new }
{
    out.put_two(0x4D);
    out.put_four(vertices);
    out.put_four(triangles);
    out.put_byte(b'\n');
}

// The frame of triangle k: 46 and its corners.
fn put_triangle(out: &mut Writer, list: &[u16], k: usize)
    requires { TriangleLent k list.now out.old }
    ensures { Put (triangle_line list.now k) out.old out.new }
{
    out.put_two(0x46);
    out.put_four(at(list, 3 * k));
    out.put_four(at(list, 3 * k + 1));
    out.put_four(at(list, 3 * k + 2));
    out.put_byte(b'\n');
}

// The frames of a mesh.
pub fn put_frames(out: &mut Writer, vertices: usize, list: &[u16])
    requires { Room (frames vertices list.now) out.old }
    ensures { Put (frames vertices list.now) out.old out.new }
{
    let triangles = list.len() / 3;
    put_mesh(out, vertices, triangles);
    for k in 0..triangles {
        put_triangle(out, list, k);
    }
}

// Writes the frames of a mesh to the front of `out`.
pub fn write(vertices: usize, list: &[u16], out: &mut [u8])
    requires { 11 + 15 * triangles list.now ≤ length out.old }
    ensures { out.new ≡ written (frames vertices list.now) out.old }
{
    let mut writer = Writer::new(out);
    put_frames(&mut writer, vertices, list);
}
