// Faces put into a buffer, each after the one before it.
#![tactic(auto, unfolding(theory::specs::Index::gap, theory::specs::Index::face_text, theory::specs::Index::faces_text, theory::specs::Index::index_text))]

ghost use Rattle.std.specs.Prelude.{◌≡◌, ◌≤◌, length};
ghost use Rattle.theory.specs.Calls.{written};
ghost use Rattle.theory.specs.Index.{gap, face_text, index_text};
ghost use Rattle.frames_write.specs.Putting.{Room, Put};
ghost use Rattle.index_write.specs.Writing.{FaceLent};

use super::digits::put_corner;
use frames_write::puts::Writer;
use lists::at;

// Puts the blank before face k, which the first one has not.
fn put_gap(out: &mut Writer, k: usize)
    requires { Room (gap k) out.old }
    ensures { Put (gap k) out.old out.new }
{
    if k > 0 {
        out.put_byte(b' ');
    }
}

// Puts face k, with the -1 that closes it.
fn put_face(out: &mut Writer, list: &[u16], k: usize)
    requires { FaceLent k list.now out.old }
    ensures { Put (face_text list.now k) out.old out.new }
{
    put_gap(out, k);
    put_corner(out, at(list, 3 * k));
    put_corner(out, at(list, 3 * k + 1));
    put_corner(out, at(list, 3 * k + 2));
    out.put_byte(b'-');
    out.put_byte(b'1');
}

// Writes the text of the faces to the front of `out`.
pub(crate) fn write_faces(out: &mut [u8], list: &[u16])
    requires { length (index_text list.now) ≤ length out.old }
    ensures { out.new ≡ written (index_text list.now) out.old }
{
    let mut writer = Writer::new(out);
    for k in 0..list.len() / 3 {
        put_face(&mut writer, list, k);
    }
}
