// How long the text of an index list is, counted before anything is written.
#![tactic(auto, unfolding(theory::specs::Index::faces_text, theory::specs::Index::index_text))]

ghost use Rattle.std.specs.Prelude.{◌≡◌, ◌≤◌, length};
ghost use Rattle.theory.specs.Limits.{most_triangles};
ghost use Rattle.theory.specs.Mesh.{triangles};
ghost use Rattle.theory.specs.Index.{face_text, index_text};
ghost use Rattle.index_write.specs.Writing.{Listed};

use super::digits::digits_needed;
use lists::at;

// The bytes of face k: its digits, a blank after each corner, -1, and the blank before it, which the first one has not.
fn face_length(list: &[u16], k: usize) -> usize
    requires { Listed k list.now }
    ensures { result ≡ length (face_text list.now k) }
{
    let first = digits_needed(at(list, 3 * k));
    let second = digits_needed(at(list, 3 * k + 1));
    let third = digits_needed(at(list, 3 * k + 2));
    usize::from(k > 0) + first + second + third + 5
}

// The bytes of the faces.
pub(crate) fn text_length(list: &[u16]) -> usize
    requires { triangles list.now ≤ most_triangles }
    ensures { result ≡ length (index_text list.now) }
{
    let mut bytes = 0;
    for k in 0..list.len() / 3 {
        bytes += face_length(list, k);
    }
    bytes
}
