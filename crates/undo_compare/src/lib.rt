// The comparison of every input triangle, under the maps, with its triangle of the splitting: up to rotation of
// corners, and by its vertices. Every table stands at the front of a slice that the caller lends, which may be longer:
// a count beside it says how long it is. It takes time linear in the triangles, and assumes nothing.
#![tactic(auto)]

ghost use Rattle.theory.specs.Reading.{renamed};
ghost use Rattle.lists.specs.Decides.{Decides};
ghost use Rattle.undo_compare.specs.Compared.{CompareLent, Compared, OneLent, ComparedOne};
ghost use Rattle.undo_compare.specs.Compared.{Apart, ComparedThree, RotatedThree, Follows, SameThree};

use lists::at;

// Why the triangles of a list are not, each, a rotation of their own of the splitting under the maps: each has the
// vertices of its own, and the one named is the least that is no rotation; or one has other vertices. (It is not the
// `NoReading` of `answers`, which this crate stands beside: there a role has none for other reasons too.)
#[derive(Clone, Copy, PartialEq, Eq)]
pub enum Mismatch {
    InsideOut { triangle: usize },
    Differ,
}

// How one triangle compares with another: a rotation of it, the same vertices in the other turning, or other vertices.
#[derive(Clone, Copy, PartialEq, Eq)]
enum Turning {
    Rotated,
    Reversed,
    Other,
}

// Compares each of the triangles, under the vertex map `vertices`, with its triangle of `splitting`, which the triangle
// map `faces` names. It stops at the first that has other vertices.
pub fn compare(
    triangles: usize,
    list: &[u16],
    vertices: &[u16],
    faces: &[u16],
    splitting: &[u16],
) -> Result<(), Mismatch>
    requires { CompareLent triangles list.now vertices.now faces.now splitting.now }
    ensures { Compared triangles list.now vertices.now faces.now
        splitting.now result }
{
    let mut turned = None;
    for k in 0..triangles {
        match compare_one(k, list, vertices, at(faces, k), splitting) {
            Turning::Rotated => {}
            Turning::Reversed => turned = turned.or(Some(k)),
            Turning::Other => return Err(Mismatch::Differ),
        }
    }
    match turned {
        Some(triangle) => Err(Mismatch::InsideOut { triangle }),
        None => Ok(()),
    }
}

// Compares triangle k, under the vertex map `vertices`, with triangle t of `splitting`.
fn compare_one(k: usize, list: &[u16], vertices: &[u16], t: usize, splitting: &[u16]) -> Turning
    requires { OneLent k list.now vertices.now t splitting.now }
    ensures { ComparedOne (renamed vertices.now list.now) k
        splitting.now t result }
{
    let a = vertices[at(list, 3 * k)];
    let b = vertices[at(list, 3 * k + 1)];
    let c = vertices[at(list, 3 * k + 2)];
    compare_three(
        a,
        b,
        c,
        splitting[3 * t],
        splitting[3 * t + 1],
        splitting[3 * t + 2],
    )
}

// Compares three vertices with three others, which are different. They are six numbers here and below and no arrays, as
// the library's calls have no array on the stack but few that are named (`.ci/parts/c`).
fn compare_three(a: u16, b: u16, c: u16, x: u16, y: u16, z: u16) -> Turning
    requires { Apart x y z }
    ensures { ComparedThree a b c x y z result }
{
    if rotated(a, b, c, x, y, z) {
        return Turning::Rotated;
    }
    if same_vertices(a, b, c, x, y, z) {
        return Turning::Reversed;
    }
    Turning::Other
}

// Whether a, b, c are x, y, z rotated, which are different: each is followed by what follows it there. Which of the three
// rotations they are decides no branch, as in a shuffled mesh it could not be foreseen.
fn rotated(a: u16, b: u16, c: u16, x: u16, y: u16, z: u16) -> bool
    requires { Apart x y z }
    ensures { Decides (RotatedThree a b c x y z) result }
{
    let second = follower(a, x, y, z);
    if b != second {
        return false;
    }
    let third = follower(b, x, y, z);
    if c != third {
        return false;
    }
    a == follower(c, x, y, z)
}

// The vertex that follows v in the round x, y, z, or x where v is none of them.
fn follower(v: u16, x: u16, y: u16, z: u16) -> u16
    ensures { Follows v x y z result }
{
    if v == x {
        return y;
    }
    if v == y {
        return z;
    }
    x
}

// Whether a, b, c are the vertices x, y, z, which are different: these rotated, as they stand or with two swapped.
fn same_vertices(a: u16, b: u16, c: u16, x: u16, y: u16, z: u16) -> bool
    requires { Apart x y z }
    ensures { Decides (SameThree a b c x y z) result }
{
    if rotated(a, b, c, x, y, z) {
        return true;
    }
    rotated(a, c, b, x, y, z)
}
