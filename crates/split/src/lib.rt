// The splitting of a mesh: the numbers of the edge vertices in order of first appearance, and the four triangles that
// each triangle becomes. Both go once over the half-edges. Every table stands at the front of a slice that the caller
// lends, which may be longer: a count beside it says how long it is. Assumes nothing.
#![tactic(auto)]

ghost use Rattle.std.specs.Prelude.{◌≡◌, ℕ, ◌+◌, ◌*◌};
ghost use Rattle.std.proofs.lemmas.List.Edits.{sets};
ghost use Rattle.theory.specs.Splitting.{edge_no, split};
ghost use Rattle.theory.specs.Calls.{written};
ghost use Rattle.lists.specs.Tables.{Tabulated};
ghost use Rattle.split.specs.Numbers.{NumberLent, Numbered, UnnumberedLent, OneLent, OneNumbered};
ghost use Rattle.split.specs.Fours.{FoursLent, FourLent, four_of};

use lists::{at, fill, write_three};
use mesh_rings::ring::chosen;

// Gives each half-edge the number of the vertex on its edge, from `vertices` up in order of first appearance, where
// `ring` has the rings of the edges. Answers how many edges there are.
pub fn number_edges(vertices: usize, halves: usize, ring: &[u16], numbers: &mut [u16]) -> usize
    requires { NumberLent vertices halves ring.now numbers.old }
    ensures { Numbered vertices halves ring.now result numbers.new }
{
    fill(numbers, halves, (vertices + halves) as u16);
    number_all(vertices, halves, ring, numbers)
}

// The same where no half-edge has a number yet, which a number above all that are given says: the table is the
// caller's, 16 bits an entry, which leaves no room for an `Option`.
fn number_all(vertices: usize, halves: usize, ring: &[u16], numbers: &mut [u16]) -> usize
    requires { UnnumberedLent vertices halves ring.now numbers.old }
    ensures { Numbered vertices halves ring.now result numbers.new }
{
    let mut edges = 0;
    for h in 0..halves {
        edges = number(h, at(ring, h), vertices + halves, vertices, edges, numbers);
    }
    edges
}

// Half-edge h keeps the number that it was handed, or gets the next one where it has `none`, and hands it on to the
// next on its ring. Answers how many edges have a number then.
fn number(
    h: usize,
    next: usize,
    none: usize,
    vertices: usize,
    edges: usize,
    numbers: &mut [u16],
) -> usize
    requires { OneLent h next vertices edges numbers.old }
    ensures { OneNumbered h next none vertices edges numbers.old result numbers.new }
{
    let held = at(numbers, h);
    let number = chosen(held, none, vertices + edges, held);
    numbers[h] = number as u16;
    numbers[next] = number as u16;
    chosen(held, none, edges + 1, edges)
}

// Writes the splitting: twelve entries for each triangle, where `numbers` has the number of the vertex on each
// half-edge's edge.
pub fn write_fours(list: &[u16], triangles: usize, numbers: &[u16], out: &mut [u16])
    requires { FoursLent triangles list.now numbers.now out.old }
    ensures { (N : ℕ) → Tabulated (edge_no N list.now) (3 * triangles) numbers.now
        → out.new ≡ written (split N list.now) out.old }
{
    for k in 0..triangles {
        write_four(list, k, numbers, out);
    }
}

// The four triangles of triangle k.
fn write_four(list: &[u16], k: usize, numbers: &[u16], out: &mut [u16])
    requires { FourLent k list.now numbers.now out.old }
    ensures { out.new ≡ sets out.old (12 * k)
        (four_of list.now numbers.now k) }
{
    let v1 = list[3 * k];
    let v2 = list[3 * k + 1];
    let v3 = list[3 * k + 2];
    let e12 = numbers[3 * k];
    let e23 = numbers[3 * k + 1];
    let e31 = numbers[3 * k + 2];
    write_three(out, 4 * k, e12, e23, e31);
    write_three(out, 4 * k + 1, v1, e12, e31);
    write_three(out, 4 * k + 2, v2, e23, e12);
    write_three(out, 4 * k + 3, v3, e31, e23);
}
