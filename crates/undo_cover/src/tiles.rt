// Tiles: triangles with three regular edges and three different vertices across them.
ghost use Rattle.std.specs.Prelude.{◌+◌, ◌*◌, ◌<◌, ◌≤◌, length};
ghost use Rattle.mesh_mates.specs.Others.{HasMate};
ghost use Rattle.lists.specs.Decides.{Decides};
ghost use Rattle.undo_cover.specs.Tiles.{RowsLent, RowsOf, RowLent, RowSet, RowWritten, AllMated};

use lists::{at, write_three};
use mesh_faults::has_equal;
use mesh_mates::has_mate;

// The covering mesh: for each tile the vertices across its edges, at each corner that across the edge which ends
// there, and 0 three times for any other triangle, as the table has 16 bits an entry.
pub fn rows(triangles: usize, other: &[u16], thirds: &[u16], rows: &mut [u16])
    requires { RowsLent triangles other.now thirds.now rows.old }
    ensures { RowsOf triangles other.now thirds.now rows.new }
{
    for k in 0..triangles {
        row(k, triangles, other, thirds, rows);
    }
}

// The row of triangle k.
fn row(k: usize, triangles: usize, other: &[u16], thirds: &[u16], rows: &mut [u16])
    requires { RowLent k triangles other.now thirds.now rows.old }
    ensures { RowSet triangles other.now thirds.now k rows.old
        rows.new }
{
    if !all_mated(k, 3 * triangles, other) {
        return write_three(rows, k, 0, 0, 0);
    }
    let a = thirds[at(other, 3 * k + 2)];
    let b = thirds[at(other, 3 * k)];
    let c = thirds[at(other, 3 * k + 1)];
    write_row(k, a, b, c, rows);
}

// Whether all edges of triangle k have mates.
fn all_mated(k: usize, halves: usize, other: &[u16]) -> bool
    requires { 3 * k + 3 ≤ length other.now }
    ensures { Decides (AllMated halves other.now k) result }
{
    has_mate(3 * k, halves, other)
        && has_mate(3 * k + 1, halves, other)
        && has_mate(3 * k + 2, halves, other)
}

// Writes a row, if its vertices are different, and else 0 three times.
fn write_row(k: usize, a: u16, b: u16, c: u16, rows: &mut [u16])
    requires { 3 * k + 3 ≤ length rows.old }
    ensures { RowWritten k a b c rows.old rows.new }
{
    if has_equal(a, b, c) {
        return write_three(rows, k, 0, 0, 0);
    }
    write_three(rows, k, a, b, c);
}
