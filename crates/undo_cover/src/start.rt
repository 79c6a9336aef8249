// Where the search for a role starts.
ghost use Rattle.std.specs.Prelude.{ℕ, ◌≡◌, ◌+◌, ◌*◌, ◌<◌, ◌≤◌, length, unwrap_or, IfSome};
ghost use Rattle.undo_cover.specs.Starts.{StartLent, start_of, tile_of};

use lists::at;
use mesh_mates::has_mate;

// The start tile of a role of triangle `first`: that triangle, or the one across the side opposite its corner, if that
// is a tile.
pub fn start(
    first: usize,
    role: usize,
    triangles: usize,
    other: &[u16],
    rows: &[u16],
) -> Option<usize>
    requires { StartLent first triangles other.now rows.now }
    ensures number { unwrap_or result triangles ≡ start_of first role triangles other.now rows.now }
    ensures within { IfSome result (λ s. s < triangles) }
{
    if role == 0 {
        return tile(first, rows);
    }
    let side = 3 * first + role % 3;
    if !has_mate(side, 3 * triangles, other) {
        return None;
    }
    tile(at(other, side) / 3, rows)
}

// Triangle k, if it is a tile.
fn tile(k: usize, rows: &[u16]) -> Option<usize>
    requires { 3 * k + 3 ≤ length rows.now }
    ensures number { (F : ℕ) → unwrap_or result F ≡ tile_of F rows.now k }
    ensures same { IfSome result (λ s. s ≡ k) }
{
    if rows[3 * k] == rows[3 * k + 1] {
        return None;
    }
    Some(k)
}
