// The stages of one role, without a loop of their own: the tiles that are reached from the role's start, the coarse
// mesh that they make, the maps, and the comparison. Each calls the crates below on the tables that the stages before
// it made; `undo_role` calls the stages. Every table stands at the front of a slice that the caller lends, which may be
// longer: a count beside it says how long it is. The tables are parameters and no struct, of which Rattle lends no two
// `&mut` fields to one call. It takes time linear in vertices and triangles, and assumes nothing.
#![tactic(auto)]

ghost use Rattle.undo_cover.specs.Starts.{start_of};
ghost use Rattle.undo_stages.specs.Role.{FindLent, TilesFound, NumberTilesLent, CoarseNumbered};
ghost use Rattle.undo_stages.specs.Maps.{VerticesLent, VerticesMapped, TrianglesLent, TrianglesMapped};
ghost use Rattle.undo_stages.specs.Maps.{AllLent, AllCompared};

use lists::{Indices, fill, gather, holds, ranks, scatter};
use mesh_faults::mark_used;
use mesh_reach::reach;
use mesh_rings::mesh::Mesh;
use split::{number_edges, write_fours};
use undo_compare::{Mismatch, compare};
use undo_cover::cover::Covering;
use undo_cover::start::start;
use undo_match::claims::claims;
use undo_match::select::{select, selected_ring};

// Marks the tiles that are reached from the start of a role of triangle `first`, and puts their rows one after the
// other into `kept`. Answers how many they are, or nothing where the role has no start or they are not a quarter of
// the triangles.
pub fn find_tiles(
    first: usize,
    role: usize,
    triangles: usize,
    cover: Covering<'_>,
    marks: &mut [u16],
    kept: &mut [u16],
    queue: &mut [u16],
    opened: &mut [u16],
) -> Option<usize>
    requires { FindLent first triangles cover.other.now cover.rows.now cover.ring.now
        marks.old kept.old queue.old opened.old }
    ensures { TilesFound (start_of first role triangles cover.entry.other.now cover.entry.rows.now)
        triangles cover.entry.rows.now cover.entry.ring.now marks.new kept.new result }
{
    let tile = start(first, role, triangles, cover.other, cover.rows)?;
    reach(tile, triangles, cover.ring, marks, queue, opened);
    let count = select(triangles, cover.rows, marks, kept);
    if 4 * count != triangles {
        return None;
    }
    Some(count)
}

// Numbers the vertices of the reached rows, which are `kept`, and the edges of the coarse mesh that the rows make: the
// coarse mesh goes to `coarse` and the numbers on its half-edges to `numbers`. Answers how many vertices it has, or
// nothing where vertices and edges do not add up to the input's.
pub fn number_tiles(
    vertices: usize,
    triangles: usize,
    count: usize,
    ring: &[u16],
    marks: &[u16],
    kept: &[u16],
    coarse: &mut [u16],
    numbers: &mut [u16],
    rank: &mut [u16],
    table: &mut [u16],
) -> Option<usize>
    requires { NumberTilesLent vertices triangles count ring.now marks.now kept.now coarse.old
        numbers.old rank.old table.old }
    ensures { CoarseNumbered vertices triangles count ring.now marks.now
        kept.now coarse.new numbers.new result }
{
    let halves = 3 * count;
    fill(table, vertices, 0);
    let tiles = Mesh {
        vertices,
        triangles: count,
        list: &kept[..halves],
    };
    mark_used(tiles, table);
    let kept_count = ranks(table, vertices, rank);
    gather(rank, kept, halves, coarse);
    ranks(marks, triangles, rank);
    selected_ring(triangles, ring, marks, rank, table);
    let edges = number_edges(kept_count, halves, table, numbers);
    if kept_count + edges != vertices {
        return None;
    }
    Some(kept_count)
}

// Gives each vertex its number in the splitting: that of the coarse vertex to the vertices of the rows, and that on
// the half-edge to the corners of the tiles. Answers whether each vertex got one number.
pub fn map_vertices(
    mesh: Mesh<'_>,
    count: usize,
    marks: &[u16],
    kept: &[u16],
    coarse: &[u16],
    numbers: &[u16],
    map: &mut [u16],
    corners: &mut [u16],
) -> bool
    requires { VerticesLent mesh.triangles count mesh.list.now marks.now kept.now coarse.now
        numbers.now map.old corners.old }
    ensures { VerticesMapped mesh.entry.triangles count mesh.entry.list.now marks.now kept.now
        coarse.now numbers.now map.old map.new corners.new result }
{
    let halves = 3 * count;
    select(mesh.triangles, mesh.list, marks, corners);
    scatter(kept, coarse, halves, map);
    scatter(corners, numbers, halves, map);
    if !holds(kept, coarse, halves, map) {
        return false;
    }
    holds(corners, numbers, halves, map)
}

// Gives each triangle its number in the splitting. Answers whether each got one.
pub fn map_triangles(
    triangles: usize,
    other: &[u16],
    marks: &[u16],
    map: &mut [u16],
    claimed: &mut [u16],
) -> bool
    requires { TrianglesLent triangles other.now marks.now map.old claimed.old }
    ensures { TrianglesMapped triangles other.now marks.now map.old
        map.new claimed.new result }
{
    claims(triangles, marks, other, claimed);
    scatter(claimed, Indices, triangles, map);
    holds(claimed, Indices, triangles, map)
}

// Compares every triangle, under the maps, with its triangle of the splitting of the coarse mesh.
pub fn compare_all(
    mesh: Mesh<'_>,
    count: usize,
    coarse: &[u16],
    numbers: &[u16],
    vertices: &[u16],
    faces: &[u16],
    splitting: &mut [u16],
) -> Result<(), Mismatch>
    requires { AllLent mesh.triangles count mesh.list.now coarse.now numbers.now vertices.now
        faces.now splitting.old }
    ensures { AllCompared mesh.entry.triangles count mesh.entry.list.now coarse.now numbers.now
        vertices.now faces.now result }
{
    write_fours(&coarse[..3 * count], count, numbers, splitting);
    compare(
        mesh.triangles,
        mesh.list,
        vertices,
        faces,
        &splitting[..12 * count],
    )
}
