// What is counted of a mesh.
ghost use Rattle.std.specs.Prelude.{◌≡◌, ◌≤◌};
ghost use Rattle.answers.specs.Counts.{SplitCountsLent, split_counts, coarse_counts};

#[derive(Clone, Copy)]
pub struct Counts {
    pub vertices: usize,
    pub triangles: usize,
    pub edges: usize,
    pub boundary: usize,
}

// How many vertices and triangles a mesh has.
#[derive(Clone, Copy)]
pub struct Size {
    pub vertices: usize,
    pub triangles: usize,
}

// What write index wrote: a mesh of such a size, in so many bytes.
#[derive(Clone, Copy)]
pub struct Text {
    pub size: Size,
    pub bytes: usize,
}

// What is counted of the splitting of a mesh with so many of each: a vertex on each edge, two halves of it, and three
// edges more within each triangle.
pub fn split_counts(counts: Counts) -> Counts
    requires { SplitCountsLent counts }
    ensures { result ≡ split_counts counts }
{
    Counts {
        vertices: counts.vertices + counts.edges,
        triangles: 4 * counts.triangles,
        edges: 2 * counts.edges + 3 * counts.triangles,
        boundary: 2 * counts.boundary,
    }
}

// What is counted of the coarse mesh of a reading, which has so many kept vertices and centres, by the vertices and the
// boundary edges of the input: each vertex that is not kept stands on an edge of its own, and each boundary edge became
// two.
pub fn coarse_counts(vertices: usize, boundary: usize, kept: usize, centres: usize) -> Counts
    requires { kept ≤ vertices }
    ensures { result ≡ coarse_counts vertices boundary kept centres }
{
    Counts {
        vertices: kept,
        triangles: centres,
        edges: vertices - kept,
        boundary: boundary / 2,
    }
}
