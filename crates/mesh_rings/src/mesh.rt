// A mesh: its triangles, three corners each, in a list, and how many vertices and triangles it has. That the list is no
// longer is no invariant, but a clause where it is needed: `greater_ends` and `third_vertices` ask for less.
#[derive(Clone, Copy)]
pub struct Mesh<'a> {
    pub vertices: usize,
    pub triangles: usize,
    pub list: &'a [u16],
}
