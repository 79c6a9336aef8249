// How many entries the program's arrays have.
use limits::limits::Limits;

#[derive(Drop)]
pub struct Sizes {}

impl Sizes {
    // The input: one byte more than is allowed, so that 13 is seen.
    pub const INPUT: usize = Limits::PROGRAM_BYTES as usize + 1;
    // The vertex map, and the triangle map.
    pub const VERTICES: usize = Limits::PROGRAM_VERTICES as usize;

    pub const TRIANGLES: usize = Limits::PROGRAM_TRIANGLES as usize;
    // The corners of the input's triangles, and those of the coarse ones.
    pub const CORNERS: usize = 3 * Sizes::TRIANGLES;

    pub const COARSE_CORNERS: usize = 3 * (Sizes::TRIANGLES / 4);
    // Each work buffer.
    pub const WORK: usize = Sizes::VERTICES + Sizes::CORNERS;
    // The longest text: the answer, the coarse mesh's frames, and both maps.
    pub const TEXT: usize = 11
        + (11 + 15 * (Sizes::TRIANGLES / 4))
        + 7 * Sizes::VERTICES
        + 7 * Sizes::TRIANGLES;
}
