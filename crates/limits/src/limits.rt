// The sizes that documents 01 and 02 name: nowhere else in the code stands one of these numbers.

#[derive(Drop)]
pub struct Limits {}

impl Limits {
    // The most triangles of a mesh.
    pub const TRIANGLES: u64 = 16_384;
    // The most triangles of a mesh that is split.
    pub const SPLIT_TRIANGLES: u64 = 4_096;
    // The most vertices of a mesh.
    pub const VERTICES: u64 = 32_767;
    // The most levels that are undone in one call.
    pub const LEVELS: u64 = 7;
    // The places for their roles in an answer.
    pub const PLACES: usize = Limits::LEVELS as usize;
    // What undo one is asked where any role will do: the most that it may be asked.
    pub const ANY_ROLE: u64 = 4;
    // What the program has room for, and the most bytes that it reads.
    pub const PROGRAM_TRIANGLES: u64 = 1_024;

    pub const PROGRAM_VERTICES: u64 = 1_026;

    pub const PROGRAM_BYTES: u64 = 16_396;
    // The largest corner that an index text may name.
    pub const CORNER: u64 = 65_535;
}
