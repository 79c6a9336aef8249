// From marked tiles to the maps of a reading: the marked triangles of a list, and the claims for the triangles of the
// splitting. Each writes a run of entries for each marked triangle, by one loop over the triangles. Every table stands
// at the front of a slice that the caller lends, which may be longer: a count beside it says how long it is. The tables
// are no struct: what one function writes the next one reads. It takes time linear in the triangles, and assumes nothing.
#![tactic(auto)]

pub mod claims;
mod marked;
pub mod select;
