// The covering mesh of an undo: tiles and their rows, with the rings of their edges, and the start tile of a role.
// Every table stands at the front of a slice that the caller lends, which may be longer: a count beside it says how
// long it is. It takes time linear in vertices and triangles, and assumes nothing.
#![tactic(auto)]

pub mod cover;
pub mod start;
pub mod tiles;
