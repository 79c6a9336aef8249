// Tables with an entry for each half-edge of an index list: third vertices and the rings of the edges. Half-edge h runs
// from corner h to the next corner of its triangle. The ring of an edge leads from each half-edge on it to the next
// one, and from the last to the first. Every table stands at the front of a slice that the caller lends, which may be
// longer: a count beside it says how long it is. It rests on the loops of `lists`, takes time linear in vertices and
// triangles, whatever the mesh, and assumes nothing.
#![tactic(auto)]

pub mod ends;
pub mod mesh;
pub mod ring;
