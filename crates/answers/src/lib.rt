// What the calls answer, and the small steps by which they come to it: what is counted of a mesh, of its splitting and
// of its coarse mesh; a reading that is taken or not; levels that are counted. It copies what it writes, once, and
// assumes nothing.
#![tactic(auto)]

pub mod answers;
pub mod counts;
pub mod levels;
pub mod taken;
