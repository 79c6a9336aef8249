// Index lists read from the text of a VRML97 coordIndex. Every run is judged before the first corner is written. It
// goes twice over the bytes at most, and assumes nothing.
#![tactic(auto)]

pub mod bytes;
pub mod call;
pub mod corners;
pub mod faces;
pub mod runs;
