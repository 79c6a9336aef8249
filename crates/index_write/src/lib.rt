// Index lists written as the text of a VRML97 coordIndex. Its length is counted before the first byte is written. It
// goes twice over the list, and assumes nothing.
#![tactic(auto)]

pub mod call;
pub mod digits;
pub mod faces;
pub mod length;
