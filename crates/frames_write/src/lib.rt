// Meshes written as frames, lines of hexadecimal digits, and the lines of the program's answer. It goes once over what it
// writes, and assumes nothing.
#![tactic(auto)]

pub mod call;
pub mod digits;
pub mod puts;
pub mod text;
pub mod writing;
