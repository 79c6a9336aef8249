// Meshes read from frames, lines of hexadecimal digits. Every line is judged before the first corner is written. It goes
// twice over the bytes at most, and assumes nothing.
#![tactic(auto)]

pub mod call;
pub mod digits;
pub mod ends;
pub mod lines;
pub mod numbers;
pub mod reading;
