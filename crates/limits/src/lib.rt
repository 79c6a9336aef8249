// The sizes that the documents name, the refusals with their numbers, and those that are judged from numbers alone: 1 to 4, 13, and 5 of writing
// frames and of reading an index text. Each number stands once in the definitions and once in the code, and the contracts here tie the two together.
// It rests on the definitions alone, takes the same few steps whatever it is given, and assumes nothing.
#![tactic(auto)]

pub mod limits;
pub mod program;
pub mod refusal;
pub mod size;
