// Flatcarol's public calls, and nothing else. Each takes every input: it judges sizes and room (`calls_sizes`), does
// its work (`calls_split` and the like), and clears its work buffers (`calls_work`). A refusal writes no output buffer.
// Buffers must not overlap. Assumes nothing.
#![tactic(auto)]

pub mod call_frames;
pub mod call_index;
pub mod call_split;
pub mod call_undo_one;
pub mod call_undo_several;
