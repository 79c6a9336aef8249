// The runs of an index text: where the next one starts, and what it says. A place in the text is the number of a byte, as
// refusal 14 names it, and not the rest of the text as a slice.
ghost use Rattle.std.specs.Prelude.{◌≤◌, ◌<◌, ◌+◌, drop, length, not, ◌≡◌};
ghost use Rattle.std.specs.List.{prefix_len, position_or_len};
ghost use Rattle.theory.specs.Index.{separator, line_end, is_minus_one};
ghost use Rattle.index_read.specs.Runs.{goes_on, comment_at, close_at, stretch, NextRun, RunLent, NumberLent, RunTaken};

use super::bytes::{ends_comment, ends_run, is_separator};
use limits::limits::Limits;

// What a run says that is right: a corner, or that a face ends.
#[derive(Clone, Copy)]
pub enum Run {
    Corner(u16),
    Close,
}

// The first place from `from` on where no separator stands, or the text's length.
fn after_separators(text: &[u8], from: usize) -> usize
    requires { from ≤ length text.now }
    ensures { result ≡ from + prefix_len separator (drop from text.now) }
{
    for at in from..text.len() {
        if !is_separator(text[at]) {
            return at;
        }
    }
    text.len()
}

// The first place from `from` on where a CR or LF stands, or the text's length: a comment ends there. This
// and the last are loops, since a chain over the rest of the text was slower; one loop with the test as a closure is no
// plainer.
fn after_comment(text: &[u8], from: usize) -> usize
    requires { from ≤ length text.now }
    ensures { result ≡ from + position_or_len line_end (drop from text.now) }
{
    for at in from..text.len() {
        if ends_comment(text[at]) {
            return at;
        }
    }
    text.len()
}

// Whether a comment starts at a place.
#[tactic(auto, unfolding(crate::specs::Runs::comment_at, theory::specs::Index::comment_start))]
fn comment_at(text: &[u8], at: usize) -> bool
    ensures { result ≡ comment_at text.now at }
{
    text.get(at) == Some(&b'#')
}

// The first place from `from` on where a run starts, or the text's length. `from` is in no comment.
pub(crate) fn next_run(text: &[u8], from: usize) -> usize
    requires { from ≤ length text.now }
    ensures { NextRun text.now from result }
{
    let mut at = after_separators(text, from);
    while comment_at(text, at) {
        at = after_separators(text, after_comment(text, at + 1));
    }
    at
}

// Whether the run before a place goes on there.
#[tactic(auto, unfolding(crate::specs::Runs::goes_on))]
fn goes_on(text: &[u8], at: usize) -> bool
    ensures { result ≡ goes_on text.now at }
{
    text.get(at).is_some_and(|byte| !ends_run(*byte))
}

// Whether the run that starts at a place is -1.
#[tactic(auto, unfolding(crate::specs::Runs::close_at))]
fn close_at(text: &[u8], from: usize) -> bool
    requires { from < length text.now }
    ensures { result ≡ close_at text.now from }
{
    text[from] == b'-' && text.get(from + 1) == Some(&b'1') && !goes_on(text, from + 2)
}

// What another run that starts at a place says, and where it ends: it is right only as a number. Once the value of its
// digits is too large it stays so, whatever follows. (std's parsing wants to be told where the number ends, and takes a
// sign.)
fn take_number(text: &[u8], from: usize) -> Option<(Run, usize)>
    requires { NumberLent text.now from }
    ensures { RunTaken text.now from result }
{
    let mut value = 0;
    for at in from..text.len() {
        let byte = text[at];
        if !byte.is_ascii_digit() {
            return ends_run(byte).then_some((Run::Corner(value as u16), at));
        }
        value = 10 * value + u64::from(byte - b'0');
        if Limits::CORNER < value {
            return None;
        }
    }
    Some((Run::Corner(value as u16), text.len()))
}

// What the run that starts at a place says, and where it ends, if it is right.
pub(crate) fn take_run(text: &[u8], from: usize) -> Option<(Run, usize)>
    requires { RunLent text.now from }
    ensures { RunTaken text.now from result }
{
    if close_at(text, from) {
        return Some((Run::Close, from + 2));
    }
    take_number(text, from)
}
