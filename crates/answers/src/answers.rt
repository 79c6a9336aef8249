// The answers of the calls, as C takes them: each is made of what its call came to, in two places only, one for refusals
// and one for acceptance. They have no generic form: C wants the fields of each one after the other.
ghost use Rattle.std.specs.Prelude.{◌≡◌};
ghost use Rattle.theory.specs.Calls as promise;
ghost use Rattle.theory.specs.Frames.{frames_refusal, frames_accepted};
ghost use Rattle.theory.specs.Index.{text_refusal, text_accepted};
ghost use Rattle.answers.specs.Counts.{accepted_counts};
ghost use Rattle.answers.specs.Taken.{answer_to_reading};
ghost use Rattle.answers.specs.Levels.{answer_to_levels};
ghost use Rattle.answers.specs.Answers.{answer_of, one_answer_of, several_answer_of, frames_answer_of, text_answer_of};
ghost use Rattle.answers.specs.Said.{said, one_said, several_said, frames_said, text_said};

use super::counts::{Counts, Size, Text};
use super::levels::Levels;
use super::taken::Undone;
use limits::limits::Limits;
use limits::refusal::Refusal;

// What split answers: the refusal's number and place, or 0, 0 and what is counted of the resulting mesh.
#[repr(C)]
#[derive(Clone, Copy)]
pub struct Answer {
    pub refusal: u64,
    pub place: u64,
    pub vertices: u64,
    pub triangles: u64,
    pub edges: u64,
    pub boundary_edges: u64,
}

impl Answer {
    // A refusal: every other number is 0.
    pub fn refused(refusal: u64, place: u64) -> Answer
        ensures { answer_of result ≡ promise.refusal refusal place }
    {
        Answer {
            refusal,
            place,
            vertices: 0,
            triangles: 0,
            edges: 0,
            boundary_edges: 0,
        }
    }

    // An acceptance.
    pub fn accepted(counts: Counts) -> Answer
        ensures { answer_of result ≡ accepted_counts counts }
    {
        Answer {
            refusal: 0,
            place: 0,
            vertices: counts.vertices as u64,
            triangles: counts.triangles as u64,
            edges: counts.edges as u64,
            boundary_edges: counts.boundary as u64,
        }
    }
}

impl From<Result<Counts, Refusal>> for Answer {
    ghost from_gives = { λ outcome answer. answer_of answer ≡ said outcome };

    fn from(outcome: Result<Counts, Refusal>) -> Answer {
        match outcome {
            Ok(counts) => Answer::accepted(counts),
            Err(refusal) => Answer::refused(refusal.number(), refusal.place()),
        }
    }
}

// What undo one answers: the same as split, and the role that triangle 0 has.
#[repr(C)]
#[derive(Clone, Copy)]
pub struct OneAnswer {
    pub refusal: u64,
    pub place: u64,
    pub vertices: u64,
    pub triangles: u64,
    pub edges: u64,
    pub boundary_edges: u64,
    pub role: u64,
}

impl OneAnswer {
    // A refusal of undo one.
    pub fn refused(refusal: u64, place: u64) -> OneAnswer
        ensures { one_answer_of result ≡ promise.one_refusal refusal place }
    {
        OneAnswer {
            refusal,
            place,
            vertices: 0,
            triangles: 0,
            edges: 0,
            boundary_edges: 0,
            role: 0,
        }
    }

    // An acceptance of undo one.
    pub fn accepted(counts: Counts, role: usize) -> OneAnswer
        ensures { one_answer_of result ≡ answer_to_reading role counts }
    {
        OneAnswer {
            refusal: 0,
            place: 0,
            vertices: counts.vertices as u64,
            triangles: counts.triangles as u64,
            edges: counts.edges as u64,
            boundary_edges: counts.boundary as u64,
            role: role as u64,
        }
    }
}

impl From<Result<Undone, Refusal>> for OneAnswer {
    ghost from_gives = { λ outcome answer. one_answer_of answer ≡ one_said outcome };

    fn from(outcome: Result<Undone, Refusal>) -> OneAnswer {
        match outcome {
            Ok(undone) => OneAnswer::accepted(undone.counts, undone.role),
            Err(refusal) => OneAnswer::refused(refusal.number(), refusal.place()),
        }
    }
}

// What undo several answers: the same as split, how many levels were undone, and the role of each, with 0 in the
// places after them.
#[repr(C)]
#[derive(Clone, Copy)]
pub struct SeveralAnswer {
    pub refusal: u64,
    pub place: u64,
    pub vertices: u64,
    pub triangles: u64,
    pub edges: u64,
    pub boundary_edges: u64,
    pub levels: u64,
    pub roles: [u8; Limits::PLACES],
}

impl SeveralAnswer {
    // A refusal of undo several.
    pub fn refused(refusal: u64, place: u64) -> SeveralAnswer
        ensures { several_answer_of result ≡ promise.several_refusal refusal place }
    {
        SeveralAnswer {
            refusal,
            place,
            vertices: 0,
            triangles: 0,
            edges: 0,
            boundary_edges: 0,
            levels: 0,
            roles: [0; Limits::PLACES],
        }
    }

    // An acceptance of undo several.
    pub fn accepted(undone: Levels) -> SeveralAnswer
        ensures { several_answer_of result ≡ answer_to_levels undone }
    {
        let roles = undone.roles;
        let left = undone.left;
        SeveralAnswer {
            refusal: 0,
            place: 0,
            vertices: left.vertices as u64,
            triangles: left.triangles as u64,
            edges: left.edges as u64,
            boundary_edges: left.boundary as u64,
            levels: undone.levels,
            roles,
        }
    }
}

impl From<Result<Levels, Refusal>> for SeveralAnswer {
    ghost from_gives = { λ outcome answer. several_answer_of answer ≡ several_said outcome };

    fn from(outcome: Result<Levels, Refusal>) -> SeveralAnswer {
        match outcome {
            Ok(undone) => SeveralAnswer::accepted(undone),
            Err(refusal) => SeveralAnswer::refused(refusal.number(), refusal.place()),
        }
    }
}

// What read frames, write frames and read index answer: the refusal's number and place, or 0, 0 and the V and F that
// were read or written.
#[repr(C)]
#[derive(Clone, Copy)]
pub struct FramesAnswer {
    pub refusal: u64,
    pub place: u64,
    pub vertices: u64,
    pub triangles: u64,
}

impl FramesAnswer {
    // A refusal of these calls.
    pub fn refused(refusal: u64, place: u64) -> FramesAnswer
        ensures { frames_answer_of result ≡ frames_refusal refusal place }
    {
        FramesAnswer {
            refusal,
            place,
            vertices: 0,
            triangles: 0,
        }
    }

    // An acceptance of these calls.
    pub fn accepted(vertices: usize, triangles: usize) -> FramesAnswer
        ensures { frames_answer_of result ≡ frames_accepted vertices triangles }
    {
        FramesAnswer {
            refusal: 0,
            place: 0,
            vertices: vertices as u64,
            triangles: triangles as u64,
        }
    }
}

impl From<Result<Size, Refusal>> for FramesAnswer {
    ghost from_gives = { λ outcome answer. frames_answer_of answer ≡ frames_said outcome };

    fn from(outcome: Result<Size, Refusal>) -> FramesAnswer {
        match outcome {
            Ok(size) => FramesAnswer::accepted(size.vertices, size.triangles),
            Err(refusal) => FramesAnswer::refused(refusal.number(), refusal.place()),
        }
    }
}

// What write index answers: the same, and how many bytes were written.
#[repr(C)]
#[derive(Clone, Copy)]
pub struct TextAnswer {
    pub refusal: u64,
    pub place: u64,
    pub vertices: u64,
    pub triangles: u64,
    pub bytes: u64,
}

impl TextAnswer {
    // A refusal of write index.
    pub fn refused(refusal: u64, place: u64) -> TextAnswer
        ensures { text_answer_of result ≡ text_refusal refusal place }
    {
        TextAnswer {
            refusal,
            place,
            vertices: 0,
            triangles: 0,
            bytes: 0,
        }
    }

    // An acceptance of write index.
    pub fn accepted(vertices: usize, triangles: usize, bytes: usize) -> TextAnswer
        ensures { text_answer_of result ≡ text_accepted vertices triangles bytes }
    {
        TextAnswer {
            refusal: 0,
            place: 0,
            vertices: vertices as u64,
            triangles: triangles as u64,
            bytes: bytes as u64,
        }
    }
}

impl From<Result<Text, Refusal>> for TextAnswer {
    ghost from_gives = { λ outcome answer. text_answer_of answer ≡ text_said outcome };

    fn from(outcome: Result<Text, Refusal>) -> TextAnswer {
        match outcome {
            Ok(text) => TextAnswer::accepted(text.size.vertices, text.size.triangles, text.bytes),
            Err(refusal) => TextAnswer::refused(refusal.number(), refusal.place()),
        }
    }
}
