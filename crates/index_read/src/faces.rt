// Judging an index text: every run says what its face allows, and no corner is missing at the end.
ghost use Rattle.std.specs.Prelude.{◌<◌, ◌≡◌, ◌||◌, eqb};
ghost use Rattle.index_read.specs.Faces.{Stepped, TextJudged};

use super::runs::{Run, next_run, take_run};
use limits::refusal::Refusal;

// What the runs so far come to: how many corners they are, and how many of these are in the present face.
#[derive(Clone, Copy)]
struct Tally {
    corners: usize,
    face: usize,
}

impl Tally {
    // The same with the next run, where that is right: no fourth corner of a face, and no end of a face before its
    // third.
    #[tactic(auto, unfolding(theory::specs::Index::face_after, theory::specs::Index::corners_said))]
    fn after(self, run: Run) -> Option<Tally>
        requires { self.corners < usize.MAX }
        ensures { Stepped run self result }
    {
        match run {
            Run::Corner(_) if self.face < 3 => Some(Tally {
                corners: self.corners + 1,
                face: self.face + 1,
            }),
            Run::Close if self.face == 3 => Some(Tally { face: 0, ..self }),
            _ => None,
        }
    }

    // Whether no corner is missing after them: "the last -1 optional".
    fn is_whole(self) -> bool
        ensures { result ≡ (eqb self.face 0 || eqb self.face 3) }
    {
        self.face == 0 || self.face == 3
    }
}

// Judges a text, and counts its faces. Refusal 14.
pub(crate) fn judge_text(text: &[u8]) -> Result<usize, Refusal>
    ensures { TextJudged text.now result }
{
    let mut so_far = Tally {
        corners: 0,
        face: 0,
    };
    let mut at = next_run(text, 0);
    while at < text.len() {
        let fault = Refusal::TextWrong { byte: at };
        let (run, end) = take_run(text, at).ok_or(fault)?;
        so_far = so_far.after(run).ok_or(fault)?;
        at = next_run(text, end);
    }
    if !so_far.is_whole() {
        return Err(Refusal::TextWrong { byte: at });
    }
    Ok(so_far.corners / 3)
}
