// Runs of entries for the marked triangles alone, one run after the other.
ghost use Rattle.std.specs.Prelude.{◌≡◌, ◌+◌, ◌≤◌, List, ℕ, length};
ghost use Rattle.std.proofs.lemmas.List.Edits.{sets};
ghost use Rattle.undo_match.specs.Runs.{RunsLent, RunsStored};

// A run of entries for each triangle, all of one width.
pub trait Runs<const WIDTH: usize> {
    ghost run: { Self → ℕ → List ℕ };

    ghost lent: { Self → ℕ → Type 0 };

    // Writes the run of triangle k from `place` on.
    fn write(&self, k: usize, place: usize, out: &mut [u16])
        requires lent { lent self.now k }
        requires room { place + WIDTH ≤ length out.old }
        ensures { out.new ≡ sets out.old place (run self.now k) };

    ghost long: { (runs : Self) (k : ℕ) → length (run runs k) ≡ WIDTH };
}

// Writes the runs of the marked triangles to the front of `out`, in order. Answers how many are marked.
pub fn write_marked<const WIDTH: usize, R: Runs<WIDTH>>(
    runs: &R,
    triangles: usize,
    marks: &[u16],
    out: &mut [u16],
) -> usize
    requires { RunsLent WIDTH (R.lent runs.now) triangles marks.now out.old }
    ensures { RunsStored WIDTH (R.run runs.now) triangles marks.now result out.new }
{
    let mut count = 0;
    for k in 0..triangles {
        if marks[k] != 0 {
            runs.write(k, WIDTH * count, out);
            count += 1;
        }
    }
    count
}
