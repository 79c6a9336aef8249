// The program's limits: how long an input it reads, and what it has room for.
ghost use Rattle.std.specs.Prelude.{◌≡◌, [], ◌∷◌};
ghost use Rattle.theory.specs.Limits.{program_triangles, program_vertices};
ghost use Rattle.theory.specs.Refusals.{input_too_long};
ghost use Rattle.limits.specs.Judged.{JudgedAs};

use super::limits::Limits;
use super::refusal::Refusal;

// 13 of an input of so many bytes; `Ok` where it is not given.
pub fn judge_bytes(bytes: usize) -> Result<(), Refusal>
    ensures { JudgedAs (input_too_long bytes ∷ []) result }
{
    if Limits::PROGRAM_BYTES < bytes as u64 {
        return Err(Refusal::InputTooLong);
    }
    Ok(())
}

// The most triangles that the program has room for.
pub fn program_triangles() -> usize
    ensures { result ≡ program_triangles }
{
    Limits::PROGRAM_TRIANGLES as usize
}

// The most vertices that it has room for.
pub fn program_vertices() -> usize
    ensures { result ≡ program_vertices }
{
    Limits::PROGRAM_VERTICES as usize
}
