// Refusals 1 to 4, and 5 of writing frames and of reading an index text, which are judged from numbers alone. Vertices
// and entries are numbers as C hands them over, and no mesh yet.
ghost use Rattle.std.specs.Prelude.{◌/◌, [], ◌∷◌};
ghost use Rattle.theory.specs.Limits.{most_triangles, most_split_triangles, any_role, most_levels};
ghost use Rattle.theory.specs.Refusals.{asked_too_much, not_threes, too_large, too_short, size_rules};
ghost use Rattle.theory.specs.Frames.{read_rooms, write_rules};
ghost use Rattle.limits.specs.Judged.{JudgedAs};

use super::limits::Limits;
use super::refusal::Refusal;

// 1 of a role asked; `Ok` where it is not given. This and the three like it are a line each, which names its limit.
pub fn judge_role(asked: u64) -> Result<(), Refusal>
    ensures { JudgedAs (asked_too_much any_role asked ∷ []) result }
{
    judge_asked(Limits::ANY_ROLE, asked)
}

// 1 of a number of levels asked; `Ok` where it is not given.
pub fn judge_levels(asked: u64) -> Result<(), Refusal>
    ensures { JudgedAs (asked_too_much most_levels asked ∷ []) result }
{
    judge_asked(Limits::LEVELS, asked)
}

// The same of any number asked, where `most` is allowed.
fn judge_asked(most: u64, asked: u64) -> Result<(), Refusal>
    ensures { JudgedAs (asked_too_much most asked ∷ []) result }
{
    if most < asked {
        return Err(Refusal::AskedTooMuch);
    }
    Ok(())
}

// 2, 3 and 4 of a mesh to split, whose list has so many entries; `Ok` where none is given.
pub fn judge_size_to_split(vertices: u64, entries: usize) -> Result<(), Refusal>
    ensures { JudgedAs (size_rules most_split_triangles vertices entries) result }
{
    judge_size(Limits::SPLIT_TRIANGLES, vertices, entries)
}

// The same of a mesh to undo.
pub fn judge_size_to_undo(vertices: u64, entries: usize) -> Result<(), Refusal>
    ensures { JudgedAs (size_rules most_triangles vertices entries) result }
{
    judge_size(Limits::TRIANGLES, vertices, entries)
}

// The same where `most` triangles are allowed.
fn judge_size(most: u64, vertices: u64, entries: usize) -> Result<(), Refusal>
    ensures { JudgedAs (size_rules most vertices entries) result }
{
    judge_threes(entries)?;
    let triangles = entries / 3;
    if triangles == 0 {
        return Err(Refusal::NoTriangle);
    }
    judge_large(most, vertices, triangles)
}

// 2 and 4 of a mesh to write as text, which may have no triangle; `Ok` where none is given.
pub fn judge_size_to_write(vertices: u64, entries: usize) -> Result<(), Refusal>
    ensures { JudgedAs (not_threes entries ∷ too_large most_triangles vertices (entries / 3) ∷ []) result }
{
    judge_threes(entries)?;
    judge_large(Limits::TRIANGLES, vertices, entries / 3)
}

// 2, 4 and 5 of frames to write, of a list of so many entries, where `out` bytes are lent; `Ok` where none is given.
pub fn judge_write_size(vertices: u64, entries: usize, out: usize) -> Result<(), Refusal>
    ensures { JudgedAs (write_rules vertices entries out) result }
{
    judge_size_to_write(vertices, entries)?;
    if out < 11 + 15 * (entries / 3) {
        return Err(Refusal::TooShort);
    }
    Ok(())
}

// 4 and 5 of a mesh with these counts whose index text is read, where `out` entries are lent; `Ok` where none is given.
pub fn judge_size_to_read(vertices: u64, triangles: usize, out: usize) -> Result<(), Refusal>
    ensures { JudgedAs (too_large most_triangles vertices triangles ∷ too_short (read_rooms triangles out) ∷ []) result }
{
    judge_large(Limits::TRIANGLES, vertices, triangles)?;
    if out < 3 * triangles {
        return Err(Refusal::TooShort);
    }
    Ok(())
}

// 2 of a list of so many entries; `Ok` where it is not given.
fn judge_threes(entries: usize) -> Result<(), Refusal>
    ensures { JudgedAs (not_threes entries ∷ []) result }
{
    if entries % 3 != 0 {
        return Err(Refusal::NotThrees);
    }
    Ok(())
}

// 4 of a mesh with these counts, where `most` triangles are allowed; `Ok` where it is not given.
fn judge_large(most: u64, vertices: u64, triangles: usize) -> Result<(), Refusal>
    ensures { JudgedAs (too_large most vertices triangles ∷ []) result }
{
    if most < triangles as u64 {
        return Err(Refusal::TooLarge);
    }
    if Limits::VERTICES < vertices {
        return Err(Refusal::TooLarge);
    }
    Ok(())
}
