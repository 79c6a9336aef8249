// What several levels come to, counted level by level.
ghost use Rattle.std.specs.Prelude.{◌≡◌, ◌*◌, ◌++◌, take, drop};
ghost use Rattle.answers.specs.Levels.{StopLent, MoreLent, no_level, one_more};

use super::counts::Counts;
use limits::limits::Limits;
use lists::copy;

// How many levels were undone, what is counted of the mesh that is left, and the role of each level, with 0 in the
// places after them.
#[derive(Clone, Copy)]
pub struct Levels {
    pub levels: u64,
    pub left: Counts,
    pub roles: [u8; Limits::PLACES],
}

// No level more: the mesh, of which so much is counted, is left as it is.
pub fn stop(counts: Counts, list: &[u16], out: &mut [u16]) -> Levels
    requires { StopLent counts.triangles list.now out.old }
    ensures said { result ≡ no_level counts }
    ensures left { out.new
        ≡ take (3 * counts.triangles) list.now ++ drop (3 * counts.triangles) out.old }
{
    let triangles = counts.triangles;
    copy(list, out, 3 * triangles);
    Levels {
        levels: 0,
        left: counts,
        roles: [0; Limits::PLACES],
    }
}

// One level more, in a role that goes in front of the others.
pub fn one_more(role: usize, rest: Levels) -> Levels
    requires { MoreLent role rest }
    ensures { result ≡ one_more role rest }
{
    let left = rest.left;
    Levels {
        levels: rest.levels + 1,
        left,
        roles: [
            role as u8,
            rest.roles[0],
            rest.roles[1],
            rest.roles[2],
            rest.roles[3],
            rest.roles[4],
            rest.roles[5],
        ],
    }
}
