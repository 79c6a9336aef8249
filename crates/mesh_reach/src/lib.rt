// Reach over shared edges from a triangle: a queue of reached triangles, and each edge with three and more half-edges
// is opened once, however many triangles have it. It knows a mesh by the rings of its edges alone. Every table stands
// at the front of a slice that the caller lends, which may be longer: a count beside it says how long it is. It takes
// time linear in the triangles, whatever the mesh, and assumes nothing.
#![tactic(auto)]

ghost use Rattle.theory.specs.Mesh.{at};
ghost use Rattle.mesh_reach.specs.Reached.{ReachLent, Reached};
ghost use Rattle.mesh_reach.specs.Searching.{Same, SpreadLent, CrossLent, Crossed, PushLent, Pushed};

use lists::{at, fill};

// Marks the triangles that are reached from `start`: `marks[k]` is 1 for these and 0 for the others.
pub fn reach(
    start: usize,
    triangles: usize,
    ring: &[u16],
    marks: &mut [u16],
    queue: &mut [u16],
    opened: &mut [u16],
)
    requires { ReachLent start triangles ring.now marks.old queue.old opened.old }
    ensures { Reached start triangles ring.now marks.new }
{
    fill(marks, triangles, 0);
    fill(opened, 3 * triangles, 0);
    marks[start] = 1;
    queue[0] = start as u16;
    let mut search = Search {
        marks,
        queue,
        filled: 1,
        opened,
    };
    search.spread(triangles, ring);
}

// The search: the marked triangles stand in the queue, which has `filled` entries, and a half-edge whose edge was gone
// round is opened. The rings and the number of triangles stay parameters: of fields each contract would have to say that
// they stay.
#[derive(Drop)]
struct Search<'a> {
    marks: &'a mut [u16],
    queue: &'a mut [u16],
    filled: usize,
    opened: &'a mut [u16],
}

impl Search<'_> {
    // From a queue that holds the start alone: each triangle of the queue, which grows on the way, crosses its edges.
    fn spread(&mut self, triangles: usize, ring: &[u16])
        requires { SpreadLent triangles ring.now self.old }
        ensures same { Same self.old self.new }
        ensures reached { Reached (at self.old.queue.now 0) triangles ring.now self.new.marks.now }
    {
        let mut next = 0;
        while next < self.filled {
            let h = 3 * self.queue[next] as usize;
            self.cross(h, triangles, ring);
            self.cross(h + 1, triangles, ring);
            self.cross(h + 2, triangles, ring);
            next += 1;
        }
    }

    // Crosses the edge of half-edge h: its triangles that are not marked are marked and put at the end of the queue. An
    // edge with at most two half-edges needs no test.
    fn cross(&mut self, h: usize, triangles: usize, ring: &[u16])
        requires { CrossLent h triangles ring.now self.old }
        ensures { Crossed h triangles ring.now self.old self.new }
    {
        let next = at(ring, h);
        if at(ring, next) == h {
            self.push(next / 3);
            return;
        }
        if self.opened[h] != 0 {
            return;
        }
        self.open_ring(h, triangles, ring);
    }

    // Goes once round the ring of half-edge h, whose own triangle is marked, opens it and puts its triangles into the
    // queue.
    fn open_ring(&mut self, h: usize, triangles: usize, ring: &[u16])
        requires { CrossLent h triangles ring.now self.old }
        ensures { Crossed h triangles ring.now self.old self.new }
    {
        let mut x = at(ring, h);
        while x != h {
            self.opened[x] = 1;
            self.push(x / 3);
            x = at(ring, x);
        }
    }

    // Marks triangle k and puts it at the end of the queue, where it counts only if it was not marked: so there is no
    // branch, and the queue has room for one entry more than there are triangles.
    fn push(&mut self, k: usize)
        requires { PushLent k self.old }
        ensures { Pushed k self.old self.new }
    {
        self.queue[self.filled] = k as u16;
        self.filled += 1 - self.marks[k] as usize;
        self.marks[k] = 1;
    }
}
