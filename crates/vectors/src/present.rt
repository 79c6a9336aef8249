// The present mesh.
ghost use Rattle.std.specs.Prelude.{◌≤◌};
ghost use Rattle.vectors.specs.declared.present.TheConstants.{ENTRIES};

use crate::buffers::Lent;
use crate::text::{Text, Wrong};

// The entries that the present mesh has at most: those of a triangle more than are allowed.
const ENTRIES: usize = 49155;

// The present mesh, which is the first `entries` entries of `list`, and how buffers are lent. (`list` is an array and no
// Vec: `vectors` takes no heap, as the calls take none.)
#[derive(Clone, Copy)]
pub struct Present {
    pub vertices: u64,
    list: [u16; ENTRIES],
    entries: usize,
    pub lent: Lent,
    ghost within: { entries ≤ ENTRIES },
}

impl Present {
    // No mesh.
    pub fn new() -> Present {
        Present {
            vertices: 0,
            list: [0; ENTRIES],
            entries: 0,
            lent: Lent::default(),
        }
    }

    pub fn list(&self) -> &[u16] {
        &self.list[..self.entries]
    }

    // Takes the vertices, the number of entries and the entries of a mesh from the text.
    pub fn take_mesh(&mut self, text: &mut Text) -> Result<(), Wrong> {
        self.vertices = text.number()?;
        self.entries = 0;
        let count = text.number()?;
        self.take_entries(count, text)
    }

    // Takes so many entries more from the text, if there is room for them.
    pub fn take_entries(&mut self, count: u64, text: &mut Text) -> Result<(), Wrong> {
        for _ in 0..count {
            if self.entries >= ENTRIES {
                return Err(Wrong);
            }
            self.list[self.entries] = text.entry()?;
            self.entries += 1;
        }
        Ok(())
    }

    // Puts another mesh in the place of this one, as far as there is room. The entries go one by one: the borrow
    // checker lends no slice of an array that has a ghost field beside it.
    pub fn keep(&mut self, vertices: u64, list: &[u16]) {
        let entries = list.len().min(ENTRIES);
        self.vertices = vertices;
        self.entries = entries;
        for i in 0..entries {
            self.list[i] = list[i];
        }
    }

    // The triangles of the list, of which the last may lack corners.
    pub fn triangles(&self) -> usize {
        self.entries / 3
    }

    // What the coarse mesh of a reading needs.
    pub fn coarse_need(&self) -> usize {
        self.entries / 12 * 3
    }

    // What the output of a split needs.
    pub fn split_need(&self) -> usize {
        self.entries / 3 * 12
    }

    // What the output of undo several needs.
    pub fn several_need(&self) -> usize {
        self.entries / 3 * 3
    }

    // What the output of writing frames needs.
    pub fn write_need(&self) -> usize {
        self.entries / 3 * 15 + 11
    }

    // What each work buffer needs (docs/ROOM.md).
    pub fn work_need(&self) -> usize {
        (self.vertices as usize).saturating_add(self.several_need())
    }
}
