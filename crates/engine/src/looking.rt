// Looking at frames and what they hold, counted from the bottom.
ghost use Rattle.std.specs.Prelude.{◌≡◌, length};
ghost use Rattle.std.specs.List.{slice_get};
ghost use Rattle.jinja.specs.Look.{from_bottom};
ghost use Rattle.engine.specs.Views.{frame_of, frames_of};
ghost use Rattle.engine.specs.Looking.{method_seen, pc_seen, cell_seen, register_seen};

use crate::frame::Frame;
use crate::frames::Frames;
use heap::value::Value;

impl Frames {
    /// How many frames stand.
    pub fn standing(&self) -> usize
        ensures { result ≡ length (frames_of self.now) }
    {
        self.count
    }

    /// The number of the method of frame `i`.
    pub fn method_of(&self, i: usize) -> Option<usize>
        ensures { result ≡ method_seen (frames_of self.now) i }
    {
        if i >= self.count {
            return None;
        }
        Some(self.frames[i].method)
    }

    /// Where frame `i` stands in its code.
    pub fn pc_of(&self, i: usize) -> Option<usize>
        ensures { result ≡ pc_seen (frames_of self.now) i }
    {
        if i >= self.count {
            return None;
        }
        Some(self.frames[i].pc)
    }

    /// The cell at `j` of frame `i`.
    pub fn cell(&self, i: usize, j: usize) -> Option<Value>
        ensures { result ≡ cell_seen (frames_of self.now) i j }
    {
        if i >= self.count {
            return None;
        }
        self.frames[i].cell(j)
    }

    /// The register at `j` of frame `i`.
    pub fn register(&self, i: usize, j: usize) -> Option<Value>
        ensures { result ≡ register_seen (frames_of self.now) i j }
    {
        if i >= self.count {
            return None;
        }
        self.frames[i].register(j)
    }
}

impl Frame {
    fn cell(&self, j: usize) -> Option<Value>
        ensures { result ≡ from_bottom (frame_of self.now).stack j }
    {
        if j >= self.height {
            return None;
        }
        Some(self.cells[j])
    }

    pub(crate) fn register(&self, j: usize) -> Option<Value>
        ensures { result ≡ slice_get (frame_of self.now).registers j }
    {
        if j >= self.register_count {
            return None;
        }
        Some(self.registers[j])
    }
}
