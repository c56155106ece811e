// Looking at a machine: its phase, frames, cells, registers and heap, and nothing where none is.
ghost use Rattle.std.specs.Prelude.{◌≡◌, length};
ghost use Rattle.jinja.specs.Look.{look_phase, look_cell, look_register};
ghost use Rattle.machine.specs.States.{state};
ghost use Rattle.engine.specs.Looking.{method_seen, pc_seen};

use crate::machine::Machine;
use heap::store::Heap;
use heap::value::Value;
use jinja::answer::Phase;

impl<H: Heap> Machine<H> {
    /// Where the machine stands.
    pub fn phase(&self) -> Phase
        ensures { result ≡ look_phase (state H.Heap.meaning self.now) }
    {
        self.phase
    }

    /// The heap, to look at its objects and lines.
    pub fn heap(&self) -> &H
        ensures { H.Heap.meaning result.now ≡ (state H.Heap.meaning self.now).heap }
    {
        &self.heap
    }

    /// The number of the machine, and of its tickets.
    pub fn number(&self) -> u32
        ensures { result ≡ (state H.Heap.meaning self.now).number }
    {
        self.number
    }

    /// How many frames stand.
    pub fn depth(&self) -> usize
        ensures { result ≡ length (state H.Heap.meaning self.now).frames }
    {
        self.frames.standing()
    }

    /// The number of the method of frame `i`, counted from the one that begin opened.
    pub fn method_of(&self, i: usize) -> Option<usize>
        ensures { result ≡ method_seen (state H.Heap.meaning self.now).frames i }
    {
        self.frames.method_of(i)
    }

    /// The instruction at which frame `i` stands.
    pub fn place_of(&self, i: usize) -> Option<usize>
        ensures { result ≡ pc_seen (state H.Heap.meaning self.now).frames i }
    {
        self.frames.pc_of(i)
    }

    /// Cell `j` of the operand stack of frame `i`, counted from the bottom.
    pub fn cell(&self, i: usize, j: usize) -> Option<Value>
        ensures { result ≡ look_cell (state H.Heap.meaning self.now) i j }
    {
        self.frames.cell(i, j)
    }

    /// Register `j` of frame `i`.
    pub fn register(&self, i: usize, j: usize) -> Option<Value>
        ensures { result ≡ look_register (state H.Heap.meaning self.now) i j }
    {
        self.frames.register(i, j)
    }
}
