// The instructions that move the top frame alone. Where a check of one is not passed it has no answer, and the frame stays.
ghost use Rattle.std.specs.Prelude.{◌<◌};
ghost use Rattle.format.specs.Limits.{max_instrs};
ghost use Rattle.jinja.specs.declared.instr.Instr.TheVariants as instrs;
ghost use Rattle.engine.specs.Views.{frame_of};
ghost use Rattle.engine.specs.Moving.{MovesAlways, MovesUnder, MovesWithin, MovesLocally};

use crate::bounds::Bounds;
use crate::frame::Frame;
use crate::values::{boolean, place_from, sum, value_of};
use heap::store::Heap;
use heap::value::Value;
use jinja::instr::{Instr, Literal};

impl Frame {
    // An instruction of a method with these bounds; those that do more are refused.
    pub(crate) fn local<H: Heap>(&mut self, _heap: &H, bounds: Bounds, instr: Instr) -> Option<()>
        requires inside { self.old.pc < max_instrs }
        ensures { MovesLocally bounds.height bounds.size instr (frame_of self.old) result (frame_of self.new) }
    {
        match instr {
            Instr::Load(n) => self.load(bounds, n),
            Instr::Store(n) => self.store(n),
            Instr::Push(literal) => self.push(bounds, literal),
            Instr::Pop => self.pop(),
            Instr::IAdd => self.add(bounds),
            Instr::CmpEq => self.compare(bounds),
            Instr::IfFalse(offset) => self.branch(bounds.size, offset),
            Instr::Goto(offset) => self.jump(bounds.size, offset),
            Instr::New(_) => None,
            Instr::Getfield(_, _) => None,
            Instr::Putfield(_, _) => None,
            Instr::Checkcast(_) => None,
            Instr::Invoke(_, _) => None,
            Instr::Return => None,
            Instr::Throw => None,
        }
    }

    pub(crate) fn load(&mut self, bounds: Bounds, n: u8) -> Option<()>
        requires inside { self.old.pc < max_instrs }
        ensures { MovesUnder bounds.height (instrs.Load n) (frame_of self.old) result (frame_of self.new) }
    {
        let value = self.register(n as usize)?;
        self.onward(bounds, self.height, value)
    }

    pub(crate) fn store(&mut self, n: u8) -> Option<()>
        requires inside { self.old.pc < max_instrs }
        ensures { MovesAlways (instrs.Store n) (frame_of self.old) result (frame_of self.new) }
    {
        let value = self.top()?;
        let at = n as usize;
        if at >= self.register_count {
            return None;
        }
        self.registers[at] = value;
        self.go(self.pc + 1, self.height - 1);
        Some(())
    }

    pub(crate) fn push(&mut self, bounds: Bounds, literal: Literal) -> Option<()>
        requires inside { self.old.pc < max_instrs }
        ensures { MovesUnder bounds.height (instrs.Push literal) (frame_of self.old) result (frame_of self.new) }
    {
        self.onward(bounds, self.height, value_of(literal))
    }

    pub(crate) fn pop(&mut self) -> Option<()>
        requires inside { self.old.pc < max_instrs }
        ensures { MovesAlways instrs.Pop (frame_of self.old) result (frame_of self.new) }
    {
        self.top()?;
        self.go(self.pc + 1, self.height - 1);
        Some(())
    }

    // IAdd.
    pub(crate) fn add(&mut self, bounds: Bounds) -> Option<()>
        requires inside { self.old.pc < max_instrs }
        ensures { MovesUnder bounds.height instrs.IAdd (frame_of self.old) result (frame_of self.new) }
    {
        let (v, w) = self.two()?;
        let total = sum(v, w)?;
        self.onward(bounds, self.height - 2, total)
    }

    // CmpEq.
    pub(crate) fn compare(&mut self, bounds: Bounds) -> Option<()>
        requires inside { self.old.pc < max_instrs }
        ensures { MovesUnder bounds.height instrs.CmpEq (frame_of self.old) result (frame_of self.new) }
    {
        let (v, w) = self.two()?;
        self.onward(bounds, self.height - 2, Value::Bool(w == v))
    }

    // IfFalse.
    pub(crate) fn branch(&mut self, size: usize, offset: i16) -> Option<()>
        requires inside { self.old.pc < max_instrs }
        ensures { MovesWithin size (instrs.IfFalse offset) (frame_of self.old) result (frame_of self.new) }
    {
        let v = self.top()?;
        let target = place_from(self.pc, offset)?;
        if target >= size {
            return None;
        }
        let test = boolean(v)?;
        let pc = if test { self.pc + 1 } else { target };
        self.go(pc, self.height - 1);
        Some(())
    }

    // Goto.
    pub(crate) fn jump(&mut self, size: usize, offset: i16) -> Option<()>
        requires inside { self.old.pc < max_instrs }
        ensures { MovesWithin size (instrs.Goto offset) (frame_of self.old) result (frame_of self.new) }
    {
        let target = place_from(self.pc, offset)?;
        if target >= size {
            return None;
        }
        self.go(target, self.height);
        Some(())
    }
}
