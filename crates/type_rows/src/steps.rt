// Instructions over registers, the stack and places: what they need, and what their successors get.
ghost use Rattle.std.specs.Prelude.{ℕ};
ghost use Rattle.type_rows.specs.Registers.{Told};
ghost use Rattle.type_rows.specs.Stepping.{Steps};
ghost use Rattle.type_rows.specs.TypeFrames.{frame_types};

use crate::frame::TypeFrame;
use crate::leads::Leads;
use crate::method::Method;
use crate::site::Site;
use crate::types::lies_below;
use jinja::instr::{Instr, Literal};
use jinja::ty::Ty;

impl<'a> Method<'a> {
    // Load: the register exists and is usable.
    pub(crate) fn step_load(&self, n: u8, frame: &mut TypeFrame) -> Option<Leads>
        ensures { (pc : ℕ) → Steps self.now (Instr.Load n) pc frame.old result frame.new }
    {
        let t = frame.load(self.registers, n as usize)?;
        frame.push(self.height, t)?;
        Some(Leads::Next)
    }

    // Store: there is a cell, and the register exists.
    pub(crate) fn step_store(&self, n: u8, frame: &mut TypeFrame) -> Option<Leads>
        requires { Told (frame_types frame.old) }
        ensures { (pc : ℕ) → Steps self.now (Instr.Store n) pc frame.old result frame.new }
    {
        let t = frame.pop()?;
        frame.store(self.registers, n as usize, t)?;
        Some(Leads::Next)
    }

    // Push: there is room.
    pub(crate) fn step_push(&self, v: Literal, frame: &mut TypeFrame) -> Option<Leads>
        ensures { (pc : ℕ) → Steps self.now (Instr.Push v) pc frame.old result frame.new }
    {
        frame.push(self.height, Ty::from(v))?;
        Some(Leads::Next)
    }

    // Pop: there is a cell.
    pub(crate) fn step_pop(&self, frame: &mut TypeFrame) -> Option<Leads>
        ensures { (pc : ℕ) → Steps self.now Instr.Pop pc frame.old result frame.new }
    {
        frame.pop()?;
        Some(Leads::Next)
    }

    // Throw: a reference.
    pub(crate) fn step_throw(&self, frame: &mut TypeFrame) -> Option<Leads>
        ensures { (pc : ℕ) → Steps self.now Instr.Throw pc frame.old result frame.new }
    {
        let t = frame.pop()?;
        t.is_reference().then_some(Leads::Nowhere)
    }

    // Return: the type lies below the method's result.
    pub(crate) fn step_return(&self, frame: &mut TypeFrame) -> Option<Leads>
        ensures { (pc : ℕ) → Steps self.now Instr.Return pc frame.old result frame.new }
    {
        let t = frame.pop()?;
        lies_below(self.tables, t, self.result).then_some(Leads::Nowhere)
    }

    // IAdd: two integers.
    pub(crate) fn step_add(&self, frame: &mut TypeFrame) -> Option<Leads>
        ensures { (pc : ℕ) → Steps self.now Instr.IAdd pc frame.old result frame.new }
    {
        let t = frame.pop()?;
        let u = frame.pop()?;
        if t != Ty::Integer || u != Ty::Integer {
            return None;
        }
        frame.push(self.height, Ty::Integer)?;
        Some(Leads::Next)
    }

    // CmpEq: equal types, or two references.
    pub(crate) fn step_equal(&self, frame: &mut TypeFrame) -> Option<Leads>
        ensures { (pc : ℕ) → Steps self.now Instr.CmpEq pc frame.old result frame.new }
    {
        let t = frame.pop()?;
        let u = frame.pop()?;
        if t != u && !(t.is_reference() && u.is_reference()) {
            return None;
        }
        frame.push(self.height, Ty::Boolean)?;
        Some(Leads::Next)
    }

    // IfFalse: a Boolean, and a place to go to.
    pub(crate) fn step_if_false(&self, site: Site, z: i16, frame: &mut TypeFrame) -> Option<Leads>
        ensures { Steps self.now (Instr.IfFalse z) site.pc frame.old result frame.new }
    {
        let t = frame.pop()?;
        if t != Ty::Boolean {
            return None;
        }
        let q = site.jump(z)?;
        Some(Leads::Either(q))
    }

    // Goto: a place to go to.
    pub(crate) fn step_goto(&self, site: Site, z: i16, frame: &mut TypeFrame) -> Option<Leads>
        ensures { Steps self.now (Instr.Goto z) site.pc frame.old result frame.new }
    {
        let q = site.jump(z)?;
        Some(Leads::To(q))
    }
}
