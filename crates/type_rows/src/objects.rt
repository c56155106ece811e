// Instructions over objects and their classes: what they need, and what their successors get.
ghost use Rattle.std.specs.Prelude.{ℕ};
ghost use Rattle.type_rows.specs.Stepping.{Steps};

use crate::frame::TypeFrame;
use crate::leads::Leads;
use crate::method::Method;
use crate::types::lies_below;
use jinja::instr::Instr;
use jinja::program::{ClassNumber, Name};
use jinja::ty::Ty;

impl<'a> Method<'a> {
    // New: its class exists.
    pub(crate) fn step_new(&self, c: ClassNumber, frame: &mut TypeFrame) -> Option<Leads>
        ensures { (pc : ℕ) → Steps self.now (Instr.New c) pc frame.old result frame.new }
    {
        if !self.tables.is_class(c) {
            return None;
        }
        frame.push(self.height, Ty::Class(c))?;
        Some(Leads::Next)
    }

    // Getfield: the class itself declares the field, and the object's type lies below the class.
    pub(crate) fn step_getfield(
        &self,
        f: Name,
        c: ClassNumber,
        frame: &mut TypeFrame,
    ) -> Option<Leads>
        ensures { (pc : ℕ) → Steps self.now (Instr.Getfield f c) pc frame.old result frame.new }
    {
        let t = frame.pop()?;
        let field = self.tables.own_field(c, f)?;
        if !lies_below(self.tables, t, Ty::Class(c)) {
            return None;
        }
        frame.push(self.height, field.ty)?;
        Some(Leads::Next)
    }

    // Putfield: the class itself declares the field; the value's type lies below the field's, the object's below the class.
    pub(crate) fn step_putfield(
        &self,
        f: Name,
        c: ClassNumber,
        frame: &mut TypeFrame,
    ) -> Option<Leads>
        ensures { (pc : ℕ) → Steps self.now (Instr.Putfield f c) pc frame.old result frame.new }
    {
        let t = frame.pop()?;
        let u = frame.pop()?;
        let field = self.tables.own_field(c, f)?;
        let fits = lies_below(self.tables, t, field.ty) && lies_below(self.tables, u, Ty::Class(c));
        fits.then_some(Leads::Next)
    }

    // Checkcast: a reference, and the class exists.
    pub(crate) fn step_checkcast(&self, c: ClassNumber, frame: &mut TypeFrame) -> Option<Leads>
        ensures { (pc : ℕ) → Steps self.now (Instr.Checkcast c) pc frame.old result frame.new }
    {
        let t = frame.pop()?;
        if !t.is_reference() || !self.tables.is_class(c) {
            return None;
        }
        frame.push(self.height, Ty::Class(c))?;
        Some(Leads::Next)
    }
}
