// One instruction over a frame of types.
ghost use Rattle.type_rows.specs.Registers.{Told};
ghost use Rattle.type_rows.specs.Stepping.{Steps};
ghost use Rattle.type_rows.specs.TypeFrames.{frame_types};

use crate::frame::TypeFrame;
use crate::leads::Leads;
use crate::method::Method;
use crate::site::Site;
use jinja::instr::Instr;

impl<'a> Method<'a> {
    // Where the instruction leads, and what its successors get; `None` where a need fails.
    pub(crate) fn step(&self, site: Site, frame: &mut TypeFrame) -> Option<Leads>
        requires { Told (frame_types frame.old) }
        ensures { Steps self.now site.instr site.pc frame.old result frame.new }
    {
        match site.instr {
            Instr::Load(n) => self.step_load(n, frame),
            Instr::Store(n) => self.step_store(n, frame),
            Instr::Push(v) => self.step_push(v, frame),
            Instr::Pop => self.step_pop(frame),
            Instr::New(c) => self.step_new(c, frame),
            Instr::Getfield(f, c) => self.step_getfield(f, c, frame),
            Instr::Putfield(f, c) => self.step_putfield(f, c, frame),
            Instr::Checkcast(c) => self.step_checkcast(c, frame),
            Instr::Invoke(m, n) => self.step_invoke(m, n, frame),
            Instr::Return => self.step_return(frame),
            Instr::IAdd => self.step_add(frame),
            Instr::CmpEq => self.step_equal(frame),
            Instr::IfFalse(z) => self.step_if_false(site, z, frame),
            Instr::Goto(z) => self.step_goto(site, z, frame),
            Instr::Throw => self.step_throw(frame),
        }
    }
}
