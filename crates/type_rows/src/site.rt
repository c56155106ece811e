// An instruction at its place in a method's code.
ghost use Rattle.std.specs.Prelude.{◌≡◌, ◌≤◌};
ghost use Rattle.jinja.specs.Rule.{jump};
ghost use Rattle.walk.specs.Limits.{most_nodes};

use jinja::instr::Instr;

/// An instruction, and where it stands.
#[derive(Clone, Copy)]
pub(crate) struct Site {
    pub(crate) instr: Instr,
    pub(crate) pc: usize,
    ghost near: { pc ≤ most_nodes },
}

impl Site {
    /// The place `z` further on, if that is no place before the first.
    pub(crate) fn jump(self, z: i16) -> Option<usize>
        ensures { result ≡ jump self.pc z }
    {
        usize::try_from(self.pc as i32 + i32::from(z)).ok()
    }
}
