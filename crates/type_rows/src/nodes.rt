// A method as a flow: its nodes, their handlers, and the row of a node that nothing has reached.
ghost use Rattle.std.specs.Prelude.{◌≡◌, ◌<◌, length, Some, None, MatchOption};
ghost use Rattle.std.specs.List.{slice_get};
ghost use Rattle.jinja.specs.Rows as rows;
ghost use Rattle.type_rows.specs.Merging.{merged};
ghost use Rattle.type_rows.specs.Numbers.{Shows, read_row};
ghost use Rattle.type_rows.specs.Stepping.{program, owned};

use crate::method::Method;
use crate::row::write_unreached;
use crate::site::Site;
use jinja::program::Handler;
use walk::WIDTH;

impl<'a> Method<'a> {
    // How many instructions it has.
    pub(crate) fn count(&self) -> usize
        ensures { result ≡ length (owned self.now).method.code }
    {
        let code = self.tables.code_of(self.number);
        code.len()
    }

    // The instruction at `pc`.
    pub(crate) fn site(&self, pc: usize) -> Option<Site>
        requires { pc < length (owned self.now).method.code }
        ensures { MatchOption result (slice_get (owned self.now).method.code pc ≡ None) (λ s. (slice_get (owned self.now).method.code pc ≡ Some s.instr) × (s.pc ≡ pc)) }
    {
        let instr = self.tables.instr(self.number, pc)?;
        Some(Site { instr, pc })
    }

    // Its exception table.
    pub(crate) fn handlers(&self) -> &[Handler]
        ensures { result.now ≡ (owned self.now).method.handlers }
    {
        self.tables.handlers_of(self.number)
    }

    // Writes the row of an instruction that nothing has reached.
    pub(crate) fn bottom(&self, out: &mut [u16; WIDTH])
        ensures shows { Shows (program self.now) (owned self.now) out.new }
        ensures means { read_row (rows.registers (owned self.now)) out.new ≡ merged rows.unreached }
    {
        write_unreached(out);
    }
}
