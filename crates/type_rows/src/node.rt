// A method's instruction as a node of the flow: whether it refuses the row that numbers show.
ghost use Rattle.std.specs.Prelude.{◌≡◌, ◌<◌, length};
ghost use Rattle.jinja.specs.Rows as rows;
ghost use Rattle.type_rows.specs.MethodFlow as flow;
ghost use Rattle.type_rows.specs.Numbers.{Shows, read_row};
ghost use Rattle.type_rows.specs.Stepping.{program, owned};

use crate::frame::TypeFrame;
use crate::method::Method;
use crate::row::Shown;

impl<'a> Method<'a> {
    // Whether the instruction at `pc` refuses the row: paths clash there, a need fails, or an edge leaves the code.
    pub(crate) fn refuses(&self, pc: usize, row: &[u16]) -> bool
        requires node { pc < length (owned self.now).method.code }
        requires row { Shows (program self.now) (owned self.now) row.now }
        ensures { result ≡ flow.refuses (program self.now) (owned self.now) pc (read_row (rows.registers (owned self.now)) row.now) }
    {
        match Shown::of(row) {
            Shown::Unreached => false,
            Shown::Clash => true,
            Shown::Reached(_) => match self.site(pc) {
                Some(site) => self.refuses_reached(site, TypeFrame::read(row)),
                None => true,
            },
        }
    }
}
