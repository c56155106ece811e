// Whether an instruction refuses a row.
ghost use Rattle.std.specs.Prelude.{◌≡◌};
ghost use Rattle.jinja.specs.Rows.{reached};
ghost use Rattle.type_rows.specs.MethodFlow.{refuses_row};
ghost use Rattle.type_rows.specs.Registers.{Told};
ghost use Rattle.type_rows.specs.TypeFrames.{frame_types, frame_cells};
ghost use Rattle.type_rows.specs.Stepping.{program, owned};

use crate::ends::stays_inside;
use crate::frame::TypeFrame;
use crate::method::Method;
use crate::site::Site;

impl<'a> Method<'a> {
    // Whether the instruction refuses a row that is reached: a need fails, or an edge leaves the code.
    pub(crate) fn refuses_reached(&self, site: Site, frame: TypeFrame) -> bool
        requires { Told (frame_types frame) }
        ensures { result ≡ refuses_row (program self.now) (owned self.now) site.instr site.pc (reached (frame_types frame) (frame_cells self.now.registers frame)) }
    {
        let mut next = frame;
        let Some(to) = self.step(site, &mut next) else {
            return true;
        };
        !stays_inside(to, site, self.count()) || !self.all_pass(site, frame.height())
    }
}
