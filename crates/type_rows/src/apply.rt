// One instruction from a frame to a row of numbers.
ghost use Rattle.std.specs.Prelude.{◌≡◌, OnSome};
ghost use Rattle.type_rows.specs.Registers.{Told};
ghost use Rattle.type_rows.specs.RowSteps.{Reached, RowSteps};
ghost use Rattle.type_rows.specs.TypeFrames.{frame_types};

use crate::frame::TypeFrame;
use crate::leads::Leads;
use crate::method::Method;
use crate::site::Site;
use walk::WIDTH;

impl<'a> Method<'a> {
    // The instruction over a frame: where it leads, and in `out` the row that the successors get.
    pub(crate) fn apply(
        &self,
        site: Site,
        frame: TypeFrame,
        out: &mut [u16; WIDTH],
    ) -> Option<Leads>
        requires { Told (frame_types frame) }
        ensures sends { RowSteps self.now site.instr site.pc frame result out.new }
        ensures reached { OnSome result (Reached out.new) }
    {
        let mut next = frame;
        let leads = self.step(site, &mut next)?;
        next.write(out);
        Some(leads)
    }
}
