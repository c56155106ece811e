// What the edges of an instruction send from a reached row: to its successors, and to the targets of its handlers.
ghost use Rattle.std.specs.Prelude.{◌≡◌, true, List, length, OnSome};
ghost use Rattle.jinja.specs.declared.ty.Ty as ty;
ghost use Rattle.jinja.specs.Classes.{maybe};
ghost use Rattle.jinja.specs.Rows.{Cell};
ghost use Rattle.jinja.specs.Transfer.{transfer, is_relevant};
ghost use Rattle.walk.specs.Flow.{nothing};
ghost use Rattle.type_rows.specs.FlowLaws.{sent_at};
ghost use Rattle.type_rows.specs.Leading.{leads};
ghost use Rattle.type_rows.specs.MethodFlow.{to_handler};
ghost use Rattle.type_rows.specs.Registers.{Told};
ghost use Rattle.type_rows.specs.RowSteps.{row_types, row_cells, Reached};
ghost use Rattle.type_rows.specs.Sending.{sent_to};
ghost use Rattle.type_rows.specs.Stepping.{program, owned};
ghost use Rattle.type_rows.specs.Taking.{Suits};
ghost use Rattle.type_rows.specs.TypeFrames.{frame_types, frame_cells};

use crate::catch::catch;
use crate::frame::TypeFrame;
use crate::leads::Leads;
use crate::method::Method;
use crate::site::Site;
use jinja::program::Handler;
use walk::WIDTH;

impl<'a> Method<'a> {
    // Writes what the first or the second successor gets, and answers where it stands.
    pub(crate) fn send_next(
        &self,
        site: Site,
        e: usize,
        frame: TypeFrame,
        out: &mut [u16; WIDTH],
    ) -> Option<usize>
        requires { Told (frame_types frame) }
        ensures sends { maybe (transfer (program self.now) (owned self.now) site.instr site.pc (frame_types frame) (frame_cells self.now.registers frame)) nothing (λ es. sent_at es e) ≡ sent_to result (row_types out.new) (row_cells self.now.registers out.new) }
        ensures reached { OnSome result (Reached out.new) }
    {
        let to = self.apply(site, frame, out)?;
        place_of(to, site, e)
    }

    // Writes what the target of a handler gets, and answers where it stands; `None` where the handler is not relevant.
    pub(crate) fn send_to_handler(
        &self,
        site: Site,
        handler: Handler,
        frame: TypeFrame,
        out: &mut [u16; WIDTH],
    ) -> Option<usize>
        requires { is_relevant (program self.now) site.instr site.pc handler ≡ true → Suits (program self.now) (owned self.now) (frame_types frame) handler }
        ensures sends { to_handler (program self.now) handler site.instr site.pc (frame_types frame) (frame_cells self.now.registers frame) ≡ sent_to result (row_types out.new) (row_cells self.now.registers out.new) }
        ensures reached { OnSome result (Reached out.new) }
    {
        if !self.is_relevant(site, handler) {
            return None;
        }
        catch(frame, handler.depth as usize, handler.class, out);
        Some(handler.target as usize)
    }
}

// Where the first or the second successor stands.
fn place_of(to: Leads, site: Site, e: usize) -> Option<usize>
    ensures { (st : List ty.Ty) (lt : List Cell) → sent_at (leads to site.pc st lt) e ≡ sent_to result st lt }
{
    // Kept, no plainer by an enum of edges: the walk knows an edge by its number alone.
    match to {
        Leads::Nowhere => None,
        Leads::Next => (e == 0).then_some(site.pc + 1),
        Leads::To(q) => (e == 0).then_some(q),
        Leads::Either(q) => match e {
            0 => Some(site.pc + 1),
            1 => Some(q),
            _ => None,
        },
    }
}
