// A method's instruction as a node of the flow: its edges, and what they send from the row that numbers show.
ghost use Rattle.std.specs.Prelude.{◌≡◌, ℕ, ◌+◌, ◌<◌, true, false, length, ℤ, Some, MatchBool, MatchOption, OnSome, ◌≢◌};
ghost use Rattle.std.specs.List.{slice_get};
ghost use Rattle.jinja.specs.declared.program.Handler as handler;
ghost use Rattle.jinja.specs.Rows as rows;
ghost use Rattle.jinja.specs.Transfer.{is_relevant};
ghost use Rattle.walk.specs.Flow.{nothing, sent};
ghost use Rattle.type_rows.specs.MethodFlow as flow;
ghost use Rattle.type_rows.specs.Numbers.{Shows, read_row};
ghost use Rattle.type_rows.specs.Registers.{Told};
ghost use Rattle.type_rows.specs.RowSteps.{row_types, row_cells, Reached};
ghost use Rattle.type_rows.specs.Sending.{sent_to};
ghost use Rattle.type_rows.specs.Stepping.{program, owned};
ghost use Rattle.type_rows.specs.Taking.{Suits};
ghost use Rattle.type_rows.specs.TypeFrames.{frame_types, frame_cells};

use crate::frame::TypeFrame;
use crate::method::Method;
use crate::row::Shown;
use crate::site::Site;
use jinja::instr::Instr;
use walk::WIDTH;

impl<'a> Method<'a> {
    // Two for the successors of an instruction, and one for each handler.
    pub(crate) fn edges(&self) -> usize
        ensures { result ≡ 2 + length (owned self.now).method.handlers }
    {
        2 + self.handlers().len()
    }

    // Writes what an edge of the instruction sends from a row that is reached.
    fn send_reached(
        &self,
        site: Site,
        e: usize,
        frame: TypeFrame,
        out: &mut [u16; WIDTH],
    ) -> Option<usize>
        requires told { Told (frame_types frame) }
        requires suits { (j : ℕ) (x : handler.Handler) → slice_get (owned self.now).method.handlers j ≡ Some x → is_relevant (program self.now) site.instr site.pc x ≡ true → Suits (program self.now) (owned self.now) (frame_types frame) x }
        ensures sends { flow.edge_of (program self.now) (owned self.now) site.instr site.pc e (frame_types frame) (frame_cells self.now.registers frame) ≡ sent_to result (row_types out.new) (row_cells self.now.registers out.new) }
        ensures reached { OnSome result (Reached out.new) }
    {
        if e == 1 && !branches(site.instr) {
            return None;
        }
        if e < 2 {
            return self.send_next(site, e, frame, out);
        }
        let handler = *self.handlers().get(e - 2)?;
        self.send_to_handler(site, handler, frame, out)
    }

    // Writes what edge `e` of the instruction at `pc` sends from the row, and answers where to; `None` where it sends
    // nothing.
    pub(crate) fn send(
        &self,
        pc: usize,
        e: usize,
        row: &[u16],
        out: &mut [u16; WIDTH],
    ) -> Option<usize>
        requires node { pc < length (owned self.now).method.code }
        requires edge { e < 2 + length (owned self.now).method.handlers }
        requires row { Shows (program self.now) (owned self.now) row.now }
        requires taken { flow.refuses (program self.now) (owned self.now) pc (read_row (rows.registers (owned self.now)) row.now) ≡ false }
        ensures shows { OnSome result (Shows (program self.now) (owned self.now) out.new) }
        ensures sends { MatchOption result (flow.carries (program self.now) (owned self.now) pc e (read_row (rows.registers (owned self.now)) row.now) ≡ nothing) (λ k. flow.carries (program self.now) (owned self.now) pc e (read_row (rows.registers (owned self.now)) row.now) ≡ sent k (read_row (rows.registers (owned self.now)) out.new)) }
    {
        match Shown::of(row) {
            Shown::Unreached => None,
            Shown::Clash => None,
            Shown::Reached(_) => {
                let site = self.site(pc)?;
                self.send_reached(site, e, TypeFrame::read(row), out)
            }
        }
    }
}

// Whether the instruction has a second successor.
fn branches(i: Instr) -> bool
    ensures { MatchBool result ((z : ℤ) × (i ≡ Instr.IfFalse z)) ((z : ℤ) → i ≢ Instr.IfFalse z) }
{
    matches!(i, Instr::IfFalse(_))
}
