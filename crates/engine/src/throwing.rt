// A thrown object: the frame that catches it goes on at its handler, and those above are gone.
ghost use Rattle.std.specs.Prelude.{◌≡◌, ◌+◌, ◌<◌, true, length, take, is_some};
ghost use Rattle.stack.specs.Stacked.{held};
ghost use Rattle.heap.specs.Meaning.{Meaning};
ghost use Rattle.jinja.specs.Step.{unwind};
ghost use Rattle.engine.specs.Limits.{cell_limit};
ghost use Rattle.engine.specs.Views.{frame_of, lowest_frames, frames_of, meaning_of};
ghost use Rattle.engine.specs.Catching.{Lands, LandsAt, Landed};
ghost use Rattle.engine.specs.Stepping.{settle};

use crate::catching::find;
use crate::frame::Frame;
use crate::frames::Frames;
use crate::next::Next;
use crate::program::Program;
use heap::value::Value;
use jinja::program::{ClassNumber, Handler};

// The object at `a`, of class `c`, is thrown in the top frame.
#[inline(always)]
pub(crate) fn unwind(program: Program, frames: &mut Frames, a: u16, c: ClassNumber) -> Option<Next>
    ensures { (h : Meaning) → (result, h, frames_of frames.new) ≡ settle h (frames_of frames.old) (unwind (meaning_of program.entry) h a c (frames_of frames.old)) }
{
    let Some((k, handler)) = find(program, &frames.frames, frames.count, c)? else {
        return Some(Next::Threw(a));
    };
    lands_at(program, &frames.frames, k, handler)?;
    land_at(&mut frames.frames, k, handler, a);
    frames.count = k + 1;
    Some(Next::Goes)
}

// Whether the frame at `k` can use its handler.
fn lands_at(program: Program, frames: &[Frame], k: usize, handler: Handler) -> Option<()>
    requires within { k < length frames.now }
    ensures lands { LandsAt (meaning_of program.entry) handler frames.now k result }
    ensures low { is_some result ≡ true → handler.depth < cell_limit }
{
    lands(program, &frames[k], handler)
}

// The frame at `k` goes on at the handler's target, with its lowest cells and the object.
fn land_at(frames: &mut [Frame], k: usize, handler: Handler, a: u16)
    requires within { k < length frames.old }
    requires low { handler.depth < cell_limit }
    ensures after { lowest_frames frames.new (k + 1) ≡ Landed handler a frames.old k }
    ensures below { take k frames.new ≡ take k frames.old }
{
    frames[k].go_with(
        handler.target as usize,
        handler.depth as usize,
        Value::Addr(a),
    );
}

// Whether a handler of the frame can be used: its cells are there, and there is room for the object and a target.
pub(crate) fn lands(program: Program, frame: &Frame, handler: Handler) -> Option<()>
    ensures lands { Lands (meaning_of program.entry) handler (frame_of frame.now) (held frame.now.cells handler.depth) result }
    ensures low { is_some result ≡ true → handler.depth < cell_limit }
{
    let method = program.tables.method(frame.method)?;
    let depth = handler.depth as usize;
    if depth > frame.height {
        return None;
    }
    if depth >= method.height as usize {
        return None;
    }
    let target = handler.target as usize;
    let size = program.tables.code_of(frame.method).len();
    if target >= size {
        return None;
    }
    Some(())
}
