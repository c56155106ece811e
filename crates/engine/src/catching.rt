// What catches a thrown object: the first handler of a frame that does, frame by frame from the top.
ghost use Rattle.std.specs.Prelude.{◌≡◌, ◌≤◌, length};
ghost use Rattle.jinja.specs.Step.{catches, catcher};
ghost use Rattle.tables.specs.Views.{program_of};
ghost use Rattle.engine.specs.Catching.{looked, Caught};
ghost use Rattle.engine.specs.Views.{frame_of, meaning_of};

use crate::frame::Frame;
use crate::program::Program;
use jinja::program::{ClassNumber, Handler};
use tables::tables::Tables;

// The topmost of the lowest `count` frames with a handler that catches an object of class `c`, if there is one. No answer
// where a frame without a method is on the way.
#[inline(always)]
pub(crate) fn find(
    program: Program,
    frames: &[Frame],
    count: usize,
    c: ClassNumber,
) -> Option<Option<(usize, Handler)>>
    requires within { count ≤ length frames.now }
    ensures { Caught (meaning_of program.entry) c frames.now count result }
{
    for k in (0..count).rev() {
        if let Some(handler) = handler_in(program, &frames[k], c)? {
            return Some(Some((k, handler)));
        }
    }
    Some(None)
}

// The handler of the frame's method that catches at its place, if there is such a method.
#[inline(always)]
fn handler_in(program: Program, frame: &Frame, c: ClassNumber) -> Option<Option<Handler>>
    ensures { result ≡ looked (meaning_of program.entry) c (frame_of frame.now) }
{
    program.tables.method(frame.method)?;
    Some(catcher(
        program.tables,
        program.tables.handlers_of(frame.method),
        frame.pc,
        c,
    ))
}

// The first handler that catches.
#[inline(always)]
fn catcher(tables: &Tables, handlers: &[Handler], pc: usize, c: ClassNumber) -> Option<Handler>
    ensures { result ≡ catcher (program_of tables.now) handlers.now pc c }
{
    for handler in handlers {
        if catches(tables, *handler, pc, c) {
            return Some(*handler);
        }
    }
    None
}

// Whether the handler covers the place and catches objects of class `c`.
#[inline(always)]
fn catches(tables: &Tables, handler: Handler, pc: usize, c: ClassNumber) -> bool
    ensures { result ≡ catches (program_of tables.now) handler pc c }
{
    if pc < handler.first as usize {
        return false;
    }
    if pc >= handler.end as usize {
        return false;
    }
    tables.at_or_below(c, handler.class)
}
