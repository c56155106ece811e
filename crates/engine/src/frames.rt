// The frames of a run, in fixed memory.
ghost use Rattle.std.specs.Prelude.{◌≡◌, ◌-◌, ◌≤◌, length};
ghost use Rattle.std.specs.List.{AllWithin};
ghost use Rattle.jinja.specs.Step.{frame_limit};
ghost use Rattle.engine.specs.Waiting.{Waits};

use crate::frame::Frame;

/// The most frames that stand.
pub const MAX_FRAMES: usize = 32;

/// The first `count` frames stand, the top one last. (An array with a count: a filled list hands out no frame to be changed in place.)
#[derive(Drop)]
pub struct Frames {
    pub(crate) frames: [Frame; MAX_FRAMES],
    pub(crate) count: usize,
    ghost all: { length frames ≡ frame_limit },
    ghost shallow: { count ≤ frame_limit },
    // those below the top one
    ghost waiting: { AllWithin Waits frames 0 (count - 1) },
}
