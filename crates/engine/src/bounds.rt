// What a method allows its frames.
ghost use Rattle.std.specs.Prelude.{◌≤◌};
ghost use Rattle.engine.specs.Limits.{cell_limit};

/// The greatest height of a method's operand stack, which fits a frame, and how many instructions the method has.
#[derive(Clone, Copy)]
pub(crate) struct Bounds {
    pub(crate) height: usize,
    pub(crate) size: usize,
    ghost low: { height ≤ cell_limit },
}
