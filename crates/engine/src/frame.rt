// A method at work in fixed memory: where it stands, its operand stack and its registers.
ghost use Rattle.std.specs.Prelude.{◌≡◌, ◌≤◌, length};
ghost use Rattle.engine.specs.Limits.{cell_limit, register_limit};

use heap::value::Value;

/// The cells of a frame's operand stack.
pub const CELLS: usize = 16;
/// The registers of a frame.
pub const REGISTERS: usize = 16;

/// A frame: the first `height` cells are the operand stack, the bottom first, and the first `register_count` registers
/// are the method's. (Arrays with counts: the bounded stack lies over such cells, and a call writes only the registers that it has.)
#[derive(Clone, Copy)]
pub struct Frame {
    pub(crate) method: usize,
    pub(crate) pc: usize,
    pub(crate) height: usize,
    pub(crate) cells: [Value; CELLS],
    pub(crate) register_count: usize,
    pub(crate) registers: [Value; REGISTERS],
    ghost all_cells: { length cells ≡ cell_limit },
    ghost all_registers: { length registers ≡ register_limit },
    ghost low: { height ≤ cell_limit },
    ghost few: { register_count ≤ register_limit },
}
