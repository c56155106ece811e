// The limits of a rule set. Each stands once here for the code and once in specs/Limits.antt for the promises.

/// Own classes of a set.
pub const MAX_CLASSES: usize = 28;
/// Fields of a class, inherited ones included.
pub const MAX_FIELDS: usize = 8;
/// Methods of a set.
pub const MAX_METHODS: usize = 64;
/// Parameters of a method.
pub const MAX_PARAMS: usize = 8;
/// The greatest height of an operand stack.
pub const MAX_HEIGHT: u32 = 16;
/// Registers of a method: this object, the parameters and the extras.
pub const MAX_REGISTERS: usize = 16;
/// Instructions of a method.
pub const MAX_CODE: usize = 256;
/// Instructions of a set.
pub const MAX_INSTRS: usize = 1024;
/// Handlers of a set.
pub const MAX_HANDLERS: usize = 64;
/// The greatest name.
pub const MAX_NAME: u32 = 255;
/// The greatest class, register or argument count in an instruction, and the greatest class of a handler.
pub const MAX_OPERAND: u32 = 255;
/// The greatest first, end, target or depth of a handler.
pub const MAX_HANDLER_NUMBER: u32 = 256;
/// The greatest number that stands for a jump offset: 510 for 255, and 509 for -255.
pub const MAX_OFFSET: u32 = 510;
