// What a step comes to.
use heap::value::Value;

/// A step that goes on, a run that is over, or a call for which there is no frame.
#[derive(Clone, Copy)]
pub enum Next {
    Goes,
    Returned(Value),
    Threw(u16),
    FramesFull,
}
