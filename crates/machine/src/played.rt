// What a run from begin to end comes to.
use jinja::answer::{Ended, Ran};

/// How far a run went, and how it ended.
#[derive(Clone, Copy)]
pub struct Played {
    pub ran: Ran,
    pub ended: Ended,
}
