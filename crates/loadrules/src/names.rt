// The names of refusals, layers, phases and answers.
use format::fault::TableFault;
use jinja::answer::{Answer, Phase, Refusal};
use number::fault::NumberFault;
use verifier::fault::{LeastTableFault, VerifierFault};
use verifier::load_fault::{Layer, LoadFault};
use writer::WriteFault;

/// What users know by a name.
pub trait Named {
    fn name(self) -> &'static str;
}

impl Named for NumberFault {
    fn name(self) -> &'static str {
        match self {
            NumberFault::Cut(_) => "cut",
            NumberFault::Padded(_) => "padded",
            NumberFault::Oversize(_) => "oversize",
        }
    }
}

impl Named for TableFault {
    fn name(self) -> &'static str {
        match self {
            TableFault::Number(fault) => fault.name(),
            TableFault::Outside(_) => "outside",
            TableFault::Unknown(_) => "unknown",
            TableFault::Classless(_) => "classless",
            TableFault::Twice(_) => "twice",
            TableFault::Override(_) => "override",
            TableFault::LeftOver(_) => "left over",
        }
    }
}

impl Named for VerifierFault {
    fn name(self) -> &'static str {
        match self {
            VerifierFault::Short => "short",
            VerifierFault::Untypable(_) => "untypable",
        }
    }
}

impl Named for LoadFault {
    fn name(self) -> &'static str {
        match self {
            LoadFault::Table(fault) => fault.name(),
            LoadFault::Verifier(fault) => fault.name(),
        }
    }
}

impl Named for Layer {
    fn name(self) -> &'static str {
        match self {
            Layer::Numbers => "numbers",
            Layer::Table => "table",
            Layer::Verifier => "verifier",
        }
    }
}

impl Named for LeastTableFault {
    fn name(self) -> &'static str {
        match self {
            LeastTableFault::Short => "short",
            LeastTableFault::Unseen => "unseen",
        }
    }
}

impl Named for WriteFault {
    fn name(self) -> &'static str {
        match self {
            WriteFault::Short => "short",
        }
    }
}

impl Named for Refusal {
    fn name(self) -> &'static str {
        match self {
            Refusal::Busy => "busy",
            Refusal::Unseen => "unseen",
            Refusal::Argument => "argument",
            Refusal::NoSpace => "no space",
            Refusal::Idle => "idle",
            Refusal::Ticket => "ticket",
        }
    }
}

impl Named for Phase {
    fn name(self) -> &'static str {
        match self {
            Phase::Idle => "idle",
            Phase::Running => "running",
            Phase::Finished => "finished",
            Phase::Uncaught => "uncaught",
        }
    }
}

impl Named for Answer {
    fn name(self) -> &'static str {
        match self {
            Answer::Stepped => "stepped",
            Answer::Finished => "finished",
            Answer::Uncaught => "uncaught",
            Answer::FramesFull => "frames full",
            Answer::Unsound => "unsound",
        }
    }
}
