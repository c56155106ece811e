// What a machine answers, in the one line of a shell.
use crate::faults::{Brief, Refused};
use crate::names::Named;
use crate::values::ValueWord;
use jinja::answer::{Ended, Outcome, Reply};
use std::fmt;

/// What a call answers.
#[derive(Clone, Copy)]
pub struct ReplyLine(pub Reply);

impl fmt::Display for ReplyLine {
    fn fmt<W: fmt::Write>(&self, f: &mut fmt::Formatter<W>) -> fmt::Result {
        match self.0 {
            Reply::Began(_) => write!(f, "begun"),
            Reply::Stepped(answer) => write!(f, "answer {}", answer.number()),
            Reply::Ran(ran) => write!(f, "ran {} answer {}", ran.count, ran.last.number()),
            Reply::Ended(ended) => write_ended(f, ended),
            Reply::Refused(refusal) => write!(f, "{}", Brief(Refused::Call(refusal))),
        }
    }
}

fn write_ended<W: fmt::Write>(f: &mut fmt::Formatter<W>, ended: Ended) -> fmt::Result {
    write!(f, "ended {} {} ", ended.phase.name(), ended.steps)?;
    match ended.outcome {
        Outcome::Nothing => write!(f, "-"),
        Outcome::Returned(v) => write!(f, "{}", ValueWord(v)),
        Outcome::Threw(a) => write!(f, "@{a}"),
    }
}
