// The subject: the types, literals and instructions of a rule set, the machine's answers, in specs/ what they mean, and
// the theorems about them.
#![tactic(auto)]

pub mod answer;
pub mod instr;
pub mod laws;
pub mod program;
pub mod ty;

pub use answer::{Answer, Ended, Outcome, Phase, Ran, Refusal, Reply};
pub use instr::{Instr, Literal};
pub use program::{ClassNumber, Field, FieldPlace, Handler, Name};
pub use ty::Ty;
