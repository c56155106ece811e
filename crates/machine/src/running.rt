// Steps, alone and in a run.
ghost use Rattle.std.specs.Prelude.{◌≡◌, ◌≢◌, MatchResult};
ghost use Rattle.jinja.specs.State as states;
ghost use Rattle.jinja.specs.Step.{next_step};
ghost use Rattle.jinja.specs.declared.answer.Answer.TheVariants as answers;
ghost use Rattle.jinja.specs.declared.answer.Phase.TheVariants as phases;
ghost use Rattle.jinja.specs.declared.answer.Refusal.TheVariants as refusals;
ghost use Rattle.jinja.specs.Calls.{step_call, run_call};
ghost use Rattle.machine.specs.States.{program, state};

use crate::machine::Machine;
use engine::next::Next;
use engine::step::step;
use heap::store::Heap;
use jinja::answer::{Answer, Outcome, Phase, Ran, Refusal};

impl<H: Heap> Machine<H> {
    /// One step. It answers 0 stepped, 1 finished, 2 uncaught, 3 frames full or 4 unsound, and only 0 changes anything.
    /// Refused with 16 where the machine is idle.
    pub fn step(&mut self) -> Result<Answer, Refusal>
        ensures state { (result, state H.Heap.meaning self.new) ≡ step_call (program self.old) (state H.Heap.meaning self.old) }
        ensures program { program self.new ≡ program self.old }
    {
        self.awake()?;
        Ok(self.act())
    }

    /// Steps until `n` answered 0 or another answer came: how many answered 0, and the last answer (0 where `n` is 0).
    /// Refused with 16 where the machine is idle.
    pub fn run(&mut self, n: u64) -> Result<Ran, Refusal>
        ensures state { (result, state H.Heap.meaning self.new) ≡ run_call (program self.old) n (state H.Heap.meaning self.old) }
        ensures program { program self.new ≡ program self.old }
    {
        self.awake()?;
        Ok(self.go(n))
    }

    // Refused where the machine is idle.
    fn awake(&self) -> Result<(), Refusal>
        ensures { MatchResult result (λ _. self.now.phase ≢ phases.Idle) (λ e. (e ≡ refusals.Idle) × (self.now.phase ≡ phases.Idle)) }
    {
        match self.phase {
            Phase::Idle => Err(Refusal::Idle),
            Phase::Running | Phase::Finished | Phase::Uncaught => Ok(()),
        }
    }

    // At most n steps of a machine that is not idle.
    pub(crate) fn go(&mut self, n: u64) -> Ran
        ensures state { (result, state H.Heap.meaning self.new) ≡ states.run (program self.old) n (state H.Heap.meaning self.old) }
        ensures program { program self.new ≡ program self.old }
    {
        // Kept, no plainer by an adapter: each step changes the machine, and the count is part of the answer.
        for count in 0..n {
            let last = self.go_on();
            match last {
                Answer::Stepped => {}
                _ => return Ran { count, last },
            }
        }
        Ran {
            count: n,
            last: Answer::Stepped,
        }
    }

    // One step of a machine that is not idle: a run of one, so that the step itself stands in the run alone.
    pub(crate) fn act(&mut self) -> Answer
        ensures state { (result, state H.Heap.meaning self.new) ≡ states.step (program self.old) (state H.Heap.meaning self.old) }
        ensures program { program self.new ≡ program self.old }
    {
        self.go(1).last
    }

    // The step of a run.
    fn go_on(&mut self) -> Answer
        ensures state { (result, state H.Heap.meaning self.new) ≡ states.step (program self.old) (state H.Heap.meaning self.old) }
        ensures program { program self.new ≡ program self.old }
    {
        match self.phase {
            Phase::Idle => Answer::Unsound,
            Phase::Running => self.advance(),
            Phase::Finished => Answer::Finished,
            Phase::Uncaught => Answer::Uncaught,
        }
    }

    // The instruction of the top frame.
    fn advance(&mut self) -> Answer
        requires { self.old.phase ≡ phases.Running }
        ensures state { (result, state H.Heap.meaning self.new) ≡ states.settled (state H.Heap.meaning self.old) (next_step (program self.old) (H.Heap.meaning self.old.heap) (state H.Heap.meaning self.old).frames) }
        ensures program { program self.new ≡ program self.old }
    {
        match step(self.accepted.set(), &mut self.heap, &mut self.frames) {
            Some(Next::Goes) => {
                self.steps = self.steps.saturating_add(1);
                self.outcome = Outcome::Nothing;
                Answer::Stepped
            }
            Some(Next::Returned(v)) => self.finish(Phase::Finished, Outcome::Returned(v)),
            Some(Next::Threw(a)) => self.finish(Phase::Uncaught, Outcome::Threw(a)),
            Some(Next::FramesFull) => Answer::FramesFull,
            None => Answer::Unsound,
        }
    }

    // The run is over with this outcome, and has no frames.
    fn finish(&mut self, phase: Phase, outcome: Outcome) -> Answer
        ensures answer { result ≡ answers.Stepped }
        ensures state { state H.Heap.meaning self.new ≡ states.over (state H.Heap.meaning self.old) phase outcome }
        ensures program { program self.new ≡ program self.old }
    {
        self.frames.clear();
        self.steps = self.steps.saturating_add(1);
        self.phase = phase;
        self.outcome = outcome;
        Answer::Stepped
    }
}
