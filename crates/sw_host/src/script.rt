// The answers that a host in memory is still to give to takes and puts.
ghost use Rattle.std.specs.Prelude.{◌≡◌, [], ◌∷◌, ◌++◌, OnOk, OnErr};
ghost use Rattle.outside.specs.Environment.{IsAnswer, answers_after};
ghost use Rattle.sw_host.specs.Calls.{IsAnswerFor};
ghost use Rattle.sw_host.specs.Scripts.{limited, answer_by};

use outside::Answer;
use std::alloc::{AllocError, Global};
use std::collections::VecDeque;
use std::marker::Model;

/// Answers in the order in which they are to be given.
#[derive(Drop)]
pub(crate) struct Script {
    answers: VecDeque<Answer>,
}

impl Model for Script {
    ghost use Rattle.std.specs.Prelude.{List, All};
    ghost use Rattle.outside.specs.declared.answer.Answer.{Answer};
    ghost use Rattle.outside.specs.Environment.{IsAnswer};

    ghost Value = { List Answer };

    ghost view = { λ s. s.answers.items };

    ghost invariant = { λ s. All IsAnswer s.answers.items };
}

impl Script {
    pub(crate) fn new(alloc: Global) -> Script
        ensures { result ≡ [] }
    {
        Script {
            answers: VecDeque::new(alloc),
        }
    }

    pub(crate) fn push(&mut self, answer: Answer) -> Result<(), AllocError>
        requires { IsAnswer answer }
        ensures ok { OnOk result (self.new ≡ self.old ++ answer ∷ []) }
        ensures err { OnErr result (self.new ≡ self.old) }
    {
        self.answers.push_back(answer)?;
        Ok(())
    }

    // The next answer, where so many bytes can be moved.
    pub(crate) fn next(&self, there: u32) -> Answer
        ensures next { result ≡ answer_by self.now there }
        ensures fits { IsAnswerFor there result }
    {
        match self.answers.front() {
            Some(answer) => limited(*answer, there),
            None => Answer::Take(there),
        }
    }

    // Leaves the next answer out.
    pub(crate) fn pass(&mut self)
        ensures { self.new ≡ answers_after self.old }
    {
        let _ = self.answers.pop_front();
    }
}

fn limited(answer: Answer, there: u32) -> Answer
    ensures { result ≡ limited there answer }
{
    match answer {
        Answer::Take(count) => Answer::Take(count.min(there)),
        Answer::Fail(number) => Answer::Fail(number),
    }
}
