//! Workers: their numbered requests, at most one unanswered.
//! Cited by other crates.

ghost use Rattle.std.specs.Prelude.{◌≡◌, ◌↔◌, List, suc, length, [], ◌∷◌, ◌++◌, if◌then◌else◌, ◌+◌, ◌<◌};
ghost use Rattle.std.specs.Prelude.{◌≤◌, Some, None, not, is_some, IsTrue, IfOk, IfErr, IfSome, OnOk, OnErr};
ghost use Rattle.std.specs.Bool.{then_some};
ghost use Rattle.std.specs.Option.{option_copied, option_map};

use crate::misfit::Misfit;
use kt_script::{Env, Next, Script};
use kt_tuple::{Answer, Op, Value};
use std::alloc::{AllocError, Global};
use std::marker::Model;

/// A worker. It numbers its requests 1, 2, .., and has at most one unanswered.
#[derive(Debug, Drop)]
pub struct Worker {
    /// The number of the last request, 0 before the first.
    number: u64,
    /// What the last request asks for, where it is unanswered.
    asked: Option<Op>,
    /// The number of the command behind the last operation that was asked for, counted from 0.
    pc: usize,
    /// The variables as they were when it was asked for, or as its answer left them.
    env: Env,
}

impl Model for Worker {
    ghost use Rattle.std.specs.Prelude.{◌≤◌};
    ghost use Rattle.kt_worker.specs.WorkerModel.{WorkerModel};

    ghost Value = { WorkerModel };

    ghost view = { λ w.
        record { number = w.number; asked = w.asked; position = record { pc = w.pc; memory = w.env } } };

    ghost invariant = { λ w. w.number ≤ w.pc };
}

impl Worker {
    ghost use Rattle.kt_tuple.specs.declared.op.Op.{Op};
    ghost use Rattle.kt_tuple.specs.declared.op.Answer.{Answer};
    ghost use Rattle.kt_script.specs.declared.command.Command.{Command};
    ghost use Rattle.kt_script.specs.Asks.{asks};
    ghost use Rattle.kt_worker.specs.WorkerModel.{opening_model, again_request, next_of, next_request};
    ghost use Rattle.kt_worker.specs.WorkerModel.{numbered, issued, awaits, heard, is_left};
    ghost use Rattle.kt_worker.specs.After.{IsAfter};
    ghost use Rattle.kt_worker.specs.Parts.{model_of, misfit_of};

    /// A worker that made no request yet, before its script's first command.
    pub fn new(alloc: Global, script: &Script) -> Result<Worker, AllocError>
        ensures value { IfOk result (λ w. w ≡ opening_model script.now) }
        ensures after { IfOk result (λ w. IsAfter script.now [] w) }
    {
        Ok(Worker {
            number: 0,
            asked: None,
            pc: 0,
            env: Env::new(alloc, script)?,
        })
    }

    /// The worker of these parts, which its readers of the same names give. `number` is that of the last request, 0
    /// before the first, and `asked` is what it asks for where it is unanswered. `pc` is the number of the next
    /// command, counted from 0, and `was_none` says whether the last answer was none. `values` are those of the
    /// variables in the order of the script's names.
    ///
    /// Parts that are no worker's of this script are refused with the first misfit; it takes no memory. What is
    /// unanswered is not compared with the script: whether the parts were read of a worker, the caller has to know.
    pub fn from_parts(
        script: &Script,
        number: u64,
        asked: Option<Op>,
        pc: usize,
        was_none: bool,
        values: Vec<Value>,
    ) -> Result<Worker, Misfit>
        ensures made { IfOk result (λ w. w ≡ model_of number asked pc was_none values.items) }
        ensures fits { OnOk result
            (misfit_of script.now (model_of number asked pc was_none values.items) ≡ None) }
        ensures refused { IfErr result (λ m.
            misfit_of script.now (model_of number asked pc was_none values.items) ≡ Some m) }
    {
        if script.commands().len() < pc {
            return Err(Misfit::Position);
        }
        if (pc as u64) < number {
            return Err(Misfit::Number);
        }
        let Some(env) = Env::from_parts(script, values, was_none) else {
            return Err(Misfit::Values);
        };
        Ok(Worker {
            number,
            asked,
            pc,
            env,
        })
    }

    /// An equal worker with memory of its own.
    pub fn copy(&self, alloc: Global) -> Result<Worker, AllocError>
        ensures { IfOk result (λ w. w ≡ self.now) }
    {
        let asked = match &self.asked {
            Some(op) => Some(op.copy(alloc)?),
            None => None,
        };
        Ok(Worker {
            number: self.number,
            asked,
            pc: self.pc,
            env: self.env.copy(alloc)?,
        })
    }

    /// The number of the last request, 0 before the first.
    pub fn number(&self) -> u64
        ensures { result ≡ self.now.number }
    {
        self.number
    }

    /// What the last request asks for, where it is unanswered.
    pub fn asked(&self) -> Option<&Op>
        ensures { option_copied result ≡ self.now.asked }
    {
        self.asked.as_ref()
    }

    /// The number of the next command, counted from 0: at least that of the last request.
    pub fn pc(&self) -> usize
        ensures value { result ≡ self.now.position.pc }
        ensures numbered { self.now.number ≤ result }
    {
        self.pc
    }

    /// Whether the last answer was none; not so before any answer.
    pub fn was_none(&self) -> bool
        ensures { result ≡ self.now.position.memory.was_none }
    {
        self.env.was_none()
    }

    /// The values of the variables, in the order in which the script's text first binds their names.
    pub fn values(&self) -> &[Value]
        ensures { result.now ≡ self.now.position.memory.values }
    {
        self.env.values()
    }

    /// The unanswered request once more: its number and operation. There is none where nothing is
    /// unanswered.
    pub fn again(&self) -> Option<(u64, &Op)>
        ensures exact { option_map (λ r. (r.0, r.1.now)) result ≡ again_request self.now }
        // After any answers it is what the script asks then, with the number of that request.
        ensures asks { (script : List Command) (answers : List Answer) → IsAfter script answers self.now
            → IfSome result (λ r. (r.0 ≡ suc (length answers)) × (asks script answers ≡ Some r.1.now)) }
    {
        match &self.asked {
            Some(op) => Some((self.number, op)),
            None => None,
        }
    }

    /// The operation that is asked for next: none while a request is unanswered.
    fn next(&self, alloc: Global, script: &Script) -> Result<Option<Next>, AllocError>
        ensures value { IfOk result (λ next. next ≡ next_of script.now self.now) }
        // Each command makes one request at most.
        ensures later { IfOk result (λ next. IfSome next (λ n. self.now.number < n.pc)) }
    {
        if self.asked.is_some() {
            return Ok(None);
        }
        script.next(alloc, self.pc, &self.env)
    }

    /// The worker that has made the next request, beside this one, which stays. There is none while a request is
    /// unanswered, nor where no operation is left.
    pub fn asker(&self, alloc: Global, script: &Script) -> Result<Option<Worker>, AllocError>
        ensures { IfOk result (λ w.
            w ≡ option_map (λ _. issued script.now self.now) (next_request script.now self.now)) }
    {
        let Some(Next { op, pc, env }) = self.next(alloc, script)? else {
            return Ok(None);
        };
        Ok(Some(Worker {
            number: self.number + 1,
            asked: Some(op),
            pc,
            env,
        }))
    }

    /// The worker that has heard this answer, beside this one, which stays. There is none where the answer is not that
    /// to the unanswered request.
    pub fn hearer(
        &self,
        alloc: Global,
        script: &Script,
        number: u64,
        op: &Op,
        answer: &Answer,
    ) -> Result<Option<Worker>, AllocError>
        ensures { IfOk result (λ w.
            w ≡ then_some (awaits self.now number op.now) (heard script.now self.now answer.now)) }
    {
        if !self.awaits(number, op) {
            return Ok(None);
        }
        Ok(Some(Worker {
            number: self.number,
            asked: None,
            pc: self.pc,
            env: self.env.bind(alloc, script, self.pc, answer)?,
        }))
    }

    /// Makes the next request, and gives its number and operation. There is none while one is unanswered,
    /// nor where no operation is left; then nothing changes, and nor does it where memory runs out.
    pub fn issue(&mut self, alloc: Global, script: &Script) -> Result<Option<(u64, Op)>, AllocError>
        ensures request { IfOk result (λ r. r ≡ next_request script.now self.old) }
        ensures issued { IfOk result (λ r. self.new ≡ issued script.now self.old) }
        ensures unchanged { OnErr result (self.new ≡ self.old) }

        // After any answers it is what the script asks next, with the next number.
        ensures asks { (answers : List Answer) → IsAfter script.now answers self.old → self.old.asked ≡ None
            → IfOk result (λ r. r ≡ numbered (suc (length answers)) (asks script.now answers)) }
        ensures after { (answers : List Answer) → IsAfter script.now answers self.old
            → IsAfter script.now answers self.new }
    {
        let Some(Next { op, pc, env }) = self.next(alloc, script)? else {
            return Ok(None);
        };
        // All memory is taken before the worker changes, so that a refusal leaves it as it was.
        let asked = op.copy(alloc)?;
        self.ask(asked, pc, env);
        Ok(Some((self.number, op)))
    }

    /// The operation is asked for, with the next number. Behind it stand this command and these variables. It takes no
    /// memory.
    fn ask(&mut self, op: Op, pc: usize, env: Env)
        requires { self.old.number < pc }
        ensures { self.new ≡ record {
          number = self.old.number + 1;
          asked = Some op;
          position = record { pc = pc; memory = env };
        } }
    {
        self.number += 1;
        self.asked = Some(op);
        self.pc = pc;
        self.env = env;
    }

    /// Whether this is the request that is unanswered.
    fn awaits(&self, number: u64, op: &Op) -> bool
        ensures { result ≡ awaits self.now number op.now }
    {
        match &self.asked {
            Some(asked) => self.number == number && *asked == *op,
            None => false,
        }
    }

    /// Hears an answer, and says whether it was accepted: just that to the unanswered request is. Any
    /// other changes nothing, and nor does it where memory runs out.
    pub fn hear(
        &mut self,
        alloc: Global,
        script: &Script,
        number: u64,
        op: &Op,
        answer: &Answer,
    ) -> Result<bool, AllocError>
        ensures accepts { IfOk result (λ accepted. IsTrue accepted
            ↔ ((self.old.number ≡ number) × (self.old.asked ≡ Some op.now))) }
        ensures exact { IfOk result (λ accepted. accepted ≡ awaits self.old number op.now) }
        ensures heard { IfOk result (λ accepted. self.new
            ≡ (if accepted then heard script.now self.old answer.now else self.old)) }
        ensures unchanged { OnErr result (self.new ≡ self.old) }

        // What is accepted is the answer after those so far.
        ensures after { (answers : List Answer) → IsAfter script.now answers self.old
            → IfOk result (λ accepted. IsTrue accepted → IsAfter script.now (answers ++ answer.now ∷ []) self.new) }
    {
        if !self.awaits(number, op) {
            return Ok(false);
        }
        // `bind` gives a new environment, so that a refusal leaves the old one.
        self.env = self.env.bind(alloc, script, self.pc, answer)?;
        self.asked = None;
        Ok(true)
    }

    /// Whether an operation is left after the answers so far: the unanswered one, or the next. The unanswered one
    /// counts as left, so that `is_done` is the opposite.
    pub fn has_next(&self, script: &Script) -> bool
        ensures exact { result ≡ is_left script.now self.now }
        ensures asks { (answers : List Answer) → IsAfter script.now answers self.now
            → result ≡ is_some (asks script.now answers) }
    {
        self.asked.is_some() || script.has_next(self.pc, &self.env)
    }

    /// Whether no operation is left, and none is unanswered.
    pub fn is_done(&self, script: &Script) -> bool
        ensures unanswered { IsTrue result → self.now.asked ≡ None }
        ensures exact { result ≡ not (is_left script.now self.now) }
        ensures asks { (answers : List Answer) → IsAfter script.now answers self.now → IsTrue result
            ↔ (asks script.now answers ≡ None) }
    {
        self.asked.is_none() && !script.has_next(self.pc, &self.env)
    }
}
