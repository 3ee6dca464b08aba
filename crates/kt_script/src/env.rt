//! What a worker keeps of its script between two operations.
//! Cited by next.rt, script.rt; other crates.

ghost use Rattle.std.specs.Prelude.{◌≡◌, ◌++◌, ◌∷◌, [], List, IfOk, Some, map};
ghost use Rattle.kt_script.specs.Asks.{is_none_answer};
ghost use Rattle.kt_script.specs.Meaning.{zero_of};
ghost use Rattle.kt_script.specs.Memory.{opening_memory, memory_of, values_after};
ghost use Rattle.kt_script.specs.Next.{bound, next_at, position_after};

use crate::command::Slot;
use crate::meaning::{Scope, bind_tuple};
use crate::script::Script;
use crate::variables::{Variables, are_values_of, zeros_of};
use kt_tuple::{Answer, Value, copy_values};
use std::alloc::{AllocError, Global};
use std::marker::Model;

/// What a worker keeps between two operations of its script: the values of the variables, in the order of
/// the script's names, and whether the last answer was none.
#[derive(Debug, Drop)]
pub struct Env {
    /// One value for each variable, in the order of the script's names, and of the variable's kind.
    pub(crate) values: Vec<Value>,
    /// Whether the last answer was none: what `unless` asks.
    pub(crate) was_none: bool,
}

impl Model for Env {
    ghost use Rattle.kt_script.specs.Memory.{Memory};

    ghost Value = { Memory };

    ghost view = { λ e. record { values = e.values.items; was_none = e.was_none } };
}

impl Env {
    ghost use Rattle.kt_tuple.specs.declared.op.Answer.{Answer};
    ghost use Rattle.kt_script.specs.declared.next.Next.{Next};

    /// The variables of the script before any answer: each is 0, the empty string or `false`.
    pub fn new(alloc: Global, script: &Script) -> Result<Env, AllocError>
        ensures value { IfOk result (λ e. e ≡ opening_memory script.now) }
        ensures first { IfOk result (λ e. position_after script.now [] ≡ record { pc = 0; memory = e }) }
    {
        Ok(Env {
            values: zeros_of(alloc, &script.variables)?,
            was_none: false,
        })
    }

    /// The environment with these values, made of what `values` and `was_none` read. There is none unless
    /// there is one value for each name of the script, in their order, and each of its variable's kind.
    pub fn from_parts(script: &Script, values: Vec<Value>, was_none: bool) -> Option<Env>
        ensures { result ≡ memory_of script.now values.items was_none }
    {
        if !are_values_of(&script.variables, &values) {
            return None;
        }
        Some(Env { values, was_none })
    }

    /// The variables after an answer to the command just before `pc`: a tuple that was got binds its
    /// formals, unless no operation stands there or the tuple has another signature.
    pub fn bind(
        &self,
        alloc: Global,
        script: &Script,
        pc: usize,
        answer: &Answer,
    ) -> Result<Env, AllocError>
        ensures value { IfOk result (λ e. e ≡ bound script.now pc answer.now self.now) }
        // Where answers lead to an operation, behind which the script stands so, one answer more leads here.
        ensures later { (answers : List Answer) (next : Next)
            → next_at script.now (position_after script.now answers) ≡ Some next
            → next.pc ≡ pc → next.env ≡ self.now
            → IfOk result (λ e. position_after script.now (answers ++ answer.now ∷ [])
            ≡ record { pc = pc; memory = e }) }
    {
        let slots = script.slots_before(pc);
        Ok(Env {
            values: values_after(alloc, &script.variables, &self.values, slots, answer)?,
            was_none: is_none_answer(answer),
        })
    }

    /// The values, in the order of the script's names.
    pub fn values(&self) -> &[Value]
        ensures { result.now ≡ self.now.values }
    {
        &self.values
    }

    /// Whether the last answer was none; not so before any answer.
    pub fn was_none(&self) -> bool
        ensures { result ≡ self.now.was_none }
    {
        self.was_none
    }

    /// An equal environment with memory of its own.
    pub fn copy(&self, alloc: Global) -> Result<Env, AllocError>
        ensures { IfOk result (λ e. e ≡ self.now) }
    {
        Ok(Env {
            values: copy_values(alloc, &self.values)?,
            was_none: self.was_none,
        })
    }
}

fn is_none_answer(answer: &Answer) -> bool
    ensures { result ≡ is_none_answer answer.now }
{
    match answer {
        Answer::None => true,
        Answer::Done | Answer::Got(_) => false,
    }
}

/// The values after an answer to a template. They are copied first, so that a refusal leaves the old ones whole.
fn values_after(
    alloc: Global,
    variables: &Variables,
    values: &[Value],
    slots: &[Slot],
    answer: &Answer,
) -> Result<Vec<Value>, AllocError>
    ensures { IfOk result (λ v. v.items ≡ values_after variables.now.entries values.now slots.now answer.now) }
{
    let mut copies = copy_values(alloc, values)?;
    if let Answer::Got(tuple) = answer {
        let scope = Scope { variables, values };
        if scope.has_kinds(slots, tuple.values()) {
            bind_tuple(variables, &mut copies, slots, tuple.values());
        }
    }
    Ok(copies)
}
