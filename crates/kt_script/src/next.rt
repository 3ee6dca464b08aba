//! The operation that a script makes next.
//! Cited by script.rt; other crates.

ghost use Rattle.std.specs.Prelude.{◌≡◌, ◌+◌, ◌<◌, ◌^◌, IfOk, length};
ghost use Rattle.kt_script.specs.auxiliary.Left.{has_next_from};
ghost use Rattle.kt_script.specs.Meaning.{op_of};
ghost use Rattle.kt_script.specs.Memory.{held};
ghost use Rattle.kt_script.specs.Next.{next_from, assigned};

use crate::command::{Command, Operation};
use crate::env::Env;
use crate::meaning::Scope;
use crate::name::Name;
use crate::variables::{Variables, hold};
use kt_tuple::Op;
use std::alloc::{AllocError, Global};

/// The operation that a script makes next, and where the script stands then.
#[derive(Debug, Drop)]
pub struct Next {
    /// The operation as it is sent: with values and bare formals.
    pub op: Op,
    /// The number of the command behind it, counted from 0.
    pub pc: usize,
    /// The variables after each `set` on the way to the operation, and before its answer.
    pub env: Env,
}

impl Env {
    /// The environment after `set variable = source + number`, the sum held at the ends of 64 bits.
    fn assigned(self, variables: &Variables, variable: &Name, source: &Name, number: i64) -> Env
        ensures { result ≡ assigned variables.now.entries self variable.now source.now number }
    {
        let Env {
            mut values,
            was_none,
        } = self;
        let scope = Scope {
            variables,
            values: &values,
        };
        let sum = scope.sum_of(source, number);
        hold(variables, &mut values, variable, sum);
        Env { values, was_none }
    }
}

impl Env {
    /// The operation as it is sent: with the variables' values in place of their names.
    fn op_of(
        &self,
        alloc: Global,
        variables: &Variables,
        operation: &Operation,
    ) -> Result<Op, AllocError>
        ensures { IfOk result (λ op. op ≡ op_of (held variables.now.entries self.now.values) operation.now) }
    {
        let scope = Scope {
            variables,
            values: self.values(),
        };
        scope.op_of(alloc, operation)
    }
}

/// The next operation among the commands from `pc` on, of which the first so many are skipped.
pub(crate) fn next_from(
    alloc: Global,
    variables: &Variables,
    env: Env,
    skipped: u8,
    pc: usize,
    commands: &[Command],
) -> Result<Option<Next>, AllocError>
    requires { pc + length commands.now < 2 ^ 64 }
    ensures { IfOk result (λ next. next ≡ next_from variables.now.entries env skipped pc commands.now) }
{
    match commands.split_first() {
        None => Ok(None),
        Some((_, later)) if skipped > 0 => {
            next_from(alloc, variables, env, skipped - 1, pc + 1, later)
        }
        Some(
            (
                Command::Set {
                    variable,
                    source,
                    plus,
                },
                later,
            ),
        ) => {
            let env = env.assigned(variables, variable, source, *plus);
            next_from(alloc, variables, env, 0, pc + 1, later)
        }
        Some((Command::Unless(count), later)) => {
            let skipped = if env.was_none { *count } else { 0 };
            next_from(alloc, variables, env, skipped, pc + 1, later)
        }
        Some((Command::Ask(operation), _)) => Ok(Some(Next {
            op: env.op_of(alloc, variables, operation)?,
            pc: pc + 1,
            env,
        })),
    }
}

/// Whether an operation stands among the commands, of which the first so many are skipped. It needs no values and takes
/// no memory: which commands are skipped depends on the last answer alone.
pub(crate) fn has_next_from(was_none: bool, skipped: u8, commands: &[Command]) -> bool
    ensures { result ≡ has_next_from was_none skipped commands.now }
{
    match commands.split_first() {
        None => false,
        Some((_, later)) if skipped > 0 => has_next_from(was_none, skipped - 1, later),
        Some((Command::Set { .. }, later)) => has_next_from(was_none, 0, later),
        Some((Command::Unless(count), later)) => {
            let skipped = if was_none { *count } else { 0 };
            has_next_from(was_none, skipped, later)
        }
        Some((Command::Ask(_), _)) => true,
    }
}
