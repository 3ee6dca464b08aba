//! Scripts: commands that keep the rules of variables and the limits.
//! Cited by env.rt, rules.rt; other crates.

ghost use Rattle.std.specs.Prelude.{◌≡◌, ◌↔◌, [], ◌∷◌, ◌++◌, List, IfOk, OnOk, OnErr};
ghost use Rattle.std.specs.Prelude.{None, Some, Err, is_some, ◌+◌, ◌<◌, ◌^◌, length, drop};

use crate::command::{Command, Slot};
use crate::env::Env;
use crate::name::Name;
use crate::next::{Next, has_next_from, next_from};
use crate::rules::{count_new, has_count, keeps_rules};
use crate::script_error::ScriptError;
use crate::variables::{Variables, are_values_of, bind_all, kind_in};
use indexmap::IndexMap;
use kt_tuple::{Kind, Value};
use std::alloc::{AllocError, Global};
use std::marker::Model;

/// The most commands that a script has: a further one is refused with `Limit`.
pub const MAX_COMMANDS: usize = 200;

/// The most variables that a script has: a command that binds a further one is refused with `Limit`.
pub const MAX_VARIABLES: usize = 64;

/// The commands of a worker, from first to last, each of which keeps the rules of variables and the limits
/// beside those before it.
#[derive(Debug, Drop)]
pub struct Script {
    pub(crate) commands: Vec<Command>,
    pub(crate) variables: Variables,
}

impl Model for Script {
    ghost use Rattle.std.specs.Prelude.{◌≡◌, List};
    ghost use Rattle.kt_script.specs.declared.command.Command.{Command};
    ghost use Rattle.kt_script.specs.Variables.{variables_of};
    ghost use Rattle.kt_script.specs.Rules.{IsScript};

    ghost Value = { List Command };

    ghost view = { λ s. s.commands.items };

    ghost invariant = { λ s. (s.variables.entries ≡ variables_of s.commands.items) × IsScript s.commands.items };
}

impl Script {
    ghost use Rattle.kt_tuple.specs.declared.op.Answer.{Answer};
    ghost use Rattle.kt_script.specs.Asks.{asks};
    ghost use Rattle.kt_script.specs.Next.{next_at, op_of_next, position_after, slots_before};
    ghost use Rattle.kt_script.specs.Rules.{refusal_of, is_within, IsScript};
    ghost use Rattle.kt_script.specs.Memory.{are_values_of};
    ghost use Rattle.kt_script.specs.Variables.{variables_of, kind_in};
    ghost use Rattle.std.specs.Map.{keys_of};

    /// The script of no commands, which `push` fills.
    pub fn new(alloc: Global) -> Script
        ensures { result ≡ [] }
    {
        Script {
            commands: Vec::new(alloc),
            variables: IndexMap::new(alloc),
        }
    }

    /// Appends the command, unless it breaks the rules of variables, or a limit, or no memory is left.
    pub fn push(&mut self, command: Command) -> Result<(), ScriptError>
        ensures accepted { OnOk result (refusal_of self.old command ≡ None) }
        ensures appended { OnOk result (self.new ≡ self.old ++ command ∷ []) }

        // Of several refusals the lowest that stands is given, and the script stays as it was.
        ensures variable { (result ≡ Err ScriptError.Variable)
            ↔ (refusal_of self.old command ≡ Some ScriptError.Variable) }
        ensures limit { (result ≡ Err ScriptError.Limit) ↔ (refusal_of self.old command ≡ Some ScriptError.Limit) }
        ensures memory { result ≡ Err ScriptError.OutOfMemory → refusal_of self.old command ≡ None }
        ensures unchanged { OnErr result (self.new ≡ self.old) }
    {
        if let Some(refusal) = self.refusal_of(&command) {
            return Err(refusal);
        }
        match self.append(command) {
            Ok(()) => Ok(()),
            Err(_) => Err(ScriptError::OutOfMemory),
        }
    }

    /// Why the command may not follow, want of memory aside. It takes no memory.
    pub fn refusal_of(&self, command: &Command) -> Option<ScriptError>
        ensures { result ≡ refusal_of self.now command.now }
    {
        if !keeps_rules(&self.variables, command) {
            Some(ScriptError::Variable)
        } else if !self.is_within(command) {
            Some(ScriptError::Limit)
        } else {
            None
        }
    }

    /// Whether the script is within its limits with the command too.
    #[tactic(auto, using(crate::proofs::Count::count_laws))]
    fn is_within(&self, command: &Command) -> bool
        ensures { result ≡ is_within self.now command.now }
    {
        let names = count_new(&self.variables, command);
        has_count(command)
            && self.commands.len() < MAX_COMMANDS
            && self.variables.len().saturating_add(names) <= MAX_VARIABLES
    }

    /// Appends a command that may follow.
    fn append(&mut self, command: Command) -> Result<(), AllocError>
        requires { refusal_of self.old command ≡ None }
        ensures ok { OnOk result (self.new ≡ self.old ++ command ∷ []) }
        ensures err { OnErr result (self.new ≡ self.old) }
    {
        // All memory is taken before the script changes, so that a refusal leaves it as it was.
        let alloc = *self.commands.allocator();
        let bindings = command.bindings(alloc)?;
        self.commands.reserve(1)?;
        bind_all(&mut self.variables, bindings)?;
        self.commands.push_reserved(command);
        Ok(())
    }

    /// The operation that the script makes next from the command of this number on, counted from 0, with
    /// the position behind it; `None` at the end of the script.
    pub fn next(&self, alloc: Global, pc: usize, env: &Env) -> Result<Option<Next>, AllocError>
        ensures value { IfOk result (λ next. next ≡ next_at self.now (record { pc = pc; memory = env.now })) }
        // Where answers lead to this position, it is what the script asks after them.
        ensures asks { (answers : List Answer)
            → position_after self.now answers ≡ record { pc = pc; memory = env.now }
            → IfOk result (λ next. op_of_next next ≡ asks self.now answers) }
    {
        let env = env.copy(alloc)?;
        next_from(alloc, &self.variables, env, 0, pc, self.commands_from(pc))
    }

    /// Whether an operation is left from the command of this number on. It takes no memory.
    pub fn has_next(&self, pc: usize, env: &Env) -> bool
        ensures value { result ≡ is_some (next_at self.now (record { pc = pc; memory = env.now })) }
        ensures asks { (answers : List Answer)
            → position_after self.now answers ≡ record { pc = pc; memory = env.now }
            → result ≡ is_some (asks self.now answers) }
    {
        let none = env.was_none();
        has_next_from(none, 0, self.commands_from(pc))
    }

    /// The commands from the one of this number on; none behind the end.
    fn commands_from(&self, pc: usize) -> &[Command]
        ensures value { result.now ≡ drop pc self.now }
        ensures room { pc + length result.now < 2 ^ 64 }
    {
        match self.commands.get(pc..) {
            Some(commands) => commands,
            None => &[],
        }
    }

    /// The places of the command just before `pc`; none at the beginning, and where no operation stands there.
    pub(crate) fn slots_before(&self, pc: usize) -> &[Slot]
        ensures { result.now ≡ slots_before self.now pc }
    {
        if pc == 0 {
            return &[];
        }
        match self.commands.get(pc - 1) {
            Some(Command::Ask(operation)) => operation.slots(),
            _ => &[],
        }
    }

    /// The commands, from first to last: each may follow those before it.
    pub fn commands(&self) -> &[Command]
        ensures value { result.now ≡ self.now }
        ensures script { IsScript self.now }
    {
        &self.commands
    }

    /// The names of the variables, in the order in which the text first binds them.
    pub fn names(&self) -> &[Name]
        ensures { result.now ≡ keys_of (variables_of self.now) }
    {
        self.variables.keys().as_slice()
    }

    /// The kind of the variable's values, where the script binds the name.
    pub fn kind_of(&self, name: &Name) -> Option<Kind>
        ensures { result ≡ kind_in (variables_of self.now) name.now }
    {
        kind_in(&self.variables, name)
    }

    /// Whether these are one value for each variable, in the order of `names`, and each of its variable's kind: values
    /// of which `Env::from_parts` makes an environment. It takes no memory.
    pub fn has_values(&self, values: &[Value]) -> bool
        ensures { result ≡ are_values_of (variables_of self.now) values.now }
    {
        are_values_of(&self.variables, values)
    }
}
