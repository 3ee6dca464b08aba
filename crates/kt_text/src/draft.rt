//! A scenario, read line by line. Each line is judged without memory, and then kept: so want of memory hides no other
//! fault of a line (docs/DECISIONS.md#values). Room for the places of a command is made behind the line before it.
//! Cited by reading.rt; other crates.

ghost use Rattle.std.specs.Prelude.{◌≡◌, ◌&&◌, ◌+◌, ◌<◌, ◌≤◌, ℕ, List, length, Ok, Err, OnOk, IfErr, IfOk, IsTrue};
ghost use Rattle.std.specs.Prelude.{None};
ghost use Rattle.std.specs.Option.{option_map};
ghost use Rattle.kt_text.specs.Reading.{is_empty, scenario_with};
ghost use Rattle.kt_text.specs.Reading.{model_of};
ghost use Rattle.kt_text.specs.Lines.{nothing_read, is_word, is_ignored, count_of, shards_of, titled, with_shards};
ghost use Rattle.kt_text.specs.Lines.{with_worker, in_script, with_command, in_work, work_with, line_read, is_ended};
ghost use Rattle.kt_text.specs.Lines.{closed, scene_of, with_step, with_fault};
ghost use Rattle.kt_text.specs.auxiliary.Drafts.{HasScripts, IsFaultOf};
ghost use Rattle.kt_text.specs.auxiliary.Room.{IsReady};
ghost use Rattle.kt_text.specs.FaultLines.{fault_read};
ghost use Rattle.kt_text.specs.Steps.{step_of};
ghost use Rattle.kt_text.specs.Work.{work_in};

use crate::command::{Spelled, fault_of_misfit, spelled_of};
use crate::fault::SceneError;
use crate::fault_line::fault_read;
use crate::line::{behind, ended, is_word, number_at, step_of};
use crate::rooms::Rooms;
use crate::scenario::{Scenario, Work, WorkKind};
use kt_scenario::{Faults, Scene, Step};
use kt_script::{Script, ScriptError};
use kt_tuple::{MAX_SHARDS, MAX_WORKERS};
use std::alloc::Global;
use std::marker::Model;
use std::mem;

/// What the next line is to be.
#[derive(Clone, Copy)]
pub(crate) enum Expected {
    Title,
    Shards,
    /// The line `worker` of the first worker.
    Workers,
    /// A command, a worker or the line before the work.
    Commands,
    /// A step or a fault, or the end.
    Work,
    Ended,
}

/// What was read so far.
#[derive(Drop)]
pub(crate) struct Draft {
    alloc: Global,
    expected: Expected,
    shards: u8,
    /// The scripts of the workers before this one.
    scripts: Vec<Script>,
    /// The commands so far of the worker whose lines are read now.
    script: Script,
    /// The steps or fault lines so far. A scenario is read as one of the kind that is asked for: the other kind's word
    /// is a line that no rule allows (docs/DECISIONS.md#the-scenarios-text).
    work: Work,
}

impl Model for Draft {
    ghost use Rattle.kt_text.specs.Lines.{DraftModel};
    ghost use Rattle.kt_text.specs.auxiliary.Drafts.{IsDraft};
    ghost use Rattle.kt_text.specs.Work.{work_in};

    ghost Value = { DraftModel };

    ghost view = { λ d. record {
      expected = d.expected;
      shards = d.shards;
      scripts = d.scripts.items;
      commands = d.script;
      work = work_in d.work;
    } };

    ghost invariant = { λ d. IsDraft (record {
      expected = d.expected;
      shards = d.shards;
      scripts = d.scripts.items;
      commands = d.script;
      work = work_in d.work;
    }) };
}

/// Whether the line begins with `#`.
fn is_ignored(line: &[u8]) -> bool
    ensures { result ≡ is_ignored line.now }
{
    line.first() == Some(&b'#')
}

/// How many shards the line `shards N` asks for.
fn shards_of(line: &[u8]) -> Result<u8, SceneError>
    ensures { result ≡ shards_of line.now }
{
    match count_of(line) {
        None => Err(SceneError::Header),
        Some(Some(count)) if 1 <= count && count <= u64::from(MAX_SHARDS) => Ok(count as u8),
        Some(_) => Err(SceneError::Limit),
    }
}

fn count_of(line: &[u8]) -> Option<Option<u64>>
    ensures { result ≡ count_of line.now }
{
    let (count, rest) = number_at(behind(line, b"shards ")?)?;
    ended(count, rest)
}

impl Draft {
    /// Nothing was read yet of a scenario that is to have this kind of work.
    pub(crate) fn new(alloc: Global, kind: WorkKind) -> Draft
        ensures { result ≡ nothing_read kind }
    {
        Draft {
            alloc,
            expected: Expected::Title,
            shards: 1,
            scripts: Vec::new(alloc),
            script: Script::new(alloc),
            work: Work::none(alloc, kind),
        }
    }

    /// Whether the line `end` was read.
    fn is_ended(&self) -> bool
        ensures { result ≡ is_ended self.now.expected }
    {
        self.expected == Expected::Ended
    }

    /// The scenario, once the last line was read.
    pub(crate) fn scenario(self) -> Scenario
        requires { self.expected ≡ Expected.Ended }
        ensures { model_of result ≡ scenario_with self }
    {
        let Draft {
            shards,
            scripts,
            work,
            ..
        } = self;
        let scene = Scene::new(shards, scripts).unwrap();
        Scenario { scene, work }
    }

    /// Whether the last line was read, and nothing stands behind it.
    pub(crate) fn ends_before(&self, rest: &[u8]) -> bool
        ensures { result ≡ (is_ended self.now.expected && is_empty rest.now) }
    {
        self.is_ended() && rest.is_empty()
    }

    /// Reads one line more, which comes without its line feed. The fault is the lowest that the line has. Where the
    /// next line may be a command, there is room for its places then.
    pub(crate) fn read(&mut self, line: &[u8], rooms: &mut Rooms) -> Result<(), SceneError>
        requires { self.old.expected ≡ Expected.Commands → IsReady rooms.old }
        ensures read { OnOk result (line_read self.old line.now ≡ Ok self.new) }
        ensures fault { IfErr result (λ fault. IsFaultOf fault (line_read self.old line.now)) }
        ensures ready { OnOk result (self.new.expected ≡ Expected.Commands → IsReady rooms.new) }
    {
        self.read_line(line, rooms)?;
        if self.expected == Expected::Commands {
            rooms.make().map_err(|_| SceneError::OutOfMemory)?;
        }
        Ok(())
    }

    fn read_line(&mut self, line: &[u8], rooms: &mut Rooms) -> Result<(), SceneError>
        requires { self.old.expected ≡ Expected.Commands → IsReady rooms.old }
        ensures read { OnOk result (line_read self.old line.now ≡ Ok self.new) }
        ensures fault { IfErr result (λ fault. IsFaultOf fault (line_read self.old line.now)) }
    {
        if self.is_ended() {
            return Err(SceneError::End);
        }
        if is_ignored(line) {
            return Ok(());
        }
        match self.expected {
            Expected::Title => self.read_title(line),
            Expected::Shards => self.read_shards(line),
            Expected::Workers => self.read_worker(line),
            Expected::Commands => self.read_in_script(line, rooms),
            Expected::Work => self.read_in_work(line),
            Expected::Ended => Err(SceneError::End),
        }
    }

    fn read_title(&mut self, line: &[u8]) -> Result<(), SceneError>
        requires { self.old.expected ≡ Expected.Title }
        ensures read { OnOk result (titled self.old line.now ≡ Ok self.new) }
        ensures fault { IfErr result (λ fault. IsFaultOf fault (titled self.old line.now)) }
    {
        if line != b"linda-kt 1".as_slice() {
            return Err(SceneError::Header);
        }
        self.expected = Expected::Shards;
        Ok(())
    }

    fn read_shards(&mut self, line: &[u8]) -> Result<(), SceneError>
        requires { self.old.expected ≡ Expected.Shards }
        ensures read { OnOk result (with_shards self.old (shards_of line.now) ≡ Ok self.new) }
        ensures fault { IfErr result (λ fault. IsFaultOf fault (with_shards self.old (shards_of line.now))) }
    {
        self.shards = shards_of(line)?;
        self.expected = Expected::Workers;
        Ok(())
    }

    fn read_worker(&mut self, line: &[u8]) -> Result<(), SceneError>
        requires { self.old.expected ≡ Expected.Workers }
        ensures read { OnOk result (with_worker self.old line.now ≡ Ok self.new) }
        ensures fault { IfErr result (λ fault. IsFaultOf fault (with_worker self.old line.now)) }
    {
        if line != b"worker".as_slice() {
            return Err(SceneError::Word);
        }
        self.expected = Expected::Commands;
        Ok(())
    }

    /// Reads another worker, the line before the work or a command.
    fn read_in_script(&mut self, line: &[u8], rooms: &mut Rooms) -> Result<(), SceneError>
        requires { (self.old.expected ≡ Expected.Commands) × IsReady rooms.old }
        ensures read { OnOk result (in_script self.old line.now ≡ Ok self.new) }
        ensures fault { IfErr result (λ fault. IsFaultOf fault (in_script self.old line.now)) }
    {
        let workers = self.scripts.len() + 1;
        if is_word(line, b"worker") {
            if workers >= usize::from(MAX_WORKERS) {
                return Err(SceneError::Limit);
            }
            self.close_script(Expected::Commands)
        } else if is_word(line, self.work.kind().word()) {
            self.close_script(Expected::Work)
        } else {
            self.add_command(spelled_of(line, rooms)?)
        }
    }

    /// Ends this worker's script, and puts it behind the others; refused only for want of memory.
    fn close_script(&mut self, expected: Expected) -> Result<(), SceneError>
        requires { HasScripts expected (length self.old.scripts + 1) }
        ensures closed { OnOk result (self.new ≡ closed expected self.old) }
        ensures memory { IfErr result (λ fault. fault ≡ SceneError.OutOfMemory) }
    {
        self.scripts
            .reserve(1)
            .map_err(|_| SceneError::OutOfMemory)?;
        let script = mem::replace(&mut self.script, Script::new(self.alloc));
        self.scripts.push_reserved(script);
        self.expected = expected;
        Ok(())
    }

    fn add_command(&mut self, spelled: Spelled) -> Result<(), SceneError>
        requires { self.old.expected ≡ Expected.Commands }
        ensures read { OnOk result (with_command self.old (Ok spelled) ≡ Ok self.new) }
        ensures fault { IfErr result (λ fault. IsFaultOf fault (with_command self.old (Ok spelled))) }
    {
        let Spelled { command, fits } = spelled;
        if !fits {
            return Err(fault_of_misfit(&self.script, &command));
        }
        match self.script.push(command) {
            Ok(()) => Ok(()),
            Err(ScriptError::Variable) => Err(SceneError::Variable),
            Err(ScriptError::Limit) => Err(SceneError::Limit),
            Err(ScriptError::OutOfMemory) => Err(SceneError::OutOfMemory),
        }
    }

    /// Reads a step or a fault, or the end.
    fn read_in_work(&mut self, line: &[u8]) -> Result<(), SceneError>
        requires { self.old.expected ≡ Expected.Work }
        ensures read { OnOk result (in_work self.old line.now ≡ Ok self.new) }
        ensures fault { IfErr result (λ fault. IsFaultOf fault (in_work self.old line.now)) }
    {
        if is_word(line, b"end") {
            self.expected = Expected::Ended;
            return Ok(());
        }
        add_to_work(&mut self.work, self.shards, &self.scripts, line)
    }
}

/// Adds the step or the fault that the line says.
fn add_to_work(
    work: &mut Work,
    shards: u8,
    scripts: &[Script],
    line: &[u8],
) -> Result<(), SceneError>
    ensures read { OnOk result
        (work_with (record { shards = shards; scripts = scripts.now }) (work_in work.old) line.now
        ≡ Ok (work_in work.new)) }
    ensures fault { IfErr result (λ fault. IsFaultOf fault
        (work_with (record { shards = shards; scripts = scripts.now }) (work_in work.old) line.now)) }
{
    match work {
        Work::Steps(steps) => add_step(steps, line),
        Work::Faults(faults) => add_fault(faults, shards, scripts, line),
    }
}

fn add_step(steps: &mut Vec<Step>, line: &[u8]) -> Result<(), SceneError>
    ensures read { OnOk result (with_step steps.old.items (step_of line.now) ≡ Ok steps.new.items) }
    ensures fault { IfErr result (λ fault. IsFaultOf fault (with_step steps.old.items (step_of line.now))) }
{
    let step = step_of(line).ok_or(SceneError::Word)?;
    steps.push(step).map_err(|_| SceneError::OutOfMemory)
}

fn add_fault(
    faults: &mut Faults,
    shards: u8,
    scripts: &[Script],
    line: &[u8],
) -> Result<(), SceneError>
    ensures read { OnOk result (with_fault faults.old
        (fault_read (record { shards = shards; scripts = scripts.now }) line.now) ≡ Ok faults.new) }
    ensures fault { IfErr result (λ fault. IsFaultOf fault (with_fault faults.old
        (fault_read (record { shards = shards; scripts = scripts.now }) line.now))) }
{
    let fault = fault_read(shards, scripts, line)?;
    faults.push(fault).map_err(|_| SceneError::OutOfMemory)
}
