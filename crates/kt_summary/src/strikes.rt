//! Which fault lines struck, and by which step.
//! Cited by faults.rt.

ghost use Rattle.std.specs.Prelude.{◌≡◌, ◌≤◌, ℕ, IfOk, Some, length, map, slice_get, OnOk};
ghost use Rattle.kt_summary.specs.Strikes.{IsOutcome, faults_asked, faults_told};
ghost use Rattle.kt_summary.specs.auxiliary.Marking.{AreNoted, first_by, is_kind_of_fault, noted_one, unstruck};

use kt_core::{Fault, FaultLine, Faults, Step};
use std::alloc::{AllocError, Global};

/// What came of a fault line.
#[derive(Clone, Copy, Debug, PartialEq, Eq)]
pub struct FaultEnd {
    /// What the line asks for.
    pub fault: Fault,
    /// The number of the step that it struck by, counted from 1, and 0 where it was spent before the first. `None`
    /// where it was not spent.
    pub by: Option<u64>,
}

/// For each fault line, in the order of the lines, the step that it struck by: with the steps before that one it is not
/// spent, and with that one it is. `AllocError` where memory is wanting.
///
/// For each failure and each check it looks at each line.
pub fn struck(alloc: Global, faults: &Faults, steps: &[Step]) -> Result<Vec<FaultEnd>, AllocError>
    ensures lines { IfOk result (λ found. faults_told found.items ≡ faults_asked faults.now) }
    ensures each { IfOk result (λ found. (place : ℕ) (x : FaultEnd) → slice_get found.items place ≡ Some x
        → IsOutcome faults.now steps.now place x.by) }
{
    let mut left = faults.copy(alloc)?;
    let mut found = unstruck(alloc, faults.lines())?;
    for (place, step) in steps.iter().enumerate() {
        left.spend(step);
        if is_kind_of_fault(step) {
            note(&mut found, left.lines(), place as u64 + 1);
        }
    }
    Ok(found)
}

/// Whether it is a step of a kind that fault lines ask for: no other step marks a line.
fn is_kind_of_fault(step: &Step) -> bool
    ensures { result ≡ is_kind_of_fault step.now }
{
    matches!(step, Step::Fail { .. } | Step::Check { .. })
}

/// Each line before the first step.
fn unstruck(alloc: Global, lines: &[FaultLine]) -> Result<Vec<FaultEnd>, AllocError>
    ensures { IfOk result (λ found. found.items ≡ map unstruck lines.now) }
{
    let mut found = Vec::new(alloc);
    for line in lines {
        found.push(FaultEnd {
            fault: line.fault,
            by: first_by(None, line.is_marked, 0),
        })?;
    }
    Ok(found)
}

/// Writes the step's number to each line that is marked and had none.
fn note(found: &mut [FaultEnd], lines: &[FaultLine], number: u64)
    requires { length lines.now ≡ length found.old }
    ensures { AreNoted lines.now number found.old found.new }
{
    for place in 0..found.len() {
        found[place] = noted_one(found[place], lines[place], number);
    }
}

/// What came of the line once the step of this number was made, which left the line so.
fn noted_one(struck: FaultEnd, line: FaultLine, number: u64) -> FaultEnd
    ensures { result ≡ noted_one line number struck }
{
    FaultEnd {
        fault: struck.fault,
        by: first_by(struck.by, line.is_marked, number),
    }
}

/// The step that was known, or else this one, where the line is marked.
fn first_by(by: Option<u64>, is_marked: bool, number: u64) -> Option<u64>
    ensures { result ≡ first_by by is_marked number }
{
    match by {
        Some(known) => Some(known),
        None => if is_marked { Some(number) } else { None },
    }
}
