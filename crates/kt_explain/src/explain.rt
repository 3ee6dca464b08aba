//! A fault of a text, explained.
//! Cited by other crates.

ghost use Rattle.std.specs.Prelude.{◌≡◌, [], IfOk, OnOk};
ghost use Rattle.kt_explain.specs.Shown.{IsPlain};

use crate::case::Case;
use crate::ending::finding_at_end;
use crate::fault_word::finding_in_fault;
use crate::finding::Finding;
use crate::header::finding_in_head;
use crate::limit::{finding_of_limit, finding_of_node};
use crate::part::Part;
use crate::reason::{Limit, Reason};
use crate::script_word::{finding_before_workers, finding_in_script};
use crate::shown::{push_caret, push_line, push_plain, push_shown};
use crate::spacing::{carriage_return, finding_of_spaces};
use crate::step_word::finding_in_step;
use crate::tuple::finding_in_places;
use crate::variable::finding_of_name;
use kt_text::{MAX_TEXT, SceneError, SceneFault, WorkKind};
use std::alloc::{AllocError, Global};

/// What is wrong with the text, which was read as one with this kind of work and has this fault: the line as it is
/// shown, a caret under the byte where the fault begins, and what to do, each ended by a line feed. Of a line that
/// begins as none may there, it is the line and two lines on how lines begin. Of an empty line, of a text that ends
/// too early and of one that is too long, it is what to do alone. Nothing is said of want of memory, nor of a fault
/// that the text has not, as far as that is seen.
pub fn explain_text(
    alloc: Global,
    text: &[u8],
    kind: WorkKind,
    fault: SceneFault,
) -> Result<Vec<u8>, AllocError>
    ensures memory { fault.cause ≡ SceneError.OutOfMemory → IfOk result (λ said. said.items ≡ []) }
    // Whatever the text holds, a terminal shows what is said as it stands.
    ensures plain { IfOk result (λ said. IsPlain said.items) }
{
    if fault.cause == SceneError::OutOfMemory {
        return Ok(Vec::new(alloc));
    }
    if text.len() > MAX_TEXT {
        // The line that is told then is the first, whatever it holds.
        return explain_length(alloc, fault);
    }
    match Case::of(text, kind, fault.line) {
        Some(case) => explain_case(alloc, &case, fault.cause),
        None => Ok(Vec::new(alloc)),
    }
}

fn explain_length(alloc: Global, fault: SceneFault) -> Result<Vec<u8>, AllocError>
    ensures { IfOk result (λ said. IsPlain said.items) }
{
    let mut out = Vec::new(alloc);
    if fault.cause == SceneError::Limit {
        push_reason(&mut out, Reason::Limit(Limit::Text), fault.line)?;
    }
    Ok(out)
}

fn explain_case(alloc: Global, case: &Case<'_>, cause: SceneError) -> Result<Vec<u8>, AllocError>
    ensures { IfOk result (λ said. IsPlain said.items) }
{
    let mut out = Vec::new(alloc);
    if case.is_end_of_text() && cause != SceneError::End {
        return Ok(out);
    }
    let Some(finding) = finding_of(alloc, case, cause)? else {
        return Ok(out);
    };
    if !case.line.is_empty() {
        let at = case.line.len().saturating_sub(finding.rest.len());
        push_line(&mut out, case.line, at)?;
        if !finding.reason.is_of_all() {
            push_caret(&mut out, case.line, at)?;
        }
    }
    push_reason(&mut out, finding.reason, case.number)?;
    Ok(out)
}

/// Appends what is said of the line of this number.
fn push_reason(out: &mut Vec<u8>, reason: Reason, number: usize) -> Result<(), AllocError>
    ensures { OnOk result (IsPlain out.old.items → IsPlain out.new.items) }
{
    let alloc = *out.allocator();
    let first = reason.first_line(alloc, number)?;
    push_said(out, first.as_bytes())?;
    match reason.second_line() {
        Some(second) => push_said(out, second.as_bytes()),
        None => Ok(()),
    }
}

fn push_said(out: &mut Vec<u8>, line: &[u8]) -> Result<(), AllocError>
    ensures { OnOk result (IsPlain out.old.items → IsPlain out.new.items) }
{
    push_plain(out, b"  ")?;
    push_shown(out, line)?;
    push_plain(out, b"\n")
}

/// What is wrong with the line.
fn finding_of<'a>(
    alloc: Global,
    case: &Case<'a>,
    cause: SceneError,
) -> Result<Option<Finding<'a>>, AllocError> {
    match cause {
        SceneError::Header | SceneError::Word | SceneError::Tuple => {
            match carriage_return(case.line) {
                Some(finding) => Ok(Some(finding)),
                None => finding_of_form(alloc, case, cause),
            }
        }
        SceneError::Variable => finding_of_name(alloc, case),
        SceneError::Limit => Ok(finding_of_limit(case)),
        SceneError::Node => Ok(finding_of_node(case)),
        SceneError::End => Ok(Some(finding_at_end(case))),
        SceneError::OutOfMemory => Ok(None),
    }
}

/// What is wrong with the form of the line.
fn finding_of_form<'a>(
    alloc: Global,
    case: &Case<'a>,
    cause: SceneError,
) -> Result<Option<Finding<'a>>, AllocError> {
    match cause {
        SceneError::Header => finding_in_head(alloc, case),
        SceneError::Tuple => Ok(finding_in_places(case.line)),
        _ => finding_of_word(alloc, case),
    }
}

/// Why no rule allows the line.
fn finding_of_word<'a>(alloc: Global, case: &Case<'a>) -> Result<Option<Finding<'a>>, AllocError> {
    if let Some(finding) = finding_of_spaces(case.line) {
        return Ok(Some(finding));
    }
    match case.part {
        Part::Workers => Ok(Some(finding_before_workers(alloc, case)?)),
        Part::Scripts => Ok(Some(finding_in_script(alloc, case)?)),
        Part::Steps => Ok(Some(finding_in_step(alloc, case)?)),
        Part::Faults => Ok(Some(finding_in_fault(alloc, case)?)),
        Part::Title | Part::Shards | Part::Ended => Ok(None),
    }
}
