//! The tally of reports, as text.
//! Cited by times.rt.

ghost use Rattle.std.specs.Prelude.{◌≡◌, ◌++◌, [], length, bytes_eq, count_by, if◌then◌else◌, IfOk, OnOk};
ghost use Rattle.std.specs.List.{list_any};
ghost use Rattle.kt_trials.specs.Tally.{tally_text, times_line, told};
ghost use Rattle.kt_trials.specs.auxiliary.Telling.{has, items_of};

use kt_tuple::writing::push_number;
use std::alloc::{AllocError, Global};

/// Whether the report is one of these.
fn has(reports: &[Vec<u8>], report: &[u8]) -> bool
    ensures { result ≡ list_any (λ other. bytes_eq other.items report.now) reports.now }
{
    reports.iter().any(|other| other.as_slice() == report)
}

/// How often the report is among these.
fn times_in(reports: &[Vec<u8>], report: &[u8]) -> usize
    ensures { result ≡ count_by (λ other. bytes_eq other.items report.now) reports.now }
{
    reports
        .iter()
        .filter(|other| other.as_slice() == report)
        .count()
}

/// The line that tells so many of so many runs.
fn push_times(out: &mut Vec<u8>, times: usize, all: usize) -> Result<(), AllocError>
    ensures { OnOk result (out.new.items ≡ out.old.items ++ times_line times all) }
{
    out.extend_from_slice(b"# ")?;
    push_number(out, times as u64)?;
    out.extend_from_slice(b" of ")?;
    push_number(out, all as u64)?;
    out.extend_from_slice(b" runs\n")
}

/// The report of one of all runs, where no run before it has the same: how often it came, and its lines.
fn push_new(
    out: &mut Vec<u8>,
    before: &[Vec<u8>],
    all: &[Vec<u8>],
    report: &[u8],
) -> Result<(), AllocError>
    ensures { OnOk result (out.new.items ≡ out.old.items
        ++ (if has (items_of before.now) report.now then [] else told (items_of all.now) report.now)) }
{
    if has(before, report) {
        return Ok(());
    }
    push_times(out, times_in(all, report), all.len())?;
    out.extend_from_slice(report)
}

/// The tally of the reports, each of which stands at the place of its run.
pub(crate) fn tally_of(alloc: Global, reports: &[Vec<u8>]) -> Result<Vec<u8>, AllocError>
    ensures { IfOk result (λ tally. tally.items ≡ tally_text (items_of reports.now)) }
{
    let mut out = Vec::new(alloc);
    for (i, report) in reports.iter().enumerate() {
        push_new(&mut out, &reports[..i], reports, report)?;
    }
    Ok(out)
}
