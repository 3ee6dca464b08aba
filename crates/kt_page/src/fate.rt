//! What became of each service and of each check and rollback, up to a step.
//! Cited by page.rt, table.rt.

use crate::parts::{Part, text_of};
use kt_cells::add_text;
use kt_core::Step;
use kt_history::{Act, Note, What};
use kt_story::{Story, push_reason, push_service};
use kt_trace::TracedStep;
use kt_tuple::{Answer, NodeId, Op};
use std::alloc::{AllocError, Global};

/// A service.
#[derive(Drop)]
pub(crate) struct Fate {
    /// The number of the step that made it.
    pub step: u64,
    /// The shard.
    pub node: NodeId,
    /// Which request it is: `w1.3`.
    pub name: Vec<u8>,
    /// What was asked and got.
    pub text: Vec<u8>,
    /// The number of the step that lost it, and why, where it is lost.
    lost: Option<(u64, Vec<u8>)>,
}

/// A check or a rollback.
#[derive(Clone, Copy)]
pub(crate) struct Begun {
    /// Its number.
    pub instance: u64,
    /// Whether it is a check.
    pub is_check: bool,
    /// Who began it.
    pub node: NodeId,
    /// The number of the step that began it.
    pub step: u64,
    /// The number of the step that wrote its verdict, and whether that is yes.
    ruled: Option<(u64, bool)>,
}

/// The services, the checks and the rollbacks of a story, each in its order.
#[derive(Drop)]
pub(crate) struct Fates {
    pub services: Vec<Fate>,
    pub instances: Vec<Begun>,
}

impl Fates {
    /// Those of the story.
    pub fn of(alloc: Global, story: &Story) -> Result<Fates, AllocError> {
        let mut fates = Fates {
            services: Vec::new(alloc),
            instances: Vec::new(alloc),
        };
        match fates.find(alloc, story) {
            Ok(()) => Ok(fates),
            Err(error) => {
                drop(fates);
                Err(error)
            }
        }
    }

    /// Puts those of the story behind the others.
    fn find(&mut self, alloc: Global, story: &Story) -> Result<(), AllocError> {
        for row in story.rows() {
            push_fate(alloc, &mut self.services, story, row)?;
            push_begun(&mut self.instances, story, row)?;
        }
        Ok(())
    }

    /// What the cells of services and verdicts, and the one of the tally, show after the step of this number.
    pub fn cells(&self, alloc: Global, at: u64) -> Result<Vec<Vec<Vec<u8>>>, AllocError> {
        let mut cells = Vec::new(alloc);
        match self.push_cells(alloc, &mut cells, at) {
            Ok(()) => Ok(cells),
            Err(error) => {
                drop(cells);
                Err(error)
            }
        }
    }

    /// Puts those cells behind the others.
    pub fn push_cells(
        &self,
        alloc: Global,
        cells: &mut Vec<Vec<Vec<u8>>>,
        at: u64,
    ) -> Result<(), AllocError> {
        for service in &self.services {
            push_cell(alloc, cells, service.shown(at))?;
        }
        for begun in &self.instances {
            push_cell(alloc, cells, begun.shown(at))?;
        }
        push_tally(alloc, cells, self.made(at), self.lost(at))
    }

    /// How many services are made after the step of this number.
    fn made(&self, at: u64) -> u64 {
        let mut made = 0u64;
        for service in &self.services {
            if service.step <= at {
                made = made.saturating_add(1);
            }
        }
        made
    }

    /// How many of them are lost by then.
    fn lost(&self, at: u64) -> u64 {
        let mut lost = 0u64;
        for service in &self.services {
            if service.step <= at && service.loss_at(at).is_some() {
                lost = lost.saturating_add(1);
            }
        }
        lost
    }
}

impl Fate {
    /// Why it is lost after the step of this number, where it is by then.
    fn loss_at(&self, at: u64) -> Option<&[u8]> {
        match &self.lost {
            Some((step, reason)) if *step <= at => Some(reason),
            _ => None,
        }
    }

    /// What its cell shows: nothing before it is made, and then what became of it.
    fn shown(&self, at: u64) -> Option<&[u8]> {
        if at < self.step {
            return None;
        }
        match self.loss_at(at) {
            Some(reason) => Some(reason),
            None => Some(b"survives"),
        }
    }
}

impl Begun {
    /// What its cell shows: nothing before it is begun, and then its verdict.
    fn shown(self, at: u64) -> Option<&'static [u8]> {
        if at < self.step {
            return None;
        }
        match self.ruled {
            Some((step, true)) if step <= at => Some(b"yes"),
            Some((step, false)) if step <= at => Some(b"no"),
            _ => Some(b"open"),
        }
    }
}

/// Puts a cell that shows this text behind the others, or one that shows nothing.
fn push_cell(
    alloc: Global,
    cells: &mut Vec<Vec<Vec<u8>>>,
    shown: Option<&[u8]>,
) -> Result<(), AllocError> {
    let lines = lines_of(alloc, shown)?;
    cells.push(lines)?;
    Ok(())
}

/// The text as the only line, or no line.
fn lines_of(alloc: Global, shown: Option<&[u8]>) -> Result<Vec<Vec<u8>>, AllocError> {
    let mut lines = Vec::new(alloc);
    if let Some(text) = shown {
        add_text(alloc, &mut lines, text)?;
    }
    Ok(lines)
}

/// Puts the cell of the tally behind the others: how many services were made, and how many of them are lost.
fn push_tally(
    alloc: Global,
    cells: &mut Vec<Vec<Vec<u8>>>,
    made: u64,
    lost: u64,
) -> Result<(), AllocError> {
    let lines = tally_lines(alloc, made, lost)?;
    cells.push(lines)?;
    Ok(())
}

fn tally_lines(alloc: Global, made: u64, lost: u64) -> Result<Vec<Vec<u8>>, AllocError> {
    let mut lines = Vec::new(alloc);
    match push_tally_lines(alloc, &mut lines, made, lost) {
        Ok(()) => Ok(lines),
        Err(error) => {
            drop(lines);
            Err(error)
        }
    }
}

fn push_tally_lines(
    alloc: Global,
    lines: &mut Vec<Vec<u8>>,
    made: u64,
    lost: u64,
) -> Result<(), AllocError> {
    push_line(
        alloc,
        lines,
        &[Part::Count(made, b"service"), Part::Text(b" made")],
    )?;
    let kept = [
        Part::Number(made.saturating_sub(lost)),
        Part::Text(b" not lost, "),
        Part::Number(lost),
        Part::Text(b" lost"),
    ];
    push_line(alloc, lines, &kept)
}

/// Puts a line of these parts behind the others.
fn push_line(
    alloc: Global,
    lines: &mut Vec<Vec<u8>>,
    parts: &[Part<'_>],
) -> Result<(), AllocError> {
    let line = text_of(alloc, parts)?;
    lines.push(line)?;
    Ok(())
}

/// Puts the service of the row behind the others, where the row has one.
fn push_fate(
    alloc: Global,
    services: &mut Vec<Fate>,
    story: &Story,
    row: &TracedStep,
) -> Result<(), AllocError> {
    if let Some(Note::Act(act)) = &row.note {
        if let What::Served(answer) = &act.what {
            let fate = fate_of(alloc, story, row, act, answer)?;
            services.push(fate)?;
        }
    }
    Ok(())
}

/// Puts the check or the rollback that the row begins behind the others, where it begins one.
fn push_begun(
    instances: &mut Vec<Begun>,
    story: &Story,
    row: &TracedStep,
) -> Result<(), AllocError> {
    if let Some(instance) = row.begun {
        instances.push(Begun {
            instance,
            is_check: matches!(row.step, Step::Check { .. }),
            node: row.node,
            step: row.number,
            ruled: ruled(story, instance),
        })?;
    }
    Ok(())
}

/// The service of the row, whose act that is.
fn fate_of(
    alloc: Global,
    story: &Story,
    row: &TracedStep,
    act: &Act,
    answer: &Answer,
) -> Result<Fate, AllocError> {
    let name = name_of(alloc, act)?;
    let text = told(alloc, &act.op, answer)?;
    let lost = loss_of(alloc, story, row)?;
    Ok(Fate {
        step: row.number,
        node: row.node,
        name,
        text,
        lost,
    })
}

/// Which request the act is of.
fn name_of(alloc: Global, act: &Act) -> Result<Vec<u8>, AllocError> {
    let parts = [
        Part::Node(NodeId::Worker(act.worker)),
        Part::Text(b"."),
        Part::Number(act.number),
    ];
    text_of(alloc, &parts)
}

/// What was asked and got.
fn told(alloc: Global, op: &Op, answer: &Answer) -> Result<Vec<u8>, AllocError> {
    let mut text = Vec::new(alloc);
    push_service(&mut text, op, answer, usize::MAX)?;
    Ok(text)
}

/// The number of the step that lost the row's service, and why.
fn loss_of(
    alloc: Global,
    story: &Story,
    row: &TracedStep,
) -> Result<Option<(u64, Vec<u8>)>, AllocError> {
    match story.blame(row) {
        Some(blame) => {
            let mut reason = Vec::new(alloc);
            push_reason(&mut reason, blame)?;
            Ok(Some((blame.step, reason)))
        }
        None => Ok(None),
    }
}

/// The step that wrote the verdict on the instance, and whether that is yes.
fn ruled(story: &Story, instance: u64) -> Option<(u64, bool)> {
    for row in story.rows() {
        if let Some(ruling) = row.ruling {
            if ruling.instance == instance {
                return Some((row.number, ruling.yes));
            }
        }
    }
    None
}
