//! What a replay or a run came to, in a few lines.
//! Cited by other crates.

use crate::checks::{begun_count, push_checks};
use crate::faults::push_faults;
use crate::lost::{makers_of, push_losses};
use crate::remaking::{Remade, remake};
use crate::workers::push_workers;
use kt_core::{Step, World};
use kt_history::History;
use kt_store::CkptStore;
use kt_text::{Scenario, SceneError, SceneFault, Work, WorkKind, read_scene};
use std::alloc::{AllocError, Global};

/// The scenario that the text spells with work of this kind; `None` where it spells none. `AllocError` where memory is
/// wanting to read it.
fn scenario_of(alloc: Global, text: &[u8], kind: WorkKind) -> Result<Option<Scenario>, AllocError> {
    match read_scene(alloc, text, kind) {
        Ok(scenario) => Ok(Some(scenario)),
        Err(
            SceneFault {
                cause: SceneError::OutOfMemory,
                ..
            },
        ) => Err(AllocError),
        Err(_) => Ok(None),
    }
}

/// The steps made once more from the opening of the scene of this text, which is one of steps.
fn remade_of_steps(
    alloc: Global,
    text: &[u8],
    steps: &[Step],
) -> Result<Option<Remade>, AllocError> {
    match scenario_of(alloc, text, WorkKind::Steps)? {
        Some(Scenario { scene, work }) => {
            drop(work);
            remake(alloc, scene, steps)
        }
        None => Ok(None),
    }
}

/// The lines on fault lines, where this is a scenario of some, and the steps made once more from the opening of the
/// text's scene.
fn push_run(
    alloc: Global,
    out: &mut Vec<u8>,
    text: &[u8],
    steps: &[Step],
) -> Result<Option<Remade>, AllocError> {
    match scenario_of(alloc, text, WorkKind::Faults)? {
        Some(Scenario { scene, work }) => {
            let pushed = push_work(alloc, out, text, &work, steps);
            drop(work);
            match pushed {
                Ok(()) => remake(alloc, scene, steps),
                Err(error) => {
                    drop(scene);
                    Err(error)
                }
            }
        }
        None => remade_of_steps(alloc, text, steps),
    }
}

/// The lines on fault lines, where the work is some.
fn push_work(
    alloc: Global,
    out: &mut Vec<u8>,
    text: &[u8],
    work: &Work,
    steps: &[Step],
) -> Result<(), AllocError> {
    match work {
        Work::Faults(faults) => push_faults(alloc, out, text, faults, steps),
        Work::Steps(_) => Ok(()),
    }
}

/// The lines on what was lost and how checks ended, with what the steps lead to where that is known.
fn push_lost_and_checks(
    alloc: Global,
    out: &mut Vec<u8>,
    history: &History,
    steps: &[Step],
    again: Option<&Remade>,
) -> Result<(), AllocError> {
    match again {
        Some(remade) => {
            let makers = makers_of(history.notes(), &remade.makers);
            push_losses(alloc, out, history, steps, makers)?;
            push_checks(out, steps, remade.store.board())
        }
        None => {
            push_losses(alloc, out, history, steps, &[])?;
            push_untold(out, begun_count(steps))
        }
    }
}

/// Says that so many checks and rollbacks are not told of, where there are any.
fn push_untold(out: &mut Vec<u8>, count: usize) -> Result<(), AllocError> {
    if count == 0 {
        return Ok(());
    }
    out.extend_from_slice(b"  how checks ended is not told of a world that was resumed\n")
}

/// What the world came to that these steps led to, which the text spells or whose run under its fault lines found them:
/// who finished, who waits for what and where; which fault lines struck; what was lost, and by what; how checks ended.
/// A few plain lines, 40 at most, each of which begins with two spaces. `AllocError` where memory is wanting.
///
/// It makes the steps once more to know which of them did what, and so takes the time and the memory of a replay.
pub fn explain_end<S: CkptStore>(
    alloc: Global,
    text: &[u8],
    world: &World<S>,
    steps: &[Step],
) -> Result<Vec<u8>, AllocError> {
    let mut out = Vec::new(alloc);
    match push_end(alloc, &mut out, text, world, steps) {
        Ok(()) => Ok(out),
        Err(error) => {
            drop(out);
            Err(error)
        }
    }
}

/// Those lines.
fn push_end<S: CkptStore>(
    alloc: Global,
    out: &mut Vec<u8>,
    text: &[u8],
    world: &World<S>,
    steps: &[Step],
) -> Result<(), AllocError> {
    push_workers(alloc, out, world)?;
    let again = push_run(alloc, out, text, steps)?;
    let pushed = push_lost_and_checks(alloc, out, world.history(), steps, again.as_ref());
    drop(again);
    pushed
}
