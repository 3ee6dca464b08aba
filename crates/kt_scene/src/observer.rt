//! Who is told what a command meets on its way.
//! Cited by replaying.rt; other crates; whoever calls the trait `Observer`.

use crate::fault::ReplayFault;
use kt_core::{Step, World};
use kt_store::CkptStore;
use kt_text::{SceneFault, WorkKind};
use std::alloc::Global;

/// Who is told what a replay or a run meets on its way from bytes to bytes. All that it is shown is lent to it. So
/// nothing that a command writes, stores or answers depends on who observes it.
pub trait Observer {
    /// The text, which is to have work of this kind, has this fault.
    fn misread(&mut self, alloc: Global, text: &[u8], kind: WorkKind, fault: SceneFault);

    /// One of these steps, which the text spells, was refused. The world is that before it.
    fn stopped<S: CkptStore>(
        &mut self,
        alloc: Global,
        text: &[u8],
        world: &World<S>,
        steps: &[Step],
        fault: ReplayFault,
    );

    /// These steps were made of what the text spells: all its steps, or those that its run found. The world is the one
    /// behind them, of which the report is to be written.
    fn ended<S: CkptStore>(&mut self, alloc: Global, text: &[u8], world: &World<S>, steps: &[Step]);
}

/// An observer that takes no notice.
#[derive(Clone, Copy, Debug)]
pub struct Nobody;

impl Observer for Nobody {
    fn misread(&mut self, _alloc: Global, _text: &[u8], _kind: WorkKind, _fault: SceneFault) {}

    fn stopped<S: CkptStore>(
        &mut self,
        _alloc: Global,
        _text: &[u8],
        _world: &World<S>,
        _steps: &[Step],
        _fault: ReplayFault,
    ) {}

    fn ended<S: CkptStore>(
        &mut self,
        _alloc: Global,
        _text: &[u8],
        _world: &World<S>,
        _steps: &[Step],
    ) {}
}
