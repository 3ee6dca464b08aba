//! What a store counts.
//! Cited by store.rt.

ghost use Rattle.std.specs.Prelude.{◌≡◌};
ghost use Rattle.kt_store.specs.Calls.{counted, nothing_counted};

use kt_store::StoreError;
use std::marker::Model;

/// How often the device failed since the opening, and how often memory was refused. Each stays at its greatest value,
/// 2^64 - 1.
#[derive(Drop)]
pub(crate) struct Tally {
    faults: u64,
    wants: u64,
}

impl Model for Tally {
    ghost use Rattle.kt_store.specs.Calls.{Counts};

    ghost Value = { Counts };

    ghost view = { λ t. record { faults = t.faults; wants = t.wants } };
}

impl Tally {
    /// Nothing was counted yet.
    pub(crate) fn new() -> Tally
        ensures { result ≡ nothing_counted }
    {
        Tally {
            faults: 0,
            wants: 0,
        }
    }

    /// How often the device failed.
    pub(crate) fn faults(&self) -> u64
        ensures { result ≡ self.now.faults }
    {
        self.faults
    }

    /// How often memory was refused.
    pub(crate) fn wants(&self) -> u64
        ensures { result ≡ self.now.wants }
    {
        self.wants
    }

    /// Counts the answer: a fault where the device failed, a want where memory was refused, and nothing else.
    pub(crate) fn count<T>(&mut self, answer: &Result<T, StoreError>)
        ensures { self.new ≡ counted answer.now self.old }
    {
        match answer {
            Err(StoreError::Device) => self.faults = self.faults.saturating_add(1),
            Err(StoreError::Memory) => self.wants = self.wants.saturating_add(1),
            Ok(_) | Err(StoreError::Damaged | StoreError::Full) => {}
        }
    }
}
