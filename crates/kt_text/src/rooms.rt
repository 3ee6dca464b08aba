//! Room for the places of one command.
//! Cited by command.rt, draft.rt, reading.rt.

ghost use Rattle.std.specs.Prelude.{◌≡◌, OnOk};
ghost use Rattle.kt_text.specs.auxiliary.Room.{IsReady};

use kt_script::{Actual, Slot};
use kt_tuple::MAX_PLACES;
use std::alloc::{AllocError, Global};
use std::mem;

/// Room for the places of the command that the next line may spell. It is made before that line is read: so the line is
/// judged whole and takes no memory, and want of memory hides no fault of it (docs/DECISIONS.md#values). The next lines
/// use it again.
#[derive(Drop)]
pub(crate) struct Rooms {
    pub(crate) slots: Vec<Slot>,
    pub(crate) actuals: Vec<Actual>,
}

impl Rooms {
    /// No room yet.
    pub(crate) fn new(alloc: Global) -> Rooms {
        Rooms {
            slots: Vec::new(alloc),
            actuals: Vec::new(alloc),
        }
    }

    /// Makes room for `MAX_PLACES` places, as those of a template and as those of a tuple, where there is none.
    pub(crate) fn make(&mut self) -> Result<(), AllocError>
        ensures { OnOk result (IsReady self.new) }
    {
        self.slots.clear();
        self.slots.reserve_exact(MAX_PLACES)?;
        self.actuals.clear();
        self.actuals.reserve_exact(MAX_PLACES)
    }
}

/// The places in this room, in a block of just their number. Where no such block is to be had, the room itself holds
/// them, and is given away: whether the command may follow is judged all the same.
pub(crate) fn taken_out<T>(room: &mut Vec<T>) -> Vec<T>
    ensures { result.items ≡ room.old.items }
{
    let alloc = *room.allocator();
    let Ok(mut places) = Vec::with_capacity(alloc, room.len()) else {
        return mem::replace(room, Vec::new(alloc));
    };
    places.append(room).unwrap();
    places
}
