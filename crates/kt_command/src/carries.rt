//! What carries the store in a file over.
//! Cited by carrying.rt, request.rt; other crates.
ghost use Rattle.std.specs.Prelude.{IfOk, Result};
ghost use Rattle.kt_store.specs.Content.{Content};
ghost use Rattle.kt_command.specs.Command.{Text};

use kt_store::MemStore;
use std::alloc::Global;

/// What carries the store at a path over to the version that is made now. Connecting uses it up, so who is handed one
/// connects to one file at most.
///
/// As of an opener (`Opens`), what it may answer are relations of which generic code knows nothing.
pub trait Carries<C, F>: Drop {
    /// Holds of a path and each answer that it may give for that path.
    ghost connects: { Self → Text → Result C F → Type 0 };

    /// Holds of a connection, of what a store in memory holds, and of each answer that may be given to these.
    ghost carries: { C → Content → Result (Unit {0}) F → Type 0 };

    /// Holds of a connection that a file can be carried over by.
    ghost ready: { C → Type 0 };

    /// The connection to the file at the path, or why there is none: the text of that stands behind `store: ` in the
    /// line on the errors. Nothing is carried over yet.
    fn connect(self, path: &str) -> Result<C, F>
        ensures answer { connects self path.now result }
        ensures ready { IfOk result ready };

    /// Carries over what is there where it is just what the store holds, in the version before.
    fn carry(alloc: Global, connection: C, store: &MemStore) -> Result<(), F>
        requires { ready connection }
        ensures { carries connection store.now.content result };
}
