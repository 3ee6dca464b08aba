//! What gives a copy of the store at a path, to be shown.
//! Cited by request.rt, showing.rt; other crates.
ghost use Rattle.std.specs.Prelude.{Result};
ghost use Rattle.kt_command.specs.Command.{Text};

/// What opens a copy of the store at a path. Opening uses it up, so who is handed one copies one store at most.
///
/// As of an opener (`Opens`), what it may answer is a relation of which generic code knows nothing. So such code can
/// show that what it shows is a copy for this path in one way alone: by having this one open it.
pub trait Shows<S, F>: Drop {
    /// Holds of a path and each answer that it may give for that path.
    ghost gives_copy: { Self → Text → Result S F → Type 0 };

    /// A copy of the store at the path, of which nothing is changed, or why there is none: the text of that stands
    /// behind `store: ` in the line on the errors. Nothing is to be put away: the copy goes with the store.
    fn open_copy(self, path: &str) -> Result<S, F>
        ensures { gives_copy self path.now result };
}
