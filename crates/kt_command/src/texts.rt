//! What opens the file of a scenario.
//! Cited by request.rt; other crates.
ghost use Rattle.std.specs.Prelude.{Result};
ghost use Rattle.kt_command.specs.Command.{Text};

/// What opens the scenario in a file, for reading.
///
/// As of an opener (`Opens`), what it may answer is a relation of which generic code knows nothing.
pub trait Texts<X, Y> {
    /// Holds of a path and each answer that it may give for that path.
    ghost gives_text: { Self → Text → Result X Y → Type 0 };

    /// A reader of the file at the path, from its beginning, or why there is none: the text of that stands behind the
    /// path in the line on the errors.
    fn open_text(&self, path: &str) -> Result<X, Y>
        ensures { gives_text self.now path.now result };
}
