//! A law about the definitions, the contract of a function with nothing to do.
//! Cited by no other file of crates/.

ghost use Rattle.std.specs.Prelude.{◌≡◌, List, true};
ghost use Rattle.kt_history.specs.WellFormed.{CausesComeFirst};
ghost use Rattle.kt_losses.specs.Losses.{IsService};
ghost use Rattle.kt_model.specs.Reached.{opening};
ghost use Rattle.kt_scenario.specs.Scene.{SceneModel};
ghost use Rattle.kt_scenario.specs.declared.step.Step.{Step};
ghost use Rattle.kt_story.specs.Blames.{IsBlamed};
ghost use Rattle.kt_story.specs.Story.{IsStoryOf, StoryModel, act_is_lost};
ghost use Rattle.kt_story.specs.declared.story.Blame.{Blame};
ghost use Rattle.kt_trace.specs.declared.traced.TracedStep.{TracedStep};

/// In a story from the opening of a scene on, each service that is lost has a step that is to blame. In a history of a
/// world causes come first.
pub fn each_lost_service_has_a_step_to_blame()
    ensures { (scene : SceneModel) (steps : List Step) (story : StoryModel) → IsStoryOf (opening scene) steps story
        → CausesComeFirst story.state.history → (row : TracedStep) → IsService story.state.history row.notes
        → act_is_lost story.state.history row ≡ true → (blame : Blame) × IsBlamed story row blame }
{}
