//! Laws about reports and journals, each the contract of a function with nothing to do.
//! Cited by no other file of crates/.

ghost use Rattle.std.specs.Prelude.{◌≡◌, ℕ, ◌≤◌, true, List, length, Ok};
ghost use Rattle.kt_scenario.specs.declared.step.Step.{Step};
ghost use Rattle.kt_scenario.specs.Scene.{SceneModel};
ghost use Rattle.kt_text.specs.declared.scenario.WorkKind.TheVariants as kinds;
ghost use Rattle.kt_text.specs.declared.reading.TheConstants.{MAX_TEXT};
ghost use Rattle.kt_text.specs.Reading.{scenario_of};
ghost use Rattle.kt_text.specs.Scenario.{IsScenarioModel};
ghost use Rattle.kt_model.specs.State.{State};
ghost use Rattle.kt_scene.specs.Journal.{journal_text};
ghost use Rattle.kt_text.specs.Reading.{scenario_of_steps};
ghost use Rattle.kt_scene.specs.Report.{IsReportOf};

/// A journal's text, where it is not too long, is read as the scenario of its steps, whatever report it begins with.
pub fn what_a_journal_tells_is_read()
    ensures { (report : List ℕ) (scene : SceneModel) (steps : List Step)
        → IsScenarioModel (scenario_of_steps scene steps)
        → length (journal_text report scene steps) ≤ MAX_TEXT
        → scenario_of kinds.Steps (journal_text report scene steps) ≡ Ok (scenario_of_steps scene steps) }
{}

/// A state has one report, whatever order its tuples were found in. So while the store is honest, what is written is a
/// function of the state.
pub fn a_state_has_one_report()
    ensures { (s : State) (text other : List ℕ) → IsReportOf true s text → IsReportOf true s other → text ≡ other }
{}
