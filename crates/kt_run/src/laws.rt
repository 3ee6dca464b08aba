//! Laws about runs and their journals, each the contract of a function with nothing to do.
//! Cited by no other file of crates/.

ghost use Rattle.std.specs.Prelude.{◌≡◌, ℕ, ◌≤◌, [], All, List, Ok, length, true};
ghost use Rattle.kt_script.specs.Rules.{IsScript};
ghost use Rattle.kt_store.specs.Content.{Content};
ghost use Rattle.kt_core.specs.declared.start.Start.TheVariants as starts;
ghost use Rattle.kt_scenario.specs.declared.step.Step.{Step};
ghost use Rattle.kt_scenario.specs.Scene.{SceneModel, IsScene};
ghost use Rattle.kt_model.specs.Reached.{opening};
ghost use Rattle.kt_model.specs.Resumed.{resumed};
ghost use Rattle.kt_model.specs.State.{State};
ghost use Rattle.kt_text.specs.declared.reading.TheConstants.{MAX_TEXT};
ghost use Rattle.kt_scene.specs.Journal.{journal_text};
ghost use Rattle.kt_text.specs.Reading.{scenario_of_steps};
ghost use Rattle.kt_scene.specs.Report.{IsReportOf};
ghost use Rattle.kt_scene.specs.Run.{LeadsTo};
ghost use Rattle.kt_scene.specs.Runs.{RunsTo};
ghost use Rattle.kt_text.specs.Scenario.{IsScenarioModel, IsScenario, IsStep};
ghost use Rattle.kt_stage.specs.Journal.{all_made};
ghost use Rattle.kt_run.specs.Run.{IsRunOf};

/// Steps that lead from the opening of a scene to some state can be said by lines. Each names nodes by numbers from 1
/// to `MAX_NODE_NUMBER`, and a match by a place up to `MAX_MATCH`.
pub fn what_was_made_can_be_said()
    ensures { (scene : SceneModel) (steps : List Step) (s : State) → IsScene scene → All IsScript scene.scripts
        → RunsTo (opening scene) steps s → All IsStep steps }
{}

/// The steps of a journal that began with the opening of a scene are told by a scenario of steps, where its text is not
/// too long, whatever report stands before it. Its replay over an honest store leads to the state that the journal has,
/// and to no other. So both have one report.
pub fn what_was_made_is_replayed()
    ensures scenario { (scene : SceneModel) (steps : List Step) (s : State) (report : List ℕ)
        → IsScenarioModel (scenario_of_steps scene [])
        → all_made (opening scene) steps ≡ Ok s → length (journal_text report scene steps) ≤ MAX_TEXT
        → IsScenario (journal_text report scene steps) (scenario_of_steps scene steps) }
    ensures same { (scene : SceneModel) (steps : List Step) (s : State) (report : List ℕ)
        → IsScenarioModel (scenario_of_steps scene [])
        → all_made (opening scene) steps ≡ Ok s → (c : Content) (t : State)
        → LeadsTo starts.Open (journal_text report scene steps) true c t → t ≡ s }
    ensures report { (scene : SceneModel) (steps : List Step) (s : State) (report : List ℕ)
        → IsScenarioModel (scenario_of_steps scene [])
        → all_made (opening scene) steps ≡ Ok s → (c : Content) (t : State)
        → LeadsTo starts.Open (journal_text report scene steps) true c t
        → (text other : List ℕ) → IsReportOf true s text → IsReportOf true t other → text ≡ other }
{}

/// What a run over an honest store tells as its journal, where that is not too long, is the text of a scenario of
/// steps. Its replay over an honest store leads to the state that the run ended in, and to no other. So both have one
/// report.
pub fn what_a_run_tells_is_replayed()
    ensures scenario { (text : List ℕ) (c : Content) (steps : List Step) (s : State) (report : List ℕ)
        → IsRunOf starts.Open text true c steps s → length (journal_text report s.scene steps) ≤ MAX_TEXT
        → IsScenario (journal_text report s.scene steps) (scenario_of_steps s.scene steps) }
    ensures made { (text : List ℕ) (c : Content) (steps : List Step) (s : State)
        → IsRunOf starts.Open text true c steps s
        → RunsTo (opening s.scene) steps s }
    ensures same { (text : List ℕ) (c : Content) (steps : List Step) (s : State) (report : List ℕ)
        → IsRunOf starts.Open text true c steps s
        → (again : Content) (t : State) → LeadsTo starts.Open (journal_text report s.scene steps) true again t → t ≡ s }
    ensures report { (text : List ℕ) (c : Content) (steps : List Step) (s : State) (report : List ℕ)
        → IsRunOf starts.Open text true c steps s
        → (again : Content) (t : State) → LeadsTo starts.Open (journal_text report s.scene steps) true again t
        → (told other : List ℕ) → IsReportOf true s told → IsReportOf true t other → told ≡ other }
{}

/// What a run of a resumed world over an honest store tells as its journal, where that is not too long and a line can
/// say each step, is the text of a scenario of steps. Where it is resumed over an honest store that holds what the run
/// found, it leads to the state that the run ended in, and to no other. So both have one report.
pub fn what_a_resumed_run_tells_is_resumed()
    ensures scenario { (text : List ℕ) (c : Content) (steps : List Step) (s : State) (report : List ℕ)
        → IsRunOf starts.Resume text true c steps s → All IsStep steps
        → length (journal_text report s.scene steps) ≤ MAX_TEXT
        → IsScenario (journal_text report s.scene steps) (scenario_of_steps s.scene steps) }
    ensures made { (text : List ℕ) (c : Content) (steps : List Step) (s : State)
        → IsRunOf starts.Resume text true c steps s → RunsTo (resumed s.scene c) steps s }
    ensures same { (text : List ℕ) (c : Content) (steps : List Step) (s : State) (report : List ℕ)
        → IsRunOf starts.Resume text true c steps s → All IsStep steps
        → (t : State) → LeadsTo starts.Resume (journal_text report s.scene steps) true c t → t ≡ s }
    ensures report { (text : List ℕ) (c : Content) (steps : List Step) (s : State) (report : List ℕ)
        → IsRunOf starts.Resume text true c steps s → All IsStep steps
        → (t : State) → LeadsTo starts.Resume (journal_text report s.scene steps) true c t
        → (told other : List ℕ) → IsReportOf true s told → IsReportOf true t other → told ≡ other }
{}
