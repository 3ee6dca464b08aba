//! A law about the definitions, the contract of a function with nothing to do.
//! Cited by no other file of crates/.

ghost use Rattle.std.specs.Prelude.{◌≡◌, ◌≤◌, List, None};
ghost use Rattle.kt_tuple.specs.declared.op.Answer.{Answer};
ghost use Rattle.kt_script.specs.declared.command.Command.{Command};
ghost use Rattle.kt_script.specs.Next.{IsInScript};
ghost use Rattle.kt_script.specs.Rules.{IsScript};
ghost use Rattle.kt_worker.specs.After.{IsAfter};
ghost use Rattle.kt_worker.specs.Parts.{model_of, misfit_of};
ghost use Rattle.kt_worker.specs.WorkerModel.{WorkerModel};

/// What is read of a worker makes that worker, and fits the script that answers led through; its position is
/// one of that script. No more requests were made than commands stand before its position: `Worker::pc`.
pub fn parts_of_a_worker_make_it_again()
    ensures same { (w : WorkerModel)
        → model_of w.number w.asked w.position.pc w.position.memory.was_none w.position.memory.values ≡ w }
    ensures position { (script : List Command) (answers : List Answer) (w : WorkerModel)
        → IsScript script → IsAfter script answers w → IsInScript script w.position }
    ensures fits { (script : List Command) (answers : List Answer) (w : WorkerModel)
        → IsScript script → IsAfter script answers w → w.number ≤ w.position.pc → misfit_of script w ≡ None }
{}
