//! Laws of the definitions, each the contract of a function that does nothing.
ghost use Rattle.std.specs.Prelude.{◌≡◌, ℕ, ◌≤◌, List, [], ◌∷◌, ◌++◌, None, Option, codes, length};
ghost use Rattle.kdf_theory.specs.MachineView.{MachineView};
ghost use Rattle.kdf_job.specs.More.{joined, more_events};
ghost use Rattle.kdf_job.specs.Reading.{job, job_fault};
ghost use Rattle.kdf_service.specs.Rules.{IsService};
ghost use Rattle.kdf_top.specs.Answers.{IsCalledFor, IsDueFor, IsMade};
ghost use Rattle.kdf_command.specs.Commands.{job_limit, text_limit};
ghost use Rattle.kdf_top.specs.Saved.{GoesOnWith, IsFurther, IsResumed, IsWholeRun};
ghost use Rattle.kdf_command.specs.declared.command.Command.TheVariants as command;
ghost use Rattle.kdf_top.specs.declared.status.Status.{Status};
ghost use Rattle.kdf_top.specs.declared.status.Status.TheVariants as status;

/// A run that is saved after any call, and resumed with the rest of its schedule, is the whole run.
///
/// Let `save` have made `saved` of a job's bytes, as `run_with` tells it at Done, and let `more` be further lines of the job's schedule
/// without a fault. Then `resume` reads the two, one after the other, as the job with the further events, and nothing of them is refused:
/// Done is called for, and nothing else. And let `whole` be the text of the whole run. Then `resume` makes of the two what `run` makes of
/// `whole`, the report and the machine, and it makes nothing else; and the text that is due is the same. The whole run is, above all, the
/// job with the further lines in place of its last line.
pub fn saved_again<F: Fn(u64) -> u64>()
    ensures resumed { (rule : F) → IsService (F.pre rule) (F.post rule) → (bytes saved more : List ℕ)
        (kept : Option MachineView) → IsMade (F.post rule) command.Save bytes saved kept → IsFurther (job bytes) more →
        IsResumed (F.post rule) (joined (job bytes) (more_events more)) (saved ++ more) }
    ensures called { (rule : F) → IsService (F.pre rule) (F.post rule) → (bytes saved more : List ℕ)
        (kept : Option MachineView) → IsMade (F.post rule) command.Save bytes saved kept → IsFurther (job bytes) more →
        length (saved ++ more) ≤ text_limit →
        IsCalledFor (F.post rule) (codes "resume" ∷ []) (saved ++ more) status.Done
        × ((called : Status) → IsCalledFor (F.post rule) (codes "resume" ∷ []) (saved ++ more) called →
        called ≡ status.Done) }
    ensures run { (rule : F) → IsService (F.pre rule) (F.post rule) → (bytes saved more whole report : List ℕ)
        (kept machine : Option MachineView) → IsMade (F.post rule) command.Save bytes saved kept →
        IsFurther (job bytes) more → IsWholeRun (job bytes) more whole →
        IsMade (F.post rule) command.Run whole report machine →
        IsMade (F.post rule) command.Resume (saved ++ more) report machine }
    ensures resume { (rule : F) → IsService (F.pre rule) (F.post rule) → (bytes saved more whole report : List ℕ)
        (kept machine : Option MachineView) → IsMade (F.post rule) command.Save bytes saved kept →
        IsFurther (job bytes) more → IsWholeRun (job bytes) more whole →
        IsMade (F.post rule) command.Resume (saved ++ more) report machine →
        IsMade (F.post rule) command.Run whole report machine }
    ensures report { (rule : F) → IsService (F.pre rule) (F.post rule)
        → (bytes saved more whole report other : List ℕ) (kept machine second : Option MachineView) →
        IsMade (F.post rule) command.Save bytes saved kept → IsFurther (job bytes) more →
        IsWholeRun (job bytes) more whole → IsMade (F.post rule) command.Run whole report machine →
        IsMade (F.post rule) command.Resume (saved ++ more) other second → other ≡ report }
    ensures due { (rule : F) → IsService (F.pre rule) (F.post rule) → (bytes saved more whole due : List ℕ)
        (kept : Option MachineView) → IsMade (F.post rule) command.Save bytes saved kept →
        IsFurther (job bytes) more → IsWholeRun (job bytes) more whole → length (saved ++ more) ≤ text_limit →
        length whole ≤ job_limit → IsDueFor (F.post rule) (codes "run" ∷ []) whole due →
        IsDueFor (F.post rule) (codes "resume" ∷ []) (saved ++ more) due }
    ensures rest { (bytes more whole : List ℕ) → job_fault bytes ≡ None → GoesOnWith bytes more whole →
        job_fault whole ≡ None → IsFurther (job bytes) more }
    ensures whole { (bytes more whole : List ℕ) → job_fault bytes ≡ None → GoesOnWith bytes more whole →
        IsFurther (job bytes) more → IsWholeRun (job bytes) more whole }
{}
