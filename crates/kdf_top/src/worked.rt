//! What the definitions call for over jobs with a fault, from their bytes on, each as the contract of a function that does nothing.
ghost use Rattle.std.specs.Prelude.{◌≡◌, [], ◌∷◌, codes};
ghost use Rattle.kdf_text.specs.Text.{text};
ghost use Rattle.kdf_usercode.specs.declared.fault.DeckFault.TheVariants.{NoFinish};
ghost use Rattle.kdf_job.specs.declared.fault.JobFault.TheVariants.{Header, ShowRange};
ghost use Rattle.kdf_top.specs.Answers.{called_for};
ghost use Rattle.kdf_top.specs.declared.status.Status.TheVariants as status;

/// A job without a line of deck is answered by the deck's fault, unless the job has a fault itself, though after the deck; and other
/// words than those of a command by neither.
pub fn answers_of_faults()
    ensures deck { called_for (codes "run" ∷ []) (text (codes "KDF9 JOB 1" ∷ codes "SLOT 0" ∷ codes "STORE 32"
        ∷ codes "DECK" ∷ codes "ENDDECK" ∷ codes "SHOW 3 3" ∷ codes "SCHEDULE" ∷ codes "ORDERS 10"
        ∷ codes "ENDJOB" ∷ []))
        ≡ status.Deck 0 NoFinish 0 }
    ensures job { called_for (codes "run" ∷ []) (text (codes "KDF9 JOB 1" ∷ codes "SLOT 0" ∷ codes "STORE 32"
        ∷ codes "DECK" ∷ codes "ENDDECK" ∷ codes "SHOW 3 32" ∷ codes "SCHEDULE" ∷ codes "ORDERS 10"
        ∷ codes "ENDJOB" ∷ []))
        ≡ status.Job ShowRange 6 }
    ensures nothing { called_for (codes "run" ∷ []) [] ≡ status.Job Header 1 }
    ensures words { called_for (codes "run" ∷ codes "run" ∷ []) [] ≡ status.Usage }
{}
