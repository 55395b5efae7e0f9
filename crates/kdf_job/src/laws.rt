//! Laws of the definitions, each the contract of a function that does nothing.
ghost use Rattle.std.specs.Prelude.{◌≡◌, ℕ, ◌+◌, ◌==◌, List, [], ◌∷◌, ◌++◌, Some, None, codes, drop, find, length};
ghost use Rattle.kdf_text.specs.declared.lines.TheConstants.{LINE_END};
ghost use Rattle.kdf_text.specs.Lines.{lines};
ghost use Rattle.kdf_job.specs.declared.fault.JobFault.{JobFault};
ghost use Rattle.kdf_job.specs.Front.{front, front_fault, front_job, front_length, front_lines};
ghost use Rattle.kdf_job.specs.Job.{ShownSlot};
ghost use Rattle.kdf_job.specs.More.{joined, more_events, more_fault};
ghost use Rattle.kdf_job.specs.Reading.{job, job_fault};
ghost use Rattle.kdf_job.specs.SlotLines.{pool_lines, slot_lines};

/// A slot of a job without a fault is what its lines and those of the pool tell: two such jobs with the same lines of a slot and of the
/// pool have the same slot, or neither has it.
pub fn slots_of_lines()
    ensures { (one other : List ℕ) (p : ℕ) → job_fault one ≡ None → job_fault other ≡ None →
        slot_lines p one ≡ slot_lines p other → pool_lines one ≡ pool_lines other →
        find (λ (s : ShownSlot). s.p == p) (job one).slots
        ≡ find (λ (s : ShownSlot). s.p == p) (job other).slots }
{}

/// The front of a text has its first lines, and the bytes after it have the others. A job without a fault is its own
/// front, also where other lines follow it; and the first faulty line of a front is that of the text, read as a job.
pub fn fronts()
    ensures first_lines { (bytes : List ℕ) → lines (front bytes) ≡ front_lines bytes }
    ensures others { (bytes : List ℕ) →
        lines bytes ≡ front_lines bytes ++ lines (drop (front_length bytes) bytes) }
    ensures whole { (bytes : List ℕ) → job_fault bytes ≡ None →
        front_length bytes ≡ length bytes }
    ensures same_job { (bytes : List ℕ) → job_fault bytes ≡ None →
        (front_fault bytes ≡ None) × (front_job bytes ≡ job bytes) }
    ensures followed { (bytes follows : List ℕ) → job_fault (bytes ++ LINE_END ∷ []) ≡ None →
        front (bytes ++ LINE_END ∷ follows) ≡ bytes ++ LINE_END ∷ [] }
    ensures fault { (bytes : List ℕ) (found : JobFault × ℕ) → front_fault bytes ≡ Some found →
        job_fault bytes ≡ Some found }
{}

/// The lines of a job without a fault are some lines and `ENDJOB`. Where further lines stand in place of this `ENDJOB`, the
/// first faulty line is that of the further lines, counted on, after the events of the job; and where there is none, the
/// text tells the job with the further events joined to it.
pub fn joined_jobs()
    ensures last_line { (bytes : List ℕ) → job_fault bytes ≡ None →
        (ls : List (List ℕ)) × (lines bytes ≡ ls ++ codes "ENDJOB" ∷ []) }
    ensures fault { (one other more : List ℕ) (ls : List (List ℕ)) →
        lines one ≡ ls ++ codes "ENDJOB" ∷ [] → job_fault one ≡ None →
        lines other ≡ ls ++ lines more →
        job_fault other ≡ more_fault (length ls + 1) (job one).events more }
    ensures told { (one other more : List ℕ) (ls : List (List ℕ)) →
        lines one ≡ ls ++ codes "ENDJOB" ∷ [] → job_fault one ≡ None →
        lines other ≡ ls ++ lines more → job_fault other ≡ None →
        job other ≡ joined (job one) (more_events more) }
{}
