//! Generated jobs and their texts, computed. What is expected was worked out by hand.
ghost use Rattle.std.specs.Prelude.{◌≡◌, [], ◌∷◌, codes, negsuc, pos};
ghost use Rattle.tree_model.specs.Commands.Command.{Add, Coarsen, Compress, Fence, Inner, Mul, Project, Reconstruct, Size};
ghost use Rattle.tree_model.specs.Functions.Function.{Box, Hash, Ramp};
ghost use Rattle.job_lang.specs.Canonical.{canonical_text};
ghost use Rattle.big_job.specs.Generator.{big_job};

/// The job of 7, and its text: ramp and box begin with 7.
pub fn seven()
    ensures job { big_job 7 ≡ record {
      depth = 12;
      commands = Project (codes "f") (record { function = Hash 7 1000; level = 4; tolerance = 500 })
          ∷ Project (codes "g") (record { function = Ramp (pos 7) (pos 1); level = 2; tolerance = 16 })
          ∷ Project (codes "h") (record { function = Box 7 4096 (pos 7); level = 6; tolerance = 0 })
          ∷ Fence
          ∷ Compress (codes "f") ∷ Compress (codes "g") ∷ Compress (codes "h")
          ∷ Add (codes "p") (pos 2) (codes "f") (negsuc 0) (codes "g")
          ∷ Inner (codes "f") (codes "g") ∷ Inner (codes "p") (codes "h")
          ∷ Fence
          ∷ Reconstruct (codes "p") ∷ Reconstruct (codes "h") ∷ Mul (codes "q") (codes "p") (codes "h")
          ∷ Fence
          ∷ Coarsen (codes "q")
          ∷ Fence
          ∷ Size (codes "q") ∷ [];
    } }
    ensures text { canonical_text (big_job 7) ≡ codes "job 1 depth 12\nproject f hash 7 1000 level 4 tol 500\nproject g ramp 7 1 level 2 tol 16\nproject h box 7 4096 7 level 6 tol 0\nfence\ncompress f\ncompress g\ncompress h\nadd p = 2 f + -1 g\ninner f g\ninner p h\nfence\nreconstruct p\nreconstruct h\nmul q = p * h\nfence\ncoarsen q\nfence\nsize q\n" }
{}

/// The text of the job of the largest number: the ramp begins with 295, and the box with the last cell.
pub fn largest()
    ensures { canonical_text (big_job 4294967295) ≡ codes "job 1 depth 12\nproject f hash 4294967295 1000 level 4 tol 500\nproject g ramp 295 1 level 2 tol 16\nproject h box 4095 4096 7 level 6 tol 0\nfence\ncompress f\ncompress g\ncompress h\nadd p = 2 f + -1 g\ninner f g\ninner p h\nfence\nreconstruct p\nreconstruct h\nmul q = p * h\nfence\ncoarsen q\nfence\nsize q\n" }
{}
