//! What results make, computed by hand.
ghost use Rattle.std.specs.Prelude.{◌≡◌, ◌++◌, ◌∷◌, [], Some, None, codes, map, pos, negsuc, take};
ghost use Rattle.tree_model.specs.Commands.{Command as CommandData};
ghost use Rattle.tree_model.specs.Jobs.{job_text, first_overflow};
ghost use Rattle.haar_base.specs.declared.value.Value.TheVariants.{Done, Product, Count, Lines, Bad};
ghost use Rattle.haar_results.specs.Results.{value_lines, work_of, made_of, whole_text};
ghost use Rattle.haar_results.specs.SmallResults.{two_prints, results_of_two_prints, text_of_two_prints};

/// The line of a command has its number and its names; a command without lines, and a number of another kind, give none.
fn values_have_lines()
    ensures inner { value_lines (CommandData.Inner (codes "f") (codes "g")) (Product (negsuc 41)) ≡ Some (codes "inner f g -42\n") }
    ensures size { value_lines (CommandData.Size (codes "f")) (Count 7) ≡ Some (codes "size f 7\n") }
    ensures print { value_lines (CommandData.Print (codes "f")) (Lines (codes "ab" ∷ [] ∷ codes "c" ∷ [])) ≡ Some (codes "abc") }
    ensures none { value_lines (CommandData.Compress (codes "f")) Done ≡ Some [] }
    ensures other { value_lines (CommandData.Size (codes "f")) (Product (pos 7)) ≡ Some [] }
    ensures bad { value_lines (CommandData.Print (codes "f")) Bad ≡ None }
{}

/// The commands but fences, with their numbers: the fourth of the seven is a fence.
fn fences_have_no_results()
    ensures { map (λ work. work.number) (work_of two_prints) ≡ 1 ∷ 2 ∷ 3 ∷ 5 ∷ 6 ∷ 7 ∷ [] }
{}

/// Both prints give their lines, and the sum, the sixth command, overflows. So it is by the meaning of the job.
fn results_of_two_prints_and_a_sum()
    ensures made { made_of (work_of two_prints) results_of_two_prints ≡ record { text = text_of_two_prints; overflow = Some 6 } }
    ensures whole { whole_text (made_of (work_of two_prints) results_of_two_prints) ≡ text_of_two_prints ++ codes "overflow at command 6\n" }
    ensures job { job_text (record { depth = 1; commands = two_prints }) ≡ text_of_two_prints ++ codes "overflow at command 6\n" }
    ensures first { first_overflow (record { depth = 1; commands = two_prints }) ≡ Some 6 }
{}

/// Without the sum and the last print nothing overflows.
fn results_of_two_prints()
    ensures made { made_of (work_of (take 5 two_prints)) (take 4 results_of_two_prints) ≡ record { text = text_of_two_prints; overflow = None } }
    ensures job { job_text (record { depth = 1; commands = take 5 two_prints }) ≡ text_of_two_prints }
{}
