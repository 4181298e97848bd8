//! The reading of bytes, computed on small texts. What is expected was worked out by hand.
ghost use Rattle.std.specs.Prelude.{◌≡◌, [], ◌∷◌, ◌++◌, Some, None, Ok, Err, codes, pos, negsuc};
ghost use Rattle.tree_model.specs.Functions.Function.{Const, Hash, Ramp};
ghost use Rattle.tree_model.specs.Commands.Command.{Add, Coarsen, Compress, Fence, Inner, Mul, Print, Project, Reconstruct, Refine, Size};
ghost use Rattle.job_lang.specs.Canonical.{canonical_text};
ghost use Rattle.job_lang.specs.Faults.{fault_line};
ghost use Rattle.job_lang.specs.Reading.{reading_of};
ghost use Rattle.job_data.specs.Versions.{plan_of};
ghost use Rattle.job_data.specs.declared.fault_kind.FaultKind.TheVariants.{BeyondLimits, FarFromFence, ForeignByte, NoHeader, SizeBeforeFence, UnknownCommand, UnknownTree, WrongForm, WrongWords};
ghost use Rattle.job_data.specs.declared.sources.Sources.TheVariants.{Nothing, One, Two};

/// Without any line the header is missing on line 1.
pub fn empty_input()
    ensures { reading_of [] ≡ Err (record { line = 1; kind = NoHeader }) }
{}

/// A header and two commands.
pub fn projects_and_prints()
    ensures { reading_of (codes "job 1 depth 2\nproject f ramp 0 1 level 0 tol 0\nprint f\n")
        ≡ Ok (record { depth = 2; commands = Project (codes "f") (record { function = Ramp (pos 0) (pos 1); level = 0; tolerance = 0 }) ∷ Print (codes "f") ∷ [] }) }
{}

/// Lines that are passed over keep their numbers, and a line may end with a carriage return.
pub fn unknown_tree()
    ensures { reading_of (codes "job 1\tdepth 02\r\n\n # a\nprint f") ≡ Err (record { line = 4; kind = UnknownTree }) }
{}

/// The header may be the only line; its depth is at most 16.
pub fn headers()
    ensures alone { reading_of (codes "job 1 depth 16") ≡ Ok (record { depth = 16; commands = [] }) }
    ensures too_deep { reading_of (codes "job 1 depth 17") ≡ Err (record { line = 1; kind = NoHeader }) }
    ensures negative { reading_of (codes "job 1 depth -1") ≡ Err (record { line = 1; kind = NoHeader }) }
    ensures other_version { reading_of (codes "# a\njob 2 depth 1") ≡ Err (record { line = 2; kind = NoHeader }) }
    ensures one_word_more { reading_of (codes "job 1 depth 1 x") ≡ Err (record { line = 1; kind = NoHeader }) }
    ensures only_comments { reading_of (codes "# a\n# b\n") ≡ Err (record { line = 3; kind = NoHeader }) }
{}

/// A carriage return belongs to a line's end only before a line feed, and `#` after blanks begins a comment.
pub fn ends_of_lines()
    ensures return_at_end { reading_of (codes "job 1 depth 0\r") ≡ Err (record { line = 1; kind = ForeignByte }) }
    ensures return_before_feed { reading_of (codes "job 1 depth 0\r\n \t#x y\r\n")
        ≡ Ok (record { depth = 0; commands = [] }) }
    ensures return_within { reading_of (codes "job 1 depth 0\n\r\r\n") ≡ Err (record { line = 2; kind = ForeignByte }) }
{}

/// A byte that no form has is a fault of its line, and none in a comment.
pub fn foreign_bytes()
    ensures in_header { reading_of (codes "job 1 depth 0" ++ 200 ∷ codes "\n")
        ≡ Err (record { line = 1; kind = ForeignByte }) }
    ensures in_a_command { reading_of (codes "job 1 depth 0\n" ++ 0 ∷ 200 ∷ [])
        ≡ Err (record { line = 2; kind = ForeignByte }) }
    ensures last_printable { reading_of (codes "job 1 depth 0\nfence ~") ≡ Err (record { line = 2; kind = WrongWords }) }
    ensures delete { reading_of (codes "job 1 depth 0\nfence " ++ 127 ∷ [])
        ≡ Err (record { line = 2; kind = ForeignByte }) }
    ensures in_a_comment { reading_of (codes "#" ++ 200 ∷ 0 ∷ codes "\njob 1 depth 0")
        ≡ Ok (record { depth = 0; commands = [] }) }
{}

/// The limits of a line's numbers, at depth 1.
pub fn limits()
    ensures steepest { reading_of (codes "job 1 depth 1\nproject f ramp 0 16777216 level 0 tol 0")
        ≡ Ok (record { depth = 1; commands = Project (codes "f") (record { function = Ramp (pos 0) (pos 16777216); level = 0; tolerance = 0 }) ∷ [] }) }
    ensures too_steep { reading_of (codes "job 1 depth 1\nproject f ramp 0 16777217 level 0 tol 0")
        ≡ Err (record { line = 2; kind = BeyondLimits }) }
    ensures smallest { reading_of (codes "job 1 depth 1\nproject f const -16777216 level 1 tol 33554432")
        ≡ Ok (record { depth = 1; commands = Project (codes "f") (record { function = Const (negsuc 16777215); level = 1; tolerance = 33554432 }) ∷ [] }) }
    ensures too_small { reading_of (codes "job 1 depth 1\nproject f const -16777217 level 1 tol 0")
        ≡ Err (record { line = 2; kind = BeyondLimits }) }
    ensures level_above_depth { reading_of (codes "job 1 depth 1\nproject f const 0 level 2 tol 0")
        ≡ Err (record { line = 2; kind = BeyondLimits }) }
    ensures negative_tolerance { reading_of (codes "job 1 depth 1\nproject f const 0 level 0 tol -1")
        ≡ Err (record { line = 2; kind = BeyondLimits }) }
    ensures negative_zero { reading_of (codes "job 1 depth 1\nproject f const -0 level -0 tol -0")
        ≡ Ok (record { depth = 1; commands = Project (codes "f") (record { function = Const (pos 0); level = 0; tolerance = 0 }) ∷ [] }) }
{}

/// A tree may be written again, and is printed only after a command that writes it.
pub fn order_of_commands()
    ensures written_twice { reading_of (codes "job 1 depth 0\nproject f const 1 level 0 tol 0\nproject f const 2 level 0 tol 0\nprint f")
        ≡ Ok (record {
          depth = 0;
          commands = Project (codes "f") (record { function = Const (pos 1); level = 0; tolerance = 0 })
              ∷ Project (codes "f") (record { function = Const (pos 2); level = 0; tolerance = 0 }) ∷ Print (codes "f") ∷ [];
        }) }
    ensures printed_before { reading_of (codes "job 1 depth 0\nprint f\nproject f const 1 level 0 tol 0")
        ≡ Err (record { line = 2; kind = UnknownTree }) }
    ensures first_fault { reading_of (codes "job 1 depth 0\n\nprnt f\nprint g")
        ≡ Err (record { line = 3; kind = UnknownCommand }) }
{}

/// The lowest kind of a line with several faults.
pub fn lowest_kinds()
    ensures byte_before_command { reading_of (codes "job 1 depth 0\nprnt " ++ 200 ∷ []) ≡ Err (record { line = 2; kind = ForeignByte }) }
    ensures words_before_limit { reading_of (codes "job 1 depth 0\nproject f const 99999999 level 0") ≡ Err (record { line = 2; kind = WrongWords }) }
    ensures limit_before_tree { reading_of (codes "job 1 depth 0\nrefine f 1") ≡ Err (record { line = 2; kind = BeyondLimits }) }
    ensures tree_before_form { reading_of (codes "job 1 depth 0\nproject f const 1 level 0 tol 0\ninner f g") ≡ Err (record { line = 3; kind = UnknownTree }) }
    ensures wrong_form { reading_of (codes "job 1 depth 0\nproject f const 1 level 0 tol 0\ninner f f") ≡ Err (record { line = 3; kind = WrongForm }) }
{}

/// A written tree may be one of those that are read, and has the form of its last writer.
pub fn forms_of_trees()
    ensures sum_over_itself { reading_of (codes "job 1 depth 0\nproject f const 1 level 0 tol 0\ncompress f\nadd f = 2 f + -1 f\ninner f f")
        ≡ Ok (record {
          depth = 0;
          commands = Project (codes "f") (record { function = Const (pos 1); level = 0; tolerance = 0 })
              ∷ Compress (codes "f") ∷ Add (codes "f") (pos 2) (codes "f") (negsuc 0) (codes "f") ∷ Inner (codes "f") (codes "f") ∷ [];
        }) }
    ensures refined_in_compressed_form { reading_of (codes "job 1 depth 0\nproject f const 1 level 0 tol 0\ncompress f\nrefine f 0") ≡ Err (record { line = 4; kind = WrongForm }) }
    ensures turned_back { reading_of (codes "job 1 depth 0\nproject f hash 4294967295 1 level 0 tol 0\ncompress f\nreconstruct f\nmul g = f * f\nfence")
        ≡ Ok (record {
          depth = 0;
          commands = Project (codes "f") (record { function = Hash 4294967295 1; level = 0; tolerance = 0 })
              ∷ Compress (codes "f") ∷ Reconstruct (codes "f") ∷ Mul (codes "g") (codes "f") (codes "f") ∷ Fence ∷ [];
        }) }
    ensures factor_too_large { reading_of (codes "job 1 depth 0\nproject f const 1 level 0 tol 0\ncompress f\nadd f = 1048577 f + 0 f") ≡ Err (record { line = 4; kind = BeyondLimits }) }
{}

/// A coarsened tree is reconstructed. A tree may be counted in either form, and only after a fence.
pub fn coarsened_and_counted()
    ensures counted { reading_of (codes "job 1 depth 1\nproject f const 1 level 1 tol 0\ncoarsen f\ncompress f\nfence\nsize f")
        ≡ Ok (record {
          depth = 1;
          commands = Project (codes "f") (record { function = Const (pos 1); level = 1; tolerance = 0 })
              ∷ Coarsen (codes "f") ∷ Compress (codes "f") ∷ Fence ∷ Size (codes "f") ∷ [];
        }) }
    ensures before_a_fence { reading_of (codes "job 1 depth 3\nproject f const 5 level 0 tol 0\nrefine f 3\ncoarsen f\nsize f") ≡ Err (record { line = 5; kind = SizeBeforeFence }) }
    ensures coarsened_in_compressed_form { reading_of (codes "job 1 depth 1\nproject f const 1 level 1 tol 0\ncompress f\ncoarsen f") ≡ Err (record { line = 4; kind = WrongForm }) }
    ensures words { reading_of (codes "job 1 depth 1\nproject f const 1 level 1 tol 0\ncoarsen f 1") ≡ Err (record { line = 3; kind = WrongWords }) }
{}

/// A version has the number of the command that writes it, and a fence ends itself.
pub fn plans()
    ensures { plan_of (record {
      depth = 0;
      commands = Project (codes "f") (record { function = Const (pos 1); level = 0; tolerance = 0 })
          ∷ Refine (codes "f") 0 ∷ Fence ∷ Mul (codes "g") (codes "f") (codes "f") ∷ Print (codes "g") ∷ [];
    })
        ≡ record { reads = Nothing; writes = Some 1; fence = 1 }
        ∷ record { reads = One 1; writes = Some 2; fence = 1 }
        ∷ record { reads = Nothing; writes = None; fence = 1 }
        ∷ record { reads = Two 2 2; writes = Some 4; fence = 2 }
        ∷ record { reads = One 4; writes = None; fence = 2 } ∷ [] }
{}

/// The canonical text has single spaces, and a line feed after each line.
pub fn canonical_texts()
    ensures { canonical_text (record {
      depth = 16;
      commands = Project (codes "f") (record { function = Hash 0 12; level = 0; tolerance = 7 })
          ∷ Coarsen (codes "f") ∷ Add (codes "s") (negsuc 9) (codes "f") (pos 0) (codes "f") ∷ Fence ∷ Size (codes "s") ∷ [];
    })
        ≡ codes "job 1 depth 16\nproject f hash 0 12 level 0 tol 7\ncoarsen f\nadd s = -10 f + 0 f\nfence\nsize s\n" }
{}

/// The lines that report faults.
pub fn fault_lines()
    ensures command { fault_line (record { line = 4; kind = UnknownCommand }) ≡ codes "fault line 4 F3 unknown command" }
    ensures byte { fault_line (record { line = 1; kind = ForeignByte }) ≡ codes "fault line 1 F1 byte outside ASCII" }
    ensures words { fault_line (record { line = 1; kind = WrongWords }) ≡ codes "fault line 1 F4 words" }
    ensures limit { fault_line (record { line = 1; kind = BeyondLimits }) ≡ codes "fault line 1 F5 limit" }
    ensures tree { fault_line (record { line = 1; kind = UnknownTree }) ≡ codes "fault line 1 F6 unknown tree" }
    ensures form { fault_line (record { line = 1; kind = WrongForm }) ≡ codes "fault line 1 F7 wrong form" }
    ensures fence { fault_line (record { line = 1; kind = FarFromFence }) ≡ codes "fault line 1 F8 too many before a fence" }
    ensures size { fault_line (record { line = 5; kind = SizeBeforeFence }) ≡ codes "fault line 5 F9 size before a fence" }
    ensures header { fault_line (record { line = 1048577; kind = NoHeader }) ≡ codes "fault line 1048577 F2 header" }
{}
