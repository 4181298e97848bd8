//! What words ask for, computed from the definitions.
ghost use Rattle.std.specs.Prelude.{◌≡◌, [], ◌∷◌, codes, Some, None, true, false};
ghost use Rattle.owner_map.specs.declared.map.OwnerMap.TheVariants.{Block, Spread, Level};
ghost use Rattle.command_line.specs.Requests.{request_of};
ghost use Rattle.command_line.specs.declared.request.Request.TheVariants.{Run, Serial, Check, BigJob};

/// Commands without options, and words that are none.
fn commands_without_options()
    ensures run { request_of (codes "run" ∷ []) ≡ Some (Run 1 0 Block) }
    ensures check { request_of (codes "check" ∷ []) ≡ Some Check }
    ensures nothing { request_of [] ≡ None }
    ensures other { request_of (codes "walk" ∷ []) ≡ None }
    ensures more { request_of (codes "check" ∷ codes "--ranks=2" ∷ []) ≡ None }
{}

/// The options of a run are ranks, workers and a map.
fn options_of_run()
    ensures ranks { request_of (codes "run" ∷ codes "--ranks" ∷ codes "4" ∷ []) ≡ Some (Run 4 0 Block) }
    ensures workers { request_of (codes "run" ∷ codes "--workers=2" ∷ []) ≡ Some (Run 1 2 Block) }
    ensures map { request_of (codes "run" ∷ codes "--map" ∷ codes "level" ∷ []) ≡ Some (Run 1 0 Level) }
    ensures all { request_of (codes "run" ∷ codes "--map=spread" ∷ codes "--workers" ∷ codes "4" ∷ codes "--ranks=16" ∷ []) ≡ Some (Run 16 4 Spread) }
    ensures too_many { request_of (codes "run" ∷ codes "--workers" ∷ codes "5" ∷ []) ≡ None }
    ensures no_ranks { request_of (codes "run" ∷ codes "--ranks=0" ∷ []) ≡ None }
    ensures twice { request_of (codes "run" ∷ codes "--ranks=2" ∷ codes "--ranks=2" ∷ []) ≡ None }
    ensures receipts { request_of (codes "run" ∷ codes "--receipts" ∷ []) ≡ None }
    ensures trace { request_of (codes "run" ∷ codes "--trace" ∷ []) ≡ None }
{}

/// Options come in any order, with their values in the same word or in the next one.
fn options_of_serial()
    ensures none { request_of (codes "serial" ∷ []) ≡ Some (Serial 1 Block false) }
    ensures next { request_of (codes "serial" ∷ codes "--ranks" ∷ codes "16" ∷ []) ≡ Some (Serial 16 Block false) }
    ensures same { request_of (codes "serial" ∷ codes "--map=level" ∷ []) ≡ Some (Serial 1 Level false) }
    ensures all { request_of (codes "serial" ∷ codes "--receipts" ∷ codes "--map" ∷ codes "spread" ∷ codes "--ranks=3" ∷ []) ≡ Some (Serial 3 Spread true) }
    ensures turned { request_of (codes "serial" ∷ codes "--ranks=3" ∷ codes "--map=spread" ∷ codes "--receipts" ∷ []) ≡ Some (Serial 3 Spread true) }
{}

/// A number has 1 to 10 digits and nothing else, and is within its limits.
fn numbers_of_ranks()
    ensures padded { request_of (codes "serial" ∷ codes "--ranks=0000000016" ∷ []) ≡ Some (Serial 16 Block false) }
    ensures longer { request_of (codes "serial" ∷ codes "--ranks=00000000016" ∷ []) ≡ None }
    ensures too_many { request_of (codes "serial" ∷ codes "--ranks" ∷ codes "17" ∷ []) ≡ None }
    ensures none { request_of (codes "serial" ∷ codes "--ranks" ∷ codes "0" ∷ []) ≡ None }
    ensures signed { request_of (codes "serial" ∷ codes "--ranks=+2" ∷ []) ≡ None }
    ensures empty { request_of (codes "serial" ∷ codes "--ranks=" ∷ []) ≡ None }
{}

/// An option comes at most once, with a value, which no word with a hyphen is; a flag comes at most once, without one.
fn options_that_are_refused()
    ensures twice { request_of (codes "serial" ∷ codes "--ranks" ∷ codes "2" ∷ codes "--ranks=2" ∷ []) ≡ None }
    ensures flag_twice { request_of (codes "serial" ∷ codes "--receipts" ∷ codes "--receipts" ∷ []) ≡ None }
    ensures no_value { request_of (codes "serial" ∷ codes "--map" ∷ []) ≡ None }
    ensures option_next { request_of (codes "serial" ∷ codes "--ranks" ∷ codes "--receipts" ∷ []) ≡ None }
    ensures hyphen_next { request_of (codes "serial" ∷ codes "--ranks" ∷ codes "-2" ∷ []) ≡ None }
    ensures flag_value { request_of (codes "serial" ∷ codes "--receipts=true" ∷ []) ≡ None }
    ensures no_map { request_of (codes "serial" ∷ codes "--map=Block" ∷ []) ≡ None }
{}

/// There is no other word: no abbreviation, no help, no end of options, and nothing with a single hyphen.
fn words_that_are_refused()
    ensures abbreviation { request_of (codes "serial" ∷ codes "--receipt" ∷ []) ≡ None }
    ensures help { request_of (codes "serial" ∷ codes "--help" ∷ []) ≡ None }
    ensures end { request_of (codes "serial" ∷ codes "--" ∷ []) ≡ None }
    ensures short { request_of (codes "serial" ∷ codes "-r" ∷ []) ≡ None }
    ensures word { request_of (codes "serial" ∷ codes "7" ∷ []) ≡ None }
{}

/// The number of `big` comes before or after its flag, which it needs.
fn numbers_of_big()
    ensures before { request_of (codes "big" ∷ codes "7" ∷ codes "--job" ∷ []) ≡ Some (BigJob 7) }
    ensures after { request_of (codes "big" ∷ codes "--job" ∷ codes "4294967295" ∷ []) ≡ Some (BigJob 4294967295) }
    ensures too_large { request_of (codes "big" ∷ codes "4294967296" ∷ codes "--job" ∷ []) ≡ None }
    ensures twice { request_of (codes "big" ∷ codes "7" ∷ codes "--job" ∷ codes "7" ∷ []) ≡ None }
    ensures no_number { request_of (codes "big" ∷ codes "--job" ∷ []) ≡ None }
    ensures no_flag { request_of (codes "big" ∷ codes "7" ∷ []) ≡ None }
{}

/// The options of a run may come with `--job`, where their values are of the right kind.
fn options_of_big()
    ensures all { request_of (codes "big" ∷ codes "--ranks" ∷ codes "15" ∷ codes "7" ∷ codes "--job" ∷ codes "--workers=4" ∷ codes "--map=level" ∷ codes "--receipts" ∷ [])
        ≡ Some (BigJob 7) }
    ensures too_many { request_of (codes "big" ∷ codes "7" ∷ codes "--workers=5" ∷ codes "--job" ∷ []) ≡ None }
    ensures no_ranks { request_of (codes "big" ∷ codes "7" ∷ codes "--ranks=0" ∷ codes "--job" ∷ []) ≡ None }
    ensures no_map { request_of (codes "big" ∷ codes "7" ∷ codes "--map=Block" ∷ codes "--job" ∷ []) ≡ None }
    ensures no_flag { request_of (codes "big" ∷ codes "7" ∷ codes "--ranks=2" ∷ codes "--receipts" ∷ []) ≡ None }
{}
