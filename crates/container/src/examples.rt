//! Computed examples, as contracts.
ghost use Rattle.std.specs.Prelude.{◌≡◌, [], ◌∷◌, None, Some, List};
ghost use Rattle.app_core.specs.declared.CellName.{CellName as CellNameData};
ghost use Rattle.future_cell.specs.declared.Callback.{Callback as CallbackData};
ghost use Rattle.container.specs.declared.look_ups.LookUp.{LookUp as LookUpData};
ghost use Rattle.container.specs.LookUps.{callbacks_of, others, first_waited};
ghost use Rattle.container.specs.RightBins.{bin_number};

/// Three look-ups wait, the first and the last for one name: an entry of that name hands out their callbacks, in order,
/// and leaves the one between. The first name of a version that is waited for is that of its first look-up.
fn look_ups_of_one_name_are_taken_out()
    ensures callbacks { (a b c : CallbackData) →
        let waiting : List LookUpData = record { name = record { version = 1; place = 5 }; callback = a } ∷ record { name = record { version = 2; place = 5 }; callback = b } ∷ record { name = record { version = 1; place = 5 }; callback = c } ∷ [] in
        callbacks_of (record { version = 1; place = 5 }) waiting ≡ a ∷ c ∷ [] }
    ensures others { (a b c : CallbackData) →
        let waiting : List LookUpData = record { name = record { version = 1; place = 5 }; callback = a } ∷ record { name = record { version = 2; place = 5 }; callback = b } ∷ record { name = record { version = 1; place = 5 }; callback = c } ∷ [] in
        others (record { version = 1; place = 5 }) waiting ≡ record { name = record { version = 2; place = 5 }; callback = b } ∷ [] }
    ensures nothing { (a : CallbackData) →
        let waiting : List LookUpData = record { name = record { version = 1; place = 5 }; callback = a } ∷ [] in
        callbacks_of (record { version = 1; place = 6 }) waiting ≡ [] }
    ensures first { (a b : CallbackData) →
        let waiting : List LookUpData = record { name = record { version = 1; place = 5 }; callback = a } ∷ record { name = record { version = 2; place = 8 }; callback = b } ∷ record { name = record { version = 2; place = 7 }; callback = b } ∷ [] in
        first_waited 2 waiting ≡ Some (record { version = 2; place = 8 }) }
    ensures unwaited { (a : CallbackData) →
        let waiting : List LookUpData = record { name = record { version = 1; place = 5 }; callback = a } ∷ [] in
        first_waited 2 waiting ≡ None }
{}

/// The version doesn't matter for the bin of a name, and its place does modulo 16.
fn bins_go_by_place()
    ensures low { (version : _) → bin_number (record { version = version; place = 15 }) ≡ 15 }
    ensures high { (version : _) → bin_number (record { version = version; place = 4097 }) ≡ 1 }
{}
