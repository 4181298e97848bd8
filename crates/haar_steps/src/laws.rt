//! Laws of an application that hold of the form of units: each function's contract is a law, and its body is empty.
ghost use Rattle.haar_steps.specs.Forms.{StepsAreAllowed, StartsAreTold};
ghost use Rattle.haar_steps.specs.Laws.{HomesAreRanks, LabelsTellDues, LabelsTellHomes, ReadsAreFew, StepsAreShort, SpawnsHaveTheirNeeds, UnitsStayAtHome, StepsKeepTheirLaws};

/// A unit runs at a rank that there is, and its label tells its due and its home.
pub fn labels_and_homes()
    ensures homes { HomesAreRanks }
    ensures dues { LabelsTellDues }
    ensures labels { LabelsTellHomes }
{}

/// A unit reads at most two entries. On whatever inputs, its step has at most four effects, and spawns each unit with just
/// its needs.
pub fn steps_have_their_form()
    ensures reads { ReadsAreFew }
    ensures short { StepsAreShort }
    ensures needs { SpawnsHaveTheirNeeds }
{}

/// On whatever inputs, a unit does what its label allows: it decides for one of the actions of its command. So its step
/// keeps the laws on dues, needs and gives; and the starts of a command are those of its word.
pub fn units_do_what_is_allowed()
    ensures steps { StepsAreAllowed }
    ensures laws { StepsKeepTheirLaws }
    ensures starts { StartsAreTold }
{}

/// What a unit needs, reads, puts and erases, and the units with needs that it spawns, are at its home.
pub fn units_stay_at_home()
    ensures { UnitsStayAtHome }
{}
