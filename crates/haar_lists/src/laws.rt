//! Laws of the units of a job on lists of events: each function's contract is a law, and its body is empty.
ghost use Rattle.haar_lists.specs.Lists.{UnitsAreAllowed, SoundUnitsArePlanned, BinsAreHeld, ReceiptsCount, SizesAreRight, ReadsAreHeld, CountsComeAfter};
ghost use Rattle.haar_lists.specs.Drops.{DropsAreOfUnits, DropsAreWritten, DropsComeOnce, EachIsDropped, DropsStayUnread, DropsStayUncounted};

/// Whatever overflows, a unit of a job does what its label allows.
pub fn units_are_allowed()
    ensures { UnitsAreAllowed }
{}

/// On right inputs a unit of a command before the first overflow does just what is planned for its label: it splits its
/// key exactly where the command visits the key's children, and has them erased exactly where the command erases them.
pub fn sound_units_are_planned()
    ensures { SoundUnitsArePlanned }
{}

/// At the receipt of a fence the bins hold the versions that sound commands before it write, each key's entry on the key's
/// owner; and its rows sum up to the messages and tasks that the model's receipts have, where these commands are sound.
pub fn bins_and_receipts_are_known()
    ensures bins { BinsAreHeld }
    ensures receipts { ReceiptsCount }
{}

/// The number of the entries that a rank holds is a right size; what units read is held at their homes; and what they count
/// is written before an earlier fence.
pub fn reads_and_counts_are_known()
    ensures sizes { SizesAreRight }
    ensures reads { ReadsAreHeld }
    ensures counts { CountsComeAfter }
{}

/// The versions that a job's plan drops at a fence are those that the plain data of its units drop. Each is written before the
/// fence, and dropped at one fence, once, which is the first that no command reading it comes after; and only units of commands
/// before the fence read it or count its entries.
pub fn drops_are_known()
    ensures units { DropsAreOfUnits }
    ensures written { DropsAreWritten }
    ensures once { DropsComeOnce }
    ensures all { EachIsDropped }
    ensures unread { DropsStayUnread }
    ensures uncounted { DropsStayUncounted }
{}
