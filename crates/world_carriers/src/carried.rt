//! Loads that wait beside their carriers.
ghost use Rattle.std.specs.Prelude.{◌≡◌, IfSome};
ghost use Rattle.world_words.specs.Lanes.{CarrierView};

use crate::naming::WordsNaming;
use std::marker::{Model, PhantomData};
use std::snapshot::Snapshot;
use world_words::Carrier;

/// What travels beside a carrier: the load of a message, or a task.
pub trait CarriedLoad {
    /// A carrier with this view has this load: for a message by `CarriesUnit` or `CarriesValue`, for a task by
    /// `CarriesTask`.
    ghost is_load_of: { Self → CarrierView → Type 0 };
}

/// A load beside its carrier, on the way to a rank. Inboxes and pools keep these behind their locks.
///
/// The carrier is one of the words that `J` names, it has this load, and it goes to this rank, whoever put them together.
#[derive(Drop)]
pub struct Carried<A, J: WordsNaming<A>, L: CarriedLoad> {
    load: L,
    carrier: Carrier,
    to: u32,

    // A snapshot crosses threads, whatever the application is.
    of: PhantomData<Snapshot<A>>,
    by: PhantomData<J>,
}

impl<A, J: WordsNaming<A>, L: CarriedLoad> Model for Carried<A, J, L> {
    ghost use Rattle.std.specs.Prelude.{◌≡◌, IfSome};
    ghost use Rattle.world_carriers.specs.Carried.{CarriedView};

    ghost Value = { CarriedView L };

    ghost view = { λ c. record { load = c.load; carrier = c.carrier } };

    ghost invariant = { λ c. IfSome J.words (λ words. c.carrier.table ≡ words.table) × L.is_load_of c.load c.carrier × (c.carrier.owed.to ≡ c.to) };
}

impl<A, J: WordsNaming<A>, L: CarriedLoad> Carried<A, J, L> {
    /// A load beside its carrier, which goes to the rank `to`.
    pub fn new(load: L, carrier: Carrier, to: u32) -> Carried<A, J, L>
        requires table { IfSome J.words (λ words. carrier.table ≡ words.table) }
        requires load { L.is_load_of load carrier }
        requires to { carrier.owed.to ≡ to }
        ensures { result ≡ record { load = load; carrier = carrier } }
    {
        Carried {
            load,
            carrier,
            to,
            of: PhantomData,
            by: PhantomData,
        }
    }

    /// The rank that it goes to.
    pub fn to(&self) -> u32
        ensures { result ≡ self.now.carrier.owed.to }
    {
        self.to
    }

    /// The load, which is right for the carrier.
    pub fn load(&self) -> &L
        ensures value { result.now ≡ self.now.load }
        ensures load { L.is_load_of self.now.load self.now.carrier }
    {
        &self.load
    }

    /// The load and its carrier.
    pub fn into_parts(self) -> (L, Carrier)
        ensures parts { (result.0 ≡ self.load) × (result.1 ≡ self.carrier) }
        ensures table { IfSome J.words (λ words. result.1.table ≡ words.table) }
        ensures load { L.is_load_of result.0 result.1 }
    {
        (self.load, self.carrier)
    }
}
