//! The bins of a rank, each behind a lock.
ghost use Rattle.std.specs.Prelude.{◌≡◌, ◌<◌, IfOk};
ghost use Rattle.container.specs.RightBins.{bin_number};

use crate::OutOfMemory;
use crate::bin::Bin;
use app_core::{App, CellName, Naming};
use crossbeam_utils::CachePadded;
use std::alloc::Global;
use std::marker::Model;
use std::sync::{Mutex, MutexGuard, Wait};

/// A rank's share of the containers: 16 bins, each behind a lock. Contracts see the rank.
#[derive(Drop)]
pub struct Container<A: App, J: Naming<A>> {
    rank: u32,
    bins: Vec<CachePadded<Mutex<Bin<A, J>>>>,
}

impl<A: App, J: Naming<A>> Model for Container<A, J> {
    ghost use Rattle.std.specs.Prelude.{◌≡◌, ℕ, vec_len};

    ghost Value = { ℕ };

    ghost view = { λ c. c.rank };

    ghost invariant = { λ c. vec_len c.bins ≡ 16 };
}

/// A bin whose lock is taken until the accessor is dropped.
#[derive(Drop)]
pub struct Accessor<'a, A: App, J: Naming<A>> {
    guard: MutexGuard<'a, Bin<A, J>>,
}

/// The number of the bin that a name belongs to: its place modulo 16.
pub fn bin_of(name: CellName) -> u32
    ensures { result ≡ bin_number name }
{
    (name.place % 16) as u32
}

impl<A: App, J: Naming<A>> Container<A, J> {
    /// The 16 bins of a rank, without entries. `OutOfMemory` where there is no memory for them.
    pub fn new(alloc: Global, rank: u32) -> Result<Container<A, J>, OutOfMemory>
        ensures { IfOk result (λ c. c ≡ rank) }
    {
        let mut bins = Vec::with_capacity(alloc, 16)?;
        for _ in 0..16u32 {
            bins.push(CachePadded::new(Mutex::new(Bin::new(alloc))))?;
        }
        Ok(Container { rank, bins })
    }

    /// The rank.
    pub fn rank(&self) -> u32
        ensures { result ≡ self.now }
    {
        self.rank
    }

    /// Takes the lock of the bin that a name belongs to. It may wait for other threads.
    pub fn access<'a, R: Wait>(&'a self, rt: &'a R, name: CellName) -> Accessor<'a, A, J> {
        self.access_bin(rt, bin_of(name))
    }

    /// Takes the lock of the bin with this number, below 16. It may wait for other threads.
    pub fn access_bin<'a, R: Wait>(&'a self, rt: &'a R, number: u32) -> Accessor<'a, A, J>
        requires { number < 16 }
    {
        Accessor {
            guard: self.bins[number as usize].lock(rt),
        }
    }

    /// How many entries of a version there are: the sum over the bins, whose locks are taken one after another. It may
    /// wait for other threads. What it returns is the number of entries at one moment only where no other thread adds or
    /// takes out any meanwhile.
    pub fn size_local<R: Wait>(&self, rt: &R, version: u32) -> u64 {
        let mut size = 0u64;
        for number in 0..16u32 {
            let in_bin = self.access_bin(rt, number).size_of(version);
            size = size.saturating_add(in_bin);
        }
        size
    }
}

impl<'a, A: App, J: Naming<A>> Accessor<'a, A, J> {
    /// The bin.
    pub fn bin(&mut self) -> &mut Bin<A, J> {
        &mut self.guard
    }

    // How many entries of the bin have the version.
    fn size_of(&self, version: u32) -> u64 {
        self.guard.state().size_of(version)
    }
}
