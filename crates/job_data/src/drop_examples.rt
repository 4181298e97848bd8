//! The versions that are dropped at the fences of small plans, computed. What is expected was worked out by hand.
ghost use Rattle.std.specs.Prelude.{◌≡◌, [], ◌∷◌, None, Some};
ghost use Rattle.job_data.specs.Drops.{dropped_at};
ghost use Rattle.job_data.specs.declared.sources.Sources.TheVariants.{Nothing, One, Two};

/// A version that the commands up to a fence read is dropped there. One that a command after it reads stays, and is dropped
/// at the fence that ends that command; so is one that nothing reads at the fence that ends its own.
pub fn drops()
    ensures first { dropped_at (record { reads = Nothing; writes = Some 1; fence = 1 } ∷ record { reads = One 1; writes = Some 2; fence = 1 }
        ∷ record { reads = Nothing; writes = None; fence = 1 } ∷ record { reads = Two 2 2; writes = Some 4; fence = 2 }
        ∷ record { reads = One 4; writes = None; fence = 2 } ∷ []) 1 ≡ 1 ∷ [] }
    ensures end { dropped_at (record { reads = Nothing; writes = Some 1; fence = 1 } ∷ record { reads = One 1; writes = Some 2; fence = 1 }
        ∷ record { reads = Nothing; writes = None; fence = 1 } ∷ record { reads = Two 2 2; writes = Some 4; fence = 2 }
        ∷ record { reads = One 4; writes = None; fence = 2 } ∷ []) 2 ≡ 2 ∷ 4 ∷ [] }
    ensures unread { dropped_at (record { reads = Nothing; writes = Some 1; fence = 1 } ∷ record { reads = Nothing; writes = Some 2; fence = 1 } ∷ []) 1 ≡ 1 ∷ 2 ∷ [] }
{}

/// A version that is read after a fence isn't dropped there, nor at a number that no fence has.
pub fn read_later()
    ensures kept { dropped_at (record { reads = Nothing; writes = Some 1; fence = 1 } ∷ record { reads = Nothing; writes = None; fence = 1 }
        ∷ record { reads = One 1; writes = None; fence = 2 } ∷ []) 1 ≡ [] }
    ensures dropped { dropped_at (record { reads = Nothing; writes = Some 1; fence = 1 } ∷ record { reads = Nothing; writes = None; fence = 1 }
        ∷ record { reads = One 1; writes = None; fence = 2 } ∷ []) 2 ≡ 1 ∷ [] }
    ensures once { dropped_at (record { reads = Nothing; writes = Some 1; fence = 1 } ∷ record { reads = Nothing; writes = None; fence = 1 }
        ∷ record { reads = One 1; writes = None; fence = 2 } ∷ []) 3 ≡ [] }
    ensures none { dropped_at (record { reads = Nothing; writes = Some 1; fence = 1 } ∷ []) 0 ≡ [] }
{}
