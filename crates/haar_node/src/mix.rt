//! The numbers of the function `hash`: SplitMix64.
ghost use Rattle.std.specs.Prelude.{◌≡◌};
ghost use Rattle.tree_model.specs.Mix.{mix};

/// The output of SplitMix64 with this number, counted from 0, where the generator begins with the seed.
///
/// After Steele, Lea and Flood, Fast Splittable Pseudorandom Number Generators. Arithmetic on 64 bits wraps.
pub fn mix(seed: u32, number: u32) -> u64
    ensures { result ≡ mix seed number }
{
    let count = u64::from(number) + 1;
    let z = u64::from(seed).wrapping_add(count.wrapping_mul(0x9E37_79B9_7F4A_7C15));
    let z = (z ^ (z >> 30)).wrapping_mul(0xBF58_476D_1CE4_E5B9);
    let z = (z ^ (z >> 27)).wrapping_mul(0x94D0_49BB_1331_11EB);
    z ^ (z >> 31)
}

#[cfg(test)]
mod tests {
    use super::*;

    // As published for other programs of the generator.
    #[test]
    fn outputs_are_those_of_splitmix64(rt: HostRuntime) {
        let cases = [
            (0, 0, 0xE220_A839_7B1D_CDAF),
            (0, 1, 0x6E78_9E6A_A1B9_65F4),
            (0, 2, 0x06C4_5D18_8009_454F),
            (1_234_567, 0, 6_457_827_717_110_365_317),
            (1_234_567, 1, 3_203_168_211_198_807_973),
            (1_234_567, 2, 9_817_491_932_198_370_423),
        ];
        for (seed, number, expected) in cases {
            assert_eq!(rt;
                mix(seed, number),
                expected,
                "output {number} of seed {seed}"
            );
        }
    }
}
