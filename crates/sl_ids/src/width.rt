// How many bits a wrapped id has.
ghost use Rattle.std.specs.Prelude.{◌≡◌, ◌≤◌, ◌↔◌, IsSome, IfSome};
ghost use Rattle.sl_ids.specs.Ids.{most_bits, modulus};

/// The width of wrapped ids, in bits: 1 to 16.
#[derive(Clone, Copy, Debug, PartialEq, Eq)]
pub struct Width {
    /// How many bits.
    pub bits: u8,
    pub ghost least: { 1 ≤ bits },
    pub ghost most: { bits ≤ most_bits },
}

impl Width {
    /// The width of so many bits, or none where they are not 1 to 16.
    pub fn new(bits: u8) -> Option<Width>
        ensures fits { IsSome result ↔ ((1 ≤ bits) × (bits ≤ most_bits)) }
        ensures bits { IfSome result (λ width. width.bits ≡ bits) }
    {
        if bits >= 1 && bits <= 16 {
            Some(Width { bits })
        } else {
            None
        }
    }

    /// How many wrapped ids there are.
    pub fn modulus(self) -> u32
        ensures { result ≡ modulus self.bits }
    {
        1 << self.bits
    }
}
