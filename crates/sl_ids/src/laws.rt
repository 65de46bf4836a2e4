// What wrapped ids tell, as functions that do nothing and whose contracts say it.
ghost use Rattle.std.specs.Prelude.{◌≡◌, ℕ, ◌+◌, ◌-◌, ◌<◌, ◌≤◌};
ghost use Rattle.sl_ids.specs.Ids.{modulus, wrapped, distance, unwrapped};

/// Wrapped ids of numbers that lie near one another tell how far the numbers lie apart.
pub fn distances_are_differences()
    ensures { (bits a b : ℕ) → a ≤ b → b < a + modulus bits
        → distance bits (wrapped bits a) (wrapped bits b) ≡ b - a }
{}

/// Who goes up from a number by the distance to a wrapped id comes to a number that has it.
pub fn distances_lead_back()
    ensures { (bits base w : ℕ) → w < modulus bits
        → wrapped bits (base + distance bits (wrapped bits base) w) ≡ w }
{}

/// A number that lies less than the modulus above one that is known is unwrapped, relative to that
/// one, from its wrapped id.
pub fn numbers_near_are_unwrapped()
    ensures { (bits base n : ℕ) → base ≤ n → n < base + modulus bits
        → unwrapped bits base (wrapped bits n) ≡ n }
{}
