// Trusted types: for nodes Wid.
// Wrapped ids, and what one tells beside another.
ghost use Rattle.std.specs.Prelude.{◌≡◌, ℕ, ◌+◌, ◌-◌, ◌<◌, ◌≤◌, ◌^◌, ◌↔◌, IsTrue};
ghost use Rattle.sl_ids.specs.Ids.{modulus, wrapped, distance, unwrapped};
ghost use Rattle.sl_ids.specs.Wids.{wid};

use crate::width::Width;

/// A wrapped id: a snapshot number modulo 2 to the power of the width.
#[derive(Clone, Copy, Debug, PartialEq, Eq)]
pub struct Wid {
    /// The id itself, below 2 to the power of the width.
    pub raw: u16,
}

/// The wrapped id of the number `k`.
pub fn wrap(width: Width, k: u64) -> Wid
    ensures value { result.raw ≡ wrapped width.bits k }
    ensures wid { result ≡ wid width.bits k }
    ensures below { result.raw < modulus width.bits }
{
    let mask = u64::from(width.modulus()) - 1;
    Wid {
        raw: (k & mask) as u16,
    }
}

/// How far one goes up from `from` until the wrapped id is `to`.
pub fn distance(width: Width, from: Wid, to: Wid) -> u16
    requires from { from.raw < modulus width.bits }
    requires to { to.raw < modulus width.bits }
    ensures value { result ≡ distance width.bits from.raw to.raw }
    ensures below { result < modulus width.bits }

    // Of two numbers less than the modulus apart it is their difference.
    ensures numbers { (a b : ℕ) → wrapped width.bits a ≡ from.raw → wrapped width.bits b ≡ to.raw
        → a ≤ b → b < a + modulus width.bits → result ≡ b - a }
{
    if from.raw <= to.raw {
        to.raw - from.raw
    } else {
        (u32::from(to.raw) + width.modulus() - u32::from(from.raw)) as u16
    }
}

/// How far one goes up from a number until its wrapped id is `w`.
fn distance_from(width: Width, base: u64, w: Wid) -> u64
    requires { w.raw < modulus width.bits }
    ensures { result ≡ distance width.bits (wrapped width.bits base) w.raw }
{
    let mask = u64::from(width.modulus()) - 1;
    u64::from(w.raw).wrapping_sub(base) & mask
}

/// The least number from `base` on whose wrapped id is `w`.
pub fn unwrap_from(width: Width, base: u64, w: Wid) -> u64
    requires wid { w.raw < modulus width.bits }
    requires room { base + modulus width.bits < 2 ^ 64 }
    ensures value { result ≡ unwrapped width.bits base w.raw }
    ensures wraps { wrapped width.bits result ≡ w.raw }
    ensures from { base ≤ result }
    ensures near { result < base + modulus width.bits }

    // Of the numbers near the base no other has this wrapped id.
    ensures only { (n : ℕ) → base ≤ n → n < base + modulus width.bits
        → wrapped width.bits n ≡ w.raw → result ≡ n }
{
    base + distance_from(width, base, w)
}

/// Whether `a` lies further above `base` than `b` does.
pub fn newer(width: Width, base: Wid, a: Wid, b: Wid) -> bool
    requires base { base.raw < modulus width.bits }
    requires a { a.raw < modulus width.bits }
    requires b { b.raw < modulus width.bits }
    ensures value { IsTrue result
        ↔ (distance width.bits base.raw b.raw < distance width.bits base.raw a.raw) }

    // Of three numbers it is the order of the second and the third, if they lie near the first.
    ensures numbers { (n m k : ℕ) → wrapped width.bits n ≡ base.raw
        → wrapped width.bits m ≡ a.raw → wrapped width.bits k ≡ b.raw
        → n ≤ m → m < n + modulus width.bits → n ≤ k → k < n + modulus width.bits
        → IsTrue result ↔ (k < m) }
{
    distance(width, base, a) > distance(width, base, b)
}
