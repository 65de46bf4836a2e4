// Whether wrapped ids can be unwrapped, eight at a time, as dumps have them.
ghost use Rattle.std.specs.Prelude.{◌≡◌};
ghost use Rattle.std.specs.List.{list_all};
ghost use Rattle.sl_wire.specs.Wids.{is_wid, has_room};

use sl_ids::{Wid, Width};

/// Whether a wrapped id is one of this width.
pub fn is_wid(width: Width, wid: Wid) -> bool
    ensures { result ≡ is_wid width.bits wid }
{
    u32::from(wid.raw) < width.modulus()
}

/// Whether each wrapped id is one of this width.
pub fn are_wids(width: Width, wids: &[Wid; 8]) -> bool
    ensures { result ≡ list_all (is_wid width.bits) wids.now }
{
    wids.iter().all(|wid| is_wid(width, *wid))
}

/// Whether the numbers up to the modulus above this one fit 64 bits.
pub fn has_room(width: Width, number: u64) -> bool
    ensures { result ≡ has_room width.bits number }
{
    number <= u64::MAX - u64::from(width.modulus())
}

/// Whether the numbers up to the modulus above each of these fit 64 bits.
pub fn have_room(width: Width, numbers: &[u64; 8]) -> bool
    ensures { result ≡ list_all (has_room width.bits) numbers.now }
{
    numbers.iter().all(|number| has_room(width, *number))
}
