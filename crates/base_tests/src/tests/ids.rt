// Wrapped ids: widths, wrapping and reading back, which of two is newer.
use sl_ids::{Wid, Width, distance, newer, unwrap_from, wrap};

/// Numbers of bits, and whether ids can have so many.
static WIDTHS: [(u8, bool); 7] = [
    (0, false),
    (17, false),
    (255, false),
    (1, true),
    (8, true),
    (9, true),
    (16, true),
];

fn widths() -> &'static [(u8, bool)] {
    &WIDTHS
}

fn is_width(bits: u8) -> bool {
    Width::new(bits).is_some()
}

/// Of ids of two bits: whether 7 is wrapped to 3; the distance from 3 to 1; the number of 1 from 7
/// on; and whether from 3 on 1 is newer than 0, and 3 itself.
fn of_two_bits() -> Option<(bool, u16, u64, bool, bool)> {
    let width = Width::new(2)?;
    let (zero, one, three) = (wrap(width, 0), wrap(width, 1), wrap(width, 3));
    Some((
        wrap(width, 7) == three && three == Wid { raw: 3 },
        distance(width, three, one),
        unwrap_from(width, 7, one),
        newer(width, three, one, zero),
        newer(width, three, three, zero),
    ))
}

#[test]
fn wrapped_ids(rt: HostRuntime) {
    assert!(rt; widths().iter().all(|(bits, fits)| is_width(*bits) == *fits));
    assert!(rt; of_two_bits() == Some((true, 2, 9, true, false)));
}
