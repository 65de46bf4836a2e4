// Places of a ring.
ghost use Rattle.std.specs.Prelude.{◌≡◌, ◌<◌, ◌≤◌, ◌^◌};
ghost use Rattle.sl_saves.specs.Views.{place_below};
ghost use Rattle.sl_saves.specs.Keeping.{place_above};

/// The place that lies `by` above another.
pub fn place_above(size: usize, place: usize, by: usize) -> usize
    requires place { place < size }
    requires by { by ≤ size }
    requires size { size < 2 ^ 32 }
    ensures value { result ≡ place_above size place by }
    ensures inside { result < size }
{
    let next = place + by;
    if next < size { next } else { next - size }
}

/// The place that lies `back` below another.
pub fn place_below(size: usize, place: usize, back: usize) -> usize
    requires place { place < size }
    requires back { back < size }
    ensures value { result ≡ place_below size place back }
    ensures inside { result < size }
{
    if back <= place {
        place - back
    } else {
        size - (back - place)
    }
}
