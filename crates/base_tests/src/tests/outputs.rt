// The list of the messages that a turn puts.
use sl_machine::{Memory, Outputs};
use std::alloc::Global;
use std::test::Fail;

/// A put, and none where nothing is left.
type Taken = Option<(u32, u64)>;

/// Two puts.
fn two(alloc: Global) -> Result<Outputs<u64>, Memory> {
    let mut out = Outputs::with_room(alloc, 2)?;
    out.put(1, 10);
    out.put(0, 20);
    Ok(out)
}

/// How many there are, and all that is taken from the front.
fn from_the_front(mut out: Outputs<u64>) -> (usize, Taken, Taken, Taken) {
    (
        out.items().len(),
        out.take_first(),
        out.take_first(),
        out.take_first(),
    )
}

/// The same from the end.
fn from_the_end(mut out: Outputs<u64>) -> (usize, Taken, Taken, Taken) {
    (
        out.items().len(),
        out.take_last(),
        out.take_last(),
        out.take_last(),
    )
}

#[test]
fn puts_are_taken(rt: HostRuntime) -> Result<(), Fail> {
    let (first, second) = (Some((1, 10)), Some((0, 20)));
    let in_order = from_the_front(two(rt.alloc())?);
    assert!(rt; in_order == (2, first, second, None));
    let backwards = from_the_end(two(rt.alloc())?);
    assert!(rt; backwards == (2, second, first, None));
    Ok(())
}
