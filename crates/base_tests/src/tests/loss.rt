// The losses of one link, and the words of the generator by which they fall.
use rand_core::utils::NextWord;
use rand_pcg::Lcg64Xsh32;
use sl_loss::Loss;
use std::test::Fail;

/// The reference words of PCG for this seed and stream.
static WORDS: [u32; 6] = [
    2707161783, 2068313097, 3122475824, 2211639955, 3215226955, 3421331566,
];

/// A rate, the puts that are lost beside it, and which of six are lost by these words.
static LOSSES: [(u16, &[u64], [bool; 6]); 5] = [
    (100, &[], [false, true, false, false, false, false]),
    (100, &[3], [false, true, true, false, false, false]),
    (0, &[], [false; 6]),
    (1000, &[], [true; 6]),
    (0, &[6, 1, 6, 2], [true, true, false, false, false, true]),
];

fn words() -> &'static [u32] {
    &WORDS
}

fn losses() -> &'static [(u16, &'static [u64], [bool; 6])] {
    &LOSSES
}

/// How many of the words are the generator's next.
fn drawn(words: &[u32]) -> usize {
    let mut generator = Lcg64Xsh32::new(42, 54);
    let mut right: usize = 0;
    for word in words {
        if generator.next_word() == *word {
            right = right.saturating_add(1);
        }
    }
    right
}

/// How many puts in order are lost as told.
fn foretold(loss: &mut Loss, lost: &[bool]) -> usize {
    let mut right: usize = 0;
    for is_lost in lost {
        if loss.next() == *is_lost {
            right = right.saturating_add(1);
        }
    }
    right
}

#[test]
fn puts_are_lost(rt: HostRuntime) -> Result<(), Fail> {
    assert_eq!(rt; drawn(words()), 6);
    for (rate, drops, lost) in losses() {
        let mut loss = Loss::new(rt.alloc(), 42, 54, *rate, drops)?;
        assert_eq!(rt; foretold(&mut loss, lost), 6);
    }
    Ok(())
}
