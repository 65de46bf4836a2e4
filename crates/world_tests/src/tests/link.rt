// One link, from one thread and from two.
ghost use Rattle.std.specs.Prelude.{◌≡◌, ◌≤◌, length};

use sl_link::{Met, Offer, PutEnd, Stamped, TakeEnd, make_link, meet, tell_each_other};
use std::sync::Wait;
use std::test::Fail;
use std::thread;

fn message(number: u64) -> Stamped<u32> {
    Stamped { number, m: 7 }
}

type Ends = (PutEnd<u32>, TakeEnd<u32>);

/// Puts a message of this number; without one, takes a message. Answers the number of the message
/// that was given back or taken.
fn step<R: Wait>(rt: &R, ends: &mut Ends, number: Option<u64>) -> Option<u64>
    ensures put { ends.new.0.channel ≡ ends.old.0.channel }
    ensures take { ends.new.1.channel ≡ ends.old.1.channel }
{
    match number {
        None => match ends.1.take(rt) {
            None => None,
            Some(s) => Some(s.number),
        },
        Some(number) => match ends.0.offer(rt, message(number)) {
            Offer::Put => None,
            Offer::Full(back) => Some(back.number),
        },
    }
}

/// Steps on a link with one place, and what each answers.
static STEPS: [(Option<u64>, Option<u64>); 6] = [
    (None, None),
    (Some(1), None),
    (Some(2), Some(2)),
    (None, Some(1)),
    (None, None),
    (Some(3), None),
];

fn steps() -> &'static [(Option<u64>, Option<u64>)] {
    &STEPS
}

/// The place of the first step that went wrong.
fn first_wrong<R: Wait>(
    rt: &R,
    ends: &mut Ends,
    steps: &[(Option<u64>, Option<u64>)],
) -> Option<usize>
    ensures put { ends.new.0.channel ≡ ends.old.0.channel }
    ensures take { ends.new.1.channel ≡ ends.old.1.channel }
{
    for i in 0..steps.len() {
        let (number, answer) = steps[i];
        if step(rt, ends, number) != answer {
            return Some(i);
        }
    }
    None
}

/// Whether the messages left on a link have just these numbers.
fn leaves<R: Wait>(rt: &R, mut met: Met<u32>, numbers: &[u64]) -> bool {
    for number in numbers {
        if !met.next(rt).is_some_and(|s| s.number == *number) {
            return false;
        }
    }
    met.next(rt).is_none()
}

#[test]
fn one_place_link(rt: HostRuntime) -> Result<(), Fail> {
    let mut ends = make_link::<u32>(rt.alloc(), 1)?;
    let wrong = first_wrong(&rt, &mut ends, steps());
    let (put, take) = ends;
    let rest = leaves(&rt, meet(put, take), &[3]);
    assert_eq!(rt; (wrong, rest), (None, true));
    Ok(())
}

fn put_all<R: Wait>(rt: &R, mut put: PutEnd<u32>, count: u64) -> PutEnd<u32>
    ensures { result.channel ≡ put.channel }
{
    for number in 0..count {
        let mut s = message(number);
        for _ in rt.forever() {
            match put.offer(rt, s) {
                Offer::Put => break,
                Offer::Full(back) => s = back,
            }
            thread::yield_now();
        }
    }
    put
}

/// How many of the messages taken were the next in order.
fn take_some<R: Wait>(rt: &R, mut take: TakeEnd<u32>, count: u64) -> (TakeEnd<u32>, u64)
    ensures { result.0.channel ≡ take.channel }
{
    let mut right = 0u64;
    for number in 0..count {
        for _ in rt.forever() {
            if let Some(s) = take.take(rt) {
                if s.number == number {
                    right = right.saturating_add(1);
                }
                break;
            }
            thread::yield_now();
        }
    }
    (take, right)
}

#[test]
fn a_thousand_messages(rt: HostRuntime) -> Result<(), Fail> {
    let (put, take) = make_link::<u32>(rt.alloc(), 4)?;
    let (put, (take, right)) = thread::join(
        &rt,
        || -> PutEnd<u32>
            ensures { result.channel ≡ put.channel }
        { put_all(&rt, put, 1000) },
        || -> (TakeEnd<u32>, u64)
            ensures { result.0.channel ≡ take.channel }
        { take_some(&rt, take, 997) },
    );
    let rest = leaves(&rt, meet(put, take), &[997, 998, 999]);
    assert_eq!(rt; (right, rest), (997, true));
    Ok(())
}

/// Puts a message on a link that holds none, and takes one from it. Neither call finds it otherwise: each
/// end was told what the other did.
fn through<R: Wait>(rt: &R, ends: &mut Ends, number: u64) -> u64
    requires channel { ends.old.1.channel ≡ ends.old.0.channel }
    requires none { length ends.old.0.put ≡ length ends.old.1.taken }
    requires room { 1 ≤ ends.old.0.capacity }
    ensures channel { ends.new.1.channel ≡ ends.new.0.channel }
    ensures none { length ends.new.0.put ≡ length ends.new.1.taken }
    ensures room { ends.new.0.capacity ≡ ends.old.0.capacity }
{
    let (put, take) = ends;
    tell_each_other(put, take);
    match put.offer(rt, message(number)) {
        Offer::Put => {}
        Offer::Full(_) => unreachable!(),
    }
    tell_each_other(put, take);
    match take.take(rt) {
        None => unreachable!(),
        Some(s) => s.number,
    }
}

/// A message is found where its put was told of, and there is room where its take was.
#[test]
fn what_is_told_is_found(rt: HostRuntime) -> Result<(), Fail> {
    let mut ends = make_link::<u32>(rt.alloc(), 1)?;
    let first = through(&rt, &mut ends, 5);
    let second = through(&rt, &mut ends, 6);
    drop(ends);
    assert_eq!(rt; (first, second), (5, 6));
    Ok(())
}
