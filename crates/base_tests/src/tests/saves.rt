// Saved entries, kept as a list and in a ring, and what their views say of a number.
ghost use Rattle.std.specs.Prelude.{◌≡◌, ◌<◌, ◌≤◌, length, IfOk, OnOk};
ghost use Rattle.sl_saves.specs.Lists.{list_window, list_size};
ghost use Rattle.sl_saves.specs.Rings.{ring_window, ring_size, ring_view};

use rand_core::utils::NextWord;
use rand_pcg::Lcg64Xsh32;
use sl_machine::Memory;
use sl_saves::{ListSaves, RingSaves, Saved, Saves, Total, View, read_saved, try_read_saved};
use std::alloc::Global;
use std::test::Fail;

const NONE: Total = Total {
    packets: 0,
    bytes: 0,
};

/// What was saved of a number: so many packets of 100 bytes, with some in flight on the first
/// channel; or nothing, as it was skipped to 3 or miscredited by 3.
#[derive(Clone, Copy)]
enum Told {
    Value(u64, u64),
    Skipped,
    Miscredited,
}

/// What is told of numbers after a credit that goes to 3.
const CREDITED: &[(u64, Told)] = &[
    (3, Told::Value(7, 1)),
    (2, Told::Skipped),
    (1, Told::Value(5, 0)),
];

/// The same of 1 where another one to 3 should have gone to it.
const LATE: &[(u64, Told)] = &[(1, Told::Miscredited)];

/// What is told after a credit to 3 and 1.
const TWICE: &[(u64, Told)] = &[
    (3, Told::Value(7, 1)),
    (2, Told::Skipped),
    (1, Told::Value(5, 1)),
];

fn saved_of(told: Told) -> Saved {
    match told {
        Told::Value(packets, in_flight) => {
            let first = Total {
                packets: in_flight,
                bytes: in_flight.saturating_mul(100),
            };
            Saved::Value {
                packets,
                bytes: packets.saturating_mul(100),
                inflight: [first, NONE, NONE, NONE, NONE, NONE, NONE, NONE],
            }
        }
        Told::Skipped => Saved::Skipped { to: 3 },
        Told::Miscredited => Saved::Miscredited { by: 3, reach: 3 },
    }
}

/// What a view of three slots at the number 3 says of another.
fn answer(view: &View, k: u64) -> Option<Saved>
    requires at { view.now.at < 3 }
    requires size { length view.now.slots ≡ 3 }
{
    if k < 1 || k > 3 {
        return None;
    }
    let tried = try_read_saved(view, 3, k);
    if tried.is_some() {
        return Some(read_saved(view, 3, k));
    }
    None
}

/// Whether a view says these of numbers.
fn says(view: &View, answers: &[(u64, Told)]) -> bool
    requires at { view.now.at < 3 }
    requires size { length view.now.slots ≡ 3 }
{
    for (k, told) in answers {
        if answer(view, *k) != Some(saved_of(*told)) {
            return false;
        }
    }
    true
}

/// Saves 1 with five packets, and then 3 with seven.
fn adopt_two<S: Saves>(saves: &mut S) -> Result<(), Memory>
    requires { S.window saves.old ≡ 3 }
    ensures window { S.window saves.new ≡ S.window saves.old }
    ensures size { S.size saves.new ≡ S.size saves.old }
{
    saves.ready()?;
    saves.adopt(1, 5, 500);
    saves.ready()?;
    saves.adopt(2, 7, 700);
    Ok(())
}

fn check_entries<S: Saves>(saves: &mut S) -> Result<bool, Memory>
    requires window { S.window saves.old ≡ 3 }
    requires size { S.size saves.old ≡ 3 }
{
    adopt_two(saves)?;
    saves.credit(0, 2, 100);
    let mut view = saves.view()?;
    let credited = says(&view, CREDITED);
    saves.credit(0, 3, 100);
    saves.fill(&mut view);
    Ok(credited && says(&view, LATE))
}

/// A packet goes to two numbers, and its foot is the lower one.
fn check_two_credits<S: Saves>(saves: &mut S) -> Result<bool, Memory>
    requires window { S.window saves.old ≡ 3 }
    requires size { S.size saves.old ≡ 3 }
{
    adopt_two(saves)?;
    saves.credit(0, 3, 100);
    let view = saves.view()?;
    Ok(says(&view, TWICE))
}

/// Whether both are right, of what credits go to one number in, and to two.
fn both_right<S: Saves>(mut one: S, mut two: S) -> Result<(bool, bool), Memory>
    requires one { S.window one ≡ 3 }
    requires one_size { S.size one ≡ 3 }
    requires two { S.window two ≡ 3 }
    requires two_size { S.size two ≡ 3 }
{
    let once = check_entries(&mut one);
    let twice = check_two_credits(&mut two);
    drop(one);
    drop(two);
    Ok((once?, twice?))
}

/// Whether both are right of lists.
fn list_entries(alloc: Global) -> Result<(bool, bool), Memory> {
    let one = ListSaves::new(alloc, 3, 3, 1)?;
    let two = ListSaves::new(alloc, 3, 3, 2)?;
    both_right(one, two)
}

/// The same of rings.
fn ring_entries(alloc: Global) -> Result<(bool, bool), Memory> {
    let one = RingSaves::new(alloc, 3, 3, 1)?;
    let two = RingSaves::new(alloc, 3, 3, 2)?;
    both_right(one, two)
}

#[test]
fn saved_entries(rt: HostRuntime) -> Result<(), Fail> {
    let (list, ring) = (list_entries(rt.alloc())?, ring_entries(rt.alloc())?);
    assert_eq!(rt; (list, ring), ((true, true), (true, true)));
    Ok(())
}

/// A step of at least one and at most the window, as a random number says.
fn step_of(window: u16, random: u32) -> u16
    requires some { 1 ≤ window }
    ensures least { 1 ≤ result }
    ensures most { result ≤ window }
{
    (random % u32::from(window) + 1) as u16
}

/// Adopts by so much, and answers it.
fn adopt_by<S: Saves>(saves: &mut S, by: u16, random: u32) -> Result<u16, Memory>
    requires least { 1 ≤ by }
    requires most { by ≤ S.window saves.old }
    ensures window { S.window saves.new ≡ S.window saves.old }
    ensures size { S.size saves.new ≡ S.size saves.old }
{
    saves.ready()?;
    saves.adopt(by, u64::from(random % 1000), u64::from(random));
    Ok(by)
}

/// Credits a packet whose stamp lies so far below the number, and answers that it did not rise.
fn credit_by<S: Saves>(saves: &mut S, age: u16, random: u32) -> Result<u16, Memory>
    requires least { 1 ≤ age }
    requires most { age ≤ S.window saves.old }
    ensures window { S.window saves.new ≡ S.window saves.old }
    ensures size { S.size saves.new ≡ S.size saves.old }
{
    saves.credit((random >> 16) % 8, age, u64::from(random % 1000));
    Ok(0)
}

/// Adopts or credits, as a random number says. The answer is by how much the number rose.
fn take_turn<S: Saves>(saves: &mut S, window: u16, random: u32) -> Result<u16, Memory>
    requires some { 1 ≤ window }
    requires window { S.window saves.old ≡ window }
    ensures window { S.window saves.new ≡ S.window saves.old }
    ensures size { S.size saves.new ≡ S.size saves.old }
{
    let step = step_of(window, random >> 8);
    match random >> 29 {
        0 => adopt_by(saves, step, random),
        1 | 2 => adopt_by(saves, 1, random),
        _ => credit_by(saves, step, random),
    }
}

/// The number that a list and a ring have come to, and of the numbers below it that two views were
/// asked for, of how many they said a value, and of how many nothing or not the same.
#[derive(Clone, Copy)]
struct Tally {
    id: u64,
    values: u64,
    wrong: u64,
}

/// What two views say of the numbers below theirs.
fn compare(ring: u16, one: &View, other: &View, tally: &mut Tally)
    requires at { one.now.at < ring }
    requires size { length one.now.slots ≡ ring }
    requires other_at { other.now.at < ring }
    requires other_size { length other.now.slots ≡ ring }
{
    let id = tally.id;
    for back in 0..u64::from(ring) {
        if back < id {
            let said = try_read_saved(one, id, id - back);
            let is_alike = said == try_read_saved(other, id, id - back);
            if said.is_none() || !is_alike {
                tally.wrong = tally.wrong.saturating_add(1);
            }
            if matches!(said, Some(Saved::Value { .. })) {
                tally.values = tally.values.saturating_add(1);
            }
        }
    }
}

/// A turn of both, after which they have risen alike.
fn take_turns(
    list: &mut ListSaves,
    slots: &mut RingSaves,
    window: u16,
    random: u32,
    tally: &mut Tally,
) -> Result<(), Memory>
    requires some { 1 ≤ window }
    requires list_window { list_window list.old ≡ window }
    requires ring_window { ring_window slots.old ≡ window }
    ensures list_window { list_window list.new ≡ list_window list.old }
    ensures ring_window { ring_window slots.new ≡ ring_window slots.old }
    ensures list_size { list_size list.new ≡ list_size list.old }
    ensures ring_size { ring_size slots.new ≡ ring_size slots.old }
{
    let by = take_turn(list, window, random)?;
    if take_turn(slots, window, random)? != by {
        tally.wrong = tally.wrong.saturating_add(1);
    }
    tally.id = tally.id.saturating_add(u64::from(by));
    Ok(())
}

/// Has each of two views filled by the other than the one that filled it last.
fn compare_filled(
    list: &ListSaves,
    slots: &RingSaves,
    ring: u16,
    one: &mut View,
    other: &mut View,
    tally: &mut Tally,
)
    requires list { list_size list.now ≡ ring }
    requires slots { ring_size slots.now ≡ ring }
    requires one { length one.old.slots ≡ ring }
    requires other { length other.old.slots ≡ ring }
    ensures one { length one.new.slots ≡ ring }
    ensures one_at { one.new.at < ring }
    ensures other { length other.new.slots ≡ ring }
    ensures shown { length (ring_view slots.now).slots ≡ ring }
    ensures shown_at { (ring_view slots.now).at < ring }
{
    slots.fill(one);
    list.fill(other);
    compare(ring, one, other, tally);
    list.fill(one);
    slots.fill(other);
    compare(ring, one, other, tally);
}

/// Compares new views.
fn compare_new(
    list: &ListSaves,
    slots: &RingSaves,
    ring: u16,
    tally: &mut Tally,
) -> Result<(), Memory>
    requires list { list_size list.now ≡ ring }
    requires slots { ring_size slots.now ≡ ring }
{
    let one = list.view()?;
    let other = slots.view()?;
    compare(ring, &one, &other, tally);
    Ok(())
}

/// Compares a view with one by which the ring shows itself.
fn compare_shown(
    slots: &mut RingSaves,
    ring: u16,
    one: &View,
    shown: &mut View,
    tally: &mut Tally,
) -> Result<(), Memory>
    requires one { length one.now.slots ≡ ring }
    requires one_at { one.now.at < ring }
    requires shown { length (ring_view slots.old).slots ≡ ring }
    requires shown_at { (ring_view slots.old).at < ring }
    ensures same { slots.new ≡ slots.old }
{
    slots.show(shown)?;
    compare(ring, one, shown, tally);
    Ok(())
}

/// Two views that are filled, one by which the ring shows itself after each turn, and one by which
/// it does now and then.
#[derive(Drop)]
struct Views {
    one: View,
    other: View,
    shown: View,
    held: View,
}

/// A view of each.
fn two_views<S: Saves, T: Saves>(first: &S, second: &T) -> Result<(View, View), Memory>
    ensures first { IfOk result (λ v. length v.0.slots ≡ S.size first.now) }
    ensures second { IfOk result (λ v. length v.1.slots ≡ T.size second.now) }
{
    let one = first.view()?;
    let other = second.view()?;
    Ok((one, other))
}

fn views_of(list: &ListSaves, slots: &RingSaves) -> Result<Views, Memory>
    ensures one { IfOk result (λ v. length v.one.slots ≡ list_size list.now) }
    ensures other { IfOk result (λ v. length v.other.slots ≡ ring_size slots.now) }
{
    let (one, other) = two_views(list, slots)?;
    let (shown, held) = two_views(slots, slots)?;
    Ok(Views {
        one,
        other,
        shown,
        held,
    })
}

/// A turn on a list and on a ring, whose views are then compared.
fn compare_turn(
    list: &mut ListSaves,
    slots: &mut RingSaves,
    window: u16,
    ring: u16,
    random: u32,
    views: &mut Views,
    tally: &mut Tally,
) -> Result<(), Memory>
    requires some { 1 ≤ window }
    requires list_window { list_window list.old ≡ window }
    requires ring_window { ring_window slots.old ≡ window }
    requires list_size { list_size list.old ≡ ring }
    requires ring_size { ring_size slots.old ≡ ring }
    requires one { length views.old.one.slots ≡ ring }
    requires other { length views.old.other.slots ≡ ring }
    ensures list_window { OnOk result (list_window list.new ≡ window) }
    ensures ring_window { OnOk result (ring_window slots.new ≡ window) }
    ensures list_size { OnOk result (list_size list.new ≡ ring) }
    ensures ring_size { OnOk result (ring_size slots.new ≡ ring) }
    ensures one { OnOk result (length views.new.one.slots ≡ ring) }
    ensures other { OnOk result (length views.new.other.slots ≡ ring) }
{
    take_turns(list, slots, window, random, tally)?;
    compare_filled(list, slots, ring, &mut views.one, &mut views.other, tally);
    compare_new(list, slots, ring, tally)?;
    compare_shown(slots, ring, &views.one, &mut views.shown, tally)?;
    // What another view holds is not written.
    if random % 4 == 0 {
        compare_shown(slots, ring, &views.one, &mut views.held, tally)?;
    }
    Ok(())
}

/// A thousand turns on a list and on a ring, whose views say the same.
fn compare_turns(
    list: &mut ListSaves,
    slots: &mut RingSaves,
    window: u16,
    ring: u16,
    views: &mut Views,
) -> Result<Tally, Memory>
    requires some { 1 ≤ window }
    requires list_window { list_window list.old ≡ window }
    requires ring_window { ring_window slots.old ≡ window }
    requires list_size { list_size list.old ≡ ring }
    requires ring_size { ring_size slots.old ≡ ring }
    requires one { length views.old.one.slots ≡ ring }
    requires other { length views.old.other.slots ≡ ring }
{
    let mut generator = Lcg64Xsh32::new(1, 1);
    let mut tally = Tally {
        id: 0,
        values: 0,
        wrong: 0,
    };
    for _ in 0..1000 {
        let random = generator.next_word();
        compare_turn(list, slots, window, ring, random, views, &mut tally)?;
    }
    Ok(tally)
}

/// The same with new views.
fn compare_from_new(
    list: &mut ListSaves,
    slots: &mut RingSaves,
    window: u16,
    ring: u16,
) -> Result<Tally, Memory>
    requires some { 1 ≤ window }
    requires list_window { list_window list.old ≡ window }
    requires ring_window { ring_window slots.old ≡ window }
    requires list_size { list_size list.old ≡ ring }
    requires ring_size { ring_size slots.old ≡ ring }
{
    let mut views = views_of(list, slots)?;
    compare_turns(list, slots, window, ring, &mut views)
}

/// Whether they are read alike, with such a window, ring and credits.
fn are_alike(alloc: Global, window: u16, ring: u16, credits: u8) -> Result<bool, Memory>
    requires least { 1 ≤ window }
    requires most { window ≤ ring }
    requires some { 1 ≤ credits }
    requires few { credits ≤ 4 }
{
    let mut list = ListSaves::new(alloc, window, ring, credits)?;
    let mut slots = RingSaves::new(alloc, window, ring, credits)?;
    let compared = compare_from_new(&mut list, &mut slots, window, ring);
    drop(slots);
    drop(list);
    let tally = compared?;
    Ok(tally.wrong == 0 && tally.values > 1000 && tally.id > 400)
}

/// Whether they are, in views of 3, 16, 17 and 40 slots.
fn all_alike(alloc: Global, credits: u8) -> Result<bool, Memory>
    requires some { 1 ≤ credits }
    requires few { credits ≤ 4 }
{
    let least = are_alike(alloc, 3, 3, credits)?;
    let even = are_alike(alloc, 7, 16, credits)?;
    let odd = are_alike(alloc, 7, 17, credits)?;
    let large = are_alike(alloc, 40, 40, credits)?;
    Ok(least && even && odd && large)
}

#[test]
fn list_and_ring_are_read_alike(rt: HostRuntime) -> Result<(), Fail> {
    for credits in 1..5u8 {
        assert!(rt; all_alike(rt.alloc(), credits)?, "{credits}");
    }
    Ok(())
}

/// Thirty adoptions for which the ring is not made ready.
fn adopt_unready(list: &mut ListSaves, slots: &mut RingSaves) -> Result<(), Memory>
    requires list_window { list_window list.old ≡ 7 }
    requires ring_window { ring_window slots.old ≡ 7 }
    ensures list_size { list_size list.new ≡ list_size list.old }
    ensures ring_size { ring_size slots.new ≡ ring_size slots.old }
{
    for turn in 0..30u64 {
        list.ready()?;
        list.adopt(1, turn, turn);
        slots.adopt(1, turn, turn);
    }
    Ok(())
}

/// What views say after them, and once the ring was made ready.
fn compare_unready(list: &mut ListSaves, slots: &mut RingSaves) -> Result<Tally, Memory>
    requires list_window { list_window list.old ≡ 7 }
    requires ring_window { ring_window slots.old ≡ 7 }
    requires list_size { list_size list.old ≡ 40 }
    requires ring_size { ring_size slots.old ≡ 40 }
{
    adopt_unready(list, slots)?;
    let mut tally = Tally {
        id: 30,
        values: 0,
        wrong: 0,
    };
    compare_new(list, slots, 40, &mut tally)?;
    slots.ready()?;
    compare_new(list, slots, 40, &mut tally)?;
    Ok(tally)
}

/// The same of a new list and ring.
fn unready(alloc: Global) -> Result<Tally, Memory> {
    let mut list = ListSaves::new(alloc, 7, 40, 4)?;
    let mut slots = RingSaves::new(alloc, 7, 40, 4)?;
    compare_unready(&mut list, &mut slots)
}

#[test]
fn ring_needs_no_room(rt: HostRuntime) -> Result<(), Fail> {
    let tally = unready(rt.alloc())?;
    assert_eq!(rt; (tally.values, tally.wrong), (60, 0));
    Ok(())
}
