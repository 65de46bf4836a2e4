// The finding of a number, from what the observer collected.
ghost use Rattle.std.specs.Prelude.{◌≡◌, ℕ, ◌<◌, ◌≤◌, length, take, map, [], ◌∷◌, ◌++◌, IfOk, OnOk};
ghost use Rattle.std.specs.List.{range_with_len};
ghost use Rattle.sl_layout.specs.Net.{units};
ghost use Rattle.sl_observe.specs.Observer.{unit_at, saved_of};
ghost use Rattle.sl_model.specs.Words.{first_told};
ghost use Rattle.sl_model.specs.Verdict.{place_or_zero};
ghost use Rattle.sl_model.specs.Accounts.{behind, lag_by, cause_by, row_of, value_row, floor_by};
ghost use Rattle.sl_model.specs.Accounts.{holds, verdict_by, rows_by, finding_by};
ghost use Rattle.sl_simulation.specs.ObserverImage.{account_of};
ghost use Rattle.sl_proto.specs.Told.{HasAllRows, accounts_of, IsValue};

use sl_machine::Memory;
use sl_model::{Cause, Finding, FindingList, Lag, Row, Rows1, Verdict};
use sl_net::Net;
use sl_observe::Observer;
use sl_saves::Saved;
use std::alloc::Global;

/// The first of a unit's last-seen numbers, as many as there are.
fn front(numbers: &[u64; 8], count: usize) -> &[u64]
    ensures front { result.now ≡ take count numbers.now }
    ensures few { length result.now ≤ 8 }
{
    &numbers[..count.min(8)]
}

/// The first of some numbers that is below `k`, by its place.
fn first_behind(numbers: &[u64], k: u64) -> Option<(u32, u64)>
    requires { length numbers.now ≤ 8 }
    ensures { result ≡ first_told (behind k) numbers.now }
{
    let mut place = 0;
    for number in numbers {
        if *number < k {
            return Some((place, *number));
        }
        place += 1;
    }
    None
}

/// What of a unit lags behind `k`, if something does.
fn lag_at(net: &Net, observer: &Observer, unit: u32, k: u64) -> Option<Lag>
    requires collected { HasAllRows net.now observer.now.state }
    requires unit { unit < length (units net.now) }
    ensures { result ≡ lag_by k (account_of (unit_at observer.now.state.units unit)) }
{
    let seen = observer.seen(unit);
    if seen.id < k {
        return Some(Lag::Id(seen.id));
    }
    let channels = net.upstream(unit).len();
    match first_behind(front(&seen.last, channels), k) {
        Some((channel, seen)) => Some(Lag::Channel { channel, seen }),
        None => None,
    }
}

/// The first unit that lags behind `k`, by its place.
fn first_lag(net: &Net, observer: &Observer, k: u64) -> Option<(u32, Lag)>
    requires { HasAllRows net.now observer.now.state }
    ensures { result ≡ first_told (lag_by k) (accounts_of observer.now.state) }
{
    for unit in 0..net.unit_count() {
        if let Some(lag) = lag_at(net, observer, unit, k) {
            return Some((unit, lag));
        }
    }
    None
}

/// Why `k` is inconsistent at a unit, if it is.
fn cause_at(observer: &Observer, unit: u32, k: u64) -> Option<Cause>
    requires unit { unit < length observer.now.state.units }
    requires first { 1 ≤ k }
    ensures { result ≡ cause_by k (account_of (unit_at observer.now.state.units unit)) }
{
    match observer.saved(unit, k) {
        Some(Saved::Skipped { to }) => Some(Cause::Skipped { to: *to }),
        Some(Saved::Miscredited { by, .. }) => Some(Cause::Miscredited { by: *by }),
        _ => None,
    }
}

/// The first unit at which `k` is inconsistent, by its place.
fn first_cause(net: &Net, observer: &Observer, k: u64) -> Option<(u32, Cause)>
    requires collected { HasAllRows net.now observer.now.state }
    requires first { 1 ≤ k }
    ensures { result ≡ first_told (cause_by k) (accounts_of observer.now.state) }
{
    for unit in 0..net.unit_count() {
        if let Some(cause) = cause_at(observer, unit, k) {
            return Some((unit, cause));
        }
    }
    None
}

/// The first unit that holds the floor, by its place, 0 where there is no unit.
fn holder(net: &Net, observer: &Observer) -> u32
    requires { HasAllRows net.now observer.now.state }
    ensures { let o = observer.now.state in
        result ≡ place_or_zero
        (first_told (holds (floor_by o.issued (accounts_of o))) (accounts_of o)) }
{
    let floor = observer.floor();
    for unit in 0..net.unit_count() {
        if observer.seen(unit).floor == floor {
            return unit;
        }
    }
    0
}

fn issued_verdict(net: &Net, observer: &Observer, k: u64) -> Verdict
    requires collected { HasAllRows net.now observer.now.state }
    requires first { 1 ≤ k }
    requires issued { k ≤ observer.now.state.issued }
    ensures { result ≡ verdict_by observer.now.state.issued (accounts_of observer.now.state) k }
{
    if let Some((unit, lag)) = first_lag(net, observer, k) {
        return Verdict::Pending { unit, lag };
    }
    match first_cause(net, observer, k) {
        Some((unit, cause)) => Verdict::Inconsistent { unit, cause },
        None => Verdict::Consistent,
    }
}

/// The verdict on a number by what the observer collected of the units.
pub fn verdict(net: &Net, observer: &Observer, k: u64) -> Verdict
    requires collected { HasAllRows net.now observer.now.state }
    requires first { 1 ≤ k }
    ensures { result ≡ verdict_by observer.now.state.issued (accounts_of observer.now.state) k }
{
    if k <= observer.issued() {
        return issued_verdict(net, observer, k);
    }
    Verdict::NotIssued {
        unit: holder(net, observer),
        floor: observer.floor(),
    }
}

/// What a unit saved for `k`, which is a value.
fn row_at(observer: &Observer, unit: u32, k: u64) -> Row
    requires unit { unit < length observer.now.state.units }
    requires first { 1 ≤ k }
    requires value { IsValue (saved_of (unit_at observer.now.state.units unit) k) }
    ensures { result ≡ value_row (row_of k (account_of (unit_at observer.now.state.units unit))) }
{
    match observer.saved(unit, k) {
        Some(
            Saved::Value {
                packets,
                bytes,
                inflight,
            },
        ) => Row {
            packets: *packets,
            bytes: *bytes,
            inflight: *inflight,
        },
        _ => unreachable!(),
    }
}

fn rows(alloc: Global, net: &Net, observer: &Observer, k: u64) -> Result<Rows1, Memory>
    requires units { length observer.now.state.units ≡ length (units net.now) }
    requires first { 1 ≤ k }
    requires values { (unit : ℕ) → unit < length (units net.now)
        → IsValue (saved_of (unit_at observer.now.state.units unit) k) }
    ensures { IfOk result
        (λ rows. rows ≡ map (λ a. value_row (row_of k a)) (accounts_of observer.now.state)) }
{
    let count = net.unit_count();
    let mut items = Vec::with_capacity(alloc, count as usize)?;
    for unit in 0..count {
        items.push(row_at(observer, unit, k))?;
    }
    Ok(Rows1 { items })
}

/// A row for each unit where this verdict on `k` is that it is consistent.
fn rows_for(
    alloc: Global,
    net: &Net,
    observer: &Observer,
    k: u64,
    verdict: Verdict,
) -> Result<Rows1, Memory>
    requires collected { HasAllRows net.now observer.now.state }
    requires first { 1 ≤ k }
    requires verdict { verdict ≡ verdict_by observer.now.state.issued
        (accounts_of observer.now.state) k }
    ensures { IfOk result (λ rows. rows ≡ rows_by (accounts_of observer.now.state) k verdict) }
{
    match verdict {
        Verdict::Consistent => rows(alloc, net, observer, k),
        _ => Ok(Rows1 {
            items: Vec::new(alloc),
        }),
    }
}

/// The finding of a number by what the observer collected of the units.
pub fn finding(alloc: Global, net: &Net, observer: &Observer, k: u64) -> Result<Finding, Memory>
    requires collected { HasAllRows net.now observer.now.state }
    requires first { 1 ≤ k }
    ensures { IfOk result
        (λ one. one ≡ finding_by observer.now.state.issued (accounts_of observer.now.state) k) }
{
    let verdict = verdict(net, observer, k);
    let rows = rows_for(alloc, net, observer, k, verdict)?;
    Ok(Finding { k, verdict, rows })
}

/// The findings of the first numbers, in order.
pub fn finding_list(
    alloc: Global,
    net: &Net,
    observer: &Observer,
    count: u64,
) -> Result<FindingList, Memory>
    requires { HasAllRows net.now observer.now.state }
    ensures { IfOk result
        (λ list. list ≡ map (finding_by observer.now.state.issued (accounts_of observer.now.state))
        (range_with_len 1 count)) }
{
    let mut items = Vec::new(alloc);
    for done in 0..count {
        let finding = finding(alloc, net, observer, done + 1)?;
        items.push(finding)?;
    }
    Ok(FindingList { items })
}
