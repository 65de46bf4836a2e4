// Where the units of each device stand among the units.
ghost use Rattle.std.specs.Prelude.{◌<◌, ◌≤◌, ◌+◌, ◌^◌, ℕ, IfOk, IsTrue};

use crate::unit::Collected;
use std::alloc::{AllocError, Global};

/// Some places in a row.
#[derive(Clone, Copy)]
pub struct Span {
    /// The first of them.
    pub first: usize,
    /// The place after the last.
    pub end: usize,
}

impl Span {
    ghost use Rattle.sl_observe.specs.Kept.{HasSpan, HaveSpans, states};

    /// The span widened to a place at its end or after it, where that belongs to it.
    fn widened(self, place: usize, belongs: bool) -> Span
        requires before { self.end ≤ place }
        requires ordered { self.first ≤ self.end }
        requires place { place < 2 ^ 63 }
        ensures before { result.end ≤ place + 1 }
        ensures ordered { result.first ≤ result.end }
        ensures keeps { (k : ℕ) → self.first ≤ k → k < self.end
            → (result.first ≤ k) × (k < result.end) }
        ensures adds { IsTrue belongs → (result.first ≤ place) × (place < result.end) }
    {
        if !belongs {
            return self;
        }
        let first = if self.first == self.end {
            place
        } else {
            self.first
        };
        Span {
            first,
            end: place + 1,
        }
    }

    /// A span in which the units of a device lie.
    fn of(units: &[Collected], device: u32) -> Span
        ensures { HasSpan (states units.now) device result }
    {
        let mut span = Span { first: 0, end: 0 };
        for (place, unit) in units.iter().enumerate() {
            span = span.widened(place, unit.device() == device);
        }
        span
    }

    /// The spans of the first devices.
    pub fn list(alloc: Global, units: &[Collected], devices: u32) -> Result<Vec<Span>, AllocError>
        ensures { IfOk result (λ spans. HaveSpans (states units.now) devices spans.items) }
    {
        let mut spans = Vec::new(alloc);
        for device in 0..devices {
            spans.push(Span::of(units, device))?;
        }
        Ok(spans)
    }
}
