// A machine that sends tokens and passes them on.
ghost use Rattle.std.specs.Prelude.{◌≡◌, ◌+◌, ◌-◌, ◌≤◌, ◌^◌, ◌==◌, ◌∷◌, [], ℕ, min, Option, Some};
ghost use Rattle.std.specs.Prelude.{None, if◌then◌else◌};

use sl_machine::{Machine, Memory, Outputs};

/// Sends tokens while it has some left, and passes on those that come with one hop less, until they
/// have none.
#[derive(Drop)]
pub struct Passer {
    hops: u32,
    left: u32,
    /// How many tokens came.
    pub seen: u32,
    prepared: Option<u32>,
}

impl Passer {
    /// One that sends so many tokens, each for so many hops after the first.
    pub fn new(hops: u32, left: u32) -> Passer
        ensures { result ≡ record { hops = hops; left = left; seen = 0; prepared = None } }
    {
        Passer {
            hops,
            left,
            seen: 0,
            prepared: None,
        }
    }
}

impl Machine for Passer {
    ghost use Rattle.thread_tests.specs.Ring.{PasserState, passer_state};

    type Msg = u32;

    ghost State = { PasserState };

    ghost state = { passer_state };

    ghost rules = { record {
      take = λ s link m.
          record {
            state = (s.0, s.1, min (s.2 + 1) (2 ^ 32 - 1));
            puts = if m == 0 then [] else (0, m - 1) ∷ [];
          };
      act = λ s action. if s.1 == 0 then None else Some
          (record { state = (s.0, s.1 - 1, s.2); puts = (0, s.0) ∷ [] });
    } };

    ghost counts = { λ _. record { ins = 1; outs = 1; actions = 1 } };

    ghost ready_for = { λ p. p.prepared };

    fn ready(&mut self, choice: u32) -> Result<(), Memory> {
        self.prepared = Some(choice);
        Ok(())
    }

    fn take(&mut self, _link: u32, m: u32, out: &mut Outputs<u32>) {
        self.prepared = None;
        self.seen = self.seen.saturating_add(1);
        if m != 0 {
            out.put(0, m - 1);
        }
    }

    fn act(&mut self, _action: u32, out: &mut Outputs<u32>) -> bool {
        self.prepared = None;
        if self.left == 0 {
            return false;
        }
        out.put(0, self.hops);
        self.left -= 1;
        true
    }
}
