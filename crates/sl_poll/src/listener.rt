// Whoever is told what a run does with data packets.
ghost use Rattle.std.specs.Prelude.{◌<◌, ◌∷◌, [], List, OnOk, length};
ghost use Rattle.sl_layout.specs.Net.{Net as NetData};
ghost use Rattle.sl_poll.specs.declared.trail.Counted.{Counted};
ghost use Rattle.sl_poll.specs.declared.trail.Pair.{Pair};
ghost use Rattle.sl_poll.specs.Hearing.{Hears};

use crate::trail::{Counted, Pair, Trail};
use sl_machine::Memory;
use sl_net::Net;

/// Is told what a run does with data packets, in the order of its entries.
pub trait Listener {
    /// What was told on a net between two states of it.
    ghost heard: { NetData → Self → Self → List Pair → List Counted → Type 0 };

    /// A data packet was taken on a data channel.
    fn hear_pair(&mut self, net: &Net, pair: Pair) -> Result<(), Memory>
        requires { pair.link < length net.now.links }
        ensures { OnOk result (Hears heard net.now self.old self.new (pair ∷ []) []) };

    /// A step counted a data packet.
    fn hear_count(&mut self, counted: Counted) -> Result<(), Memory>
        ensures { (net : NetData)
            → OnOk result (Hears heard net self.old self.new [] (counted ∷ [])) };
}

/// A trail keeps all that it is told.
impl Listener for Trail {
    ghost use Rattle.sl_poll.specs.Hearing.{HasKept};

    ghost heard = { HasKept };

    fn hear_pair(&mut self, _net: &Net, pair: Pair) -> Result<(), Memory> {
        self.pairs.items.push(pair)?;
        Ok(())
    }

    fn hear_count(&mut self, counted: Counted) -> Result<(), Memory> {
        self.counted.items.push(counted)?;
        Ok(())
    }
}
