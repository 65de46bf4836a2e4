// A pass that was looked up once, so that it can be taken again and again.
ghost use Rattle.std.specs.Prelude.{◌≡◌, IfOk};
ghost use Rattle.sl_layout.specs.Wiring.{plan_of};
ghost use Rattle.sl_proto.specs.Passes.{IsPass};

use crate::schedule::{pass_of, passes_are_choices};
use crate::taker::Taker;
use sl_machine::Memory;
use sl_net::Net;
use sl_world::Looked;
use std::alloc::Global;

/// The entries of a pass, and the links that they take from.
#[derive(Drop)]
pub struct Pass {
    pub entries: Vec<(u32, u32)>,
    pub links: Looked,
}

impl Pass {
    /// A pass of a net, or a settling pass.
    pub fn look_up<T: Taker>(
        alloc: Global,
        net: &Net,
        taker: &T,
        settling: bool,
    ) -> Result<Pass, Memory>
        requires { (T.scene taker.now).plan ≡ plan_of net.now }
        ensures { IfOk result (IsPass net.now settling) }
    {
        // A net is that of its parts.
        let _parts = net.parts();
        passes_are_choices();
        let entries = pass_of(alloc, net, settling)?;
        let links = taker.look_up(alloc, &entries)?;
        Ok(Pass { entries, links })
    }
}
