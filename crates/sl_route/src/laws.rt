// Laws of routes. The functions do nothing: their contracts are the laws, and the proofs are in
// proofs/.
ghost use Rattle.std.specs.Prelude.{ℕ, suc, ◌≡◌, ◌<◌, Some, length};
ghost use Rattle.sl_parts.specs.declared.parts.PortRef.{PortRef};
ghost use Rattle.sl_parts.specs.Parts.{Parts};
ghost use Rattle.sl_parts.specs.Valid.{IsValid};
ghost use Rattle.sl_route.specs.Route.{host_port, hops};
ghost use Rattle.sl_route.specs.Walks.{AreHops, LeadsNearer};

/// The hops are the least number of cables of a walk of any length to the host's device, and
/// there are none exactly where no walk leads there.
pub fn hops_are_least()
    ensures { (parts : Parts) (d h : ℕ) (at : PortRef) → IsValid parts
        → host_port parts h ≡ Some at → AreHops parts d at.device (hops parts d h) }
{}

/// The cable of the next port leads to a device from which the host is one cable nearer. A way has
/// fewer cables than there are devices.
pub fn routes_lead_nearer()
    ensures nearer { (parts : Parts) (d h n : ℕ) → IsValid parts → hops parts d h ≡ Some (suc n)
        → LeadsNearer parts d h n }
    ensures few { (parts : Parts) (d h n : ℕ) → IsValid parts → hops parts d h ≡ Some n
        → n < length parts.devices }
{}
