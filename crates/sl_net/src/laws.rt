// Laws of nets. The functions do nothing: their contracts are the laws, and the proofs are in
// proofs/.
ghost use Rattle.sl_layout.specs.Net.{Net};
ghost use Rattle.sl_net.specs.Ways.{HasWays};
ghost use Rattle.sl_net.specs.Wired.{IsNet, IsWired};

/// Each net that is made of parts without a fault is wired as the laws of histories ask.
pub fn nets_are_wired()
    ensures { (net : Net) → IsNet net → IsWired net }
{}

/// The lists of links and of choices of any net have those that they are to have.
pub fn nets_have_ways()
    ensures { (net : Net) → HasWays net }
{}
