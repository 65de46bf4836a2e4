// What holds of a host whatever its turns are. The functions do nothing: their contracts are the
// laws, and the proofs are in proofs/.
ghost use Rattle.std.specs.Prelude.{◌≡◌, ◌-◌, ◌^◌, List, min, take};
ghost use Rattle.sl_machine.specs.Turns.{Turn, after};
ghost use Rattle.sl_wire.specs.declared.message.Msg.{Msg};
ghost use Rattle.sl_host.specs.Host.{HostState, host_rules};
ghost use Rattle.sl_host.specs.Turns.{sendings, frames_taken};

/// From its first turn on, a host has put its frames in order, each once, up to the number of those
/// sent, and has counted each frame that it took, as far as 64 bits go.
pub fn frames_are_sent_in_order()
    ensures messages { (s : HostState) (ts : List (Turn Msg))
        → (after host_rules s ts).state.messages ≡ s.messages }
    ensures sent { (s : HostState) (ts : List (Turn Msg)) → s.sent ≡ 0
        → (after host_rules s ts).puts
        ≡ sendings (take (after host_rules s ts).state.sent s.messages) }
    ensures delivered { (s : HostState) (ts : List (Turn Msg)) → s.delivered ≡ 0
        → (after host_rules s ts).state.delivered ≡ min (frames_taken ts) (2 ^ 64 - 1) }
{}
