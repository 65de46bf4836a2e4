// Laws of what hosts send. The functions do nothing, or call other laws: their contracts are the
// laws, and the proofs are in proofs/. cs are a unit's data channels, as choices.
ghost use Rattle.std.specs.Prelude.{◌≡◌, ◌≢◌, ◌-◌, ℕ, List, [], Some, None};
ghost use Rattle.sl_parts.specs.Parts.{Parts};
ghost use Rattle.sl_layout.specs.Net.{Net};
ghost use Rattle.sl_net.specs.declared.input.Packet.{Packet};
ghost use Rattle.sl_wire.specs.Carried.{carrying};
ghost use Rattle.sl_unit.specs.declared.wires.Entrance.TheVariants.{Host};
ghost use Rattle.sl_unit.specs.declared.wires.Way.TheVariants.{Toward};
ghost use Rattle.sl_unit.specs.Wires.{entrance_at, port_to};
ghost use Rattle.sl_unit.specs.Registers.{counted as counted_in};
ghost use Rattle.sl_unit.specs.Step.{UnitState, data_frame, send, unit_take};
ghost use Rattle.sl_model.specs.declared.message.Message.TheVariants.{Host as HostMsg};
ghost use Rattle.sl_model.specs.declared.message.Step.{Step};
ghost use Rattle.sl_model.specs.Frame.{packet_of};
ghost use Rattle.sl_model.specs.History.{History, Losses, id, last};
ghost use Rattle.sl_model.specs.Counting.{packets, bytes, bad, expired, noroute};
ghost use Rattle.sl_model.specs.Setup.{Setup};
ghost use Rattle.sl_model.specs.World.{Entry, next_step, world};
ghost use Rattle.sl_model.specs.Cut.{value};
ghost use Rattle.sl_model.specs.Verdict.{cause, lag};
ghost use Rattle.sl_model.specs.Calls.{calls};
ghost use Rattle.sl_model.specs.Rows.{row};
ghost use Rattle.sl_simulation.specs.Dropped.{bad_one, expired_one, noroute_one, with_registers};
ghost use Rattle.sl_simulation.specs.Forged.{without_forged};

use sl_model::calls_follow_steps;

/// Bytes from the host that are no plain frame, whatever they are, are dropped as bad: no id, no
/// last-seen id, no counter but that of bad frames and nothing that was saved changes, and the unit
/// puts nothing.
pub fn forged_frames_are_bad()
    ensures { (s : UnitState) (c : ℕ) (bytes : List ℕ) → entrance_at s.wires c ≡ Host
        → packet_of bytes ≡ None
        → unit_take s c (carrying bytes)
        ≡ record { state = with_registers s (bad_one s.registers); puts = [] } }
{}

/// A packet from the host is counted. It is dropped as expired exactly where its hop limit is 0,
/// else as without a route exactly where its destination has none, and else sent on with one hop
/// less.
pub fn packets_are_dropped_by_their_causes()
    ensures expired { (s : UnitState) (c : ℕ) (bytes : List ℕ) (p : Packet)
        → entrance_at s.wires c ≡ Host → packet_of bytes ≡ Some p
        → p.hops ≡ 0 → unit_take s c (carrying bytes)
        ≡ record { state = with_registers s (expired_one p s.registers); puts = [] } }
    ensures noroute { (s : UnitState) (c : ℕ) (bytes : List ℕ) (p : Packet)
        → entrance_at s.wires c ≡ Host → packet_of bytes ≡ Some p
        → p.hops ≢ 0 → port_to s.wires p.dst ≡ None
        → unit_take s c (carrying bytes)
        ≡ record { state = with_registers s (noroute_one p s.registers); puts = [] } }
    ensures onward { (s : UnitState) (c : ℕ) (bytes : List ℕ) (p : Packet) (port : ℕ)
        → entrance_at s.wires c ≡ Host → packet_of bytes ≡ Some p
        → p.hops ≢ 0 → port_to s.wires p.dst ≡ Some port → unit_take s c (carrying bytes) ≡ record {
          state = with_registers s (counted_in p.len s.registers);
          puts = send s.wires (Toward s.wires.device port)
              (data_frame s.wires (counted_in p.len s.registers) (record p { hops = p.hops - 1 }));
        } }
{}

/// In every run, whatever its schedule and losses, a step that takes a frame of a host which is no
/// plain frame puts nothing.
pub fn forged_frames_put_nothing()
    ensures { (s : Setup) (lost : Losses) (es : List Entry) (e : Entry)
        (step : Step) (bytes : List ℕ)
        → next_step s lost (world s lost es) e ≡ Some step → step.taken ≡ Some (HostMsg bytes)
        → packet_of bytes ≡ None → step.puts ≡ [] }
{}

/// All that a report tells of a unit, but the count of bad frames, is told of its history without
/// the steps that took frames of hosts which are no plain frames: its id and last-seen ids, what it
/// counted, what it dropped as expired or without a route, the calls on its saved entries, its
/// values, rows and lags at each snapshot, and why it makes one inconsistent. Without these steps
/// no frame is bad.
pub fn forged_frames_change_nothing()
    ensures id { (h : History) → id (without_forged h) ≡ id h }
    ensures last { (c : ℕ) (h : History) → last c (without_forged h) ≡ last c h }
    ensures packets { (h : History) → packets (without_forged h) ≡ packets h }
    ensures bytes { (h : History) → bytes (without_forged h) ≡ bytes h }
    ensures expired { (h : History) → expired (without_forged h) ≡ expired h }
    ensures noroute { (parts : Parts) (d : ℕ) (h : History)
        → noroute parts d (without_forged h) ≡ noroute parts d h }
    ensures bad { (h : History) → bad (without_forged h) ≡ 0 }
    ensures calls { (cs : List ℕ) (h : History) → calls cs (without_forged h) ≡ calls cs h }
    ensures value { (k : ℕ) (h : History) → value k (without_forged h) ≡ value k h }
    ensures cause { (n k : ℕ) (h : History) → cause n k (without_forged h) ≡ cause n k h }
    ensures lag { (net : Net) (k u : ℕ) (h : History)
        → lag net k u (without_forged h) ≡ lag net k u h }
    ensures row { (n : ℕ) (cs : List ℕ) (k : ℕ) (h : History)
        → row n cs k (without_forged h) ≡ row n cs k h }
{
    calls_follow_steps()
}
