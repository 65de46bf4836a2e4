// The law of frames.
ghost use Rattle.std.specs.Prelude.{◌≡◌, ℕ, List, Ok};
ghost use Rattle.sl_net.specs.declared.input.Packet.{Packet};
ghost use Rattle.sl_wire.specs.declared.frame.Header.{Header};
ghost use Rattle.sl_wire.specs.Frames.{decoded, IsFrame, IsBytes};

/// Bytes that are the frame of a version, a header and a packet are read as these, and bytes that
/// are read as some are their frame. So each version, header and packet has one frame, and each
/// frame is that of one version, header and packet.
pub fn one_frame()
    ensures read { (bits : ℕ) (bytes : List ℕ) (v : ℕ) (h : Header) (p : Packet)
        → IsFrame bits bytes v h p → decoded bits bytes ≡ Ok (v, h, p) }
    ensures spelled { (bits : ℕ) (bytes : List ℕ) (v : ℕ) (h : Header) (p : Packet)
        → IsBytes bytes → decoded bits bytes ≡ Ok (v, h, p)
        → IsFrame bits bytes v h p }
    ensures unique { (bits : ℕ) (bytes : List ℕ) (v w : ℕ) (h g : Header) (p q : Packet)
        → IsFrame bits bytes v h p → IsFrame bits bytes w g q
        → (v ≡ w) × (h ≡ g) × (p ≡ q) }
{}
