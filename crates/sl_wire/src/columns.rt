// What the columns of a frame allow.
ghost use Rattle.std.specs.Prelude.{◌≡◌};
ghost use Rattle.sl_wire.specs.Frames.{kind_of, kind_byte, channel_fits, stamp_fits, check_of};

use crate::frame::Kind;
use sl_ids::Width;

pub fn kind_byte(kind: Kind) -> u8
    ensures { result ≡ kind_byte kind }
{
    match kind {
        Kind::Plain => 0,
        Kind::Carried => 1,
        Kind::Probe => 2,
        Kind::Init => 3,
    }
}

pub fn kind_of(byte: u8) -> Option<Kind>
    ensures { result ≡ kind_of byte }
{
    match byte {
        0 => Some(Kind::Plain),
        1 => Some(Kind::Carried),
        2 => Some(Kind::Probe),
        3 => Some(Kind::Init),
        _ => None,
    }
}

pub fn channel_fits(kind: Kind, channel: u8) -> bool
    ensures { result ≡ channel_fits kind channel }
{
    match kind {
        Kind::Plain => channel == 0,
        Kind::Carried | Kind::Probe => channel < 8,
        Kind::Init => channel == 255,
    }
}

pub fn stamp_fits(width: Width, version: u8, id: u16) -> bool
    ensures { result ≡ stamp_fits width.bits version id }
{
    u32::from(id) < width.modulus() && (version == 2 || id < 256)
}

pub fn check_of(version: u8, id: u16) -> u16
    ensures { result ≡ check_of version id }
{
    if version == 2 { 65535 - id } else { 0 }
}
