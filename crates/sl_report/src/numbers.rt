// Numbers as text.
ghost use Rattle.std.specs.Prelude.{◌≡◌, ◌++◌, ◌<◌, OnOk, codes, decimal, string_bytes};

use itoa::Buffer;
use std::alloc::AllocError;

/// Writes a number of one digit. It stands apart, so that it saves no registers for longer numbers.
#[tactic(auto, using(std::proofs::lemmas::Fmt::decimal_digit))]
#[inline(never)]
fn push_digit(out: &mut String, digit: u8) -> Result<(), AllocError>
    requires { digit < 10 }
    ensures { OnOk result (string_bytes out.new ≡ string_bytes out.old ++ decimal digit) }
{
    out.push((b'0' + digit) as char)
}

/// Writes a number.
pub fn push_number(out: &mut String, number: u64) -> Result<(), AllocError>
    ensures { OnOk result (string_bytes out.new ≡ string_bytes out.old ++ decimal number) }
{
    if number < 10 {
        push_digit(out, number as u8)
    } else {
        out.push_str(Buffer::new().format(number))
    }
}

/// Writes a number after a space.
pub fn push_spaced(out: &mut String, number: u64) -> Result<(), AllocError>
    ensures { OnOk result
        (string_bytes out.new ≡ string_bytes out.old ++ (codes " " ++ decimal number)) }
{
    out.push(' ')?;
    push_number(out, number)
}
