// Inputs from their texts.
ghost use Rattle.std.specs.Prelude.{IfOk};
ghost use Rattle.std.specs.List.{All};
ghost use Rattle.sl_flow.specs.Flow.{HasAddresses};

use sl_net::Input;
use sl_read::read_input;
use std::alloc::Global;
use std::test::Fail;

/// The hosts of an input that was read have addresses.
pub fn input_of(alloc: Global, text: &str) -> Result<Input, Fail>
    ensures { IfOk result (λ i. All HasAddresses i.flows) }
{
    match read_input(alloc, text.as_bytes()) {
        Ok(input) => Ok(input),
        Err(_) => Err("refused".into()),
    }
}
