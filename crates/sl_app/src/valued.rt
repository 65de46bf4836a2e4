// What is served of a run as the values of its snapshots, without channel state.
ghost use Rattle.std.specs.Prelude.{◌≡◌, IfOk};
ghost use Rattle.sl_model.specs.Losses.{losses};
ghost use Rattle.sl_proto.specs.RunBook.{CanRun};
ghost use Rattle.sl_app.specs.Served.{AreValues, states_of};

use crate::run::{Served, text_of_run};
use sl_machine::Memory;
use sl_net::Input;
use sl_value::{run_values, values_bytes};
use std::alloc::Global;

/// Runs an input on nodes that keep values, and shows them.
pub fn serve_values(alloc: Global, input: &Input) -> Result<Served, Memory>
    requires { CanRun input.now }
    ensures values { IfOk result
        (λ s. AreValues input.now (losses input.now) s.book s.front
        (states_of s.nodes) s.text.items) }
    ensures status { IfOk result (λ s. s.status ≡ 0) }
{
    let run = run_values(alloc, input)?;
    let text = values_bytes(alloc, input, &run);
    drop(run.list);
    drop(run.sent);
    drop(run.delivered);
    drop(run.controls);
    Ok(text_of_run(run.book, run.front, text?))
}
