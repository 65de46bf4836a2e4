// What is served of a run as a table of balance.
ghost use Rattle.std.specs.Prelude.{◌≡◌, ◌<◌, ◌^◌, IfOk};
ghost use Rattle.std.specs.List.{All};
ghost use Rattle.sl_balance.specs.Balance.{balance, AreFew};
ghost use Rattle.sl_balance.specs.BalanceText.{balance_text};
ghost use Rattle.sl_model.specs.Bound.{input_bound};
ghost use Rattle.sl_model.specs.Losses.{losses};
ghost use Rattle.sl_proto.specs.RunBook.{CanRun};
ghost use Rattle.sl_app.specs.Served.{IsTable, states_of};

use crate::run::{Served, text_of_run};
use sl_balance::{balance_bytes, balance_of, counts_are_few};
use sl_emul::run_stepped;
use sl_machine::Memory;
use sl_model::Findings;
use sl_net::Input;
use sl_route::Routes;
use std::alloc::Global;

/// The text of how evenly the cables were used, by what a run found.
fn table_bytes(alloc: Global, input: &Input, found: &Findings) -> Result<Vec<u8>, Memory>
    requires { All (λ f. AreFew f.rows) found.now.list }
    ensures { IfOk result
        (λ text. text.items ≡ balance_text input.now.net
        (balance input.now.net found.now.list)) }
{
    let lines = balance_of(alloc, input, found)?;
    let routes = match Routes::make(alloc, &input.net) {
        Ok(routes) => routes,
        Err(fault) => {
            drop(lines);
            return Err(fault);
        }
    };
    let text = balance_bytes(alloc, input, &routes, lines.as_slice());
    drop(routes);
    drop(lines);
    text
}

/// Runs an input, and shows how evenly its cables were used.
pub fn serve_balance(alloc: Global, input: &Input) -> Result<Served, Memory>
    requires can { CanRun input.now }
    requires small { input_bound input.now < 2 ^ 27 }
    ensures table { IfOk result
        (λ s. IsTable input.now (losses input.now) s.book s.front
        (states_of s.nodes) s.text.items) }
    ensures status { IfOk result (λ s. s.status ≡ 0) }
{
    counts_are_few();
    let run = run_stepped(alloc, input)?;
    let text = table_bytes(alloc, input, &run.findings);
    drop(run.findings);
    drop(run.nodes);
    Ok(text_of_run(run.book, run.front, text?))
}
