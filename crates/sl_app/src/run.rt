// What is served for an input: the report of a run with its trace, stepped or in threads, and routes.
ghost use Rattle.std.specs.Prelude.{◌≡◌, ◌<◌, ◌^◌, None, Some, IfOk, OnOk, length, [], ◌++◌};
ghost use Rattle.std.specs.Prelude.{if◌then◌else◌};
ghost use Rattle.std.specs.List.{All};
ghost use Rattle.sl_model.specs.Setup.{setup_of};
ghost use Rattle.sl_model.specs.Losses.{losses};
ghost use Rattle.sl_model.specs.End.{IsFinished};
ghost use Rattle.sl_report.specs.RoutesText.{routes_text};
ghost use Rattle.sl_report.specs.TraceText.{IsEntryOf, trace_text};
ghost use Rattle.sl_world.specs.World.{scene};
ghost use Rattle.sl_proto.specs.Standing.{case_of, world_of, StandsFor};
ghost use Rattle.sl_proto.specs.RunBook.{CanRun, IsRunBook};
ghost use Rattle.sl_emul.specs.Run.{HasEnded};
ghost use Rattle.sl_emul.specs.Threaded.{IsThreadedBook};
ghost use Rattle.sl_app.specs.Served.{IsReport, ServesThreads, AllPassed, states_of};

use sl_actor::Gate;
use sl_emul::{EmulFault, FinishedRun, finish_stepped, finish_threaded, report_of};
use sl_machine::{Book, Memory};
use sl_net::{Input, Net};
use sl_proto::Node;
use sl_report::{add_trace, legal_books_are_choices, routes_bytes};
use sl_route::Routes;
use std::alloc::Global;
use std::sync::Wait;
use std::thread::Threads;

/// What is served: a text, with the exit status once it is written, and where it is that of a run of
/// an input, the book of the run, how many of its entries come before finishing, and the nodes that
/// it ended with.
#[derive(Drop)]
pub struct Served {
    pub book: Option<Book>,
    pub front: u64,
    pub nodes: Option<Vec<Node>>,
    pub status: u8,
    pub text: Vec<u8>,
}

/// A text without a run, with the status that it has.
pub fn only_text(status: u8, text: Vec<u8>) -> Served
    ensures status { result.status ≡ status }
    ensures text { result.text.items ≡ text.items }
    ensures book { result.book ≡ None }
    ensures front { result.front ≡ 0 }
    ensures nodes { states_of result.nodes ≡ None }
{
    Served {
        book: None,
        front: 0,
        nodes: None,
        status,
        text,
    }
}

/// A text that tells of a run, with the run's book.
pub fn text_of_run(book: Book, front: u64, text: Vec<u8>) -> Served
    ensures status { result.status ≡ 0 }
    ensures text { result.text.items ≡ text.items }
    ensures book { result.book ≡ Some book }
    ensures front { result.front ≡ front }
    ensures nodes { states_of result.nodes ≡ None }
{
    Served {
        book: Some(book),
        front,
        nodes: None,
        status: 0,
        text,
    }
}

/// Adds the trace of a book where it is asked for.
fn add_trace_if(
    alloc: Global,
    text: &mut Vec<u8>,
    net: &Net,
    book: &Book,
    trace: bool,
) -> Result<(), Memory>
    requires { All (IsEntryOf net.now) book.now.entries }
    ensures { OnOk result
        (text.new.items ≡ text.old.items
        ++ (if trace then trace_text net.now book.now.entries else [])) }
{
    if trace {
        add_trace(alloc, text, net, book)
    } else {
        Ok(())
    }
}

/// What is served for a run that ended: its report, with its trace where that is asked for.
fn report_run(alloc: Global, input: &Input, ran: FinishedRun, trace: bool) -> Result<Served, Memory>
    requires stands { StandsFor input.now.net (case_of input.now (losses input.now))
        (scene ran.world) }
    requires few { length (scene ran.world).book < 2 ^ 40 }
    requires finished { IsFinished (setup_of input.now) (losses input.now)
        (world_of (case_of input.now (losses input.now)) (scene ran.world)) }
    ensures stepped { HasEnded IsRunBook input.now (losses input.now) (scene ran.world) ran.front
        → IfOk result
        (λ s. IsReport IsRunBook input.now (losses input.now) s.book s.front
        (states_of s.nodes) trace s.text.items) }
    ensures threaded { HasEnded IsThreadedBook input.now (losses input.now)
        (scene ran.world) ran.front
        → IfOk result
        (λ s. IsReport IsThreadedBook input.now (losses input.now) s.book s.front
        (states_of s.nodes) trace s.text.items) }
    ensures status { IfOk result (λ s. s.status ≡ 0) }
    ensures front { IfOk result (λ s. s.front ≡ ran.front) }
{
    legal_books_are_choices();
    let mut text = match report_of(alloc, input, &ran.world) {
        Ok(text) => text,
        Err(fault) => {
            drop(ran);
            return Err(fault);
        }
    };
    let (nodes, book) = ran.world.into_book();
    add_trace_if(alloc, &mut text, &input.net, &book, trace)?;
    Ok(Served {
        book: Some(book),
        front: ran.front,
        nodes: Some(nodes),
        status: 0,
        text,
    })
}

/// Runs an input by its script, and reports it.
pub fn serve_run(alloc: Global, input: &Input, trace: bool) -> Result<Served, Memory>
    requires { CanRun input.now }
    ensures report { IfOk result
        (λ s. IsReport IsRunBook input.now (losses input.now) s.book s.front
        (states_of s.nodes) trace s.text.items) }
    ensures status { IfOk result (λ s. s.status ≡ 0) }
{
    let ran = finish_stepped(alloc, input)?;
    report_run(alloc, input, ran, trace)
}

/// Runs an input with a thread for each actor, and reports it.
pub fn serve_threads<R: Threads + Wait + Sync, G: Gate + Sync>(
    rt: &R,
    alloc: Global,
    input: &Input,
    trace: bool,
    gate: &G,
) -> Result<Served, EmulFault>
    requires { CanRun input.now }
    ensures serves { ServesThreads input.now trace result }
    ensures passed { IfOk result (λ s. s.front < 2 ^ 27
        → AllPassed G.passed gate.now (length input.now.net.actors)) }
{
    let ran = finish_threaded(rt, alloc, input, gate)?;
    Ok(report_run(alloc, input, ran, trace)?)
}

/// The routes of an input's net.
pub fn serve_routes(alloc: Global, input: &Input) -> Result<Served, Memory>
    ensures text { IfOk result (λ s. s.text.items ≡ routes_text input.now.net) }
    ensures book { IfOk result (λ s. s.book ≡ None) }
    ensures front { IfOk result (λ s. s.front ≡ 0) }
    ensures nodes { IfOk result (λ s. states_of s.nodes ≡ None) }
    ensures status { IfOk result (λ s. s.status ≡ 0) }
{
    let routes = Routes::make(alloc, &input.net)?;
    let text = routes_bytes(alloc, &input.net, &routes);
    drop(routes);
    Ok(only_text(0, text?))
}
