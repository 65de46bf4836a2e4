// The top call.
ghost use Rattle.std.specs.Prelude.{◌≡◌, ◌<◌, ◌≤◌, ◌^◌, Some, None, IfOk};
ghost use Rattle.sl_flow.specs.Sample.{IsSampleNumber};
ghost use Rattle.sl_model.specs.Bound.{bound_of, input_bound};
ghost use Rattle.sl_model.specs.Setup.{setup_of};
ghost use Rattle.sl_proto.specs.RunBook.{CanRun};
ghost use Rattle.sl_words.specs.Words.{words_of};
ghost use Rattle.sl_words.specs.declared.command.Command.TheVariants as command;
ghost use Rattle.sl_app.specs.Texts.{many_text};
ghost use Rattle.sl_app.specs.Ends.{source_change, sink_change, texts_of, reads_input, reads, asks_for_run};
ghost use Rattle.sl_app.specs.Ends.{TellsFault, TellsTooMany, Accepts, Serves, ServesSample};
ghost use Rattle.sl_app.specs.Ends.{TellsWriteFault, Refuses, ReportsServed, Ends, NodesPassed};
ghost use Rattle.sl_app.specs.Served.{states_of};

use crate::ended::{Ended, Refusal};
use crate::polling::serve_poll;
use crate::run::{Served, only_text, serve_routes, serve_run, serve_threads};
use crate::sample::sample_bytes;
use crate::stream::{refused_stream, serve_answer};
use crate::table::serve_balance;
use crate::valued::serve_values;
use sl_actor::Gate;
use sl_check::{accepted_inputs_can_run, check_bytes};
use sl_emul::EmulFault;
use sl_io::{ReadFault, Sink, Source, read_all, write_all};
use sl_model::input_bounds_are_small;
use sl_net::Input;
use sl_read::{InputFault, read_input};
use sl_report::fault_bytes;
use sl_words::{Command, words_of};
use std::alloc::{AllocError, Global};
use std::sync::Wait;
use std::thread::Threads;

/// The most bytes of an input, and one more.
const LIMIT: usize = 1_048_577;

/// The most bytes of a stream that is checked, and one more.
const STREAM_LIMIT: usize = 4_194_305;

/// The refusal of an input.
fn refused(alloc: Global, fault: &InputFault) -> Refusal
    ensures { TellsFault fault.now result }
{
    match fault_bytes(alloc, fault) {
        Ok(line) => Refusal::Input(line),
        Err(_) => Refusal::Memory,
    }
}

/// Reads an input, or says why there is none.
fn accept<I: Source>(alloc: Global, words: &[String], input: &mut I) -> Result<Input, Refusal>
    requires input { reads_input (words_of (texts_of words.now)) }
    requires source { reads (words_of (texts_of words.now)) }
    ensures accepts { Accepts (source_change I.Source (texts_of words.now) input.old input.new) result }
    ensures can { IfOk result CanRun }
    ensures small { IfOk result (λ i. input_bound i < 2 ^ 27) }
    ensures threads { IfOk result (λ i. bound_of (setup_of i) 0 < 2 ^ 27) }
{
    accepted_inputs_can_run();
    input_bounds_are_small();
    let bytes = match read_all(alloc, input, LIMIT) {
        Ok(bytes) => bytes,
        Err(ReadFault::Failed) => return Err(Refusal::ReadFault),
        Err(ReadFault::Memory) => return Err(Refusal::Memory),
    };
    match read_input(alloc, bytes.as_slice()) {
        Ok(input) => Ok(input),
        Err(InputFault::Memory) => Err(Refusal::Memory),
        Err(fault) => Err(refused(alloc, &fault)),
    }
}

fn step<I: Source>(
    alloc: Global,
    words: &[String],
    trace: bool,
    input: &mut I,
) -> Result<Served, Refusal>
    requires { words_of (texts_of words.now) ≡ Some (command.Step trace) }
    ensures { Serves (source_change I.Source (texts_of words.now) input.old input.new) result }
{
    let accepted = accept(alloc, words, input)?;
    let served = serve_run(alloc, &accepted, trace);
    drop(accepted);
    Ok(served?)
}

/// The line for a net of so many actors.
#[tactic(auto, unfolding(crate::specs::Texts::many_text))]
fn many_text(alloc: Global, actors: u32) -> Result<Vec<u8>, AllocError>
    ensures { IfOk result (λ line. line.items ≡ many_text actors) }
{
    Ok(format!(in alloc; "speedlight: {actors} actors, at most 256\n")?.into_bytes())
}

/// The refusal of a net of so many actors.
fn too_many(alloc: Global, actors: u32) -> Refusal
    ensures { TellsTooMany actors result }
{
    match many_text(alloc, actors) {
        Ok(line) => Refusal::TooMany(line),
        Err(_) => Refusal::Memory,
    }
}

fn run<R: Threads + Wait + Sync, I: Source, G: Gate + Sync>(
    rt: &R,
    alloc: Global,
    words: &[String],
    trace: bool,
    input: &mut I,
    gate: &G,
) -> Result<Served, Refusal>
    requires { words_of (texts_of words.now) ≡ Some (command.Run trace) }
    ensures serves { Serves (source_change I.Source (texts_of words.now) input.old input.new) result }
    ensures passed { IfOk result (λ s. NodesPassed G.passed gate.now (states_of s.nodes)) }
{
    let accepted = accept(alloc, words, input)?;
    let served = serve_threads(rt, alloc, &accepted, trace, gate);
    drop(accepted);
    match served {
        Ok(served) => Ok(served),
        Err(EmulFault::TooMany(actors)) => Err(too_many(alloc, actors)),
        Err(EmulFault::Memory) => Err(Refusal::Memory),
    }
}

fn check<I: Source>(alloc: Global, words: &[String], input: &mut I) -> Result<Served, Refusal>
    requires { words_of (texts_of words.now) ≡ Some command.Check }
    ensures { Serves (source_change I.Source (texts_of words.now) input.old input.new) result }
{
    let bytes = match read_all(alloc, input, STREAM_LIMIT) {
        Ok(bytes) => bytes,
        Err(ReadFault::Failed) => return Err(Refusal::ReadFault),
        Err(ReadFault::Memory) => return Err(Refusal::Memory),
    };
    let answer = match check_bytes(alloc, bytes.as_slice()) {
        Ok(answer) => answer,
        Err(fault) => return Err(refused_stream(alloc, &fault)),
    };
    Ok(serve_answer(alloc, answer)?)
}

fn balance<I: Source>(alloc: Global, words: &[String], input: &mut I) -> Result<Served, Refusal>
    requires { words_of (texts_of words.now) ≡ Some command.Balance }
    ensures { Serves (source_change I.Source (texts_of words.now) input.old input.new) result }
{
    let accepted = accept(alloc, words, input)?;
    let served = serve_balance(alloc, &accepted);
    drop(accepted);
    Ok(served?)
}

fn poll<I: Source>(
    alloc: Global,
    words: &[String],
    start: u64,
    gap: u64,
    input: &mut I,
) -> Result<Served, Refusal>
    requires { words_of (texts_of words.now) ≡ Some (command.Poll start gap) }
    ensures { Serves (source_change I.Source (texts_of words.now) input.old input.new) result }
{
    let accepted = accept(alloc, words, input)?;
    let served = serve_poll(alloc, &accepted, start, gap);
    drop(accepted);
    Ok(served?)
}

fn values<I: Source>(alloc: Global, words: &[String], input: &mut I) -> Result<Served, Refusal>
    requires { words_of (texts_of words.now) ≡ Some command.Values }
    ensures { Serves (source_change I.Source (texts_of words.now) input.old input.new) result }
{
    let accepted = accept(alloc, words, input)?;
    let served = serve_values(alloc, &accepted);
    drop(accepted);
    Ok(served?)
}

fn routes<I: Source>(alloc: Global, words: &[String], input: &mut I) -> Result<Served, Refusal>
    requires { words_of (texts_of words.now) ≡ Some command.Routes }
    ensures { Serves (source_change I.Source (texts_of words.now) input.old input.new) result }
{
    let accepted = accept(alloc, words, input)?;
    let served = serve_routes(alloc, &accepted);
    drop(accepted);
    Ok(served?)
}

fn sample(alloc: Global, number: u8, text: bool) -> Result<Served, Refusal>
    requires { IsSampleNumber number }
    ensures { ServesSample number text result }
{
    let bytes = sample_bytes(alloc, number, text)?;
    Ok(only_text(0, bytes))
}

/// Serves each command but `run`.
fn serve<I: Source>(alloc: Global, words: &[String], input: &mut I) -> Result<Served, Refusal>
    requires { ¬ asks_for_run (words_of (texts_of words.now)) }
    ensures { Serves (source_change I.Source (texts_of words.now) input.old input.new) result }
{
    match words_of(alloc, words) {
        Ok(Some(Command::Step(trace))) => step(alloc, words, trace, input),
        Ok(Some(Command::Check)) => check(alloc, words, input),
        Ok(Some(Command::Balance)) => balance(alloc, words, input),
        Ok(Some(Command::Poll(start, gap))) => poll(alloc, words, start, gap, input),
        Ok(Some(Command::Values)) => values(alloc, words, input),
        Ok(Some(Command::Routes)) => routes(alloc, words, input),
        Ok(Some(Command::Sample(number, text))) => sample(alloc, number, text),
        Ok(Some(Command::Run(_))) => unreachable!(),
        Ok(None) => Err(Refusal::Usage),
        Err(_) => Err(Refusal::Memory),
    }
}

/// Appends the line for status 5. Its own failure changes nothing.
#[tactic(auto, unfolding(crate::specs::Texts::write_fault_text))]
fn tell_write_fault<E: Sink>(err: &mut E)
    ensures told { TellsWriteFault (sink_change E.Sink err.old err.new) }
    ensures never_falls { E.faults err.old ≤ E.faults err.new }
{
    let _ = write_all(err, b"speedlight: write fault\n");
}

/// An ending without a book.
fn ended_without(status: u8) -> Ended
    ensures { result ≡ record { status = status; book = None; front = 0; nodes = None } }
{
    Ended {
        status,
        book: None,
        front: 0,
        nodes: None,
    }
}

/// Ends with a refusal: writes its line, or that it could not be written.
pub fn refuse<E: Sink>(refusal: &Refusal, err: &mut E) -> Ended
    ensures { Refuses (sink_change E.Sink err.old err.new) refusal.now result }
{
    match write_all(err, refusal.text()) {
        Ok(()) => ended_without(refusal.status()),
        Err(_) => {
            tell_write_fault(err);
            ended_without(5)
        }
    }
}

/// Writes what is served, or that it could not be written.
fn report<O: Sink, E: Sink>(served: Served, out: &mut O, err: &mut E) -> Ended
    ensures { ReportsServed (sink_change O.Sink out.old out.new)
        (sink_change E.Sink err.old err.new) served result }
{
    let status = match write_all(out, &served.text) {
        Ok(()) => served.status,
        Err(_) => {
            tell_write_fault(err);
            5
        }
    };
    Ended {
        status,
        book: served.book,
        front: served.front,
        nodes: served.nodes,
    }
}

/// The top call for all words but those of `run`: does what they ask for, reads the input from
/// `input` and writes the report to `out`, and refusals to `err`. It takes no handle, so it returns.
pub fn one_thread<I: Source, O: Sink, E: Sink>(
    alloc: Global,
    words: &[String],
    input: &mut I,
    out: &mut O,
    err: &mut E,
) -> Ended
    requires { ¬ asks_for_run (words_of (texts_of words.now)) }
    ensures { Ends (source_change I.Source (texts_of words.now) input.old input.new)
        (sink_change O.Sink out.old out.new) (sink_change E.Sink err.old err.new) result }
{
    match serve(alloc, words, input) {
        Ok(served) => report(served, out, err),
        Err(refusal) => refuse(&refusal, err),
    }
}

/// The top call: does what the words ask for, reads the input from `input` and writes the report
/// to `out`, and refusals to `err`. For `run` each actor has a thread of its own, and passes the
/// gate before each of its rounds, 200 at least.
pub fn speedlight<R: Threads + Wait + Sync, I: Source, O: Sink, E: Sink, G: Gate + Sync>(
    rt: &R,
    alloc: Global,
    words: &[String],
    input: &mut I,
    out: &mut O,
    err: &mut E,
    gate: &G,
) -> Ended
    ensures ends { Ends (source_change I.Source (texts_of words.now) input.old input.new)
        (sink_change O.Sink out.old out.new) (sink_change E.Sink err.old err.new) result }
    ensures passed { asks_for_run (words_of (texts_of words.now))
        → NodesPassed G.passed gate.now (states_of result.nodes) }
{
    match words_of(alloc, words) {
        Ok(Some(Command::Run(trace))) => {
            match run(rt, alloc, words, trace, input, gate) {
                Ok(served) => report(served, out, err),
                Err(refusal) => refuse(&refusal, err),
            }
        }
        Ok(_) => one_thread(alloc, words, input, out, err),
        Err(_) => refuse(&Refusal::Memory, err),
    }
}
