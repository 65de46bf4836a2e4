// Samples: the text of one, and the summary of its run.
ghost use Rattle.std.specs.Prelude.{◌≡◌, IfOk};
ghost use Rattle.sl_flow.specs.Sample.{IsSampleNumber, IsSample, sample_parts};
ghost use Rattle.sl_flow.specs.InputText.{sample_text};
ghost use Rattle.sl_app.specs.Served.{IsSummary, IsSampleText};

use sl_emul::run_stepped;
use sl_flow::{SampleFault, sample_input, sample_parts};
use sl_machine::Memory;
use sl_model::input_bounds_are_small;
use sl_net::{Input, nets_are_wired};
use sl_report::summary_bytes;
use std::alloc::Global;

/// The text of a sample's input.
fn text_of(alloc: Global, number: u8) -> Result<Vec<u8>, Memory>
    requires { IsSampleNumber number }
    ensures { IfOk result (λ text. text.items ≡ sample_text number) }
{
    match sample_input(alloc, u64::from(number)) {
        Ok(text) => Ok(text),
        Err(SampleFault::Memory) => Err(Memory),
        Err(SampleFault::OutOfRange) => unreachable!(),
    }
}

/// A sample's input.
fn input_of(alloc: Global, number: u8) -> Result<Input, Memory>
    requires { IsSampleNumber number }
    ensures input { IfOk result (λ input. input ≡ sample_parts number) }
    ensures holds { IfOk result IsSample }
{
    match sample_parts(alloc, u64::from(number)) {
        Ok(input) => Ok(input),
        Err(SampleFault::Memory) => Err(Memory),
        Err(SampleFault::OutOfRange) => unreachable!(),
    }
}

/// The summary of the run of a sample's input.
fn summary_of(alloc: Global, number: u8) -> Result<Vec<u8>, Memory>
    requires { IsSampleNumber number }
    ensures { IfOk result (λ text. IsSummary number (sample_parts number) text.items) }
{
    nets_are_wired();
    input_bounds_are_small();
    let input = input_of(alloc, number)?;
    let run = match run_stepped(alloc, &input) {
        Ok(run) => run,
        Err(fault) => {
            drop(input);
            return Err(fault);
        }
    };
    let text = summary_bytes(alloc, u64::from(number), &input, &run.findings);
    drop(run);
    drop(input);
    text
}

/// The text of a sample's input where that is asked for, and else the summary of its run.
pub fn sample_bytes(alloc: Global, number: u8, text: bool) -> Result<Vec<u8>, Memory>
    requires { IsSampleNumber number }
    ensures { IfOk result (λ bytes. IsSampleText number text bytes.items) }
{
    if text {
        text_of(alloc, number)
    } else {
        summary_of(alloc, number)
    }
}
