// The samples.
use sl_flow::{sample_input, sample_parts};
use sl_net::Input;
use sl_read::read_input;
use std::alloc::{AllocError, Global};
use std::test::Fail;

/// Writes out all that an input says.
fn tell_input(text: &mut String, input: &Input) -> Result<(), AllocError> {
    let parts = input.net.parts();
    let snapshot = input.snapshot;
    let loss = &input.loss;
    let flows = input.flows.as_slice();
    let raws = input.raws.as_slice();
    let script = input.script.as_slice();
    write!(
        text,
        "{parts:?} {snapshot:?} {loss:?} {flows:?} {raws:?} {script:?}"
    )
}

/// The same, and lets the input go.
fn tell(told: &mut String, input: Input) -> Result<(), Fail> {
    let done = tell_input(told, &input);
    drop(input);
    Ok(done?)
}

/// Writes out the input that a text is read as.
fn tell_read(alloc: Global, told: &mut String, text: &[u8]) -> Result<(), Fail> {
    match read_input(alloc, text) {
        Ok(input) => tell(told, input),
        Err(_) => Err("refused".into()),
    }
}

/// Writes out the input of a sample.
fn tell_sample(alloc: Global, told: &mut String, number: u64) -> Result<(), Fail> {
    match sample_parts(alloc, number) {
        Ok(input) => tell(told, input),
        Err(_) => Err("no sample".into()),
    }
}

/// Writes out what the text of a sample is read as.
fn tell_text(alloc: Global, told: &mut String, number: u64) -> Result<(), Fail> {
    match sample_input(alloc, number) {
        Ok(text) => {
            let done = tell_read(alloc, told, text.as_slice());
            drop(text);
            done
        }
        Err(_) => Err("no text".into()),
    }
}

/// Writes out a sample as its text is read and as it is, and answers whether this is the same.
fn are_same(
    alloc: Global,
    read: &mut String,
    made: &mut String,
    number: u64,
) -> Result<bool, Fail> {
    tell_text(alloc, read, number)?;
    tell_sample(alloc, made, number)?;
    Ok(read.as_str() == made.as_str())
}

/// Whether the text of a sample is read as the sample's input.
fn is_read(alloc: Global, number: u64) -> Result<bool, Fail> {
    let mut read = String::new(alloc);
    let mut made = String::new(alloc);
    let same = are_same(alloc, &mut read, &mut made, number);
    drop(read);
    drop(made);
    same
}

#[test]
fn samples_are_read(rt: HostRuntime) -> Result<(), Fail> {
    for number in 1..65 {
        assert!(rt; is_read(rt.alloc(), number)?, "{number}");
    }
    Ok(())
}
