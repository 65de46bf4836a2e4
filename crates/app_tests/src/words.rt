// Lists of words, and what they ask for.
use crate::streams::words_in;
use sl_words::words_of;
use std::alloc::Global;
use std::test::Fail;

/// A line for each list: the words, of which `''` is the empty one, and after `=>` the command that
/// they ask for, none where they are no spelling. One line has no word.
fn table() -> &'static str {
    r#"step => Some(Step(false))
step --trace => Some(Step(true))
step -- => Some(Step(false))
step --trace -- => Some(Step(true))
step -- --trace => None
step -- -- => None
step --trace -- -- => None
step --trace --trace => None
step --trace --trace -- => None
step --trace -- --trace => None
step --trace= => None
step --trace=x => None
step --trace x => None
step x --trace => None
step --tra => None
step --trac => None
step --traces => None
step -trace => None
step -t => None
step --Trace => None
step - => None
step '' => None
step --trace '' => None
step x => None
step -h => None
step --help => None
step --trace -h => None
step -- -h => None
step --input => None
step --version => None
step -V => None
step 8 => None
run => Some(Run(false))
run --trace => Some(Run(true))
run -- => Some(Run(false))
run --trace -- => Some(Run(true))
run -- --trace => None
run --input => None
run -h => None
run x => None
routes => Some(Routes)
routes -- => Some(Routes)
routes --trace => None
routes -- -- => None
routes -- --trace => None
routes --help => None
routes '' => None
routes 8 => None
check => Some(Check)
check -- => Some(Check)
check --trace => None
check -- -- => None
check -- --trace => None
check x => None
check '' => None
checks => None
balance => Some(Balance)
balance -- => Some(Balance)
balance --trace => None
balance -- -- => None
balance -- --trace => None
balance x => None
balances => None
values => Some(Values)
values -- => Some(Values)
values --trace => None
values -- -- => None
values x => None
value => None
poll 3 2 => Some(Poll(3, 2))
poll 0 0 => Some(Poll(0, 0))
poll 1000000 1000000 => Some(Poll(1000000, 1000000))
poll -- 3 2 => Some(Poll(3, 2))
poll 3 -- 2 => Some(Poll(3, 2))
poll 3 2 -- => Some(Poll(3, 2))
poll => None
poll -- => None
poll 3 => None
poll 3 -- => None
poll -- 3 => None
poll 03 2 => None
poll 3 02 => None
poll 00 2 => None
poll 1000001 2 => None
poll 3 1000001 => None
poll +3 2 => None
poll 3 -2 => None
poll 3.0 2 => None
poll 3x 2 => None
poll '' 2 => None
poll 3 2 '' => None
poll 3 2 1 => None
poll -- 3 2 -- => None
poll -- -- 3 2 => None
poll 3 -- -- 2 => None
poll 3 -- 2 1 => None
poll 3 2 --trace => None
poll --trace 3 2 => None
poll 3 2 --help => None
polls 3 2 => None
sample 1 => Some(Sample(1, false))
sample 8 => Some(Sample(8, false))
sample 10 => Some(Sample(10, false))
sample 62 => Some(Sample(62, false))
sample 64 => Some(Sample(64, false))
sample 8 --input => Some(Sample(8, true))
sample --input 8 => Some(Sample(8, true))
sample 8 -- => Some(Sample(8, false))
sample -- 8 => Some(Sample(8, false))
sample 8 --input -- => Some(Sample(8, true))
sample --input 8 -- => Some(Sample(8, true))
sample --input -- 8 => Some(Sample(8, true))
sample -- 8 --input => None
sample -- 5 --input => None
sample -- --input 8 => None
sample 8 -- --input => None
sample -- 8 -- => None
sample 8 -- -- => None
sample => None
sample -- => None
sample --input => None
sample 0 => None
sample 00 => None
sample 08 => None
sample 65 => None
sample 100 => None
sample +8 => None
sample -8 => None
sample 8.0 => None
sample 8x => None
sample '' => None
sample 8 '' => None
sample 8 8 => None
sample 8 9 => None
sample 8 --input --input => None
sample 8 --input=8 => None
sample 8 --trace => None
sample -h => None
sample --help => None
sample 8 --help => None
sample x => None
'' => None
 => None
-- => None
-- step => None
--trace => None
--trace step => None
-h => None
--help => None
walk => None
Step => None
steps => None
ste => None
8 => None
"#
}

/// Whether words ask for what is wanted.
fn ask_for(alloc: Global, words: &[String], wanted: &str) -> Result<bool, Fail> {
    let command = words_of(alloc, words)?;
    let told = format!(in alloc; " {command:?}")?;
    let is_wanted = told.as_str() == wanted;
    drop(told);
    Ok(is_wanted)
}

/// Whether the words of a line do.
fn is_right(alloc: Global, line: &str) -> Result<bool, Fail> {
    let Some((line, wanted)) = line.split_once(" =>") else {
        return Ok(false);
    };
    let words = words_in(alloc, line)?;
    let right = ask_for(alloc, words.as_slice(), wanted);
    drop(words);
    right
}

#[test]
fn lists_of_words(rt: HostRuntime) -> Result<(), Fail> {
    for line in table().lines() {
        assert!(rt; is_right(rt.alloc(), line)?, "{line}");
    }
    Ok(())
}
