// Trusted types: Outcome.
// The summary of a sample.
ghost use Rattle.std.specs.Prelude.{◌≡◌, ◌++◌, IfOk, OnOk, length, sum, string_bytes};
ghost use Rattle.sl_layout.specs.Net.{units};
ghost use Rattle.sl_report.specs.SummaryText.{is_of, count_outcomes, sample_line, sizes_line};
ghost use Rattle.sl_report.specs.SummaryText.{traffic_line, verdicts_line, verdicts_text};
ghost use Rattle.sl_report.specs.SummaryText.{lost_in_all, total_lost_line, summary_text};

use sl_machine::Memory;
use sl_model::{Finding, Findings, Lost, Verdict};
use sl_net::{Input, Net};
use std::alloc::{AllocError, Global};

/// The four verdicts on a snapshot, without what each tells.
#[derive(Clone, Copy)]
enum Outcome {
    Consistent,
    Inconsistent,
    Pending,
    NotIssued,
}

impl Outcome {
    fn is_of(self, verdict: Verdict) -> bool
        ensures { result ≡ is_of self verdict }
    {
        match self {
            Outcome::Consistent => matches!(verdict, Verdict::Consistent),
            Outcome::Inconsistent => matches!(verdict, Verdict::Inconsistent { .. }),
            Outcome::Pending => matches!(verdict, Verdict::Pending { .. }),
            Outcome::NotIssued => matches!(verdict, Verdict::NotIssued { .. }),
        }
    }
}

fn count_outcomes(findings: &[Finding], outcome: Outcome) -> usize
    ensures { result ≡ count_outcomes outcome findings.now }
{
    findings
        .iter()
        .filter(|finding| outcome.is_of(finding.verdict))
        .count()
}

/// The sum of the hosts' counts.
fn sum_of(counts: &[u64]) -> u128
    ensures { result ≡ sum counts.now }
{
    let mut total: u128 = 0;
    for count in counts {
        total += *count as u128;
    }
    total
}

fn lost_in_all(lost: &Lost) -> u128
    ensures { result ≡ lost_in_all lost.now }
{
    lost.cable as u128 + lost.crossbar as u128 + lost.init as u128 + lost.notice as u128
}

#[tactic(auto, unfolding(crate::specs::SummaryText::sample_line))]
fn push_sample(out: &mut String, n: u64) -> Result<(), AllocError>
    ensures { OnOk result (string_bytes out.new ≡ string_bytes out.old ++ sample_line n) }
{
    write!(out, "sample {n}\n")
}

#[tactic(auto, unfolding(crate::specs::SummaryText::sizes_line))]
fn push_sizes(out: &mut String, devices: u32, units: u32, hosts: u32) -> Result<(), AllocError>
    ensures { OnOk result
        (string_bytes out.new ≡ string_bytes out.old ++ sizes_line devices units hosts) }
{
    write!(out, "devices {devices} units {units} hosts {hosts}\n")
}

#[tactic(auto, unfolding(crate::specs::SummaryText::traffic_line))]
fn push_traffic(out: &mut String, sent: u128, delivered: u128) -> Result<(), AllocError>
    ensures { OnOk result
        (string_bytes out.new ≡ string_bytes out.old ++ traffic_line sent delivered) }
{
    write!(out, "sent {sent} delivered {delivered}\n")
}

#[tactic(auto, unfolding(crate::specs::SummaryText::verdicts_line))]
fn push_counts(
    out: &mut String,
    consistent: usize,
    inconsistent: usize,
    pending: usize,
    not_issued: usize,
) -> Result<(), AllocError>
    ensures { OnOk result
        (string_bytes out.new ≡ string_bytes out.old
        ++ verdicts_line consistent inconsistent pending not_issued) }
{
    write!(
        out,
        "consistent {consistent} inconsistent {inconsistent} pending {pending} \
         not issued {not_issued}\n"
    )
}

/// Writes how many snapshots have each verdict.
fn push_verdicts(out: &mut String, findings: &[Finding]) -> Result<(), AllocError>
    ensures { OnOk result
        (string_bytes out.new ≡ string_bytes out.old ++ verdicts_text findings.now) }
{
    push_counts(
        out,
        count_outcomes(findings, Outcome::Consistent),
        count_outcomes(findings, Outcome::Inconsistent),
        count_outcomes(findings, Outcome::Pending),
        count_outcomes(findings, Outcome::NotIssued),
    )
}

#[tactic(auto, unfolding(crate::specs::SummaryText::total_lost_line))]
fn push_total_lost(out: &mut String, lost: u128) -> Result<(), AllocError>
    ensures { OnOk result (string_bytes out.new ≡ string_bytes out.old ++ total_lost_line lost) }
{
    write!(out, "lost {lost}\n")
}

fn push_net(out: &mut String, net: &Net) -> Result<(), AllocError>
    ensures { OnOk result (string_bytes out.new ≡ string_bytes out.old
        ++ sizes_line (length net.now.parts.devices) (length (units net.now))
        (length net.now.parts.hosts)) }
{
    push_sizes(out, net.device_count(), net.unit_count(), net.host_count())
}

/// The summary of the findings of a run of the sample input `n`.
pub fn summary_bytes(
    alloc: Global,
    n: u64,
    input: &Input,
    findings: &Findings,
) -> Result<Vec<u8>, Memory>
    ensures { IfOk result (λ bytes. bytes.items ≡ summary_text n input.now.net findings.now) }
{
    let mut out = String::new(alloc);
    push_sample(&mut out, n)?;
    push_net(&mut out, &input.net)?;
    push_traffic(
        &mut out,
        sum_of(findings.sent.items.as_slice()),
        sum_of(findings.delivered.items.as_slice()),
    )?;
    push_verdicts(&mut out, findings.list.items.as_slice())?;
    push_total_lost(&mut out, lost_in_all(&findings.lost))?;
    write!(out, "end\n")?;
    Ok(out.into_bytes())
}
