// Laws of what reports tell. The functions call other laws: their contracts are the laws, and the
// proofs are in proofs/.
ghost use Rattle.std.specs.Prelude.{◌≡◌, ℕ, List};
ghost use Rattle.sl_model.specs.declared.findings.Findings.{Findings};
ghost use Rattle.sl_model.specs.Findings.{findings};
ghost use Rattle.sl_model.specs.History.{Losses};
ghost use Rattle.sl_model.specs.Setup.{Setup};
ghost use Rattle.sl_model.specs.World.{Entry};
ghost use Rattle.sl_report.specs.Report.{report_text};
ghost use Rattle.sl_report.specs.Sayable.{IsSayable};
ghost use Rattle.sl_report.specs.ShortRun.{IsShortRun};

use sl_model::{
    channel_values_are_late_data, counts_fit, issues_are_counted, packets_are_short,
    worlds_are_in_window, worlds_take_turns,
};
use sl_net::{Net, nets_are_wired, nets_have_names, one_spelling};

/// The report of sayable findings is that of no other sayable findings on as many snapshots of the
/// net: it tells every number, verdict and row.
pub fn reports_tell_findings(net: &Net)
    ensures { (count : ℕ) (f g : Findings) → IsSayable net.now count f → IsSayable net.now count g
        → report_text net.now count f ≡ report_text net.now count g → f ≡ g }
{
    net.parts();
    nets_are_wired();
    nets_have_names(net);
    one_spelling(net);
}

/// The findings of a run of short packets and fewer than 2^40 entries are sayable, whatever its
/// schedule and losses.
pub fn findings_are_sayable(net: &Net)
    ensures { (count : ℕ) (s : Setup) (lost : Losses) (es : List Entry)
        → IsShortRun net.now count s es → IsSayable net.now count (findings s lost es) }
{
    net.parts();
    net.links();
    nets_are_wired();
    worlds_take_turns();
    worlds_are_in_window();
    issues_are_counted();
    channel_values_are_late_data();
    counts_fit();
    packets_are_short();
}

/// So two such runs of a net with as many snapshots, by any schedules and losses, have one report
/// only where they have the same findings.
pub fn reports_of_runs_tell_findings(net: &Net)
    ensures { (count : ℕ) (s t : Setup) (lost loss : Losses) (es fs : List Entry)
        → IsShortRun net.now count s es → IsShortRun net.now count t fs
        → report_text net.now count (findings s lost es)
        ≡ report_text net.now count (findings t loss fs) → findings s lost es ≡ findings t loss fs }
{
    findings_are_sayable(net);
    reports_tell_findings(net);
}
