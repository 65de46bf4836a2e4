// What a run means: histories, worlds, cuts, verdicts, the end of a run and its findings, as
// definitions, with their types and their laws.
#![tactic(auto)]

mod cut_laws;
mod end_laws;
mod ending;
mod findings;
mod finish_laws;
mod message;
mod report_laws;
mod row_laws;
mod saved_laws;
mod turn_laws;
mod verdict;
mod verdict_laws;

pub use cut_laws::{
    channel_values_are_late_data, collected_rows_stay, collected_verdicts_are_known,
    collected_verdicts_stay, cuts_are_consistent, finished_verdicts_are_known, floor_never_falls,
    histories_only_grow, inputs_spare_reliable_links, messages_fit_links, numbers_are_near,
    numbers_past_floor_are_near, uncollected_numbers_are_near, worlds_are_in_window,
    worlds_are_runs,
};
pub use end_laws::finishing_is_legal;
pub use ending::{Ending, endings_are_one};
pub use findings::{Counts, Drops, Finding, FindingList, Findings, Lost, Row, Rows1};
pub use finish_laws::{
    bound_is_enough_fuel, bounds_are_small, finishing_ends, finishing_finishes,
    finishing_is_one_schedule, first_net_is_bounded, idle_passes_settle,
    input_bound_is_enough_fuel, input_bounds_are_small, inputs_are_bounded, issues_are_counted,
    more_fuel_changes_nothing, runs_are_bounded, runs_end, runs_have_one_book,
    turns_lower_the_potential,
};
pub use message::{Message, Put, Puts, Step};
pub use report_laws::{
    brought_rows_are_read, dones_bring_rows, dones_tell_dumps, dumps_answer_polls,
    dumps_bring_rows, known_steps_are_made,
};
pub use row_laws::{
    accounts_give_findings, calls_are_in_window, packets_are_short, packets_have_fields,
    rows_are_final, rows_are_held, rows_are_of_the_world, stamps_are_in_window,
};
pub use saved_laws::{
    calls_follow_steps, calls_lead_to_id, counts_fit, entries_are_values, late_is_credited,
    read_is_row, row_stays, saved_is_row,
};
pub use turn_laws::{links_pass_messages, worlds_take_turns};
pub use verdict::{Cause, Lag, Verdict};
pub use verdict_laws::{
    consistent_snapshots_are_whole, last_seen_numbers_are_below, last_seen_numbers_tell_lags,
};
