// The machines stand for their histories: laws of the turns of units, control planes, hosts and the
// observer, whatever the schedule and the losses.
#![tactic(auto)]

mod controls;
mod forged_laws;
mod hosts;
mod observers;
mod units;

pub use controls::{
    controls_act, controls_start, controls_stay, controls_step_from_any_state, controls_take,
    dumps_are_unwrapped,
};
pub use forged_laws::{
    forged_frames_are_bad, forged_frames_change_nothing, forged_frames_put_nothing,
    packets_are_dropped_by_their_causes,
};
pub use hosts::{hosts_act, hosts_have_two_links, hosts_start, hosts_stay, hosts_take};
pub use observers::{
    dones_reach_what_they_tell, observers_act, observers_give_findings, observers_start,
    observers_stay, observers_take, observers_tell,
};
pub use units::{
    new_units_stand, stamps_are_read, unit_counts_are_told, units_stay, units_step_from_any_state,
    units_take_messages,
};
