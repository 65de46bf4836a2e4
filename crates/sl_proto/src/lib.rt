// The nodes of a net, the machines of its actors, and the histories that they stand for: laws over
// all schedules, for any machines that follow the steps of histories; scripts, settling and
// finishing over whoever takes turns of nodes, the run of an input's script, and the findings of a
// finished world of nodes.
#![tactic(auto)]

mod build;
mod finishing;
mod gather;
mod laws;
mod losses;
mod node;
mod nodes;
mod passes;
mod run;
mod scenes;
mod schedule;
mod script;
mod taker;
mod verdicts;

pub use build::{ControlPlane, build_nodes, build_world};
pub use finishing::{end_run, finish, settle};
pub use gather::{count_traffic, findings, findings_but_list, nodes_tell_findings, observer_of};
pub use laws::{
    books_grow_by_turns, dones_told_what_is_known, sent_messages_are_put, steps_spread_their_puts,
};
pub use losses::make_losses;
pub use node::{Node, Traffic};
pub use nodes::{
    inputs_are_runnable, nodes_follow, nodes_follow_their_books, nodes_stand_at_first,
    nodes_stand_for_histories, nodes_start,
};
pub use run::{first_world, run_script};
pub use scenes::{
    Meaning, first_scenes_stand, machines_stand_for_histories, schedules_follow_histories,
    turns_follow_steps,
};
pub use schedule::{all_sweeps, expand, pass_of, passes_are_choices};
pub use script::drive_script;
pub use taker::{Taker, drive};
pub use verdicts::{finding, verdict};
