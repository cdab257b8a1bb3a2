//! The laws of every admissible schedule, over crashes and returns. Each is the contract of a function that does nothing.
//! Nothing here runs.
#![tactic(auto)]

mod clocks;
mod deliveries;
mod group_lists;
mod history;
mod laws;
mod sends;

pub use clocks::{bounds_cover_every_delay, clocks_hold_team_time};
pub use deliveries::{
    deliveries_are_of_made_lists, members_deliver_alike, strong_deliveries_are_backed,
    strong_deliveries_last, tables_are_of_lists, timed_deliveries_come_in_order,
    updates_are_delivered_once,
};
pub use group_lists::{
    acknowledged_entries_last, consistent_reports_begin_the_best_list, lists_are_whole,
    logs_are_the_groups_list, silent_groups_add_nothing, supports_tell_lengths,
};
pub use history::history_is_seen;
pub use laws::{
    decisions_are_promised, leases_outlast_older_groups, lost_supports_are_older,
    majorities_bind_later_groups, promises_ascend, reports_are_of_promises, rows_are_safe,
    supports_are_of_decisions,
};
pub use sends::{
    entries_are_appended_in_supported_groups, ids_keep_their_sends, pending_updates_are_settled,
    senders_are_supported, updates_are_sent_once,
};
