//! What a schedule is, which schedules are admissible, what they make of the processes and which rows are printed of them,
//! as definitions, with what follows from one step, one line or one row alone. Nothing here runs.
#![tactic(auto)]

mod laws;

pub use laws::{
    duties_exclude_each_other, late_entries_have_their_cause, lines_spell_once, rows_print_once,
    sends_have_their_causes, tables_follow_passes, timely_datagrams_are_done,
    untimely_datagrams_are_dropped, updates_are_tested_in_order,
};
