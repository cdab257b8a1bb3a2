//! The text of schedules and rows: lines are read as the team and the steps that they spell, rows are written, and the
//! statuses of a command have their texts.
#![tactic(auto)]

mod answer;
mod fields;
mod grammar;
mod hex;
mod limits;
mod line;
mod output;
mod row;
mod status;

pub use fields::{Fields, is_word};
pub use grammar::{Grammar, read_step, read_team};
pub use limits::texts_tell_rows_apart;
pub use line::{Field, put_line};
pub use output::write_all;
pub use row::{
    atom_name, order_name, write_answer, write_before_sends, write_entries, write_line, write_row,
    write_sends,
};
pub use status::{Status, Text};
pub use tw_types::{Act, Cause, Row, RowAnswer, RowLine, Step};
