//! The explorer of all schedules of power cuts that can occur from a start, its rows, pages, surveys and censuses.
#![tactic(auto)]

mod ahead;
mod at_cuts;
mod before;
mod boot_ends;
mod boot_row;
mod boot_tree;
mod census;
mod census_text;
mod children;
mod column;
mod error;
mod expectation;
mod explorer;
mod labels;
mod last_cuts;
mod laws;
mod one_round;
mod output;
mod pages;
mod replays;
mod rights;
mod rounds;
mod row;
mod row_line;
mod row_text;
mod rows;
mod run;
mod schedules;
mod start_census;
mod subject;
mod table;
mod tally;
mod torn;
mod tree_explorer;
mod tree_loading;

pub use boot_row::{BootRow, Cuts, Ends};
pub use census::{Census, CensusOf, each_boots};
pub use census_text::{census_line, write_census};
pub use children::go_to_child;
pub use error::ExploreError;
pub use expectation::{Expectation, Wanted};
pub use explorer::Explorer;
pub use labels::Labels;
pub use laws::{one_list_of_rows, pages_join_up};
pub use mc_boot::Kind;
pub use mc_start::{
    Cursor, CursorError, Line, MOST_CUTS, MOST_LINE, RulesField, Schedule, ScheduleError, Start,
    StartError, StartField, next_field,
};
pub use one_round::{OneRound, Summary};
pub use pages::{write_page, write_rows};
pub use replays::{ReplayError, flash_at_cut, replay, replay_on};
pub use rights::{Rights, RightsOf, all_right, rights_line, write_rights};
pub use rounds::{BootTree, Both, ChildBoot, Round, Rounds};
pub use row::Row;
pub use row_text::{put_outcome, put_slots};
pub use schedules::Schedules;
pub use start_census::{count_paths, take_census, take_rights};
pub use subject::{Fields, Subject};
pub use tally::{Tally, TallyOf, all_boot, survey, survey_rows, write_tally};
pub use torn::last_row;
pub use tree_explorer::TreeExplorer;
pub use tree_loading::{load_for, load_walk};
