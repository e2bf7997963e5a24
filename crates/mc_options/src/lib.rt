//! What the words of a command line say; the files that it reads and writes; and its refusals, with their reasons.
#![tactic(auto)]

mod blocks;
mod cuts;
mod heads;
mod layout_file;
mod notes;
mod numbers;
mod options;
mod outfile;
mod reasons;
mod refusal;
mod same_file;
mod source;
mod usual;

pub use blocks::{finish, flush, in_blocks};
pub use layout_file::with_files;
pub use notes::{print_cost, print_note};
pub use numbers::NumberOption;
pub use options::{
    ExploreOptions, FlashOptions, RangeOptions, Source, Spelled, census_options, create_options,
    explore_options, flash_options, has_two_rounds, kind_name, layout_options, range_options,
    required, rules_options, span_options, times_options, view_options,
};
pub use outfile::Outfile;
pub use reasons::{report_file, report_reason};
pub use refusal::Refusal;
pub use same_file::check_outputs;
pub use source::{GREATEST_FLASH, GREATEST_IMAGE, read_file, read_start};
pub use usual::entry_name;
