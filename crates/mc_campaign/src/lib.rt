//! Campaigns of power cuts in two rounds of boots.
#![tactic(auto)]

mod campaign;
mod campaign_path;
mod campaign_replays;
mod campaign_subject;
mod cursor;
mod cursor_reading;
mod cursor_text;
mod laws;
mod pages;
mod row;
mod row_text;

pub use campaign::{Campaign, CampaignError, Cut};
pub use campaign_replays::{replay_campaign, start_of_second};
pub use campaign_subject::{CampaignExplorer, Campaigns};
pub use cursor::CampaignCursor;
pub use laws::{campaign_pages_join_up, campaigns_are_paths, one_list_of_campaigns};
pub use mc_explore::Round;
pub use pages::write_campaign_page;
pub use row::CampaignRow;
