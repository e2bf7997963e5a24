//! Replays, explorations, their pages and their counts, and campaigns: what the program's sessions do not show.
mod bounds;
mod campaigns;
mod common;
mod kinds;
mod large;
mod pages;
mod plain;
mod replays;
mod texts;
mod writers;
