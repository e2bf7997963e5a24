//! MCUboot's hash-only images: read, checked and written.
#![tactic(auto)]

mod areas;
mod entries;
mod error;
mod gather;
mod header;
mod judge;
mod laws;
mod numbers;
mod reading;
mod tlvs;
mod version;
mod view;
mod writing;

pub use entries::Area;
pub use error::{ImageError, VersionError};
pub use judge::{Judge, Judged};
pub use laws::{any_cut, are_bytes, one_reading, same_prefix, valid_bytes};
pub use tlvs::{Tlv, Tlvs};
pub use version::Version;
pub use view::{ImageView, digest_of_parts};
pub use writing::{ImageParts, write_image};
