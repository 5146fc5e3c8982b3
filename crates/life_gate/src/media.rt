//! Media types and lists of them, as an `Accept` header has them, after the part of the crate `mime` that the
//! module `validate_request` of tower-http uses.

mod accepting;
mod lists;
mod parts;
mod pieces;
mod types;

pub use accepting::accepts;
pub use lists::media_list;
pub use types::{MediaItem, MediaItems, MediaType, media_type};
