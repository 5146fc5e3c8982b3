//! Whether a request's `Accept` headers let a media type pass.
ghost use Rattle.std.specs.Prelude.{◌↔◌, IsTrue, IfOk, Any};
ghost use Rattle.life_gate.specs.Accepting.{IsMatch, Matches, Offers, IsOffered, IsAcceptable};

use crate::media::lists::media_list;
use crate::media::types::{MediaItem, MediaType};
use http::header::{ACCEPT, HeaderMap, HeaderValue};
use life_core::Got;
use std::alloc::Global;

/// Whether the offered media type is the wanted one, or stands for it by `*`.
fn is_match(wanted: &MediaType, offered: &MediaType) -> bool
    ensures { IsTrue result ↔ IsMatch wanted.now offered.now }
{
    let any_sub = offered.sub.as_str() == "*";
    if offered.kind.as_str() == wanted.kind.as_str() {
        return any_sub || offered.sub.as_str() == wanted.sub.as_str();
    }
    any_sub && offered.kind.as_str() == "*"
}

/// Whether the item matches.
fn matches_item(wanted: &MediaType, item: &MediaItem) -> bool
    ensures { IsTrue result ↔ Matches wanted.now item.now }
{
    match item {
        MediaItem::Good(offered) => is_match(wanted, offered),
        MediaItem::Bad => false,
    }
}

/// Whether an item matches.
fn any_matches(wanted: &MediaType, items: &[MediaItem]) -> bool
    ensures { IsTrue result ↔ Any (Matches wanted.now) items.now }
{
    items.iter().any(|item| matches_item(wanted, item))
}

/// Whether an item of the value's list matches.
fn offers(alloc: Global, wanted: &MediaType, value: &HeaderValue) -> Got<bool>
    ensures { IfOk result (λ offers. IsTrue offers ↔ Offers wanted.now value.now) }
{
    let Ok(text) = value.to_str() else {
        return Ok(false);
    };
    let items = media_list(alloc, text.as_bytes())?;
    Ok(any_matches(wanted, items.as_slice()))
}

/// Whether some value of `accept` has an item that matches.
fn some_offers(alloc: Global, headers: &HeaderMap, wanted: &MediaType) -> Got<bool>
    ensures { IfOk result (λ offers. IsTrue offers ↔ IsOffered headers.now wanted.now) }
{
    for value in headers.get_all(&ACCEPT).iter() {
        if offers(alloc, wanted, value)? {
            return Ok(true);
        }
    }
    Ok(false)
}

/// Whether the headers let the media type pass: no `Accept` header is there, or an item of some value's list
/// is that media type, its kind with `*`, or `*/*`. A value that is not visible ASCII, spaces and tabs is
/// skipped, and so is what is no media type. Quality numbers are not looked at.
pub fn accepts(alloc: Global, headers: &HeaderMap, wanted: &MediaType) -> Got<bool>
    ensures { IfOk result (λ accepts. IsTrue accepts ↔ IsAcceptable headers.now wanted.now) }
{
    match headers.get(&ACCEPT) {
        Some(_) => some_offers(alloc, headers, wanted),
        None => Ok(true),
    }
}
