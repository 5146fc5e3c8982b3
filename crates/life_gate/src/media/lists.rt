//! A list of media types and how it is read.
ghost use Rattle.std.specs.Prelude.{IfOk};
ghost use Rattle.life_gate.specs.MediaList.{IsItem, IsMediaList, IsOnlyMediaList};

use crate::media::pieces::cut;
use crate::media::types::{MediaItem, MediaItems, media_type};
use life_core::{Got, List};
use std::alloc::Global;

/// The media type that the piece is, or a bad item.
fn media_item(alloc: Global, piece: &[u8]) -> Got<MediaItem>
    ensures { IfOk result (λ item. IsItem piece.now item) }
{
    match media_type(alloc, piece)? {
        Some(media) => Ok(MediaItem::Good(media)),
        None => Ok(MediaItem::Bad),
    }
}

/// The items of the list that the text is, one for each piece between commas outside quoted parts. The empty
/// text is one bad item.
pub fn media_list(alloc: Global, text: &[u8]) -> Got<MediaItems>
    ensures read { IfOk result (λ list. IsMediaList text.now list.items) }
    ensures only { IfOk result (λ list. IsOnlyMediaList text.now list.items) }
{
    let mut items = List::new(alloc);
    let mut rest = text;
    while let Some((piece, after)) = cut(rest) {
        items.push(media_item(alloc, piece)?)?;
        rest = after;
    }
    items.push(media_item(alloc, rest)?)?;
    Ok(items)
}
