//! A media type and how it is read.
ghost use Rattle.std.specs.Prelude.{IfOk, OnErr};
ghost use Rattle.life_gate.specs.declared.media.types.MediaType.{MediaType as Media};
ghost use Rattle.life_gate.specs.MediaType.{IsMediaType, IsReadAs, IsOnlyMediaType};

use crate::media::parts::{before_suffix, kind_part, lowered, sub_part};
use life_core::{Got, List, Text, Twin};
use std::alloc::Global;

/// A media type: two tokens in ASCII lower case, the second without its suffix.
#[derive(Debug, Drop)]
pub struct MediaType {
    /// The token before the slash.
    pub kind: Text,
    /// The token after it.
    pub sub: Text,
}

impl Twin for MediaType {
    fn twin(&self, alloc: Global) -> Got<MediaType> {
        Ok(MediaType {
            kind: self.kind.twin(alloc)?,
            sub: self.sub.twin(alloc)?,
        })
    }
}

/// A piece of a list: a media type, or what is none.
#[derive(Debug, Drop)]
pub enum MediaItem {
    /// A media type.
    Good(MediaType),
    /// What is no media type.
    Bad,
}

/// The items of a list of media types, in order.
pub type MediaItems = List<MediaItem>;

/// The media type that the text is, or none where it is no media type: blanks, a token, a slash, a token,
/// blanks, and nothing more or a semicolon and anything.
pub fn media_type(alloc: Global, text: &[u8]) -> Got<Option<MediaType>>
    ensures read { IfOk result (λ found. IsReadAs text.now found) }
    // memory is asked for only where the text is a media type
    ensures wants { OnErr result ((media : Media) × IsMediaType text.now media) }
    ensures only { IfOk result (λ found. IsOnlyMediaType text.now found) }
{
    let Some((kind, rest)) = kind_part(text) else {
        return Ok(None);
    };
    let Some(sub) = sub_part(rest) else {
        return Ok(None);
    };
    Ok(Some(MediaType {
        kind: lowered(alloc, kind)?,
        sub: lowered(alloc, before_suffix(sub))?,
    }))
}
