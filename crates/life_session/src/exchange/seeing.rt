//! What is seen of the frames of bodies.
ghost use Rattle.std.specs.Prelude.{◌≡◌, IfOk};
ghost use Rattle.life_script.specs.declared.answer.Seen.{Seen as SeenView};
ghost use Rattle.life_session.specs.Table.{Shows};

use bytes::Bytes;
use http_body::Frame;
use life_core::{Fields, Got, Octets};
use life_script::Seen;
use std::alloc::Global;

/// What is seen of a frame.
pub fn seen_in(alloc: Global, frame: Frame<Bytes>) -> Got<Seen>
    ensures { IfOk result (λ seen. (s : SeenView) → Shows s frame → seen ≡ s) }
{
    if let Some(map) = frame.trailers_ref() {
        let fields = Fields::of(alloc, map)?;
        return Ok(Seen::Trailers(fields));
    }
    let octets = match frame.into_data() {
        Ok(bytes) => Octets::copy(alloc, bytes.as_slice()),
        Err(_) => Octets::copy(alloc, &[]),
    };
    let octets = octets?;
    Ok(Seen::Chunk(octets))
}
