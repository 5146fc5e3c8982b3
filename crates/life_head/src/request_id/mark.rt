//! How an id gets into extension and header.
ghost use Rattle.std.specs.Prelude.{◌≡◌, OnOk};
ghost use Rattle.life_core.specs.Header.{put_in};
ghost use Rattle.life_head.specs.Ids.{adopted, id_of};

use crate::request_id::id::RequestId;
use http::header::{HeaderMap, HeaderName, HeaderValue};
use life_core::{Got, Slot, Twin, put_value};
use std::alloc::Global;

/// Sets the id of an extension that has none.
pub fn adopt<X: Slot<RequestId>>(ext: &mut X, value: HeaderValue)
    ensures { ext.new ≡ adopted X.holds X.after ext.old value }
{
    if ext.get().is_none() {
        ext.set(RequestId::new(value));
    }
}

/// Puts an id into header and extension.
pub fn give<X: Slot<RequestId>>(
    alloc: Global,
    headers: &mut HeaderMap,
    ext: &mut X,
    name: &HeaderName,
    value: HeaderValue,
) -> Got<()>
    ensures header { OnOk result (headers.new ≡ put_in headers.old name.now value) }
    ensures extension { OnOk result (ext.new ≡ X.after ext.old (id_of value)) }
{
    let twin = value.twin(alloc)?;
    put_value(headers, name, value)?;
    ext.set(RequestId::new(twin));
    Ok(())
}
