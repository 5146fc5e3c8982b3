//! Header fields as they are scripted.
ghost use Rattle.std.specs.Prelude.{◌≡◌, ◌≤◌, [], ◌∷◌, ◌++◌, length, IfOk, OnOk, OnErr};
ghost use Rattle.life_script.specs.Headers.{map_of};
ghost use Rattle.life_script.specs.declared.checks.TheConstants.{MAX_HEADER_VALUES};

use http::header::{HeaderMap, HeaderMapError, HeaderName, HeaderValue};
use life_core::{Got, List, NoMemory, Twin};
use std::alloc::Global;
use std::marker::Model;

/// Header fields in the order in which they are written. A name may stand many times.
#[derive(Debug, Drop)]
pub struct HeaderList {
    pairs: List<(HeaderName, HeaderValue)>,
}

impl Model for HeaderList {
    ghost use Rattle.life_script.specs.Headers.{Headers};

    ghost Value = { Headers };

    ghost view = { λ headers. headers.pairs.items };
}

impl HeaderList {
    /// No fields. It takes no memory.
    pub fn new(alloc: Global) -> HeaderList
        ensures { result ≡ [] }
    {
        HeaderList {
            pairs: List::new(alloc),
        }
    }

    /// The fields of a list. It takes no memory.
    pub fn from_list(pairs: List<(HeaderName, HeaderValue)>) -> HeaderList
        ensures { result ≡ pairs.items }
    {
        HeaderList { pairs }
    }

    /// Puts a field at the end. After an error the fields stay as they were.
    pub fn push(&mut self, name: HeaderName, value: HeaderValue) -> Got<()>
        ensures put { OnOk result (self.new ≡ self.old ++ (name, value) ∷ []) }
        ensures kept { OnErr result (self.new ≡ self.old) }
    {
        self.pairs.push((name, value))
    }

    /// How many fields there are, counting each value.
    pub fn len(&self) -> u64
        ensures { result ≡ length self.now }
    {
        self.pairs.len()
    }

    /// The fields, in order.
    pub fn as_slice(&self) -> &[(HeaderName, HeaderValue)]
        ensures { result.now ≡ self.now }
    {
        self.pairs.as_slice()
    }

    /// The map of these fields: each value stands after those of its name before it. So few never run out of
    /// places in the map.
    pub fn to_map(&self, alloc: Global) -> Got<HeaderMap<HeaderValue>>
        requires { length self.now ≤ MAX_HEADER_VALUES }
        ensures { IfOk result (λ map. map ≡ map_of self.now) }
    {
        let mut map = HeaderMap::new(alloc);
        for (name, value) in self.as_slice() {
            match map.append(name.clone()?, value.clone()?) {
                Ok(_) => (),
                Err(HeaderMapError::MaxSizeReached) => unreachable!(),
                Err(HeaderMapError::OutOfMemory) => return Err(NoMemory),
            }
        }
        Ok(map)
    }
}

impl Twin for HeaderList {
    fn twin(&self, alloc: Global) -> Got<HeaderList> {
        let mut pairs = List::new(alloc);
        for (name, value) in self.as_slice() {
            pairs.push((name.clone()?, value.clone()?))?;
        }
        Ok(HeaderList { pairs })
    }
}
