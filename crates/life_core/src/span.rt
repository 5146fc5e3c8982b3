//! The span in which a call is made.
ghost use Rattle.std.specs.Prelude.{◌≡◌, [], ◌∷◌, ◌++◌, None, IfOk, OnOk, OnErr};

use crate::Got;
use crate::event::Level;
use crate::fields::Fields;
use crate::list::List;
use crate::text::Text;
use crate::twin::Twin;
use std::alloc::Global;
use std::marker::Model;

/// Keys with their values, in the order in which they were put. A key may stand many times.
#[derive(Debug, Drop)]
pub struct Pairs {
    items: List<(Text, Text)>,
}

impl Model for Pairs {
    ghost use Rattle.std.specs.Prelude.{List, ℕ};

    ghost Value = { List (List ℕ × List ℕ) };

    ghost view = { λ pairs. pairs.items.items };
}

impl Pairs {
    /// No pairs. It takes no memory.
    pub fn new(alloc: Global) -> Pairs
        ensures { result ≡ [] }
    {
        Pairs {
            items: List::new(alloc),
        }
    }

    /// Puts a pair at the end. After an error the pairs stay as they were.
    pub fn push(&mut self, key: Text, value: Text) -> Got<()>
        ensures put { OnOk result (self.new ≡ self.old ++ (key, value) ∷ []) }
        ensures kept { OnErr result (self.new ≡ self.old) }
    {
        self.items.push((key, value))
    }

    /// The pairs, in order.
    pub fn as_slice(&self) -> &[(Text, Text)]
        ensures { result.now ≡ self.now }
    {
        self.items.as_slice()
    }
}

impl Twin for Pairs {
    fn twin(&self, alloc: Global) -> Got<Pairs> {
        let mut items = List::new(alloc);
        for (key, value) in self.as_slice() {
            items.push((key.twin(alloc)?, value.twin(alloc)?))?;
        }
        Ok(Pairs { items })
    }
}

/// A span, as a plain value: its level and name, pairs of a key and a value, and the headers of its request where
/// they were asked for.
#[derive(Debug, Drop)]
pub struct Span {
    /// How much it matters.
    pub level: Level,
    /// Its name.
    pub name: Text,
    /// What is told of it, in order.
    pub fields: Pairs,
    /// The headers of its request, where they are told.
    pub headers: Option<Fields>,
}

impl Span {
    /// A span of this level and name, with no pairs and no headers.
    pub fn new(alloc: Global, level: Level, name: &str) -> Got<Span>
        ensures { IfOk result (λ span. span ≡ record { level = level; name = name.now; fields = []; headers = None }) }
    {
        let name = Text::copy(alloc, name)?;
        Ok(Span {
            level,
            name,
            fields: Pairs::new(alloc),
            headers: None,
        })
    }

    /// Puts a pair at the end. After an error the span stays as it was.
    pub fn put(&mut self, alloc: Global, key: &str, value: &str) -> Got<()>
        ensures put { OnOk result (self.new ≡ record self.old {
          fields = self.old.fields ++ (key.now, value.now) ∷ [];
        }) }
        ensures kept { OnErr result (self.new ≡ self.old) }
    {
        let key = Text::copy(alloc, key)?;
        let value = Text::copy(alloc, value)?;
        self.fields.push(key, value)
    }
}

impl Twin for Span {
    fn twin(&self, alloc: Global) -> Got<Span> {
        let name = self.name.twin(alloc)?;
        let fields = self.fields.twin(alloc)?;
        let headers = match &self.headers {
            Some(headers) => Some(headers.twin(alloc)?),
            None => None,
        };
        Ok(Span {
            level: self.level,
            name,
            fields,
            headers,
        })
    }
}
