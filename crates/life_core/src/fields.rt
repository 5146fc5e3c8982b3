//! Header fields as they are shown.
ghost use Rattle.std.specs.Prelude.{◌≡◌, [], IfOk};
ghost use Rattle.std.specs.FinMap.{find};
ghost use Rattle.life_core.specs.Fields.{fields, shown_under, entry_of, name_cmp, as_shown, IsSorted};

use crate::Got;
use crate::list::List;
use crate::text::Octets;
use crate::twin::Twin;
use http::{HeaderMap, HeaderName, HeaderValue};
use std::alloc::Global;
use std::marker::Model;

/// A header's value as it is shown.
#[derive(Debug, Drop)]
pub enum Shown {
    /// These bytes.
    Plain(Octets),
    /// One that is kept out of sight.
    Sensitive,
}

/// A header's name with its values, in order.
#[derive(Debug, Drop)]
pub struct Field {
    name: Octets,
    values: List<Shown>,
}

impl Model for Field {
    ghost use Rattle.http_header.specs.HeaderMap.{Entry};
    ghost use Rattle.life_core.specs.declared.fields.Shown.{Shown as Showing};

    ghost Value = { Entry Showing };

    ghost view = { λ f. (f.name, f.values.items) };
}

/// Header fields, each name once, sorted by the bytes of the name.
#[derive(Debug, Drop)]
pub struct Fields {
    entries: Vec<Field>,
}

impl Model for Fields {
    ghost use Rattle.http_header.specs.HeaderMap.{Entries};
    ghost use Rattle.life_core.specs.declared.fields.Shown.{Shown as Showing};
    ghost use Rattle.life_core.specs.Fields.{IsSorted};

    ghost Value = { Entries Showing };

    ghost view = { λ f. f.entries.items };

    ghost invariant = { λ f. IsSorted f.entries.items };
}

/// A value as it is shown: nothing is marked yet.
fn show(alloc: Global, value: &HeaderValue) -> Got<Shown>
    ensures { IfOk result (λ s. s ≡ as_shown value.now) }
{
    Ok(Shown::Plain(Octets::copy(alloc, value.as_bytes())?))
}

impl Field {
    /// A name with all its values.
    fn of(alloc: Global, headers: &HeaderMap<HeaderValue>, name: &HeaderName) -> Got<Field>
        ensures { IfOk result (λ f. f ≡ entry_of headers.now name.now) }
    {
        let mut values = List::new(alloc);
        for value in headers.get_all(name).iter() {
            values.push(show(alloc, value)?)?;
        }
        Ok(Field {
            name: Octets::copy(alloc, name.as_bytes())?,
            values,
        })
    }

    /// The name.
    pub fn name(&self) -> &[u8]
        ensures { result.now ≡ self.now.0 }
    {
        self.name.as_slice()
    }

    /// The values, in order.
    pub fn values(&self) -> &[Shown]
        ensures { result.now ≡ self.now.1 }
    {
        self.values.as_slice()
    }
}

/// An entry of each name that the headers have, in the order of the names.
fn entries_of(alloc: Global, headers: &HeaderMap<HeaderValue>) -> Got<Vec<Field>>
    ensures { IfOk result (λ v. v.items ≡ fields headers.now) }
{
    let mut entries = Vec::with_capacity(alloc, headers.keys_len())?;
    for name in headers.keys() {
        entries.push(Field::of(alloc, headers, name)?)?;
    }
    entries.sort_unstable_by(|a, b| a.name().cmp(b.name()));
    Ok(entries)
}

impl Fields {
    /// The fields of a message: each name that the headers have, with its values in order.
    #[tactic(auto, using(crate::proofs::FieldLaws::fields_laws))]
    pub fn of(alloc: Global, headers: &HeaderMap<HeaderValue>) -> Got<Fields>
        ensures shown { IfOk result (λ f. f ≡ fields headers.now) }
        ensures named { IfOk result (λ f.
            (name : _) → find name_cmp name f ≡ shown_under headers.now name) }
    {
        Ok(Fields {
            entries: entries_of(alloc, headers)?,
        })
    }

    /// No fields. It takes no memory.
    pub fn none(alloc: Global) -> Fields
        ensures { result ≡ [] }
    {
        Fields {
            entries: Vec::new(alloc),
        }
    }

    /// The entries, in the order of their names.
    pub fn as_slice(&self) -> &[Field]
        ensures value { result.now ≡ self.now }
        ensures sorted { IsSorted self.now }
    {
        self.entries.as_slice()
    }
}

impl Twin for Shown {
    fn twin(&self, alloc: Global) -> Got<Shown> {
        match self {
            Shown::Plain(bytes) => Ok(Shown::Plain(bytes.twin(alloc)?)),
            Shown::Sensitive => Ok(Shown::Sensitive),
        }
    }
}

impl Twin for Field {
    fn twin(&self, alloc: Global) -> Got<Field> {
        let name = self.name.twin(alloc)?;
        let values = self.values.twin_items(alloc)?;
        Ok(Field { name, values })
    }
}

impl Twin for Fields {
    fn twin(&self, alloc: Global) -> Got<Fields> {
        let mut entries = Vec::with_capacity(alloc, self.entries.len())?;
        for field in self.as_slice() {
            entries.push(field.twin(alloc)?)?;
        }
        Ok(Fields { entries })
    }
}
