ghost use Rattle.std.specs.Prelude.{◌≡◌, IfOk};

use sp_base::name::Name;
use std::alloc::{AllocError, Global};

/// A value that an attribute may be given.
#[derive(Debug, Drop)]
pub enum AttrValue {
    /// A whole number, in the attribute's unit.
    Whole(u64),
    /// True or false.
    Flag(bool),
    /// The place of a word among those that the attribute may be, from 0.
    Word(u8),
    /// A name, or None for the empty text.
    Text(Option<Name>),
}

impl AttrValue {
    /// A second value that equals this one.
    pub fn copy(&self, alloc: Global) -> Result<AttrValue, AllocError>
        ensures { IfOk result (λ v. v ≡ self.now) }
    {
        match self {
            AttrValue::Whole(n) => Ok(AttrValue::Whole(*n)),
            AttrValue::Flag(b) => Ok(AttrValue::Flag(*b)),
            AttrValue::Word(place) => Ok(AttrValue::Word(*place)),
            AttrValue::Text(name) => Ok(AttrValue::Text(copy_of(alloc, name)?)),
        }
    }
}

/// A second name that equals this one, or none where there is none.
pub(crate) fn copy_of(alloc: Global, name: &Option<Name>) -> Result<Option<Name>, AllocError>
    ensures { IfOk result (λ n. n ≡ name.now) }
{
    match name {
        Some(name) => Ok(Some(name.copy(alloc)?)),
        None => Ok(None),
    }
}
