ghost use Rattle.std.specs.Prelude.{◌≡◌, IfOk};

use crate::attr::Attr;
use crate::value::AttrValue;
use std::alloc::{AllocError, Global};

/// A value for one attribute.
#[derive(Debug, Drop)]
pub struct Setting {
    pub attr: Attr,
    pub value: AttrValue,
}

impl Setting {
    /// A second setting that equals this one.
    pub fn copy(&self, alloc: Global) -> Result<Setting, AllocError>
        ensures { IfOk result (λ s. s ≡ self.now) }
    {
        Ok(Setting {
            attr: self.attr,
            value: self.value.copy(alloc)?,
        })
    }
}
