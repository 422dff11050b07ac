ghost use Rattle.std.specs.Prelude.{◌≡◌, true, [], IfOk, SomeIff, find, not, option_map};
ghost use Rattle.std.specs.List.{list_all};
ghost use Rattle.std.specs.Option.{option_copied};
ghost use Rattle.sp_config.specs.Names.{name_of};
ghost use Rattle.sp_config.specs.Ranges.{is_in_range};
ghost use Rattle.sp_config.specs.Settings.{are_settings, bad_attribute, is_allowed, rise_above};

use crate::attr::Attr;
use crate::kind::EndpointKind;
use crate::setting::Setting;
use std::alloc::{AllocError, Global};
use std::marker::Model;

/// Values for some attributes, which contracts see as a list: each attribute at most once, in the
/// order of names, and each value in its attribute's range.
#[derive(Debug, Drop)]
pub struct Settings {
    rows: Vec<Setting>,
}

impl Model for Settings {
    ghost use Rattle.std.specs.Prelude.{◌≡◌, true, List};
    ghost use Rattle.sp_config.specs.declared.setting.Setting.{Setting};
    ghost use Rattle.sp_config.specs.Settings.{are_settings};

    ghost Value = { List Setting };

    ghost view = { λ s. s.rows.items };

    ghost invariant = { λ s. are_settings s.rows.items ≡ true };
}

impl Settings {
    /// No settings.
    pub fn none(alloc: Global) -> Settings
        ensures { result ≡ [] }
    {
        Settings {
            rows: Vec::new(alloc),
        }
    }

    /// The settings of a vector. None exactly where they break the rule above.
    pub fn from_vec(rows: Vec<Setting>) -> Option<Settings>
        ensures { SomeIff result (are_settings rows.items ≡ true) rows.items }
    {
        if keep_the_rule(rows.as_slice()) {
            Some(Settings { rows })
        } else {
            None
        }
    }

    /// The settings in the order of their attributes' names.
    pub fn as_slice(&self) -> &[Setting]
        ensures value { result.now ≡ self.now }
        ensures form { are_settings self.now ≡ true }
    {
        self.rows.as_slice()
    }

    /// The first attribute whose value an endpoint of the kind may not have.
    pub fn bad_attribute(&self, kind: EndpointKind) -> Option<Attr>
        ensures { option_map name_of result ≡ bad_attribute kind self.now }
    {
        match self.bad_setting(kind) {
            Some(setting) => Some(setting.attr),
            None => None,
        }
    }

    fn bad_setting(&self, kind: EndpointKind) -> Option<&Setting>
        ensures { option_copied result ≡ find (λ s. not (is_allowed kind s.attr s.value)) self.now }
    {
        self.rows.iter().find(|s| !kind.allows(s.attr, &s.value))
    }

    /// Second settings that equal these.
    pub fn copy(&self, alloc: Global) -> Result<Settings, AllocError>
        ensures { IfOk result (λ s. s ≡ self.now) }
    {
        Ok(Settings {
            rows: copy_all(alloc, self.rows.as_slice())?,
        })
    }
}

fn keep_the_rule(rows: &[Setting]) -> bool
    ensures { result ≡ are_settings rows.now }
{
    are_in_range(rows) && rise(rows)
}

fn are_in_range(rows: &[Setting]) -> bool
    ensures { result ≡ list_all (λ s. is_in_range s.attr s.value) rows.now }
{
    rows.iter().all(|s| s.attr.range().has(&s.value))
}

fn rise(rows: &[Setting]) -> bool
    ensures { result ≡ rise_above 0 rows.now }
{
    let mut last = 0;
    for setting in rows {
        let number = setting.attr.number();
        if number <= last {
            return false;
        }
        last = number;
    }
    true
}

fn copy_all(alloc: Global, rows: &[Setting]) -> Result<Vec<Setting>, AllocError>
    ensures { IfOk result (λ v. v.items ≡ rows.now) }
{
    let mut copies = Vec::new(alloc);
    for setting in rows {
        copies.push(setting.copy(alloc)?)?;
    }
    Ok(copies)
}
