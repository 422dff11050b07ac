ghost use Rattle.std.specs.Prelude.{◌≡◌, ◌++◌, true, OnOk};
ghost use Rattle.sp_config.specs.Settings.{are_settings};
ghost use Rattle.sp_message.specs.Decoding.{Gives};
ghost use Rattle.sp_unit.specs.UnitBytes.{are_attributes, attr_value_bytes, is_named, settings_bytes};
ghost use Rattle.sp_unit.specs.UnitReading.{attr_value_at, attribute_numbered, owner_at, setting_at, settings_at, word_at};

use sp_base::choice::at_place;
use sp_base::name::{Name, NameError};
use sp_config::attr::Attr;
use sp_config::range::Range;
use sp_config::setting::Setting;
use sp_config::settings::Settings;
use sp_config::value::AttrValue;
use sp_message::codec::{
    Codec, ReadError, read_byte, read_list, read_number_within, read_text, read_truth, write_list,
    write_number, write_text, write_truth,
};
use sp_message::texts::read_name;
use std::alloc::{AllocError, Global};

/// Settings as bytes: one byte with the number of the attribute, and the value.
pub struct SettingCodec;

impl Codec for SettingCodec {
    ghost use Rattle.std.specs.Prelude.{◌≡◌, true};
    ghost use Rattle.sp_unit.specs.UnitBytes.{is_named, setting_bytes};
    ghost use Rattle.sp_unit.specs.UnitReading.{setting_at};

    type Item = Setting;

    ghost fits = { λ _. Unit {0} };

    ghost valid = { λ s. is_named s.value ≡ true };

    ghost bytes_of = { setting_bytes };

    ghost read_at = { setting_at };

    fn read(alloc: Global, bytes: &[u8]) -> Result<(Setting, &[u8]), ReadError> {
        read_setting(alloc, bytes)
    }

    fn write(setting: &Setting, into: &mut Vec<u8>) -> Result<(), AllocError> {
        into.push(setting.attr.number())?;
        write_value(&setting.value, into)
    }
}

fn write_value(value: &AttrValue, into: &mut Vec<u8>) -> Result<(), AllocError>
    ensures bytes { OnOk result (into.new.items ≡ into.old.items ++ attr_value_bytes value.now) }
    ensures valid { OnOk result (is_named value.now ≡ true) }
{
    match value {
        AttrValue::Whole(n) => write_number(*n, into),
        AttrValue::Flag(truth) => write_truth(*truth, into),
        AttrValue::Word(place) => {
            into.push(*place)?;
            Ok(())
        }
        AttrValue::Text(None) => write_text(&[], into),
        AttrValue::Text(Some(name)) => write_text(name.as_bytes(), into),
    }
}

#[tactic(auto, unfolding(crate::specs::UnitReading::setting_at))]
fn read_setting(alloc: Global, bytes: &[u8]) -> Result<(Setting, &[u8]), ReadError>
    ensures { Gives (λ x. (x.0, x.1.now)) result (setting_at bytes.now) }
{
    let (number, rest) = read_byte(bytes)?;
    let Some(attr) = attribute_numbered(number) else {
        return Err(ReadError::NotOne);
    };
    let (value, rest) = read_value(alloc, attr.range(), rest)?;
    Ok((Setting { attr, value }, rest))
}

#[tactic(auto, unfolding(crate::specs::UnitReading::attribute_numbered))]
fn attribute_numbered(number: u8) -> Option<Attr>
    ensures { result ≡ attribute_numbered number }
{
    if number == 0 {
        return None;
    }
    at_place::<Attr>(usize::from(number - 1))
}

#[tactic(auto, unfolding(crate::specs::UnitReading::attr_value_at))]
fn read_value(alloc: Global, range: Range, bytes: &[u8]) -> Result<(AttrValue, &[u8]), ReadError>
    ensures { Gives (λ x. (x.0, x.1.now)) result (attr_value_at range bytes.now) }
{
    match range {
        Range::Between { least, most } => {
            let (n, rest) = read_number_within(bytes, least, most)?;
            Ok((AttrValue::Whole(n), rest))
        }
        Range::TrueOrFalse => {
            let (truth, rest) = read_truth(bytes)?;
            Ok((AttrValue::Flag(truth), rest))
        }
        Range::OneOf { words } => read_word(words, bytes),
        Range::SomeName => {
            let (name, rest) = read_name(alloc, bytes)?;
            Ok((AttrValue::Text(Some(name)), rest))
        }
        Range::NameOrEmpty => read_owner(alloc, bytes),
    }
}

#[tactic(auto, unfolding(crate::specs::UnitReading::word_at))]
fn read_word(words: u8, bytes: &[u8]) -> Result<(AttrValue, &[u8]), ReadError>
    ensures { Gives (λ x. (x.0, x.1.now)) result (word_at words bytes.now) }
{
    let (place, rest) = read_byte(bytes)?;
    if place >= words {
        return Err(ReadError::NotOne);
    }
    Ok((AttrValue::Word(place), rest))
}

#[tactic(auto, unfolding(crate::specs::UnitReading::owner_at))]
fn read_owner(alloc: Global, bytes: &[u8]) -> Result<(AttrValue, &[u8]), ReadError>
    ensures { Gives (λ x. (x.0, x.1.now)) result (owner_at bytes.now) }
{
    let (text, rest) = read_text(bytes)?;
    if text.is_empty() {
        return Ok((AttrValue::Text(None), rest));
    }
    match Name::read(alloc, text) {
        Ok(name) => Ok((AttrValue::Text(Some(name)), rest)),
        Err(NameError::BadName) => Err(ReadError::NotOne),
        Err(NameError::Memory) => Err(ReadError::Memory),
    }
}

/// Appends settings: one byte with their number, and each of them.
#[tactic(auto, using(crate::proofs::FewSettings::few_settings, crate::proofs::FewSettings::are_named))]
pub fn write_settings(settings: &Settings, into: &mut Vec<u8>) -> Result<(), AllocError>
    ensures bytes { OnOk result (into.new.items ≡ into.old.items ++ settings_bytes settings.now) }
    ensures valid { OnOk result (are_attributes settings.now ≡ true) }
{
    write_list::<SettingCodec>(settings.as_slice(), into)
}

/// Reads settings.
#[tactic(auto, unfolding(crate::specs::UnitReading::settings_at))]
pub fn read_settings(alloc: Global, bytes: &[u8]) -> Result<(Settings, &[u8]), ReadError>
    ensures { Gives (λ x. (x.0, x.1.now)) result (settings_at bytes.now) }
{
    let (rows, rest) = read_list::<SettingCodec>(alloc, bytes)?;
    match Settings::from_vec(rows) {
        Some(settings) => Ok((settings, rest)),
        None => Err(ReadError::NotOne),
    }
}
