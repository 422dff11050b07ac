// Setting one attribute.
ghost use Rattle.std.specs.Prelude.{◌≡◌, ◌↔◌, true, false, Some, None, IfOk, IsErr, OnOk, OnErr};
ghost use Rattle.sp_config.specs.Change.{with_value};
ghost use Rattle.sp_config.specs.Ranges.{is_in_range};
ghost use Rattle.sp_config.specs.Settings.{with_settings};
ghost use Rattle.std.specs.List.{list_all};

use crate::attr::Attr;
use crate::attributes::Attributes;
use crate::setting::Setting;
use crate::settings::Settings;
use crate::value::AttrValue;
use sp_base::choice::at_place;
use sp_base::name::Name;
use std::alloc::{AllocError, Global};

/// The value isn't one that the attribute may have.
#[derive(Clone, Copy, Debug, PartialEq, Eq)]
pub struct OutOfRange;

impl Attributes {
    /// Gives one attribute a value, and leaves all others as they are. It takes no memory.
    /// OutOfRange exactly where the value isn't of the attribute's kind or not in its range; then
    /// nothing has changed.
    pub fn change(&mut self, attr: Attr, value: AttrValue) -> Result<(), OutOfRange>
        ensures range { IsErr result ↔ (is_in_range attr value ≡ false) }
        ensures ok { OnOk result (self.new ≡ with_value attr value self.old) }
        ensures err { OnErr result (self.new ≡ self.old) }
    {
        if !attr.range().has(&value) {
            return Err(OutOfRange);
        }
        self.set(attr, value);
        Ok(())
    }

    /// Second attributes, in which these have their values and all others are as they are here.
    pub fn changed(&self, alloc: Global, settings: &Settings) -> Result<Attributes, AllocError>
        ensures { IfOk result (λ a. a ≡ with_settings settings.now self.now) }
    {
        let mut changed = self.copy(alloc)?;
        changed.set_all(alloc, settings.as_slice())?;
        Ok(changed)
    }

    fn set_all(&mut self, alloc: Global, settings: &[Setting]) -> Result<(), AllocError>
        requires { list_all (λ s. is_in_range s.attr s.value) settings.now ≡ true }
        ensures { OnOk result (self.new ≡ with_settings settings.now self.old) }
    {
        for setting in settings {
            self.set(setting.attr, setting.value.copy(alloc)?);
        }
        Ok(())
    }

    fn set(&mut self, attr: Attr, value: AttrValue)
        requires { is_in_range attr value ≡ true }
        ensures { self.new ≡ with_value attr value self.old }
    {
        match value {
            AttrValue::Whole(n) => self.set_whole(attr, n),
            AttrValue::Flag(b) => self.set_flag(attr, b),
            AttrValue::Word(place) => self.set_word(attr, place),
            AttrValue::Text(Some(name)) => self.set_name(attr, name),
            AttrValue::Text(None) => self.set_no_name(attr),
        }
    }

    #[tactic(auto, unfolding(crate::specs::Change::with_value))]
    fn set_whole(&mut self, attr: Attr, n: u64)
        requires { is_in_range attr (AttrValue.Whole n) ≡ true }
        ensures { self.new ≡ with_value attr (AttrValue.Whole n) self.old }
    {
        match attr {
            Attr::MaxBindCount => self.max_bind_count = n,
            Attr::MaxDeliveredUnackedMsgsPerFlow => self.max_delivered_unacked_msgs_per_flow = n,
            Attr::MaxMsgSize => self.max_msg_size = n,
            Attr::MaxMsgSpoolUsage => self.max_msg_spool_usage = n,
            Attr::MaxRedeliveryCount => self.max_redelivery_count = n,
            Attr::MaxTtl => self.max_ttl = n,
            Attr::PartitionCount => self.partition_count = n,
            _ => {}
        }
    }

    #[tactic(auto, unfolding(crate::specs::Change::with_value))]
    fn set_flag(&mut self, attr: Attr, b: bool)
        ensures { self.new ≡ with_value attr (AttrValue.Flag b) self.old }
    {
        match attr {
            Attr::EgressEnabled => self.egress_enabled = b,
            Attr::IngressEnabled => self.ingress_enabled = b,
            Attr::RespectTtlEnabled => self.respect_ttl_enabled = b,
            _ => {}
        }
    }

    #[tactic(auto, unfolding(crate::specs::Change::with_value))]
    fn set_word(&mut self, attr: Attr, place: u8)
        ensures { self.new ≡ with_value attr (AttrValue.Word place) self.old }
    {
        match attr {
            Attr::AccessType => {
                let access_type = at_place(place as usize);
                self.access_type = access_type.unwrap_or(self.access_type);
            }
            Attr::Permission => {
                let permission = at_place(place as usize);
                self.permission = permission.unwrap_or(self.permission);
            }
            Attr::RejectMsgToSenderOnDiscardBehavior => {
                let behavior = at_place(place as usize);
                self.reject_msg_to_sender_on_discard_behavior = behavior.unwrap_or(
                    self.reject_msg_to_sender_on_discard_behavior,
                );
            }
            _ => {}
        }
    }

    #[tactic(auto, unfolding(crate::specs::Change::with_value))]
    fn set_name(&mut self, attr: Attr, name: Name)
        ensures { self.new ≡ with_value attr (AttrValue.Text (Some name)) self.old }
    {
        match attr {
            Attr::DeadMsgQueue => self.dead_msg_queue = name,
            Attr::Owner => self.owner = Some(name),
            _ => {}
        }
    }

    #[tactic(auto, unfolding(crate::specs::Change::with_value))]
    fn set_no_name(&mut self, attr: Attr)
        ensures { self.new ≡ with_value attr (AttrValue.Text None) self.old }
    {
        if attr == Attr::Owner {
            self.owner = None;
        }
    }
}
