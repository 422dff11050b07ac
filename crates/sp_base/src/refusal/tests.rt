use crate::choice::{Choice, at_place, named, place_named};
use crate::declined::{Declined, EventRefusal};
use crate::refusal::shown::ShownValue;
use crate::refusal::{Kind, Permission, Refusal};
use crate::text::Str;
use std::alloc::{AllocError, Global};
use std::fmt::Write;
use std::test::Fail;

// The rule, and the names and values that the refusal shows.
fn told(alloc: Global, refusal: Refusal) -> Result<String, Fail> {
    let rule = refusal.rule();
    let mut told = format!(in alloc; "{} {}", refusal.number(), rule.name)?;
    for shown in refusal.shown(alloc)?.as_slice() {
        let name = shown.name();
        match shown.value() {
            ShownValue::Number(n) => write!(told, " {name}={n}")?,
            ShownValue::Text(text) => write!(told, " {name}={}", text.as_str())?,
            ShownValue::Permission(permission) => write!(told, " {name}={}", permission.word())?,
            ShownValue::Kind(kind) => write!(told, " {name}={}", kind.word())?,
        }
    }
    Ok(told)
}

#[test]
fn what_refusals_show(rt: HostRuntime) -> Result<(), Fail> {
    let alloc = rt.alloc();
    let name = Str::copy_of(alloc, "q1")?;
    let quota = Refusal::QuotaExceeded {
        name,
        used: 5,
        size: 4,
        max: 8,
    };
    assert!(rt; told(alloc, quota)?.as_str() == "18 QuotaExceeded max=8 name=q1 size=4 used=5");
    let access = Refusal::NoAccess {
        need: Permission::Consume,
        has: Permission::ReadOnly,
    };
    assert!(rt; told(alloc, access)?.as_str() == "10 NoAccess has=read-only need=consume");
    let spent = Refusal::IdsSpent { kind: Kind::Unit };
    assert!(rt; told(alloc, spent)?.as_str() == "27 IdsSpent kind=unit");
    let name = Str::copy_of(alloc, "owner")?;
    assert!(rt;
        told(alloc, Refusal::BadAttribute { name })?.as_str() == "6 BadAttribute name=owner"
    );
    assert!(rt; told(alloc, Refusal::NoReplay)?.as_str() == "24 NoReplay");
    Ok(())
}

#[test]
fn words_lead_both_ways(rt: HostRuntime) {
    assert_eq!(rt; named("modify-topic"), Some(Permission::ModifyTopic));
    assert_eq!(rt; named::<Permission>("unit"), None);
    assert_eq!(rt; place_named::<Kind>("flow"), Some(3));
    assert_eq!(rt; at_place(3), Some(Kind::Flow));
    assert_eq!(rt; at_place::<Kind>(6), None);
}

#[test]
fn what_is_told_of_a_declined_request(rt: HostRuntime) -> Result<(), Fail> {
    let alloc = rt.alloc();
    let refused = Declined::Refused(EventRefusal {
        index: 0,
        refusal: Refusal::DirectMode,
    });
    let told = format!(in alloc; "{refused}")?;
    assert!(rt; told.as_str() == "refused: EventRefusal { index: 0, refusal: DirectMode }");
    let memory: Declined<Refusal> = Declined::from(AllocError);
    assert!(rt; format!(in alloc; "{memory}")?.as_str() == "want of memory");
    Ok(())
}
