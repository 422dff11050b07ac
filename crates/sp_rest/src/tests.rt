use crate::status::status;
use sp_base::refusal::Refusal;
use sp_event::answer::Answered;
use std::test::Fail;

#[test]
fn which_codes_answers_have(rt: HostRuntime) -> Result<(), Fail> {
    assert_eq!(rt; status(&Answered::Memory), 503);
    let full = Answered::Full {
        len: 1,
        need: 2,
        max: 2,
    };
    assert_eq!(rt; status(&full), 507);
    for (at, code) in [(4, 400), (5, 404), (6, 400)] {
        let bad = Answered::Refused {
            refusal: Refusal::BadRequest { at },
            index: None,
        };
        assert_eq!(rt; status(&bad), code);
    }
    Ok(())
}
