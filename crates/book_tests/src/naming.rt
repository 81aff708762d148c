// Entering headings and roles.
use crate::support::{ALREADY, BAD_NAME, Case, EMPTY, Held, check_cases};
use names::Name;
use runs::Call;
use std::test::Fail;
use terms::refusal::Refusal;

static NAMING: [Case; 20] = [
    (Call::EnterHeading(""), Err(BAD_NAME)),
    (Call::EnterHeading("abcdefghijklm"), Err(BAD_NAME)),
    (Call::EnterHeading("abcdefghijkl"), Ok(0)),
    (Call::EnterHeading("a b"), Err(BAD_NAME)),
    (Call::EnterHeading("a_b"), Err(BAD_NAME)),
    (Call::EnterHeading("\u{e9}"), Err(BAD_NAME)),
    (Call::EnterHeading("tithe"), Ok(1)),
    (Call::EnterHeading("tithe"), Err(ALREADY)),
    // A capital is another letter.
    (Call::EnterHeading("Tithe"), Ok(2)),
    (Call::EnterHeading("-9"), Ok(3)),
    (Call::EnterHeading("abcdefghijkl"), Err(ALREADY)),
    (Call::EnterRole(""), Err(BAD_NAME)),
    (Call::EnterRole("abcdefghijklm"), Err(BAD_NAME)),
    (Call::EnterRole("a b"), Err(BAD_NAME)),
    (Call::EnterRole("a_b"), Err(BAD_NAME)),
    (Call::EnterRole("\u{e9}"), Err(BAD_NAME)),
    // A heading and a role may share a name.
    (Call::EnterRole("tithe"), Ok(0)),
    (Call::EnterRole("tithe"), Err(ALREADY)),
    (Call::EnterRole("abcdefghijkl"), Ok(1)),
    (Call::EnterRole("TITHE"), Ok(2)),
];

static NAMED: Held = Held {
    headings: &["abcdefghijkl", "tithe", "Tithe", "-9"],
    roles: &["tithe", "abcdefghijkl", "TITHE"],
    ..EMPTY
};

#[test]
fn names_are_plain_and_differ(rt: HostRuntime) -> Result<(), Fail> {
    check_cases(&rt, rt.alloc(), 10, &NAMING, &NAMED)
}

#[test]
fn a_name_is_spelled_and_names_stand_in_order(rt: HostRuntime) -> Result<(), Fail> {
    let capital: Name = "Tithe".parse()?;
    let name: Name = "tithe".parse()?;
    let longer: Name = "tithe-9".parse()?;
    assert_eq!(rt; name.as_str(), "tithe");
    assert!(rt; capital < name);
    assert!(rt; name < longer);
    assert_eq!(rt; "a b".parse::<Name>(), Err(Refusal::BadName));
    Ok(())
}
