use amount::{Modules, Pair, Phases};
use listing::list_day;
use std::test::Fail;

// The worked day.
pub(crate) const DAY: &[u8; 90] =
    b"\x01\x00\x20\x00\x20\x00\x20\x02\x00\x06\x00\x18\x00\x18\x00\x18\x03\x00\x00\x04\x00\x04\x00\x04\x10\x01\xE0\x03\x01\x00\x14\x00\x14\x00\x14\x10\x01\xE1\x05\x02\x00\x10\x00\x10\x00\x10\x11\x01\xE2\x03\x00\x0C\x00\x0C\x00\x0C\x11\x01\xE3\x05\x00\x08\x00\x08\x00\x08\x11\x01\xE4\x05\x00\x0D\x00\x0D\x00\x0D\x12\x01\xE5\x03\x00\x08\x00\x08\x00\x08\x14\x01\xE7\x03";

#[test]
fn the_worked_day_is_listed(rt: HostRuntime) -> Result<(), Fail> {
    let text = list_day::<Phases>(rt.alloc(), DAY)?;
    assert_eq!(rt;
        text.as_str(),
        "0 store ceiling 32 32 32\n7 cap marks { 1 2 } ceiling 24 24 24\n16 reserve mark 0 amount 4 4 4\n24 open minute 480 bay 3 mark 1 claim 20 20 20\n35 open minute 481 bay 5 mark 2 claim 16 16 16\n46 ask minute 482 bay 3 amount 12 12 12\n56 ask minute 483 bay 5 amount 8 8 8\n66 ask minute 484 bay 5 amount 13 13 13\n76 fail minute 485 bay 3 amount 8 8 8\n86 end minute 487 bay 3\nread through 90\n"
    );
    Ok(())
}

#[test]
fn a_day_of_another_kind_is_refused(rt: HostRuntime) -> Result<(), Fail> {
    let text = list_day::<Pair<Phases, Modules>>(rt.alloc(), DAY)?;
    assert_eq!(rt;
        text.as_str(),
        "0 store ceiling 32 32 32 { 11 12 27 28 41 42 57 }\nfault 18 15\n"
    );
    Ok(())
}

#[test]
fn modules_are_listed_by_name(rt: HostRuntime) -> Result<(), Fail> {
    let day =
        b"\x01\x80\x00\x00\x00\x00\x00\x00\x21\x02\x80\x01\x00\x00\x00\x00\x00\x00\x00\x00\x03\xFF\x00\x00\x00\x00\x00\x00\x00\x01\x13\xFF\xFF\xFF\x00\x00\x00\x00\x00\x00\x01\x00";
    let text = list_day::<Modules>(rt.alloc(), day)?;
    assert_eq!(rt;
        text.as_str(),
        "0 store ceiling { 0 5 63 }\n9 cap marks { 0 15 } ceiling { }\n20 reserve mark 255 amount { 0 }\n30 give minute 65535 bay 255 amount { 8 }\nread through 42\n"
    );
    Ok(())
}
