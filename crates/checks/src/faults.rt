use crate::days::DAY;
use amount::{Modules, Pair, Phases};
use dayfile::{Fault, LONGEST, Reader};
use listing::list_day;
use std::test::Fail;

// How far a file of phases reads through, or the number of the fault that ends it and where the reader then stands.
fn ending(file: &[u8]) -> Result<usize, (u8, usize)> {
    let mut reader = Reader::<Phases>::new(file).map_err(|fault| (fault.number(), LONGEST))?;
    // each record takes a byte at least
    for _ in 0..file.len() {
        match reader.next_record() {
            Ok(Some(_)) => {}
            Ok(None) => return Ok(reader.position()),
            Err(fault) => return Err((fault.number(), reader.position())),
        }
    }
    match reader.next_record() {
        Ok(_) => Ok(reader.position()),
        Err(fault) => Err((fault.number(), reader.position())),
    }
}

// Where the record begins that has its last byte at `at` or behind it.
fn begins(at: usize) -> usize {
    const STARTS: [usize; 10] = [7, 16, 24, 35, 46, 56, 66, 76, 86, 90];
    STARTS.into_iter().filter(|s| *s <= at).last().unwrap_or(0)
}

#[test]
fn every_cut_is_answered(rt: HostRuntime) {
    let day = *DAY;
    for cut in 0..91 {
        let at = begins(cut);
        let through = cut >= 24 && at == cut;
        assert_eq!(rt;
            ending(&day[0..cut]),
            if through { Ok(at) } else { Err((17, at)) }
        );
    }
}

#[test]
fn every_other_kind_is_unknown_behind_the_head(rt: HostRuntime) {
    for kind in 0..=255u8 {
        let mut file = *DAY;
        file[24] = kind;
        let known = (0x10..=0x14).contains(&kind);
        assert_eq!(rt;
            ending(&file[0..25]),
            Err((if known { 17 } else { 16 }, 24))
        );
    }
}

#[test]
fn every_other_kind_is_wrong_in_the_head(rt: HostRuntime) {
    for kind in 0..=255u8 {
        let mut file = *DAY;
        file[7] = kind;
        assert_eq!(rt;
            ending(&file),
            if kind == 2 { Ok(90) } else { Err((18, 7)) }
        );
    }
}

#[test]
fn the_head_is_tested_in_its_order(rt: HostRuntime) {
    assert_eq!(rt; ending(&[]), Err((17, 0)));
    assert_eq!(rt; ending(&[2]), Err((18, 0)));
    assert_eq!(rt; ending(&[1]), Err((17, 0)));
    assert_eq!(rt; ending(&[1, 0, 32, 0, 32, 0, 32]), Err((17, 7)));
    assert_eq!(rt; ending(&[1, 0, 32, 0, 32, 0, 32, 3]), Err((18, 7)));
    assert_eq!(rt; ending(&[1, 0, 32, 0, 32, 0, 32, 2]), Err((17, 7)));
}

#[test]
fn a_fault_leaves_the_reader(rt: HostRuntime) -> Result<(), Fail> {
    let day = *DAY;
    let mut reader = Reader::<Phases>::new(&day[0..30])?;
    for _ in 0..3 {
        assert!(rt; matches!(reader.next_record(), Ok(Some(_))));
    }
    assert_eq!(rt; reader.position(), 24);
    assert!(rt; matches!(reader.next_record(), Err(Fault::CutShort)));
    assert_eq!(rt; reader.position(), 24);
    assert!(rt; matches!(reader.next_record(), Err(Fault::CutShort)));
    Ok(())
}

#[test]
fn a_file_may_have_65536_bytes(rt: HostRuntime) -> Result<(), Fail> {
    let mut file = vec![in rt.alloc(); 0; 65536]?;
    assert_eq!(rt; ending(file.as_slice()), Err((18, 0)));
    assert_eq!(rt;
        list_day::<Phases>(rt.alloc(), file.as_slice())?.as_str(),
        "fault 18 0\n"
    );
    file.push(0)?;
    assert_eq!(rt; ending(file.as_slice()), Err((19, 65536)));
    assert_eq!(rt;
        list_day::<Phases>(rt.alloc(), file.as_slice())?.as_str(),
        "fault 19 65536\n"
    );
    Ok(())
}

#[test]
fn a_wide_kind_is_cut_short(rt: HostRuntime) -> Result<(), Fail> {
    let heap = rt.alloc();
    let file = [1; 64];
    assert_eq!(rt;
        list_day::<Pair<Modules, Pair<Phases, Modules>>>(heap, &file)?.as_str(),
        "fault 17 0\n"
    );
    assert_eq!(rt;
        list_day::<Pair<Modules, Pair<Phases, Modules>>>(heap, &[])?.as_str(),
        "fault 17 0\n"
    );
    assert_eq!(rt;
        list_day::<Pair<Modules, Pair<Phases, Modules>>>(heap, &[9])?.as_str(),
        "fault 18 0\n"
    );
    Ok(())
}
