use amount::{Amount, Amps, Modules, Pair, Phases};
use archive::{Archived, WrongLength};

#[test]
fn counts_reach_65535(rt: HostRuntime) {
    let one = Phases::from([1, 0, 0]);
    assert_eq!(rt;
        Phases::from([65534, 2, 3]).plus(one),
        Some(Phases::from([65535, 2, 3]))
    );
    assert_eq!(rt; Phases::from([65535, 2, 3]).plus(one), None);
    assert_eq!(rt; Phases::from([1, 0, 0]).minus(one), Some(Phases::zero()));
    assert_eq!(rt; Phases::from([0, 9, 9]).minus(one), None);
}

#[test]
fn one_phase_too_many_undoes_the_sum(rt: HostRuntime) {
    assert_eq!(rt;
        Phases::from([0, 65535, 0]).plus(Phases::from([0, 1, 0])),
        None
    );
    assert_eq!(rt;
        Phases::from([0, 0, 1]).plus(Phases::from([0, 0, 65535])),
        None
    );
    assert_eq!(rt;
        Phases::from([20, 20, 20]).minus(Phases::from([12, 0, 20])),
        Some(Phases::from([8, 20, 0]))
    );
    assert_eq!(rt;
        Phases::from([20, 20, 20]).minus(Phases::from([0, 0, 21])),
        None
    );
    assert!(rt; !Phases::from([1, 2, 3]).same(Phases::from([1, 3, 2])));
}

#[test]
fn modules_go_by_name(rt: HostRuntime) {
    let highest = Modules::from(0x8000_0000_0000_0000);
    assert_eq!(rt;
        Modules::from(0b100001).plus(Modules::from(0b100)),
        Some(Modules::from(0b100101))
    );
    assert_eq!(rt;
        Modules::from(0b100001).plus(Modules::from(0b10100000 | 1)),
        None
    );
    assert_eq!(rt;
        Modules::from(1).plus(highest),
        Some(Modules::from(0x8000_0000_0000_0001))
    );
    assert_eq!(rt;
        Modules::from(0b100101).minus(Modules::from(0b100)),
        Some(Modules::from(0b100001))
    );
    assert_eq!(rt; Modules::from(0b100001).minus(Modules::from(0b100)), None);
    assert_eq!(rt; highest.minus(highest), Some(Modules::zero()));
}

#[test]
fn a_pair_needs_both_sides(rt: HostRuntime) {
    let a = Pair {
        left: Phases::from([10, 0, 0]),
        right: Modules::from(0b10),
    };
    let b = Pair {
        left: Phases::from([5, 0, 0]),
        right: Modules::from(0b100),
    };
    let c = Pair {
        left: Phases::from([15, 0, 0]),
        right: Modules::from(0b110),
    };
    assert_eq!(rt; a.plus(b), Some(c));
    assert_eq!(rt; a.plus(a), None);
    assert_eq!(rt; c.minus(a), Some(b));
    assert_eq!(rt; b.minus(a), None);
}

#[test]
fn widths_add_up_to_16(rt: HostRuntime) {
    assert_eq!(rt; Amps::W, 2);
    assert_eq!(rt; Phases::W, 6);
    assert_eq!(rt; Modules::W, 8);
    assert_eq!(rt; Pair::<Phases, Phases>::W, 12);
    assert_eq!(rt; Pair::<Phases, Modules>::W, 14);
    assert_eq!(rt; Pair::<Modules, Modules>::W, 16);
    assert_eq!(rt; Pair::<Pair<Phases, Modules>, Amps>::W, 16);
    assert_eq!(rt; Pair::<Pair<Modules, Modules>, Amps>::W, 17);
    assert_eq!(rt; Pair::<Amps, Pair<Modules, Pair<Modules, Amps>>>::W, 17);
}

#[test]
fn amounts_read_and_write_their_bytes(rt: HostRuntime) {
    let bytes = [0, 16, 0, 0, 1, 44, 0x80, 0, 0, 0, 0, 0, 0, 0x21];
    let pair = Pair {
        left: Phases::from([16, 0, 300]),
        right: Modules::from(0x8000_0000_0000_0021),
    };
    assert_eq!(rt; Pair::<Phases, Modules>::read(&bytes), Some(pair));
    let mut place = [7; 14];
    assert_eq!(rt; pair.write(&mut place), Ok(()));
    assert!(rt; place == bytes);
    assert_eq!(rt; Pair::<Phases, Modules>::read(&bytes[0..13]), None);
    assert_eq!(rt; pair.write(&mut place[0..13]), Err(WrongLength));
    assert!(rt; place == bytes);
}

#[test]
fn wide_amounts_are_never_written(rt: HostRuntime) {
    let wide = Pair {
        left: Modules::from(1),
        right: Pair {
            left: Modules::from(2),
            right: Phases::from([1, 2, 3]),
        },
    };
    let mut place = [7; 22];
    assert_eq!(rt; wide.write(&mut place), Err(WrongLength));
    assert!(rt; place == [7; 22]);
    assert_eq!(rt; wide.write(&mut place[0..17]), Err(WrongLength));
    assert!(rt; place == [7; 22]);
    assert_eq!(rt; Pair::<Modules, Pair<Modules, Phases>>::read(&place), None);
}
