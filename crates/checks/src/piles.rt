use amount::{Amount, Modules, Pair, Phases};
use pool::{Cap, LimitFault, Pool, Reserve, Store};
use std::test::Fail;

fn amps(n: u16) -> Phases {
    Phases::from([n; 3])
}

// Amounts by a number, so that a table of calls is plain. Not the numbers of the book's tests: here one stands for all phases.
trait Sample: Amount {
    fn of(n: u64) -> Self;
}

impl Sample for Phases {
    // the same on each phase
    fn of(n: u64) -> Phases {
        amps((n & 0xFFFF) as u16)
    }
}

impl Sample for Modules {
    fn of(n: u64) -> Modules {
        Modules::from(n)
    }
}

impl Sample for Pair<Phases, Modules> {
    // the low byte on each phase, the rest as modules
    fn of(n: u64) -> Pair<Phases, Modules> {
        Pair {
            left: amps((n & 0xFF) as u16),
            right: Modules::from(n >> 8),
        }
    }
}

// One call of a pile, and the answer that is due.
#[derive(Clone, Copy, Debug, PartialEq, Eq)]
enum Step {
    Tall(u8, u64, Option<u8>),
    Short(u8, u64, Option<u8>),
    Take(u8, u64, Option<u8>),
    Give(u8, u64, Option<u8>),
    Whole(u64),
    Count(u8),
    Idle(bool),
}

// What a change answers that is refused at this place, if any.
fn refused_at(place: Option<u8>) -> Result<(), LimitFault> {
    place.map_or(Ok(()), |place| Err(LimitFault { place }))
}

// Whether the call is answered as is due.
fn answers<A: Sample, P: Pool<A>>(pile: &mut P, step: Step) -> bool {
    match step {
        Step::Tall(mark, n, due) => pile.tall(mark, A::of(n)) == due,
        Step::Short(mark, n, due) => pile.short(mark, A::of(n)) == due,
        Step::Take(mark, n, due) => pile.take(mark, A::of(n)) == refused_at(due),
        Step::Give(mark, n, due) => pile.give(mark, A::of(n)) == refused_at(due),
        Step::Whole(due) => pile.whole().same(A::of(due)),
        Step::Count(due) => pile.count() == due,
        Step::Idle(due) => pile.idle() == due,
    }
}

// How many of the calls are answered as is due, up to the first that is not.
fn play<A: Sample, P: Pool<A>>(pile: &mut P, steps: &[Step]) -> usize {
    steps
        .iter()
        .take_while(|step| answers(pile, **step))
        .count()
}

// A refusal of another kind, into which a limit's fault travels by `?`.
#[derive(Clone, Copy, Debug, PartialEq, Eq)]
enum Refusal {
    NoRoom(LimitFault),
}

impl From<LimitFault> for Refusal {
    fn from(fault: LimitFault) -> Refusal {
        Refusal::NoRoom(fault)
    }
}

fn taken<A: Amount, P: Pool<A>>(pile: &mut P, mark: u8, amount: A) -> Result<u8, Refusal> {
    pile.take(mark, amount)?;
    Ok(pile.count())
}

// The pile of the worked day: store 32, cap of 24 for marks 1 and 2, 4 kept for number 0.
type Pile = Reserve<Phases, Cap<Phases, Store<Phases>>>;

fn worked() -> Result<Pile, Fail> {
    Reserve::new(Cap::new(Store::new(amps(32)), 6, amps(24)), 0, amps(4)).map_err(|_| Fail::new(
        "tall reserve",
    ))
}

#[test]
fn each_limit_stands_in_the_way_of_its_marks(rt: HostRuntime) -> Result<(), Fail> {
    const STEPS: [Step; 12] = [
        Step::Count(3),
        Step::Idle(true),
        Step::Whole(32),
        Step::Tall(0, 32, None),
        Step::Tall(0, 33, Some(0)),
        Step::Tall(1, 24, None),
        Step::Tall(1, 25, Some(1)),
        Step::Tall(1, 33, Some(0)),
        Step::Tall(3, 28, None),
        Step::Tall(3, 29, Some(2)),
        Step::Tall(16, 29, Some(2)),
        Step::Tall(255, 28, None),
    ];
    assert_eq!(rt; play::<Phases, Pile>(&mut worked()?, &STEPS), 12);
    Ok(())
}

#[test]
fn a_refusal_changes_nothing(rt: HostRuntime) -> Result<(), Fail> {
    const STEPS: [Step; 13] = [
        Step::Take(1, 12, None),
        Step::Take(2, 13, Some(1)),
        Step::Short(2, 13, Some(1)),
        Step::Short(2, 12, None),
        Step::Take(3, 17, Some(2)),
        Step::Short(3, 16, None),
        Step::Take(2, 21, Some(0)),
        Step::Short(0, 20, None),
        Step::Short(0, 21, Some(0)),
        Step::Idle(false),
        Step::Give(2, 13, Some(0)),
        Step::Give(1, 12, None),
        Step::Idle(true),
    ];
    assert_eq!(rt; play::<Phases, Pile>(&mut worked()?, &STEPS), 13);
    Ok(())
}

#[test]
fn a_give_is_refused_by_the_lowest_that_lacks_it(rt: HostRuntime) -> Result<(), Fail> {
    const STEPS: [Step; 8] = [
        Step::Take(0, 20, None),
        Step::Give(1, 20, Some(1)),
        Step::Give(4, 20, Some(2)),
        Step::Give(4, 21, Some(0)),
        Step::Short(0, 12, None),
        Step::Short(0, 13, Some(0)),
        Step::Give(0, 20, None),
        Step::Idle(true),
    ];
    assert_eq!(rt; play::<Phases, Pile>(&mut worked()?, &STEPS), 8);
    Ok(())
}

#[test]
fn a_trial_is_a_copy(rt: HostRuntime) -> Result<(), Fail> {
    let mut pile = worked()?;
    let mut trial = pile;
    assert_eq!(rt;
        play(&mut trial, &[Step::Take(0, 32, None), Step::Idle(false)]),
        2
    );
    assert_eq!(rt; play(&mut pile, &[Step::Idle(true)]), 1);
    Ok(())
}

#[test]
fn a_fault_travels_with_its_place(rt: HostRuntime) -> Result<(), Fail> {
    let mut pile = worked()?;
    assert_eq!(rt; taken(&mut pile, 1, amps(24)), Ok(3));
    assert_eq!(rt;
        taken(&mut pile, 2, amps(1)),
        Err(Refusal::NoRoom(LimitFault { place: 1 }))
    );
    Ok(())
}

#[test]
fn counts_end_at_65535(rt: HostRuntime) {
    const STEPS: [Step; 7] = [
        Step::Take(15, 65534, None),
        Step::Take(15, 2, Some(0)),
        Step::Take(15, 1, None),
        Step::Short(7, 1, Some(0)),
        Step::Short(7, 0, None),
        Step::Give(15, 65535, None),
        Step::Idle(true),
    ];
    let mut pile = Cap::new(Store::new(amps(65535)), 0x8001, amps(65535));
    assert_eq!(rt; play(&mut pile, &STEPS), 7);
}

#[test]
fn a_tall_reserve_hands_the_pile_back(rt: HostRuntime) -> Result<(), Fail> {
    const STEPS: [Step; 3] = [
        Step::Whole(0b1111),
        Step::Tall(2, 0b1000, Some(1)),
        Step::Tall(3, 0b1000, None),
    ];
    let made = Reserve::new(Store::new(Modules::from(0b1111)), 3, Modules::from(0b10001));
    let tall = made.err().ok_or_else(|| Fail::new("made"))?;
    assert_eq!(rt; tall.number(), 15);
    let mut pile = Reserve::new(tall.pile, 3, Modules::from(0b1000)).map_err(|_| Fail::new(
        "refused",
    ))?;
    assert_eq!(rt; play(&mut pile, &STEPS), 3);
    Ok(())
}

#[test]
fn modules_are_limited_by_name(rt: HostRuntime) {
    const STEPS: [Step; 6] = [
        Step::Take(0, 0b0001, None),
        Step::Short(0, 0b0001, Some(0)),
        Step::Short(0, 0b0100, Some(1)),
        Step::Short(1, 0b0100, None),
        Step::Give(0, 0b0010, Some(0)),
        Step::Give(0, 0b0001, None),
    ];
    let mut pile = Cap::new(Store::new(Modules::from(0b1111)), 1, Modules::from(0b0011));
    assert_eq!(rt; play(&mut pile, &STEPS), 6);
}

fn both(n: u16, names: u64) -> Pair<Phases, Modules> {
    Pair {
        left: amps(n),
        right: Modules::from(names),
    }
}

#[test]
fn pairs_go_six_layers_deep(rt: HostRuntime) -> Result<(), Fail> {
    const STEPS: [Step; 10] = [
        Step::Count(6),
        Step::Tall(200, 0xFF28, None),
        Step::Tall(201, 0xFF28, Some(4)),
        Step::Tall(15, 0x109, Some(4)),
        Step::Tall(0, 0x209, Some(5)),
        Step::Take(200, 0x109, None),
        Step::Take(200, 0x108, Some(0)),
        Step::Give(0, 0x109, Some(1)),
        Step::Give(200, 0x109, None),
        Step::Idle(true),
    ];
    let most = both(40, 0xFF);
    let small = both(9, 0b1);
    let base = Cap::new(
        Cap::new(Cap::new(Store::new(most), 1, most), 2, most),
        4,
        most,
    );
    let kept = Reserve::new(base, 200, both(8, 0b1)).map_err(|_| Fail::new("tall"))?;
    assert_eq!(rt; play(&mut Cap::new(kept, 0xFFFF, small), &STEPS), 10);
    Ok(())
}
