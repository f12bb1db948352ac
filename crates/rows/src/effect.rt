ghost use Rattle.std.specs.Prelude.{◌≡◌};
ghost use Rattle.rows.specs.Effects.{turned};

use crate::refusal::Refusal;
use crate::row::RowState;

// The calls that change a bay, by their tags.
#[derive(Clone, Copy, Debug, Eq, PartialEq)]
pub enum RowCall {
    Open,
    Ask,
    Confirm,
    Withdraw,
    Give,
    End,
}

// What each call makes of a bay in each state: its one effect, or its refusal.
pub fn turn(state: RowState, call: RowCall) -> Result<RowState, Refusal>
    ensures { result ≡ turned state call }
{
    match (state, call) {
        (RowState::Empty, RowCall::Open) => Ok(RowState::AtRest),
        (RowState::Empty, RowCall::Ask | RowCall::Give | RowCall::End) => Err(Refusal::Empty),
        (RowState::Empty, RowCall::Confirm | RowCall::Withdraw) => Err(Refusal::WrongSlip),
        (RowState::AtRest, RowCall::Open) => Err(Refusal::Taken),
        (RowState::AtRest, RowCall::Ask) => Ok(RowState::Moving),
        (RowState::AtRest, RowCall::Confirm | RowCall::Withdraw) => Err(Refusal::WrongSlip),
        (RowState::AtRest, RowCall::Give) => Ok(RowState::AtRest),
        (RowState::AtRest, RowCall::End) => Ok(RowState::Empty),
        (RowState::Moving, RowCall::Confirm | RowCall::Withdraw) => Ok(RowState::AtRest),
        (RowState::Moving, RowCall::Open | RowCall::Ask | RowCall::Give | RowCall::End) => Err(
            Refusal::Moving,
        ),
    }
}
