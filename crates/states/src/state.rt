//! The states of a texture stage: which values each takes, and where a stage holds it.

ghost use Rattle.std.specs.Prelude.{◌≡◌};
ghost use Rattle.states.specs.Types.{Names, sets_arg0, state_number, takes};
ghost use Rattle.states.specs.States.{result_arg_of, set_stage, stage_state, with_bound, with_result};

use crate::{
    D3DTSS_ALPHAARG0, D3DTSS_ALPHAARG1, D3DTSS_ALPHAARG2, D3DTSS_ALPHAOP, D3DTSS_COLORARG0,
    D3DTSS_COLORARG1, D3DTSS_COLORARG2, D3DTSS_COLOROP, D3DTSS_RESULTARG, TEXTURE_BOUND,
};
use combiners::codes::{D3DTA_CURRENT, D3DTA_TEMP};
use values::{Refusal, Stage};

const LARGEST_BYTE: u32 = 255;

// A state, by Direct3D 9's name for it.
#[derive(Clone, Copy)]
pub(crate) enum StageState {
    ColorOp,
    ColorArg1,
    ColorArg2,
    AlphaOp,
    AlphaArg1,
    AlphaArg2,
    ColorArg0,
    AlphaArg0,
    ResultArg,
    // Our own: whether a texture is bound, which is no state in Direct3D.
    TextureBound,
}

// The state of a type's number.
impl TryFrom<u8> for StageState {
    type Error = Refusal;

    ghost try_from_gives = { Names };

    fn try_from(number: u8) -> Result<Self, Refusal> {
        match number {
            TEXTURE_BOUND => Ok(StageState::TextureBound),
            D3DTSS_COLOROP => Ok(StageState::ColorOp),
            D3DTSS_COLORARG1 => Ok(StageState::ColorArg1),
            D3DTSS_COLORARG2 => Ok(StageState::ColorArg2),
            D3DTSS_ALPHAOP => Ok(StageState::AlphaOp),
            D3DTSS_ALPHAARG1 => Ok(StageState::AlphaArg1),
            D3DTSS_ALPHAARG2 => Ok(StageState::AlphaArg2),
            D3DTSS_COLORARG0 => Ok(StageState::ColorArg0),
            D3DTSS_ALPHAARG0 => Ok(StageState::AlphaArg0),
            D3DTSS_RESULTARG => Ok(StageState::ResultArg),
            _ => Err(Refusal::StateType),
        }
    }
}

fn result_arg_of(flags: u8) -> u8
    ensures { result ≡ result_arg_of flags }
{
    if flags / 2 % 2 == 0 {
        D3DTA_CURRENT
    } else {
        D3DTA_TEMP
    }
}

// The texture's bit and the result's share a byte: each write leaves the other's bit.
fn with_bound(value: u8, flags: u8) -> u8
    ensures { result ≡ with_bound value flags }
{
    (value == 1) as u8 + 2 * (flags / 2)
}

fn with_result(value: u8, flags: u8) -> u8
    ensures { result ≡ with_result value flags }
{
    flags % 2 + (2 * ((value == D3DTA_TEMP) as u8) + 4 * (flags / 4))
}

impl StageState {
    // The states that only a key of kind 6 has.
    pub(crate) fn sets_arg0(self) -> bool
        ensures { result ≡ sets_arg0 (state_number self) }
    {
        matches!(self, StageState::ColorArg0 | StageState::AlphaArg0)
    }

    pub(crate) fn takes(self, value: u32) -> bool
        ensures { result ≡ takes (state_number self) value }
    {
        match self {
            StageState::ResultArg => (value == D3DTA_CURRENT as u32) | (value == D3DTA_TEMP as u32),
            StageState::TextureBound => (value == 0) | (value == 1),
            _ => value <= LARGEST_BYTE,
        }
    }

    #[tactic(auto, unfolding(crate::specs::States::stage_state))]
    pub(crate) fn of(self, stage: Stage) -> u8
        ensures { result ≡ stage_state (state_number self) stage }
    {
        match self {
            StageState::ColorOp => stage.colour.op,
            StageState::ColorArg1 => stage.colour.arg1,
            StageState::ColorArg2 => stage.colour.arg2,
            StageState::AlphaOp => stage.alpha.op,
            StageState::AlphaArg1 => stage.alpha.arg1,
            StageState::AlphaArg2 => stage.alpha.arg2,
            StageState::ColorArg0 => stage.colour.arg0,
            StageState::AlphaArg0 => stage.alpha.arg0,
            StageState::ResultArg => result_arg_of(stage.flags),
            StageState::TextureBound => stage.flags % 2,
        }
    }

    #[tactic(auto, unfolding(crate::specs::States::set_stage))]
    pub(crate) fn set(self, stage: Stage, value: u8) -> Stage
        ensures { result ≡ set_stage (state_number self) value stage }
    {
        let mut after = stage;
        match self {
            StageState::ColorOp => after.colour.op = value,
            StageState::ColorArg1 => after.colour.arg1 = value,
            StageState::ColorArg2 => after.colour.arg2 = value,
            StageState::AlphaOp => after.alpha.op = value,
            StageState::AlphaArg1 => after.alpha.arg1 = value,
            StageState::AlphaArg2 => after.alpha.arg2 = value,
            StageState::ColorArg0 => after.colour.arg0 = value,
            StageState::AlphaArg0 => after.alpha.arg0 = value,
            StageState::ResultArg => after.flags = with_result(value, stage.flags),
            StageState::TextureBound => after.flags = with_bound(value, stage.flags),
        }
        after
    }
}
