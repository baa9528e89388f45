//! Texture stage states: the key that Direct3D starts from, and writes that alter a key.
#![tactic(auto)]

ghost use Rattle.std.specs.Prelude.{◌≡◌, cond, Ok, Err, MatchResult};
ghost use Rattle.values.specs.Kinds.{seven_bytes, three_bytes};
ghost use Rattle.values.specs.Refusals.{answer_number};
ghost use Rattle.states.specs.Types.{sets_arg0, state_number};
ghost use Rattle.states.specs.States.{default_combiner, default_stage, defaults, set_stage, stages_for, wide_stages};
ghost use Rattle.states.specs.Writes.{checked_write, got_state, state_write_number, write_applied};

mod state;

use combiners::codes::*;
use state::StageState;
use values::{Combiner, Key, Refusal, STAGES, Stage, StateWrite};

// The types of states, by Direct3D 9's names and numbers.
pub const D3DTSS_COLOROP: u8 = 1;

pub const D3DTSS_COLORARG1: u8 = 2;

pub const D3DTSS_COLORARG2: u8 = 3;

pub const D3DTSS_ALPHAOP: u8 = 4;

pub const D3DTSS_ALPHAARG1: u8 = 5;

pub const D3DTSS_ALPHAARG2: u8 = 6;

pub const D3DTSS_COLORARG0: u8 = 26;

pub const D3DTSS_ALPHAARG0: u8 = 27;

pub const D3DTSS_RESULTARG: u8 = 28;

// Our own type: whether a texture is bound, which is no state in Direct3D.
pub const TEXTURE_BOUND: u8 = 0;

const LAST_STAGE: u8 = STAGES as u8 - 1;

// What an argument 0 is where nothing has written it.
pub const DEFAULT_ARG0: u8 = D3DTA_CURRENT;

// The types that only a key of kind 6 has. Here and below a type is a number, so that any byte may be asked.
pub fn sets_arg0(state: u8) -> bool
    ensures { result ≡ sets_arg0 state }
{
    match StageState::try_from(state) {
        Ok(state) => state.sets_arg0(),
        Err(_) => false,
    }
}

// The state that a write is to, if the write is accepted: its stage is looked at first, then its type, then its value.
#[tactic(auto, unfolding(crate::specs::Writes::checked_write))]
fn checked_state(write: StateWrite) -> Result<StageState, Refusal>
    ensures { MatchResult result (λ s. (state_number s ≡ write.state) × (checked_write write ≡ Ok tt)) (λ c. checked_write write ≡ Err c) }
{
    if LAST_STAGE < write.stage {
        return Err(Refusal::StageNumber);
    }
    let state = StageState::try_from(write.state)?;
    if !state.takes(write.value) {
        return Err(Refusal::StateValue);
    }
    Ok(state)
}

// Whether a write is accepted.
#[tactic(auto, using(crate::proofs::Accepted::accepted_number, crate::proofs::Accepted::refused_number))]
pub fn check(write: StateWrite) -> Result<(), Refusal>
    ensures answer { result ≡ checked_write write }
    ensures number { answer_number result ≡ state_write_number write }
{
    checked_state(write)?;
    Ok(())
}

// Direct3D's defaults are no zeros, so no `Default` gives them.
fn default_combiner(op: u8) -> Combiner
    ensures { result ≡ default_combiner op }
{
    Combiner {
        op,
        arg1: D3DTA_TEXTURE,
        arg2: D3DTA_CURRENT,
        arg0: DEFAULT_ARG0,
    }
}

fn default_stage(colour_op: u8, alpha_op: u8) -> Stage
    ensures { result ≡ default_stage colour_op alpha_op }
{
    Stage {
        colour: default_combiner(colour_op),
        alpha: default_combiner(alpha_op),
        flags: 0,
    }
}

// The key before any write.
#[tactic(auto, unfolding(crate::specs::States::defaults))]
pub fn defaults() -> Key
    ensures { result ≡ defaults }
{
    let mut stages = [default_stage(D3DTOP_DISABLE, D3DTOP_DISABLE); 8];
    stages[0] = default_stage(D3DTOP_MODULATE, D3DTOP_SELECTARG1);
    Key {
        stages,
        specular_add: false,
        projected: 0,
        wide: false,
    }
}

// What the bytes of kind 1 say of a combiner, and of a stage: the default stands for the arguments 0.
fn three_bytes(c: Combiner) -> Combiner
    ensures { result ≡ three_bytes c }
{
    Combiner {
        arg0: DEFAULT_ARG0,
        ..c
    }
}

fn seven_bytes(s: Stage) -> Stage
    ensures { result ≡ seven_bytes s }
{
    Stage {
        colour: three_bytes(s.colour),
        alpha: three_bytes(s.alpha),
        ..s
    }
}

// A stage of a key as one of kind 6. What a kind 1 key has in the place of an argument 0 does not count.
fn wide_stage(s: Stage, wide: bool) -> Stage
    ensures { result ≡ cond wide s (seven_bytes s) }
{
    if wide { s } else { seven_bytes(s) }
}

// Of the shape of cascade's `effective_stages`. One function of both would take the map as a closure, with a clause on it at each call.
#[tactic(auto, unfolding(crate::specs::States::wide_stages))]
fn wide_stages(key: Key) -> [Stage; 8]
    ensures { result ≡ wide_stages key }
{
    if key.wide {
        key.stages
    } else {
        key.stages.map(seven_bytes)
    }
}

// What a key holds for a stage and a type.
#[tactic(auto, unfolding(crate::specs::Writes::got_state))]
pub fn get(key: Key, stage: u8, state: u8) -> Result<u8, Refusal>
    ensures { result ≡ got_state key stage state }
{
    if LAST_STAGE < stage {
        return Err(Refusal::StageNumber);
    }
    let state = StageState::try_from(state)?;
    let held = wide_stage(key.stages[stage as usize], key.wide);
    Ok(state.of(held))
}

// A stage with a value for a type. A number that is no type leaves the stage as it is.
pub fn set_stage(stage: Stage, state: u8, value: u8) -> Stage
    ensures { result ≡ set_stage state value stage }
{
    match StageState::try_from(state) {
        Ok(state) => state.set(stage, value),
        Err(_) => stage,
    }
}

// The stages that a write alters: a write of an argument 0 turns the key to kind 6.
fn stages_for(state: StageState, key: Key) -> [Stage; 8]
    ensures { result ≡ stages_for (state_number state) key }
{
    if state.sets_arg0() {
        wide_stages(key)
    } else {
        key.stages
    }
}

// The key after a write. A write that `check` refuses leaves the key as it is.
#[tactic(auto, using(crate::proofs::Accepted::accepted_stage, crate::proofs::Accepted::accepted_value))]
pub fn set(key: Key, write: StateWrite) -> Key
    ensures { result ≡ write_applied write key }
{
    let Ok(state) = checked_state(write) else {
        return key;
    };
    let i = write.stage as usize;
    let mut stages = stages_for(state, key);
    stages[i] = state.set(stages[i], write.value as u8);
    Key {
        stages,
        wide: key.wide | state.sets_arg0(),
        ..key
    }
}
