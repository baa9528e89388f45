//! What shapes a lookup, with the definition of the text, of what is answered and of the listed names, and what is proved of them: no code.
#![tactic(auto)]

use values::StageIndex;

// A coordinate of a stage: as interpolated, divided by its w, displaced by the stage before, or divided for a depth comparison.
#[derive(Clone, Copy)]
pub enum Coordinate {
    Interpolated,
    Divided,
    Displaced,
    Projected,
}

// How a stage reads its texture: fetch4, of alpha or not; a depth fetch, of red alone or not; a depth comparison; or plainly, with three
// coordinates or two.
#[derive(Clone, Copy)]
pub enum Lookup {
    Fetch4 { alpha: bool },
    DepthFetch { red: bool },
    DepthCompare,
    Plain { three: bool },
}

#[derive(Clone, Copy)]
pub enum TextureType {
    Depth,
    Volume,
    Cube,
    Flat,
}

// The lookup of a stage: how the texture is read, whether the level of detail is biased, and whether the coordinate is divided by its w.
#[derive(Clone, Copy)]
pub struct Sampling {
    pub stage: StageIndex,
    pub lookup: Lookup,
    pub lod: bool,
    pub projected: bool,
}

// A bump stage, before the stage whose lookup it displaces if it has a texture, and scales if it has luminance.
#[derive(Clone, Copy)]
pub struct BumpStage {
    pub stage: StageIndex,
    pub textured: bool,
    pub luminance: bool,
}
