//! How a stage reads its texture, and the texture's type. As of `bit`, any byte may stand for the stage.
ghost use Rattle.std.specs.Prelude.{◌≡◌};
ghost use Rattle.shader.specs.Lookups.{lookup_of, texture_type_of};

use crate::bits::bit;
use shader::{Lookup, TextureType};
use values::Variant;

// The first that applies: fetch4, depth fetch, depth compare, plain.
#[tactic(auto, unfolding(shader::specs::Lookups::lookup_of))]
pub fn lookup_of(v: Variant, i: u8) -> Lookup
    ensures { result ≡ lookup_of v i }
{
    let depth = bit(v.depth_sampler, i);
    if bit(v.fetch4, i) {
        Lookup::Fetch4 {
            alpha: !depth && bit(v.fetch4_alpha, i),
        }
    } else if bit(v.depth_fetch, i) {
        Lookup::DepthFetch {
            red: bit(v.raw_depth_red, i),
        }
    } else if depth {
        Lookup::DepthCompare
    } else {
        Lookup::Plain {
            three: bit(v.volume, i) || bit(v.cube, i),
        }
    }
}

// The first that applies: depth, volume, cube, flat.
#[tactic(auto, unfolding(shader::specs::Lookups::texture_type_of))]
pub fn texture_type_of(v: Variant, i: u8) -> TextureType
    ensures { result ≡ texture_type_of v i }
{
    if bit(v.depth_sampler, i) {
        TextureType::Depth
    } else if bit(v.volume, i) {
        TextureType::Volume
    } else if bit(v.cube, i) {
        TextureType::Cube
    } else {
        TextureType::Flat
    }
}
