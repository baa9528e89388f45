//! The parameters of the function, and what its body begins with.
//!
//! Writers that differ in their literals are functions of their own, each under the name of its definition.
ghost use Rattle.text.specs.Text.{bytes, lit, when, ◌⊕◌};
ghost use Rattle.text.specs.Marks.{numbered};
ghost use Rattle.text.specs.Buffer.{Wrote};
ghost use Rattle.cascade.specs.Keys.{active};
ghost use Rattle.shader.specs.Lookups.{type_text};
ghost use Rattle.shader.specs.Whole.{stage_in_text, texture_parameter, sampler_parameter, samplers_text, parameters_text, sprite_text, locals_text};

use cascade::keys::textured;
use cascade::surveyed::Surveyed;
use shader::TextureType;
use text::{put, put_either, put_when};
use values::staged::put_staged;
use values::{StageIndex, Variant};
use variants::bits::{Flag, fogged, has, tested};
use variants::kinds::texture_type_of;

// The parameters up to the constants.
fn put_stage_in(out: &mut [u8], at: usize, sprite: bool) -> usize
    ensures { Wrote out.old at out.new result (stage_in_text sprite ⊕ lit "    constant float4 *ps_c [[buffer(15)]]") }
{
    put_either(
        out,
        at,
        sprite,
        b"(
    Varyings in_stage [[stage_in]],
    float2 point_coord [[point_coord]],
    constant float4 *ps_c [[buffer(15)]]",
        b"(\n    Varyings in [[stage_in]],\n    constant float4 *ps_c [[buffer(15)]]",
    )
}

// The parameter of stage i's texture.
fn put_texture(out: &mut [u8], at: usize, t: TextureType, i: StageIndex) -> usize
    ensures { Wrote out.old at out.new result (lit ",\n    " ⊕ type_text t ⊕ numbered i (bytes " s# [[texture(#)]]")) }
{
    match t {
        TextureType::Depth => put_staged(out, at, b",\n    depth2d<float> s# [[texture(#)]]", i),
        TextureType::Volume => put_staged(out, at, b",\n    texture3d<float> s# [[texture(#)]]", i),
        TextureType::Cube => put_staged(out, at, b",\n    texturecube<float> s# [[texture(#)]]", i),
        TextureType::Flat => put_staged(out, at, b",\n    texture2d<float> s# [[texture(#)]]", i),
    }
}

// The parameters of stage i's texture and sampler.
fn put_sampler(out: &mut [u8], at: usize, there: bool, v: Variant, i: StageIndex) -> usize
    ensures { Wrote out.old at out.new result (when there (texture_parameter v i ⊕ sampler_parameter i)) }
{
    if there {
        let p = put_texture(out, at, texture_type_of(v, i.number()), i);
        return put_staged(out, p, b",\n    sampler samp# [[sampler(#)]]", i);
    }
    at
}

#[tactic(auto, unfolding(shader::specs::Whole::sprite_text, shader::specs::Whole::sprite_line))]
pub fn put_sprite(out: &mut [u8], at: usize, sprite: bool) -> usize
    ensures { Wrote out.old at out.new result (sprite_text sprite) }
{
    put_when(
        out,
        at,
        sprite,
        b"    Varyings in = in_stage;
    in.texcoord0 = float4(point_coord.x, point_coord.y, 0.0, 0.0);
    in.texcoord1 = float4(point_coord.x, point_coord.y, 0.0, 0.0);
    in.texcoord2 = float4(point_coord.x, point_coord.y, 0.0, 0.0);
    in.texcoord3 = float4(point_coord.x, point_coord.y, 0.0, 0.0);
    in.texcoord4 = float4(point_coord.x, point_coord.y, 0.0, 0.0);
    in.texcoord5 = float4(point_coord.x, point_coord.y, 0.0, 0.0);
    in.texcoord6 = float4(point_coord.x, point_coord.y, 0.0, 0.0);
    in.texcoord7 = float4(point_coord.x, point_coord.y, 0.0, 0.0);
",
    )
}

#[tactic(auto, using(crate::proofs::Parts::declared))]
pub fn put_locals(out: &mut [u8], at: usize, alive: bool) -> usize
    ensures { Wrote out.old at out.new result (locals_text alive) }
{
    put_either(
        out,
        at,
        alive,
        b"    float4 current = in.color0;\n    float4 temp = float4(0.0);\n",
        b"    float4 current = in.color0;\n",
    )
}

// A texture and a sampler for each stage with a texture.
fn put_samplers(out: &mut [u8], at: usize, s: &Surveyed, v: Variant) -> usize
    ensures { Wrote out.old at out.new result (samplers_text v 0 (active s.now.key.stages)) }
{
    let mut p = at;
    for (i, stage) in s.active().iter().enumerate() {
        p = put_sampler(out, p, textured(*stage), v, StageIndex::new(i as u8));
    }
    p
}

pub fn put_parameters(out: &mut [u8], at: usize, s: &Surveyed, v: Variant) -> usize
    ensures { Wrote out.old at out.new result (parameters_text v (active s.now.key.stages)) }
{
    let mut p = put_stage_in(out, at, has(v, Flag::PointSprite));
    p = put_when(
        out,
        p,
        tested(v),
        b",\n    constant float &alpha_ref [[buffer(14)]]",
    );
    p = put_when(
        out,
        p,
        fogged(v),
        b",\n    constant float4 *fog_data [[buffer(13)]]",
    );
    p = put_when(
        out,
        p,
        s.survey.bump_env,
        b",\n    constant float4 *bump_env [[buffer(12)]]",
    );
    p = put_when(
        out,
        p,
        has(v, Flag::LodBias),
        b",\n    constant float4 *lod_bias [[buffer(11)]]",
    );
    p = put_samplers(out, p, s, v);
    put(out, p, b"\n) {\n")
}
