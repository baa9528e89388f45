//! What stands before the function, and the return type.
//!
//! Writers that differ in their literals are functions of their own, each under the name of its definition.
ghost use Rattle.text.specs.Buffer.{Wrote};
ghost use Rattle.shader.specs.Whole.{varyings_text, srgb_helper_text, front_text};

use text::{put, put_either, put_when};
use values::Variant;
use variants::bits::{Flag, has};

fn put_varyings(out: &mut [u8], at: usize, flat: bool) -> usize
    ensures { Wrote out.old at out.new result (varyings_text flat) }
{
    let mut p = put(
        out,
        at,
        b"#include <metal_stdlib>
using namespace metal;

struct Varyings {
    float4 position [[position, invariant]];
    float4 position1;
    float4 texcoord0;
    float4 texcoord1;
    float4 texcoord2;
    float4 texcoord3;
    float4 texcoord4;
    float4 texcoord5;
    float4 texcoord6;
    float4 texcoord7;
    float4 texcoord8;
    float4 texcoord9;
    float4 texcoord10;
    float4 texcoord11;
    float4 texcoord12;
    float4 texcoord13;
    float4 texcoord14;
    float4 texcoord15;
",
    );
    p = put_either(
        out,
        p,
        flat,
        b"    float4 color0 [[flat]];\n    float4 color1 [[flat]];\n",
        b"    float4 color0;\n    float4 color1;\n",
    );
    put(
        out,
        p,
        b"    float4 fog;
    float fog_z [[center_no_perspective]];
    float point_size [[point_size]];
};

",
    )
}

#[tactic(auto, unfolding(shader::specs::Whole::srgb_helper_text))]
fn put_srgb_helper(out: &mut [u8], at: usize, on: bool) -> usize
    ensures { Wrote out.old at out.new result (srgb_helper_text on) }
{
    put_when(
        out,
        at,
        on,
        b"static inline float3 mtld3d_linear_to_srgb(float3 c) {
    float3 lo = 12.92 * c;
    float3 hi = 1.055 * pow(max(c, float3(0.0)), 1.0 / 2.4) - 0.055;
    return select(hi, lo, c <= 0.0031308);
}

",
    )
}

pub fn put_front(out: &mut [u8], at: usize, v: Variant) -> usize
    ensures { Wrote out.old at out.new result (front_text v) }
{
    let mut p = put_varyings(out, at, has(v, Flag::FlatShade));
    p = put_srgb_helper(out, p, has(v, Flag::SrgbWrite));
    put_either(
        out,
        p,
        has(v, Flag::SampleMask),
        b"struct FfPsOut {
    float4 oC0 [[color(0)]];
    uint oMask [[sample_mask]];
};

fragment FfPsOut ",
        b"fragment float4 ",
    )
}
