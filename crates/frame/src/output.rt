//! Specular, fog, alpha test, sRGB and the return.
//!
//! Writers that differ in their literals are functions of their own, each under the name of its definition.
ghost use Rattle.text.specs.Text.{lit, ◌⊕◌};
ghost use Rattle.text.specs.Buffer.{Wrote};
ghost use Rattle.shader.specs.Output.{specular_text, fog_depth_text, fog_factor_text, fog_text, comparison_text, test_text, srgb_text, return_text, output_text};

use combiners::codes::*;
use text::{put, put_decimal, put_either, put_when};
use values::Variant;
use variants::bits::{Flag, has, tested};

// The line of specular add, and the declaration of the colour that the later lines change.
fn put_specular(out: &mut [u8], at: usize, on: bool) -> usize
    ensures { Wrote out.old at out.new result (specular_text on ⊕ lit "    float4 oC0 = current;\n") }
{
    put_either(
        out,
        at,
        on,
        b"    current = float4(saturate(current.rgb + in.color1.rgb), current.a);
    float4 oC0 = current;
",
        b"    float4 oC0 = current;\n",
    )
}

#[tactic(auto, unfolding(shader::specs::Output::fog_depth_text))]
fn put_fog_depth(out: &mut [u8], at: usize, w: bool) -> usize
    ensures { Wrote out.old at out.new result (fog_depth_text w) }
{
    put_either(
        out,
        at,
        w,
        b"    float fog_c = 1.0 / in.position.w;\n",
        b"    float fog_c = in.fog_z + fog_data[1].w;\n",
    )
}

// The factor by the table mode: EXP, EXP2, or else linear. As of the comparisons below, an enum of the modes would be a second such match.
fn put_fog_factor(out: &mut [u8], at: usize, mode: u8) -> usize
    ensures { Wrote out.old at out.new result (fog_factor_text mode) }
{
    match mode {
        D3DFOG_EXP => put(
            out,
            at,
            b"    float fog_f = saturate(precise::exp(-fog_data[1].z * fog_c));\n",
        ),
        D3DFOG_EXP2 => put(
            out,
            at,
            b"    float fog_dz = fog_data[1].z * fog_c;
    float fog_f = saturate(precise::exp(-fog_dz * fog_dz));
",
        ),
        _ => put(
            out,
            at,
            b"    float fog_range = fog_data[1].y - fog_data[1].x;
    float fog_f = fog_range == 0.0 ? (fog_c < fog_data[1].y ? 1.0 : 0.0) : saturate((fog_data[1].y - fog_c) / fog_range);
",
        ),
    }
}

// Without a table mode, a fog mode uses the vertex factor.
#[tactic(auto, unfolding(shader::specs::Output::fog_text))]
fn put_fog(out: &mut [u8], at: usize, v: Variant) -> usize
    ensures { Wrote out.old at out.new result (fog_text v) }
{
    if v.fog_table_mode == D3DFOG_NONE {
        put_when(
            out,
            at,
            v.fog_mode != D3DFOG_NONE,
            b"    oC0 = float4(mix(fog_data[0].rgb, oC0.rgb, saturate(in.fog.x)), oC0.a);\n",
        )
    } else {
        let mut p = put_fog_depth(out, at, has(v, Flag::FogSourceW));
        p = put_fog_factor(out, p, v.fog_table_mode);
        put(
            out,
            p,
            b"    oC0 = float4(mix(fog_data[0].rgb, oC0.rgb, fog_f), oC0.a);\n",
        )
    }
}

// A code that Microsoft does not name tests true. Any byte may be one, and they are told apart here alone: an enum of them would be a second such match.
#[tactic(auto, unfolding(shader::specs::Output::comparison_text))]
fn put_comparison(out: &mut [u8], at: usize, f: u8) -> usize
    ensures { Wrote out.old at out.new result (comparison_text f) }
{
    match f {
        D3DCMP_NEVER => put(out, at, b"false"),
        D3DCMP_LESS => put(out, at, b"oC0.a < alpha_ref"),
        D3DCMP_EQUAL => put(out, at, b"oC0.a == alpha_ref"),
        D3DCMP_LESSEQUAL => put(out, at, b"oC0.a <= alpha_ref"),
        D3DCMP_GREATER => put(out, at, b"oC0.a > alpha_ref"),
        D3DCMP_NOTEQUAL => put(out, at, b"oC0.a != alpha_ref"),
        D3DCMP_GREATEREQUAL => put(out, at, b"oC0.a >= alpha_ref"),
        _ => put(out, at, b"true"),
    }
}

#[tactic(auto, unfolding(shader::specs::Output::test_text))]
fn put_test(out: &mut [u8], at: usize, v: Variant) -> usize
    ensures { Wrote out.old at out.new result (test_text v) }
{
    if tested(v) {
        let mut p = put(out, at, b"    if (!(");
        p = put_comparison(out, p, v.alpha_func);
        return put(out, p, b")) discard_fragment();\n");
    }
    at
}

#[tactic(auto, unfolding(shader::specs::Output::srgb_text))]
fn put_srgb(out: &mut [u8], at: usize, on: bool) -> usize
    ensures { Wrote out.old at out.new result (srgb_text on) }
{
    put_when(
        out,
        at,
        on,
        b"    oC0.rgb = mtld3d_linear_to_srgb(oC0.rgb);\n",
    )
}

fn put_return(out: &mut [u8], at: usize, v: Variant) -> usize
    ensures { Wrote out.old at out.new result (return_text v) }
{
    if has(v, Flag::SampleMask) {
        let mut p = put(out, at, b"    return FfPsOut { oC0, ");
        p = put_decimal(out, p, v.sample_mask as usize);
        put(out, p, b"u };\n}\n")
    } else {
        put(out, at, b"    return oC0;\n}\n")
    }
}

#[tactic(auto, using(text::proofs::Laws::joining), unfolding(shader::specs::Output::output_text))]
pub fn put_output(out: &mut [u8], at: usize, specular: bool, v: Variant) -> usize
    ensures { Wrote out.old at out.new result (output_text specular v) }
{
    let mut p = put_specular(out, at, specular);
    p = put_fog(out, p, v);
    p = put_test(out, p, v);
    p = put_srgb(out, p, has(v, Flag::SrgbWrite));
    put_return(out, p, v)
}
