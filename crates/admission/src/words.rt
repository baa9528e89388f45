//! Words that no entry may be. An everyday name is told from them by its length and its first bytes.
ghost use Rattle.std.specs.Prelude.{◌≡◌, ◌<◌, ◌/◌, length};
ghost use Rattle.std.specs.List.{list_any};
ghost use Rattle.values.specs.Words.{entry_reserved, reserved_word};
ghost use Rattle.admission.specs.Patterns.{chunks, fits, fits_byte};

use values::Entry;

fn fits_byte(pattern: u8, c: u8) -> bool
    ensures { result ≡ fits_byte pattern c }
{
    ((pattern == b'#') & matches!(c, b'0'..=b'7')) | ((pattern != b'#') & (pattern == c))
}

// Whether a name fits a pattern, in which `#` stands for a digit from 0 to 7.
fn fits(pattern: &[u8], name: &[u8]) -> bool
    ensures { result ≡ fits pattern.now name.now }
{
    pattern.len() == name.len() && pattern.iter().zip(name).all(|(p, c)| fits_byte(*p, *c))
}

// Whether a name fits one of some patterns of its length, which stand behind one another. The compiler unrolls the search of such a literal; that of a
// slice of slices, which was tried, took up to six times as many steps.
fn fits_any(patterns: &[u8], name: &[u8]) -> bool
    requires { 0 < length name.now }
    ensures { result ≡ list_any (λ p. fits p name.now) (chunks (length name.now) (length patterns.now / length name.now) patterns.now) }
{
    patterns
        .chunks_exact(name.len())
        .any(|pattern| fits(pattern, name))
}

// The reserved words by their length.
fn reserved(name: &[u8]) -> bool
    ensures { result ≡ reserved_word name.now }
{
    match name.len() {
        2 => fits_any(b"int#s#if", name),
        3 => fits_any(b"oC0pc#bc#", name),
        4 => fits_any(b"tempps_cmainuint", name),
        5 => fits_any(b"fog_cfog_fsamp#proj#metalfloat", name),
        6 => fits_any(
            b"fog_dzvertexkernelstructstaticinlinereturnfloat2float3float4",
            name,
        ),
        7 => fits_any(b"currentFfPsOutsampler", name),
        8 => fits_any(
            b"in_stagefog_databump_envlod_biasVaryingsfragmentconstant",
            name,
        ),
        9 => fits_any(b"alpha_reffog_range", name),
        11 => fits_any(b"point_coord", name),
        21 => fits_any(b"mtld3d_linear_to_srgb", name),
        _ => false,
    }
}

// Whether the name, as far as its length byte goes, is a reserved word, of any entry. Not inlined beside `entry_good`, where the compiler would take the name
// apart: that took 60 steps more for an entry.
#[inline(never)]
#[tactic(auto, using(crate::proofs::Reserved::too_long))]
pub fn entry_reserved(entry: Entry) -> bool
    ensures { result ≡ entry_reserved entry }
{
    let name = entry.name.get(..entry.len as usize);
    name.is_some_and(reserved)
}
