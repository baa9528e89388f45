//! Microsoft's codes of operations, arguments, comparisons and fog modes, by Microsoft's names.
pub const D3DTOP_DISABLE: u8 = 1;

pub const D3DTOP_SELECTARG1: u8 = 2;

pub const D3DTOP_SELECTARG2: u8 = 3;

pub const D3DTOP_MODULATE: u8 = 4;

pub const D3DTOP_MODULATE2X: u8 = 5;

pub const D3DTOP_MODULATE4X: u8 = 6;

pub const D3DTOP_ADD: u8 = 7;

pub const D3DTOP_ADDSIGNED: u8 = 8;

pub const D3DTOP_ADDSIGNED2X: u8 = 9;

pub const D3DTOP_SUBTRACT: u8 = 10;

pub const D3DTOP_ADDSMOOTH: u8 = 11;

pub const D3DTOP_BLENDDIFFUSEALPHA: u8 = 12;

pub const D3DTOP_BLENDTEXTUREALPHA: u8 = 13;

pub const D3DTOP_BLENDFACTORALPHA: u8 = 14;

pub const D3DTOP_BLENDTEXTUREALPHAPM: u8 = 15;

pub const D3DTOP_BLENDCURRENTALPHA: u8 = 16;

pub const D3DTOP_PREMODULATE: u8 = 17;

pub const D3DTOP_MODULATEALPHA_ADDCOLOR: u8 = 18;

pub const D3DTOP_MODULATECOLOR_ADDALPHA: u8 = 19;

pub const D3DTOP_MODULATEINVALPHA_ADDCOLOR: u8 = 20;

pub const D3DTOP_MODULATEINVCOLOR_ADDALPHA: u8 = 21;

pub const D3DTOP_BUMPENVMAP: u8 = 22;

pub const D3DTOP_BUMPENVMAPLUMINANCE: u8 = 23;

pub const D3DTOP_DOTPRODUCT3: u8 = 24;

pub const D3DTOP_MULTIPLYADD: u8 = 25;

pub const D3DTOP_LERP: u8 = 26;

// The selector of an argument is its low four bits, one of sixteen.
pub const SELECTORS: u8 = 16;

pub const D3DTA_DIFFUSE: u8 = 0;

pub const D3DTA_CURRENT: u8 = 1;

pub const D3DTA_TEXTURE: u8 = 2;

pub const D3DTA_TFACTOR: u8 = 3;

pub const D3DTA_SPECULAR: u8 = 4;

pub const D3DTA_TEMP: u8 = 5;

pub const D3DTA_CONSTANT: u8 = 6;

pub const D3DTA_COMPLEMENT: u8 = 16;

pub const D3DTA_ALPHAREPLICATE: u8 = 32;

pub const D3DCMP_NEVER: u8 = 1;

pub const D3DCMP_LESS: u8 = 2;

pub const D3DCMP_EQUAL: u8 = 3;

pub const D3DCMP_LESSEQUAL: u8 = 4;

pub const D3DCMP_GREATER: u8 = 5;

pub const D3DCMP_NOTEQUAL: u8 = 6;

pub const D3DCMP_GREATEREQUAL: u8 = 7;

pub const D3DCMP_ALWAYS: u8 = 8;

pub const D3DFOG_NONE: u8 = 0;

pub const D3DFOG_EXP: u8 = 1;

pub const D3DFOG_EXP2: u8 = 2;
