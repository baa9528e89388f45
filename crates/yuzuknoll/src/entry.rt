//! An entry looked over while someone types it, a byte of its body at a time.
ghost use Rattle.std.specs.Prelude.{◌≡◌, cond};
ghost use Rattle.admission.specs.Pass.{possible_in, started, pass_stepped};
ghost use Rattle.yuzuknoll.specs.Entries.{pass_of, state_of};

use admission::Pass;

// The state that three numbers stand for. The C interface keeps them as numbers, and any three are a state: each counts modulo 256.
fn pass_of(state: &[u64; 3]) -> Pass
    ensures { result ≡ pass_of state.now }
{
    Pass {
        taken: (state[0] % 256) as u8,
        length: (state[1] % 256) as u8,
        wrong: (state[2] % 256) as u8,
    }
}

fn report(pass: Pass, state: &mut [u64; 3])
    ensures { state.new ≡ state_of pass }
{
    *state = [pass.taken as u64, pass.length as u64, pass.wrong as u64];
}

// The state before the first byte.
#[unsafe(no_mangle)]
pub extern "C" fn yuzuknoll_entry_start(state: &mut [u64; 3])
    ensures { state.new ≡ state_of started }
{
    report(Pass::new(), state);
}

// The state behind one byte more.
#[unsafe(no_mangle)]
pub extern "C" fn yuzuknoll_entry_step(state: &mut [u64; 3], byte: u8)
    ensures { state.new ≡ state_of (pass_stepped (pass_of state.old) byte) }
{
    report(pass_of(state).step(byte), state);
}

// 1 where some entry's body begins with the bytes taken, else 0.
#[unsafe(no_mangle)]
pub extern "C" fn yuzuknoll_entry_possible(state: &[u64; 3]) -> u64
    ensures { result ≡ cond (possible_in (pass_of state.now)) 1 0 }
{
    u64::from(pass_of(state).is_possible())
}
