//! What will hurt, in lines on standard error.

ghost use Rattle.std.specs.Prelude.{◌≡◌, ℕ, IfErr, IfOk, [], false};
ghost use Rattle.cli_faults.specs.declared.fault.Fault.TheVariants.{Memory};
ghost use Rattle.config_warnings.specs.Warnings.{warnings_of};

use cli_faults::Fault;
use config_warnings::{strays_in, warnings_of};
use process_packet::Config;
use std::thread;
use std::thread::Threads;

/// How many cores the machine has; where it doesn't tell, as many as there may be processors.
fn cores_of<R: Threads>(rt: &R) -> usize {
    match thread::available_parallelism(rt) {
        Ok(cores) => cores.get(),
        Err(_) => 16,
    }
}

/// Tells of the values that will hurt. Whether there are any.
fn tell_values<R: Eprint + AllocGlobal + Threads>(rt: &R, config: &Config) -> Result<bool, Fault>
    ensures told { IfOk result (λ is_told. is_told ≡ false → (cores : ℕ) × (warnings_of config.now cores ≡ [])) }
    ensures fault { IfErr result (λ fault. fault ≡ Memory) }
{
    let Ok(list) = warnings_of(rt.alloc(), config, cores_of(rt)) else {
        return Err(Fault::Memory);
    };
    for warning in list.iter() {
        let _ = eprintln!(rt; "warning: {warning}");
    }
    Ok(!list.is_empty())
}

/// Tells of the keys that aren't read. Whether there are any.
fn tell_keys<R: Eprint + AllocGlobal>(rt: &R, text: &str) -> Result<bool, Fault>
    ensures { IfErr result (λ fault. fault ≡ Memory) }
{
    let Ok(table) = toml::table_from_str(rt.alloc(), text) else {
        return Err(Fault::Memory);
    };
    let Ok(list) = strays_in(rt.alloc(), &table) else {
        return Err(Fault::Memory);
    };
    for stray in list.iter() {
        let _ = eprintln!(rt; "warning: {stray}");
    }
    Ok(!list.is_empty())
}

/// Tells of all that will hurt in a good configuration and its text. Whether there is anything.
pub fn tell_warnings<R: Eprint + AllocGlobal + Threads>(
    rt: &R,
    config: &Config,
    text: &str,
) -> Result<bool, Fault>
    ensures told { IfOk result (λ is_told. is_told ≡ false → (cores : ℕ) × (warnings_of config.now cores ≡ [])) }
    ensures fault { IfErr result (λ fault. fault ≡ Memory) }
{
    let is_key = tell_keys(rt, text)?;
    let is_value = tell_values(rt, config)?;
    Ok(is_key || is_value)
}
