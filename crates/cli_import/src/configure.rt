//! From the texts of the files to the configuration, with what is told on the way.

ghost use Rattle.std.specs.Prelude.{◌≡◌, ◌&&◌, ◌||◌, IfErr, IfOk, Some, None, Ok, Err, true, false, [], ⊤};
ghost use Rattle.serde_json.specs.Read.{read};
ghost use Rattle.serde_json.specs.View.{view};
ghost use Rattle.cli_faults.specs.declared.fault.Fault.TheVariants as fault;
ghost use Rattle.cli_import.specs.Faults.{IsOfTopology};
ghost use Rattle.cli_import.specs.Import.{IsMadeOf, NotMade};

use crate::imported::{Imported, import_topology};
use crate::made::Made;
use crate::master_key::key_of;
use cli_check::tell_warnings;
use cli_faults::Fault;
use cli_words::ImportWords;
use serde_json::Value;
use std::alloc::Global;
use std::thread::Threads;
use topology::LeftOut;

/// The fault of a text that isn't JSON.
fn not_json(alloc: Global, error: &serde_json::Error) -> Fault
    ensures { IsOfTopology ⊤ result }
{
    match format!(in alloc; "not JSON: {error}") {
        Ok(words) => Fault::Topology(words),
        Err(_) => Fault::Memory,
    }
}

/// The JSON value that a text is.
fn value_of(alloc: Global, text: &str) -> Result<Value, Fault>
    ensures read { IfOk result (λ value. read text.now ≡ Some (view value)) }
    ensures fault { IfErr result (λ told. IsOfTopology (read text.now ≡ None) told) }
{
    match Value::from_str(alloc, text) {
        Ok(value) => Ok(value),
        Err(error) if error.is_memory() => Err(Fault::Memory),
        Err(error) => Err(not_json(alloc, &error)),
    }
}

/// Tells what isn't carried over, by a line each. Whether there is anything.
fn tell_left_out<R: Eprint>(rt: &R, list: &[LeftOut<'_>]) -> bool
    ensures { result ≡ false → list.now ≡ [] }
{
    for left_out in list {
        let _ = eprintln!(rt; "warning: {left_out}");
    }
    !list.is_empty()
}

/// What comes of an import of which this was told: a fault, where anything that is told is one.
fn verdict_of(is_left_out: bool, is_warned: bool, strict: bool) -> Result<(), Fault>
    ensures warned { ((is_left_out || is_warned) && strict) ≡ true → result ≡ Err fault.Warned }
    ensures good { ((is_left_out || is_warned) && strict) ≡ false → result ≡ Ok tt }
    ensures silent { IfOk result (λ _. strict ≡ true → (is_left_out ≡ false) × (is_warned ≡ false)) }
    ensures strict { IfErr result (λ told. (told ≡ fault.Warned) × (strict ≡ true)) }
{
    if (is_left_out || is_warned) && strict {
        Err(Fault::Warned)
    } else {
        Ok(())
    }
}

/// The configuration that the texts of a topology and of a master key give to a router. A line on
/// standard error tells of each thing that isn't carried over, or will hurt; where `strict`, they
/// are a fault.
pub(crate) fn configure<R>(
    rt: &R,
    words: &ImportWords<'_>,
    topology: &str,
    master_key: &str,
) -> Result<Made, Fault>
where
    R: Eprint + AllocGlobal + Threads,
    ensures made { IfOk result (λ made. IsMadeOf topology.now master_key.now words.now made) }
    ensures fault { IfErr result (λ told. NotMade topology.now master_key.now words.now told) }
{
    let alloc = rt.alloc();
    let key = key_of(alloc, master_key)?;
    let value = value_of(alloc, topology)?;
    let Imported { made, left_out } = import_topology(
        alloc,
        &value,
        words.border_router,
        &key,
        words.port_range,
    )?;
    let is_left_out = tell_left_out(rt, left_out.as_slice());
    let is_warned = tell_warnings(rt, &made.config, made.text.as_str())?;
    verdict_of(is_left_out, is_warned, words.strict)?;
    Ok(made)
}
