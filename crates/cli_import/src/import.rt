//! The command.

ghost use Rattle.std.specs.Prelude.{ℕ, false, take, IfErr, OnOk};
ghost use Rattle.std.specs.Io.KnownBytes.{Appends};
ghost use Rattle.cli_import.specs.Faults.{IsOfFile, IsOfOut};
ghost use Rattle.cli_import.specs.Import.{Imports, ImportsFiles};

use crate::configure::configure;
use crate::out::write_out;
use cli_faults::{Fault, ImportFile};
use cli_io::send;
use cli_words::ImportWords;
use std::io::Write;
use std::rt::Files;
use std::thread::Threads;
use std::{fs, io};

/// The text of a file of the import.
fn text_in<R: Files + AllocGlobal>(rt: &R, path: &str, file: ImportFile) -> Result<String, Fault>
    ensures { IfErr result (λ told. IsOfFile file told) }
{
    match fs::read_to_string(rt, path) {
        Ok(text) => Ok(text),
        Err(error) => Err(Fault::of_import(file, error)),
    }
}

/// The text of the master key in a folder of keys.
fn master_key_in<R: Files + AllocGlobal>(rt: &R, folder: &str) -> Result<String, Fault>
    ensures { IfErr result (λ told. IsOfFile ImportFile.MasterKey told) }
{
    let Ok(path) = format!(in rt.alloc(); "{folder}/master0.key") else {
        return Err(Fault::Memory);
    };
    text_in(rt, path.as_str(), ImportFile::MasterKey)
}

/// Writes a text whole, or a beginning of it where the writer fails, and nothing else.
fn write_text<W: Write>(writer: &mut W, text: &str) -> Result<(), Fault>
    ensures written { OnOk result (Appends (W.contents writer.old) (W.contents writer.new) text.now) }
    ensures begins { (k : ℕ) × Appends (W.contents writer.old) (W.contents writer.new) (take k text.now) }
    ensures fault { IfErr result (λ told. IsOfOut false told) }
{
    match send(writer, text.as_bytes()) {
        Ok(()) => Ok(()),
        Err(fault) => Err(Fault::Lines(fault)),
    }
}

/// Makes a configuration of the texts of scionproto's topology and master key, and prints it to a
/// writer, or writes it to the file that is named for it.
///
/// What is printed is a configuration that `router check` finds good. A line on standard error
/// tells of each thing in the topology that isn't carried over, and of each that will hurt; where
/// `strict`, they are a fault, and nothing is printed. A file is written whole or not at all, and
/// its owner alone may read it.
pub fn import_texts<R, W: Write>(
    rt: &R,
    words: &ImportWords<'_>,
    topology: &str,
    master_key: &str,
    writer: &mut W,
) -> Result<(), Fault>
where
    R: Files + Eprint + AllocGlobal + Threads,
    ensures { Imports topology.now master_key.now words.now result (W.contents writer.old) (W.contents writer.new) }
{
    let made = configure(rt, words, topology, master_key)?;
    match words.out {
        Some(path) => write_out(rt, path, made.text.as_str()),
        None => write_text(writer, made.text.as_str()),
    }
}

/// Imports the texts of scionproto's topology and master key from their files, by `import_texts`, and
/// prints to standard output.
pub fn import_config<R>(rt: &R, words: &ImportWords<'_>) -> Result<(), Fault>
where
    R: Files + Print + Eprint + AllocGlobal + Threads,
    ensures { ImportsFiles words.now result }
{
    let topology = text_in(rt, words.topology, ImportFile::Topology)?;
    let master_key = master_key_in(rt, words.keys)?;
    let mut writer = io::writer(rt);
    import_texts(
        rt,
        words,
        topology.as_str(),
        master_key.as_str(),
        &mut writer,
    )
}
