//! Why the program ends before its work is done.

ghost use Rattle.std.specs.Prelude.{◌≡◌, ◌≢◌};
ghost use Rattle.std.specs.IoError.{error_kind};
ghost use Rattle.std.specs.declared.io.ErrorKind.TheVariants as kind;
ghost use Rattle.cli_faults.specs.declared.fault.Fault.TheVariants as fault;

use cli_io::LinesFault;
use cli_run::RunFault;
use cli_words::WordsFault;
use router_config::ConfigFault;
use std::alloc::AllocFailed;
use std::io;
use thiserror::Error;

/// A file of an import.
#[derive(Clone, Copy, Debug, Error)]
pub enum ImportFile {
    /// scionproto's topology.
    #[error("topology")]
    Topology,
    /// The master key.
    #[error("master key")]
    MasterKey,
    /// The configuration that is written.
    #[error("out")]
    Out,
}

/// Why the program ends with another status than 0. Its text follows `fault: `.
#[derive(Debug, Drop, Error)]
pub enum Fault {
    /// The command line gives no order.
    #[error(transparent)]
    Words(WordsFault),
    /// The configuration's file can't be read, or isn't UTF-8.
    #[error("file")]
    File,
    /// The configuration's file can't be read, with the system's reason.
    #[error("file: {0}")]
    Unread(io::Error),
    /// The configuration is none.
    #[error("config {number}", number = .0.number())]
    Config(ConfigFault),
    /// The configuration is none, in words: where it isn't, what is there, and what is wanted.
    #[error("config {number}: {1}", number = .0.number())]
    Told(ConfigFault, String),
    /// The routers of several configurations don't fit one another, or one of these is none; in words.
    #[error("net: {0}")]
    Net(String),
    /// Something in the configuration will hurt, and that is to be a fault.
    #[error("warnings")]
    Warned,
    /// The topology gives no configuration, in words.
    #[error("topology: {0}")]
    Topology(String),
    /// The master key is none, in words.
    #[error("master key: {0}")]
    MasterKey(&'static str),
    /// A file of an import can't be read or written, with the system's reason.
    #[error("{0}: {1}")]
    Import(ImportFile, io::Error),
    /// Where an import is to write its configuration there is something else than a regular file.
    #[error("out: it is there, and no regular file")]
    Special,
    /// There is something already by this name, under which an import is to begin its file.
    #[error("out: {0:?} already exists")]
    Exists(String),
    /// The configuration has no such link.
    #[error("link")]
    Link,
    /// The router over its sockets can't be had, or ended before its report.
    #[error(transparent)]
    Run(RunFault),
    /// The engine stopped.
    #[error(transparent)]
    Lines(LinesFault),
    /// The command line can't be had.
    #[error("input")]
    Input,
    /// No memory was left.
    #[error("memory")]
    Memory,
}

impl Fault {
    /// What an error in reading the configuration's file means.
    pub fn of_file(error: io::Error) -> Fault
        ensures memory { error_kind error ≡ kind.OutOfMemory → result ≡ fault.Memory }
        ensures file { error_kind error ≢ kind.OutOfMemory → result ≡ fault.File }
    {
        match error.kind() {
            io::ErrorKind::OutOfMemory => Fault::Memory,
            _ => Fault::File,
        }
    }

    /// The same, with the system's reason.
    pub fn of_unread(error: io::Error) -> Fault
        ensures memory { error_kind error ≡ kind.OutOfMemory → result ≡ fault.Memory }
        ensures file { error_kind error ≢ kind.OutOfMemory → result ≡ fault.Unread error }
    {
        match error.kind() {
            io::ErrorKind::OutOfMemory => Fault::Memory,
            _ => Fault::Unread(error),
        }
    }

    /// What an error in reading or writing a file of an import means.
    pub fn of_import(file: ImportFile, error: io::Error) -> Fault
        ensures memory { error_kind error ≡ kind.OutOfMemory → result ≡ fault.Memory }
        ensures file { error_kind error ≢ kind.OutOfMemory → result ≡ fault.Import file error }
    {
        match error.kind() {
            io::ErrorKind::OutOfMemory => Fault::Memory,
            _ => Fault::Import(file, error),
        }
    }

    /// What an error in making an import's new file of this name means.
    pub fn of_new(name: String, error: io::Error) -> Fault
        ensures memory { error_kind error ≡ kind.OutOfMemory → result ≡ fault.Memory }
        ensures exists { error_kind error ≡ kind.AlreadyExists → result ≡ fault.Exists name }
        ensures out { error_kind error ≢ kind.OutOfMemory → error_kind error ≢ kind.AlreadyExists → result ≡ fault.Import ImportFile.Out error }
    {
        match error.kind() {
            io::ErrorKind::OutOfMemory => Fault::Memory,
            io::ErrorKind::AlreadyExists => Fault::Exists(name),
            _ => Fault::Import(ImportFile::Out, error),
        }
    }

    /// What an error in having the command line means.
    pub fn of_words(error: io::Error) -> Fault
        ensures memory { error_kind error ≡ kind.OutOfMemory → result ≡ fault.Memory }
        ensures input { error_kind error ≢ kind.OutOfMemory → result ≡ fault.Input }
    {
        match error.kind() {
            io::ErrorKind::OutOfMemory => Fault::Memory,
            _ => Fault::Input,
        }
    }

    /// What an error in writing to the standard output means.
    pub fn of_output(_error: io::Error) -> Fault
        ensures { result ≡ fault.Lines LinesFault.Output }
    {
        Fault::Lines(LinesFault::Output)
    }
}

impl<T: Drop> From<AllocFailed<T>> for Fault {
    ghost from_gives = { λ _ told. told ≡ fault.Memory };

    fn from(_error: AllocFailed<T>) -> Fault {
        Fault::Memory
    }
}
