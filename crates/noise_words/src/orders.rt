//! The commands, and why words are none.

ghost use Rattle.std.specs.Prelude.{◌≡◌};
ghost use Rattle.noise_words.specs.declared.orders.LineFault.TheVariants.{Memory};

use std::alloc::AllocError;

/// A part of a run, whose lines of a trace may be wanted alone.
#[derive(Clone, Copy, PartialEq, Eq)]
pub enum TracedPart {
    /// The start and the handshake messages.
    Handshake,
    /// The transport keys, and the messages or datagrams after the handshake.
    Transport,
}

/// A party of a run, whose lines of a trace may be wanted alone.
#[derive(Clone, Copy, PartialEq, Eq)]
pub enum TracedRole {
    /// The initiator.
    Initiator,
    /// The responder.
    Responder,
}

/// What is traced.
#[derive(Drop, PartialEq, Eq)]
pub struct Traced {
    /// The name of the vector file.
    pub file: String,
    /// The part whose lines alone are wanted, or None where those of both are.
    pub only: Option<TracedPart>,
    /// The party whose lines alone are wanted, or None where those of both are.
    pub role: Option<TracedRole>,
    /// Whether a line that names the words of the others is wanted first.
    pub heading: bool,
}

/// What is tested.
#[derive(Drop, PartialEq, Eq)]
pub struct Tested {
    /// The names of the vector files.
    pub files: Vec<String>,
    /// Whether the trace of each file that differs is wanted too.
    pub traces: bool,
}

/// What is explained.
#[derive(Drop, PartialEq, Eq)]
pub struct Explained {
    /// The names of the files.
    pub files: Vec<String>,
    /// Whether of a pattern text that can be corrected the corrected text is wanted in place of sentences.
    pub fixes: bool,
}

/// What is compared.
#[derive(Drop, PartialEq, Eq)]
pub struct Compared {
    /// The name of the log.
    pub log: String,
    /// The name of the vector file.
    pub file: String,
    /// Whether the mistakes that are known at the step are wanted too.
    pub all: bool,
}

/// A command whose result is written as a document of JSON.
#[derive(Drop, PartialEq, Eq)]
pub enum Documented {
    /// Compare a key schedule that was logged with that of a vector file.
    Compare(Compared),
}

/// What is filled in.
#[derive(Drop, PartialEq, Eq)]
pub struct Filled {
    /// The protocol name, or the name of the file with the pattern.
    pub pattern: String,
    /// The name of the file with the values.
    pub keys: String,
}

/// A command on at most one file, with its value.
#[derive(Drop, PartialEq, Eq)]
pub enum Chosen {
    /// Print the base names of the fundamental patterns.
    List,
    /// Print the pattern of this protocol name, and what each of its messages adds to a payload.
    Show(String),
    /// Check the pattern text in the file of this name.
    Check(String),
    /// Print a vector file, with placeholders for its keys, for the pattern of this protocol name, or in the file of
    /// this name.
    Template(String),
    /// Run two parties on the vector file of this name, in which they only say things to one another.
    Talk(String),
    /// Run two parties on the vector file of this name, whatever its events are.
    Replay(String),
    /// Print the version 1 vector file of this name as one of version 2 that expects what its run prints.
    Convert(String),
    /// Run two parties on a vector file as `Replay` does, and print the key schedule of each party too, or a part of
    /// it.
    Trace(Traced),
}

/// What the words of a command line ask for.
#[derive(Drop)]
pub enum Order {
    /// A command on at most one file.
    Command(Chosen),
    /// Run vector files, and compare each run with what its file expects.
    Test(Tested),
    /// Explain files, or print the corrected texts of patterns.
    Explain(Explained),
    /// Compare a key schedule that was logged with that of a vector file.
    Compare(Compared),
    /// Do this command, and write a document of JSON in place of its lines.
    Document(Documented),
    /// Print the vector file of `Template` with the values of a file in the place of its placeholders.
    Fill(Filled),
}

/// Why the words of a command line are no command.
#[derive(Drop)]
pub enum LineFault {
    /// Memory ran out.
    Memory,
    /// What `clap` says of the words. Help that they ask for comes this way too.
    Line(clap::Error),
}

impl From<AllocError> for LineFault {
    ghost from_gives = { λ _ fault. fault ≡ Memory };

    fn from(_error: AllocError) -> LineFault {
        LineFault::Memory
    }
}
