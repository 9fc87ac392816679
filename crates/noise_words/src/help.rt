//! The subcommands that have a value, their options and flags, and the texts of their help.

/// A subcommand that has a value, and what its help says.
#[derive(Clone, Copy)]
pub struct Subcommand<'a> {
    /// Its name.
    pub name: &'a str,
    /// The name of its value.
    pub value: &'a str,
    /// Whether it takes more values than one.
    pub several: bool,
    /// What it does.
    pub about: &'a str,
    /// What its value is.
    pub meaning: &'a str,
    /// An example, after the rest.
    pub example: &'a str,
}

// What the placeholders of a template stand for, and the lines of a file with values for them.
const TEMPLATE_HELP: &str = "\
Replace the digits of each placeholder wherever they stand, or give KEYS, a file with a line for each:
  e1e1..  initiator e = HEX, its ephemeral public key    5151..  initiator s = HEX, its static one
  e2e2..  responder e = HEX                              5252..  responder s = HEX
  eeee..  dh ee = HEX, the result of DH at ee; e5e5.. dh es, 5e5e.. dh se, 5555.. dh ss
  a0a0..  psk 0 = HEX, the pre-shared key of psk0; a1a1.. psk 1, up to a8a8.. psk 8
  -       prologue = HEX; and payload 1 = HEX of message 1, and so on

Example: noise template XXpsk3";

const CHECK_HELP: &str = "\
The exit status is 0 if the pattern is valid, 1 if it breaks a rule, 2 if its text is wrong, and 3 if the file can't be
read.

Example: noise check examples/patterns/ikpsk2.pattern";

const EXPLAIN_HELP: &str = "\
The exit status is the greatest of those of the files: 0 of a right one, 1 of a pattern that breaks a rule or of parties
that can't begin, 2 of a wrong text, and 3 of a file that can't be read.

Example: noise explain examples/patterns/broken.pattern";

const TEST_HELP: &str = "\
The exit status is 0 if all files passed, 1 if one didn't, 2 if the command line is wrong, and 3 if the output can't be
written.

Example: noise test examples/vectors/xx.vector examples/vectors/ik.vector";

const COMPARE_HELP: &str = "\
The exit status is 0 if the log agrees, 1 if a line of it differs or it ends too early, 2 if the log or the vector file
is wrong, and 3 if one can't be read.

Example: noise compare yours.log examples/vectors/xx.vector";

/// The subcommands that have a pattern.
pub const OF_PATTERNS: [Subcommand<'static>; 2] = [
    Subcommand {
        name: "show",
        value: "NAME",
        several: false,
        about: "Print the pattern of a protocol name, and how many bytes each message adds",
        meaning: "A pattern name, as XXpsk3, or a protocol name, as Noise_XXpsk3_25519_ChaChaPoly_SHA256",
        example: "Example: noise show XXpsk3",
    },
    Subcommand {
        name: "check",
        value: "FILE",
        several: false,
        about: "Say whether the pattern in a file is valid, and how many bytes each message adds",
        meaning: "A file with the text of a pattern, - for standard input, or a pattern name, as XX, where no such \
                  file can be read",
        example: CHECK_HELP,
    },
];

/// The subcommand of patterns and vector files that has several values and a flag.
pub const EXPLAIN: Subcommand<'static> = Subcommand {
    name: "explain",
    value: "FILE",
    several: true,
    about: "Say in sentences what is wrong with a pattern or a vector file, and what follows from it",
    meaning: "Files with the text of a pattern, vector files, - for standard input, and pattern names, as XX",
    example: EXPLAIN_HELP,
};

/// The subcommands that have the name of a vector file.
pub const OF_VECTORS: [Subcommand<'static>; 3] = [
    Subcommand {
        name: "talk",
        value: "FILE",
        several: false,
        about: "Run two parties on a vector file and print what each writes and reads",
        meaning: "A vector file whose events are all say; lines that it expects are compared",
        example: "Example: noise talk examples/vectors/first-message.vector",
    },
    Subcommand {
        name: "replay",
        value: "FILE",
        several: false,
        about: "Run two parties on a vector file whose frames may be lost, repeated or foreign",
        meaning: "A vector file with events of all kinds, and datagrams; lines that it expects are compared",
        example: "Example: noise replay examples/vectors/each-outcome.vector",
    },
    Subcommand {
        name: "convert",
        value: "FILE",
        several: false,
        about: "Print a version 1 vector file as one of version 2 that expects what its run prints",
        meaning: "A vector file of version 1",
        example: "Example: noise convert examples/vectors/first-message.vector",
    },
];

/// The subcommand that has a second value, which may be left out: the first.
pub const TEMPLATE: Subcommand<'static> = Subcommand {
    name: "template",
    value: "NAME|FILE",
    several: false,
    about: "Print a vector file with the lines that a pattern needs, and a placeholder for each key",
    meaning: "A protocol name, a file with the text of a pattern, or a pattern name, as XXpsk3",
    example: TEMPLATE_HELP,
};

/// The subcommand that has several values and a flag.
pub const TEST: Subcommand<'static> = Subcommand {
    name: "test",
    value: "FILE",
    several: true,
    about: "Run vector files and say of each whether its run is what it expects",
    meaning: "Vector files of version 2 with expect lines, - for standard input; of a frame that differs the piece is \
              named",
    example: TEST_HELP,
};

/// The subcommand that has a value, options and a flag.
pub const TRACE: Subcommand<'static> = Subcommand {
    name: "trace",
    value: "FILE",
    several: false,
    about: "Run two parties as replay does and print the key schedule of each: what it prints are secrets",
    meaning: "A vector file as replay takes it, with keys that are for tests alone",
    example: "Example: noise trace --role responder examples/vectors/nnpsk2.vector",
};

/// The subcommand that has two values and two flags: the first.
pub const COMPARE: Subcommand<'static> = Subcommand {
    name: "compare",
    value: "LOG",
    several: false,
    about: "Print the first line of a logged key schedule that differs from that of a vector file, \
            and the mistakes that give its values, or what these show: what it prints are secrets",
    meaning: "Lines of a key schedule in the form of trace, logged by another implementation, - for standard input",
    example: COMPARE_HELP,
};

/// An option that has a value, and what its help says.
#[derive(Clone, Copy)]
pub struct ValueOption<'a> {
    /// Its name.
    pub name: &'a str,
    /// What help calls its value.
    pub value: &'a str,
    /// What it does, by its values.
    pub meaning: &'a str,
}

/// An option without a value, and what its help says.
#[derive(Clone, Copy)]
pub struct Flag<'a> {
    /// Its name.
    pub name: &'a str,
    /// What it does.
    pub meaning: &'a str,
}

/// Whether the trace of each file that differs is printed.
pub const TRACES: Flag<'static> = Flag {
    name: "trace",
    meaning: "Print the trace of each file that differs, up to the line that differs: what it prints are secrets",
};

/// Whether the mistakes that are known at the step that differs are printed.
pub const ALL: Flag<'static> = Flag {
    name: "all",
    meaning: "Print each mistake that is known at the step that differs, too",
};

/// Whether a document of JSON is written in place of lines.
pub const JSON: Flag<'static> = Flag {
    name: "json",
    meaning: "Print one line, a document of JSON, in place of other lines",
};

/// Whether corrected texts are printed.
pub const FIXES: Flag<'static> = Flag {
    name: "fix",
    meaning: "Print the text of a pattern with all changes that correct it, and nothing else: the status is that of \
              the printed text",
};

/// Whether the first line of a trace names the words of the others.
pub const HEADING: Flag<'static> = Flag {
    name: "heading",
    meaning: "Print first a line that names the words of a line of a key schedule",
};

/// The part whose lines alone are printed of a key schedule.
pub const ONLY: ValueOption<'static> = ValueOption {
    name: "only",
    value: "PART",
    meaning: "Print the key schedule of this part alone: handshake or transport",
};

/// The party whose lines alone are printed of a key schedule.
pub const ROLE: ValueOption<'static> = ValueOption {
    name: "role",
    value: "ROLE",
    meaning: "Print the key schedule of this party alone: initiator or responder",
};
