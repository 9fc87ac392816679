//! The commands that are shown where the words of a command line name none.

ghost use Rattle.std.specs.Prelude.{◌≡◌};
ghost use Rattle.clap.specs.Words.{kind_of};
ghost use Rattle.noise_words.specs.NextCommands.{line_status, next_commands};

use clap::error::ErrorKind;

const FIRST_COMMANDS: &str = "
Three commands to begin with:
  noise show XX
  noise explain examples/patterns/broken.pattern
  noise test examples/vectors/xx.vector
";

/// What is shown after this fault of a command line: three commands, where its words name none, and else nothing.
pub fn next_commands(error: &clap::Error) -> &'static str
    ensures { result.now ≡ next_commands (kind_of error.now) }
{
    match error.kind() {
        ErrorKind::MissingSubcommand | ErrorKind::InvalidSubcommand => FIRST_COMMANDS,
        _ => "",
    }
}

/// The exit status where the words of a command line are no command: 0 where they ask for help or the version, and this
/// was printed; 3 where it couldn't be printed; and else 2.
pub fn line_status(error: &clap::Error, printed: bool) -> u8
    ensures { result ≡ line_status (kind_of error.now) printed }
{
    match error.kind() {
        ErrorKind::DisplayHelp | ErrorKind::DisplayVersion => { if printed { 0 } else { 3 } }
        _ => 2,
    }
}
