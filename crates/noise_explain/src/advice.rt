//! The sentences on wrong texts.

ghost use Rattle.std.specs.Prelude.{IsTrue};
ghost use Rattle.std.specs.List.{list_all};
ghost use Rattle.noise_lines.specs.PrintedWords.{is_printed_byte};

/// What is wrong, as closely as an explanation reports it: its sentences say what each is.
#[rattlefmt::skip]
#[derive(Clone, Copy, PartialEq, Eq)]
pub(crate) enum Advice {
    TooLong, ByteOrderMark, CarriageReturn, Tab, SpaceAtEnd, Empty, Comment, Heading,
    HeadingMissing, VectorHeading, HeadingIndented, Modifier, NameCase, NameLength, NameFirst,
    ColonMissing, Modifiers, Arrow, ArrowCharacter, Dots, Token, TokenCase, TokensJoined,
    TokenMissing, PreMessage, DotsAlone, Turn, DotsMissing, PskTokens, PskBeyond, NameTaken,
    NinthMessage, PskAlone, ManyTokens, LineFeedMissing, MessageMissing,
}

/// What had to stand there, or what stands there; and what mends it.
pub(crate) type Sentences = (&'static str, &'static str);

impl Advice {
    /// Both, of a file and of a first line.
    #[rattlefmt::skip]
    pub fn sentences(self) -> Sentences
        ensures says { IsTrue (list_all is_printed_byte result.0.now) }
        ensures mends { IsTrue (list_all is_printed_byte result.1.now) }
    {
        match self {
            Advice::TooLong => ("A file has at most 4194304 bytes, and this one has more.",
                "Leave some out, or make several files of it."),
            Advice::ByteOrderMark => ("A byte-order mark stands before the first line.", "Save the file without it."),
            Advice::CarriageReturn => ("A carriage return stands before the line feed.", "End each line with a line feed alone."),
            Advice::Tab => ("A tab stands in the line.", "Write spaces in its place."),
            Advice::SpaceAtEnd => ("A space is at the end of the line.", "Take it out."),
            Advice::Empty => ("The line is empty.", "Leave it out."),
            Advice::Comment => ("The library takes no comments.", "Take them out."),
            Advice::Heading => ("The first line has to be a name of 1 to 8 upper-case letters and digits, then psk modifiers such as psk0 or psk0+psk2, then a colon.",
                "For example: MINE:"),
            Advice::HeadingMissing => ("The first line has to be the heading, and this is a line of tokens.",
                "Put a heading above it, for example: MINE:"),
            Advice::VectorHeading => ("A vector file begins with the line \"vector 2\", and this is a later line of one.",
                "Put \"vector 2\" above it."),
            Advice::HeadingIndented => ("Spaces stand before the heading.", "Take as many away from the front of each line."),
            Advice::Modifier => ("The modifiers are psk0 to psk8, and another one stands here.",
                "Write the messages out under a name of your own."),
            Advice::NameCase => ("A name is of upper-case letters and digits, and a lower-case letter stands here.",
                "Write the name in upper case."),
            Advice::NameLength => ("A name has at most 8 letters and digits, and this one has more.", "Shorten it."),
            Advice::NameFirst => ("A name begins with an upper-case letter, and a digit stands here.", "Put a letter before it."),
            Advice::ColonMissing => ("The heading has to end with a colon, and it has none.", "Put a colon at its end."),
            Advice::Modifiers => ("After the name come psk0 to psk8, each once and in rising order, with + between two, and then a colon.",
                "For example: MINEpsk0+psk2:"),
            _ => self.of_a_line(),
        }
    }

    // The same of a line of tokens.
    #[rattlefmt::skip]
    fn of_a_line(self) -> Sentences
        ensures says { IsTrue (list_all is_printed_byte result.0.now) }
        ensures mends { IsTrue (list_all is_printed_byte result.1.now) }
    {
        match self {
            Advice::Arrow => ("The line has to begin with two spaces, an arrow (-> or <-) and one space.",
                "For example: two spaces, then \"-> e\"."),
            Advice::ArrowCharacter => ("The arrow is written as two characters: -> or <-.", "Write it so."),
            Advice::Dots => ("The line between the keys that are known before and the messages is two spaces and three dots.",
                "Write it so."),
            Advice::Token => ("This isn't a token.",
                "The tokens are e, s, ee, es, se, ss and psk, with a comma and a space between two."),
            Advice::TokenCase => ("This isn't a token: it has an upper-case letter.", "Write it in lower case."),
            Advice::TokensJoined => ("A comma and one space have to stand between two tokens.", "Write them so."),
            Advice::TokenMissing => ("A token has to stand here, and none does.",
                "Write one, for example e, or take the comma before it out."),
            Advice::PreMessage => ("Above \"...\" a line has e, s or \"e, s\", the initiator's first, and \"...\" comes once, after them.",
                "Write one line for each party, the initiator's first, and messages below \"...\"."),
            Advice::DotsAlone => ("\"...\" comes once, below the keys that are known before the first message.",
                "Leave it out, or name such a key above it."),
            Advice::Turn => ("It is the other party's turn.",
                "Turn the arrow around: the initiator (->) begins, and then they alternate."),
            Advice::DotsMissing => ("A key that is known before the first message stands above a line of two spaces and \"...\", and that line is missing.",
                "Put \"...\" below the lines of such keys."),
            Advice::PskTokens => ("psk0 in the heading is a psk before message 1, pskN one at the end of message N; none is elsewhere.",
                "Name the place of each psk in the heading, and put a psk at each place named there."),
            Advice::PskBeyond => ("The heading has an index of a psk that is greater than the number of messages.",
                "Write the index that is meant, or add messages."),
            Advice::NameTaken => ("This name belongs to a fundamental pattern, and the text is another one.",
                "Give it a name of its own."),
            Advice::NinthMessage => ("A pattern has at most 8 messages, and this is one more.",
                "Put its tokens into earlier messages."),
            Advice::PskAlone => ("A message has from 1 to 8 tokens besides psk, and this one has none.",
                "Add one, for example e."),
            Advice::ManyTokens => ("A message has from 1 to 8 tokens besides psk, and this one has more.",
                "Leave out those that come twice."),
            Advice::LineFeedMissing => ("The last line has to end with a line feed, and it has none.", "End it with one."),
            _ => ("There is no message.", "Add a line such as \"  -> e\"."),
        }
    }
}
