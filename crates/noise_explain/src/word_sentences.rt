//! The sentences on wrong words of vector files.

ghost use Rattle.std.specs.Prelude.{IsTrue};
ghost use Rattle.std.specs.List.{list_all};
ghost use Rattle.noise_lines.specs.PrintedWords.{is_printed_byte};

use crate::advice::Sentences;
use noise_names::NameFault;

/// What is wrong with a word, as closely as an explanation reports it: its sentences say what.
#[rattlefmt::skip]
#[derive(Clone, Copy)]
pub(crate) enum WordFault {
    Version, Kind, Role, Own, Window, Cuts,
    HexFront, HexCase, HexCharacter, HexOdd, HexLong, HexLonger,
    KeyHyphen, KeyCase, KeyCharacter, MaybeKeyCase, MaybeKeyCharacter, KeyCount,
    NumberSign, NumberZero, NumberCharacter, NumberLarge, NumberLarger,
    NameRight, Name(NameFault),
}

impl WordFault {
    /// What a word has to be, and what stands there; and what mends it.
    #[rattlefmt::skip]
    pub fn sentences(self) -> Sentences
        ensures says { IsTrue (list_all is_printed_byte result.0.now) }
        ensures mends { IsTrue (list_all is_printed_byte result.1.now) }
    {
        match self {
            WordFault::Version => ("The version is 1 or 2, and another word stands here.",
                "Write 1, or 2 for datagrams or expected output."),
            WordFault::Kind => ("The keys are of the kind xor or table, and another word stands here.",
                "Write one of the two."),
            WordFault::Role => ("ROLE is initiator or responder, and another word stands here.", "Write one of the two."),
            WordFault::Own => ("OWN is e or s, and another word stands here.",
                "Write e for the ephemeral key, or s for the static one."),
            WordFault::Window => ("W is 64, 256 or 1024, and another word stands here.", "Write one of the three."),
            WordFault::Cuts => ("CUTS is -, or 1 to 8 numbers from 0 to 65535 joined by commas, the last not 0, and this is neither.",
                "Write - for one piece, or for example 1,2,16"),
            WordFault::NameRight => ("NAME is a protocol's name.", EXAMPLE),
            WordFault::Name(fault) => name_sentences(fault),
            _ => self.of_digits(),
        }
    }

    // The same of bytes, keys and numbers.
    #[rattlefmt::skip]
    fn of_digits(self) -> Sentences
        ensures says { IsTrue (list_all is_printed_byte result.0.now) }
        ensures mends { IsTrue (list_all is_printed_byte result.1.now) }
    {
        match self {
            WordFault::HexFront => ("HEX has hex digits alone, and 0x stands before them.", "Leave 0x out."),
            WordFault::HexCase => ("HEX has lower-case digits, and an upper-case letter stands here.",
                "Write it in lower case."),
            WordFault::HexCharacter => ("HEX has the digits 0 to 9 and a to f alone, and another character stands here.",
                "Write two digits for each byte, or - for no bytes."),
            WordFault::HexOdd => ("HEX has two digits for each byte, and the number of these is odd.",
                "Write the digit that is missing: a byte below 16 begins with 0."),
            WordFault::HexLong => ("HEX has at most 65535 bytes here, and this has more.", "Shorten it."),
            WordFault::HexLonger => ("HEX has at most 131072 bytes here, and this has more.", "Leave some out."),
            WordFault::KeyHyphen => ("KEY has 64 hex digits, and - stands here.", "Write the key."),
            WordFault::KeyCase => ("KEY has lower-case digits, and an upper-case letter stands here.",
                "Write it in lower case."),
            WordFault::KeyCharacter => ("KEY has the digits 0 to 9 and a to f alone, and another character stands here.",
                "Write the 32 bytes of the key in hex."),
            WordFault::MaybeKeyCase => ("KEY? has lower-case digits, and an upper-case letter stands here.",
                "Write it in lower case."),
            WordFault::MaybeKeyCharacter => ("KEY? is - or 64 hex digits, and another character stands here.",
                "Write the 32 bytes of the key in hex, or - for no key."),
            WordFault::KeyCount => ("A key has 64 hex digits, two for each of its 32 bytes, and this has another number of them.",
                "Write all 64."),
            WordFault::NumberSign => ("NUM has digits alone, and a sign or a hyphen stands here.",
                "Leave it out, and write a number."),
            WordFault::NumberZero => ("NUM has no leading zero, and one stands here.", "Leave it out."),
            WordFault::NumberLarge => ("NUM is below 4294967296 here, and this isn't.", SMALLER),
            WordFault::NumberLarger => ("NUM is below 18446744073709551616 here, and this isn't.", SMALLER),
            _ => ("NUM is a decimal number, and this isn't one.", "Write digits alone."),
        }
    }
}

const SMALLER: &str = "Write a smaller number.";

// The same of a name's faults.
#[rattlefmt::skip]
fn name_sentences(fault: NameFault) -> Sentences
    ensures says { IsTrue (list_all is_printed_byte result.0.now) }
    ensures mends { IsTrue (list_all is_printed_byte result.1.now) }
{
    match fault {
        NameFault::Length => ("NAME has at most 255 bytes, and this one has more.", EXAMPLE),
        NameFault::Prefix => ("NAME begins with Noise_, and this doesn't.", EXAMPLE),
        NameFault::Base => ("After Noise_ comes the base: 1 to 8 upper-case letters and digits, the first a letter. This has another one.",
            EXAMPLE),
        NameFault::Modifier => ("After the base come psk0 to psk8, with + between two, and something else stands here.",
            PSKS_EXAMPLE),
        NameFault::ModifierOrder => ("The indices of the psks in NAME rise, each once, and these don't.",
            PSKS_EXAMPLE),
        NameFault::Algorithm => ("NAME ends with _25519_ChaChaPoly_SHA256, the only algorithms here, and this one doesn't.",
            EXAMPLE),
    }
}

const EXAMPLE: &str = "For example: protocol Noise_XX_25519_ChaChaPoly_SHA256";

const PSKS_EXAMPLE: &str = "For example: protocol Noise_NNpsk0+psk2_25519_ChaChaPoly_SHA256";
