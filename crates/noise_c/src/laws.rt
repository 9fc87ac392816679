//! The numbers of the codes and of the marks, and what a run of the exports is: a run of the library.

ghost use Rattle.std.specs.Prelude.{nat_eq};
ghost use Rattle.std.specs.List.{IsDistinct};
ghost use Rattle.noise_c.specs.HandedIn.{ReadsAsLibrary, WritesAsLibrary};
ghost use Rattle.noise_c.specs.DhResults.{FirstActAsAll, AskedIsLacking, FourSuffice, FourSufficeToWrite};
ghost use Rattle.noise_c.specs.Header.{marks, CodesAreNumbered, MarksAreNumbered};

/// The codes have the numbers of `include/noise.h`.
pub fn codes_are_numbered()
    ensures { CodesAreNumbered }
{}

/// The mark of each kind of struct, and that no two kinds have the same.
pub fn marks_differ()
    ensures numbers { MarksAreNumbered }
    ensures differ { IsDistinct nat_eq marks }
{}

/// A handshake that is handed each DH result when it asks for it does what a handshake with all DH results does (the
/// table of Noise, 5.3). Each message asks for one at each of its DH tokens at most, so for four in a valid pattern,
/// whatever the message has; with those that were handed in it accepts, refuses and writes messages as with all of
/// them, but for a refusal `Agreement`, which asks.
pub fn first_act_as_all()
    ensures whole { FirstActAsAll }
    ensures lacks { AskedIsLacking }
    ensures read { FourSuffice }
    ensures written { FourSufficeToWrite }
{}

/// A handshake of C that is handed each DH result that it asks for, as one function of the keys has it, ends each call
/// after at most four as the library's handshake does with keys of that function.
pub fn dh_results_as_library()
    ensures reads { ReadsAsLibrary }
    ensures writes { WritesAsLibrary }
{
    first_act_as_all();
}
