//! Properties of the runs of vector files: each function does nothing, and its contract is the property.

ghost use Rattle.noise_run.specs.Conversion.{ConversionsMeetThemselves};
ghost use Rattle.noise_run.specs.OneRun.{OneRun};

use noise_duel::laws::{datagram_run_once, run_once};
use noise_vectors::vector_texts_are_unique;

/// Files that say the same print the same lines; so a file has one list of lines.
pub fn file_run_once()
    ensures { OneRun }
{
    run_once();
    datagram_run_once();
}

/// A conversion that is replayed meets what it expects, and prints what the converted file does.
pub fn conversions_meet_themselves()
    ensures { ConversionsMeetThemselves }
{
    file_run_once();
    vector_texts_are_unique();
}
