//! The command `talk` on a file whose lines fit.

ghost use Rattle.std.specs.Prelude.{◌≡◌, ◌⊎◌, ◌↔◌, ◌<◌, ◌≤◌, ℕ, List, Some, length, string_bytes};
ghost use Rattle.std.specs.Io.KnownBytes.{Appends};
ghost use Rattle.noise_names.specs.declared.token.Role.{Role};
ghost use Rattle.noise_names.specs.Plan.{Plan};
ghost use Rattle.noise_vectors.specs.VectorText.{file_text};
ghost use Rattle.noise_vectors.specs.declared.vector.VectorFile.{VectorFile};
ghost use Rattle.noise_lines.specs.Lines.{lines_text};
ghost use Rattle.noise_lines.specs.Prefixes.{AppendsPrefix};
ghost use Rattle.noise_lines.specs.Verdicts.{IsMet};
ghost use Rattle.noise_run.specs.Running.{expected_in};
ghost use Rattle.noise_transcript.specs.Fitting.{HasFittingMessages};
ghost use Rattle.noise_transcript.specs.Talked.{talked_lines};

use crate::laws::fitting_messages_run;
use noise_tool::{Chosen, FilesByName, Order, file_run_once, perform};
use noise_vectors::vector_texts_are_unique;
use std::alloc::Global;
use std::io::Write;

/// Does what `noise talk` does with the vector file of this name, by `perform`, and gives the exit status.
///
/// Of a vector file whose lines fit, at status 0 or 1 the output grew by exactly this: for each line the frame of its
/// message in the transcript, and its payload as the other party accepted it; and then a line for each party. The
/// status is 0 where these are the lines that the file expects, or it expects none, and else 1. It is 2 only for a text
/// of more than 4194304 bytes, and 3 where the file can't be read, the output can't be written, or memory runs out. At
/// each status the output is as it was, or grew by a prefix of these lines.
///
/// Such a file has `xor` keys, a valid pattern, setups without a fault, and the event `say` alone.
pub fn talk<F: FilesByName, O: Write, E: Write>(
    alloc: Global,
    name: String,
    files: &F,
    out: &mut O,
    err: &mut E,
) -> u8
    ensures status { result ≤ 3 }
    ensures printed { (f : VectorFile) (p : Plan) (lines : List (Role × List ℕ)) → HasFittingMessages f p lines
        → F.bytes_at files.now (string_bytes name) ≡ Some (file_text f) → result ≤ 1
        → Appends (O.contents out.old) (O.contents out.new) (lines_text (talked_lines f p lines)) }
    ensures met { (f : VectorFile) (p : Plan) (lines : List (Role × List ℕ)) → HasFittingMessages f p lines
        → F.bytes_at files.now (string_bytes name) ≡ Some (file_text f) → result ≤ 1
        → (result ≡ 0 ↔ IsMet (expected_in f.version) (talked_lines f p lines)) }
    ensures taken { (f : VectorFile) (p : Plan) (lines : List (Role × List ℕ)) → HasFittingMessages f p lines
        → F.bytes_at files.now (string_bytes name) ≡ Some (file_text f) → result ≡ 2 → 4194304 < length (file_text f) }
    ensures prefix { (f : VectorFile) (p : Plan) (lines : List (Role × List ℕ)) → HasFittingMessages f p lines
        → F.bytes_at files.now (string_bytes name) ≡ Some (file_text f) → (out.new ≡ out.old)
        ⊎ AppendsPrefix (O.contents out.old) (O.contents out.new) (lines_text (talked_lines f p lines)) }
{
    fitting_messages_run();
    file_run_once();
    vector_texts_are_unique();
    let order = Order::Command(Chosen::Talk(name));
    perform(alloc, &order, files, out, err)
}
