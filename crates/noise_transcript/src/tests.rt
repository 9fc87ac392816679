//! That the premises of `talk` can be met, and that it succeeds.

ghost use Rattle.std.specs.Prelude.{◌≡◌, ℕ, List, Some, true};
ghost use Rattle.noise_names.specs.declared.token.Role.{Role};
ghost use Rattle.noise_names.specs.Plan.{Plan};
ghost use Rattle.noise_names.specs.Names.{Section};
ghost use Rattle.noise_names.specs.Limits.{IsPattern};
ghost use Rattle.noise_names.specs.Validity.{IsValid};
ghost use Rattle.noise_vectors.specs.VectorFile.{IsAllowedFile, IsVectorFile};
ghost use Rattle.noise_vectors.specs.declared.vector.AllowedEvents.TheVariants.{SayOnly};
ghost use Rattle.noise_vectors.specs.VectorText.{file_text};
ghost use Rattle.noise_vectors.specs.declared.file_keys.FileKeys.TheVariants.{Xor};
ghost use Rattle.noise_vectors.specs.declared.vector.VectorFile.{VectorFile};
ghost use Rattle.noise_lines.specs.Lines.{lines_text};
ghost use Rattle.noise_run.specs.Ends.{IsFilePattern};
ghost use Rattle.noise_transcript.specs.Fitting.{HasFittingMessages};
ghost use Rattle.noise_transcript.specs.Talked.{talked_lines};

use crate::talk;
use noise_handshake::XorKeys;
use noise_lines::named_pattern;
use noise_names::{Pattern, ProtocolName, ValidPattern};
use noise_theorems::{messages_fit, run_events};
use noise_tool::{Fault, FilesByName, read_file};
use noise_vectors::{AllowedEvents, FileKeys, VectorFile, read_vector, said_lines};
use std::alloc::Global;
use std::process::Abort;

// The first message of NN, in the clear, with the payload `hi`.
const FIRST_MESSAGE: &str =
    "vector 1\nprotocol Noise_NN_25519_ChaChaPoly_SHA256\nprologue -\ninterval 0\n\
initiator xor 1111111111111111111111111111111111111111111111111111111111111111 -\n\
responder xor 2222222222222222222222222222222222222222222222222222222222222222 -\nsay initiator 6869 1\n";

const FIRST_LINES: &str =
    "wrote initiator 0 002211111111111111111111111111111111111111111111111111111111111111116869\n\
payload responder 6869\nstate initiator handshake 1\nstate responder handshake 1\n";

// All messages of N with a psk, and one transport message more than that, whose key is a new one.
const RENEWED: &str =
    "vector 1\nprotocol Noise_Npsk0_25519_ChaChaPoly_SHA256\nprologue 00\ninterval 1\n\
psk 3333333333333333333333333333333333333333333333333333333333333333\n\
initiator xor 1111111111111111111111111111111111111111111111111111111111111111 -\n\
responder xor - 2222222222222222222222222222222222222222222222222222222222222222\n\
say initiator - -\nsay initiator 6869 -\nsay initiator 6869 2,2\n";

// The file of each name is this text.
#[derive(Drop)]
struct OneText<'a> {
    text: &'a [u8],
}

impl FilesByName for OneText<'_> {
    ghost bytes_at = { λ files _. Some files.text.now };

    ghost unreadable = { λ _ _. true };

    fn read(&self, alloc: Global, _name: &str) -> Result<Vec<u8>, Fault> {
        let mut text = self.text;
        read_file(alloc, &mut text)
    }
}

// The keys, which have to be `xor`.
fn xor_keys(rt: &impl Abort, keys: FileKeys) -> XorKeys
    ensures { keys ≡ Xor result }
{
    match keys {
        FileKeys::Xor(keys) => keys,
        FileKeys::Table(_) => panic!(rt; "a table"),
    }
}

// The pattern of a file, which has to be valid.
fn pattern_of(rt: &impl Abort, block: Option<Pattern>, name: &ProtocolName) -> ValidPattern
    ensures named { IsFilePattern block name.now result }
    ensures pattern { IsPattern result }
    ensures valid { IsValid result }
{
    let pattern = match block {
        Some(pattern) => pattern,
        None => named_pattern(name).ok().expect(rt, "a pattern"),
    };
    let valid = pattern.check().expect(rt, "a valid pattern");
    let _ = valid.pattern().messages();
    valid
}

// What a text says, which has to be that of a right file with the event `say` alone.
fn read(rt: &impl Abort, alloc: Global, text: &[u8]) -> VectorFile
    ensures text { text.now ≡ file_text result }
    ensures right { IsVectorFile result }
    ensures allowed { IsAllowedFile SayOnly result }
{
    read_vector(alloc, text, AllowedEvents::SayOnly)
        .ok()
        .expect(rt, "a file")
}

// The lines of such a file have to fit.
fn fits(rt: &impl Abort, alloc: Global, file: VectorFile)
    requires right { IsVectorFile file }
    requires allowed { IsAllowedFile SayOnly file }
    ensures fits { (p : Plan) × (lines : List (Role × List ℕ)) × HasFittingMessages file p lines }
{
    let VectorFile {
        protocol,
        block,
        prologue,
        interval,
        psks,
        initiator,
        responder,
        events,
        version: _version,
    } = file;
    let pattern = pattern_of(rt, block, &protocol);
    let initiator = xor_keys(rt, initiator);
    let responder = xor_keys(rt, responder);
    let lines = said_lines(alloc, events).expect(rt, "memory");
    let fit = messages_fit(&pattern, &lines);
    assert!(rt; fit);
    let made = run_events(
        alloc,
        pattern,
        &prologue,
        initiator,
        responder,
        &psks,
        interval,
        &[],
    );
    let _ = made.expect(rt, "both ends");
}

// What `talk` prints of this text, which has to be that of a file whose lines fit.
fn printed(rt: &impl Abort, alloc: Global, text: &[u8]) -> Vec<u8>
    ensures { (f : VectorFile) × (p : Plan) × (lines : List (Role × List ℕ))
        × (text.now ≡ file_text f) × (result.items ≡ lines_text (talked_lines f p lines)) }
{
    let read = read(rt, alloc, text);
    fits(rt, alloc, read);
    let mut out = Vec::new(alloc);
    let mut err = Vec::new(alloc);
    let name = String::new(alloc);
    let status = talk(alloc, name, &OneText { text }, &mut out, &mut err);
    assert!(rt; status == 0);
    out
}

#[test]
fn first_message(rt: HostRuntime) {
    let out = printed(&rt, rt.alloc(), FIRST_MESSAGE.as_bytes());
    assert!(rt; out.as_slice() == FIRST_LINES.as_bytes());
}

#[test]
fn renewed(rt: HostRuntime) {
    let out = printed(&rt, rt.alloc(), RENEWED.as_bytes());
    assert!(rt; out.starts_with(b"wrote initiator 0 0030".as_slice()));
}
