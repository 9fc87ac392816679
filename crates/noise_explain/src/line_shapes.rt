//! The shapes of the words of a vector file's lines.

ghost use Rattle.std.specs.Prelude.{◌≡◌};
ghost use Rattle.noise_explain.specs.VectorColumns.{event_shapes, only_if, shapes_of};

use crate::shapes::Shape;
use noise_vectors::LineKind;

// The shapes of the words of a line that has to be of this kind and begins with this word: none where no such line
// begins so, or where its words aren't reported.
#[rattlefmt::skip]
pub(crate) fn shapes_of(kind: LineKind, first: &[u8]) -> &'static [Shape]
    ensures { result.now ≡ shapes_of kind first.now }
{
    match kind {
        LineKind::Header => either(first == b"vector".as_slice(), &[Shape::First, Shape::Version]),
        LineKind::Protocol => either(first == b"protocol".as_slice(), &[Shape::First, Shape::Name]),
        LineKind::Prologue => either(first == b"prologue".as_slice(), &[Shape::First, Shape::Hex(65535)]),
        LineKind::Interval => either(first == b"interval".as_slice(), &[Shape::First, Shape::Number(18446744073709551615)]),
        LineKind::Psk => either(first == b"psk".as_slice(), &[Shape::First, Shape::Key]),
        LineKind::Keys => either(first == b"initiator".as_slice() || first == b"responder".as_slice(), &[Shape::First, Shape::Kind, Shape::MaybeKey, Shape::MaybeKey]),
        LineKind::Answer => either(first == b"answer".as_slice(), &[Shape::First, Shape::Own, Shape::Key, Shape::Key]),
        LineKind::Event => event_shapes(first),
        LineKind::Pattern | LineKind::Expect | LineKind::Ending => &[],
    }
}

// These shapes, where the line begins as such a one does.
fn either(is_right: bool, shapes: &'static [Shape]) -> &'static [Shape]
    ensures { result.now ≡ only_if is_right shapes.now }
{
    if is_right { shapes } else { &[] }
}

// The shapes of the words of an event, or of the line of the datagrams.
#[rattlefmt::skip]
fn event_shapes(first: &[u8]) -> &'static [Shape]
    ensures { result.now ≡ event_shapes first.now }
{
    if first == b"say".as_slice() {
        &[Shape::First, Shape::Role, Shape::Hex(65535), Shape::Cuts]
    } else if first == b"deliver".as_slice() {
        &[Shape::First, Shape::Role, Shape::Number(4294967295), Shape::Cuts]
    } else if first == b"open".as_slice() {
        &[Shape::First, Shape::Role, Shape::Number(4294967295)]
    } else if first == b"write".as_slice() || first == b"seal".as_slice() {
        &[Shape::First, Shape::Role, Shape::Hex(65535)]
    } else if first == b"raw".as_slice() || first == b"foreign".as_slice() {
        &[Shape::First, Shape::Role, Shape::Hex(131072)]
    } else if first == b"datagrams".as_slice() {
        &[Shape::First, Shape::Window]
    } else {
        &[]
    }
}
