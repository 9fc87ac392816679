//! Properties of vector files: each function does nothing, and its contract is the property.

ghost use Rattle.noise_vectors.specs.SameFile.{VectorTextsAreUnique};

use noise_names::laws::texts_are_unique;

/// No text is that of two vector files that say different things, of either version.
pub fn vector_texts_are_unique()
    ensures { VectorTextsAreUnique }
{
    texts_are_unique();
}
