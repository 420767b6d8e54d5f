// Theorems about the encoding, as the contract of a function, so that the check asks for their proofs.
ghost use Rattle.doc.specs.Laws.{ReadsPlain, EncodedOnce, Encoded};

pub fn laws()
    // Every document that is read is plain.
    ensures reads_plain { ReadsPlain }
    // Two encodings of one document are equal.
    ensures encoded_once { EncodedOnce }
    // Every document that fits in bytes, and in 65,536 of them, has an encoding, which is bytes.
    ensures encoded { Encoded }
{}
