// Theorems about the definitions, each a clause of a contract, so that the check asks for its proof.
ghost use Rattle.calls.specs.Calling.{LaysOutValue};
ghost use Rattle.calls.specs.Emitting.{EmitsValue, ValueEncodable};
ghost use Rattle.calls.specs.Machine.{MachineTells};
ghost use Rattle.calls.specs.Parsing.{ParseComplete, ParseSound};
ghost use Rattle.calls.specs.Values.{OneValue};

pub fn laws()
    // What is read from a source is the value that it is.
    ensures parse_sound { ParseSound }
    // The value that a source is is read from it, where the rules are not ambiguous.
    ensures parse_complete { ParseComplete }
    // A source is no more than one value, where the rules are not ambiguous.
    ensures one_value { OneValue }
    // With a stack of open brackets the same is told of a source as by recursion.
    ensures machine_tells { MachineTells }
    // A value's tokens make the encoding of its document, where the rules are not ambiguous.
    ensures emits_value { EmitsValue }
    // A value's document can be encoded, where its words and rules fit in bytes and the rules are not ambiguous.
    ensures value_encodable { ValueEncodable }
    // The document that is laid out is the value's: it is read back from its encoding.
    ensures lays_out_value { LaysOutValue }
{}
