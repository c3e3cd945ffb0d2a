//! Lock texts as streams of tokens: each text is one, and it can be computed.
#![tactic(auto)]

ghost use Rattle.token_stream.specs.Streams.{StreamsAreOne};
ghost use Rattle.token_stream.specs.Computed.{StreamOfText};

/// A text is one stream of tokens.
pub fn each_text_is_one_stream()
    ensures most { StreamsAreOne }
    ensures least { StreamOfText }
{}
