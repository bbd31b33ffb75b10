// Which texts are which tokens.
ghost use Rattle.swf_jq_tokens.specs.LexerLaws.{LexerLaws};

/// The tokens of a text come one after another to its end or first fault. A law: it computes nothing.
pub fn lexer_laws()
    ensures { LexerLaws }
{}
