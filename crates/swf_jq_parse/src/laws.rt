// Which lists of tokens are read as which trees.
ghost use Rattle.swf_jq_parse.specs.GrammarLaws.{GrammarLaws};

/// What is read is what the grammar has, and a fault is that of the first token with which no expression
/// begins. A law: it computes nothing.
pub fn grammar_laws()
    ensures { GrammarLaws }
{}
