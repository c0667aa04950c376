ghost use Rattle.blocks.specs.Laws.{KeptWordsFollow};

// What is kept at every address after each change of the blocks.
#[tactic(auto, using(crate::proofs::Follows::follows))]
pub fn kept_words_follow_changes()
    ensures { KeptWordsFollow }
{}
