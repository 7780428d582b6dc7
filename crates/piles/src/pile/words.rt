// What a pile holds, and how it changes.
ghost use Rattle.std.specs.Prelude.{◌≡◌, ◌+◌, ◌-◌, ◌<◌, ◌≤◌, [], ◌∷◌, length, drop, slice_index_or, MatchOption};
ghost use Rattle.piles.specs.Words.{words_of};

use crate::pile::Pile;

impl Pile {
    // One word, so level 0.
    #[tactic(auto, unfolding(crate::specs::Words::words_of))]
    pub fn new(word: u32) -> Pile
        ensures { words_of result ≡ word ∷ [] }
    {
        Pile {
            words: [word, 0, 0, 0, 0],
            level: 0,
        }
    }

    #[tactic(auto, using(crate::proofs::Stacks::stack_length), unfolding(crate::specs::Words::words_of))]
    pub fn level(self) -> u8
        ensures { result + 1 ≡ length (words_of self) }
    {
        let Pile { level, .. } = self;
        level
    }

    // The working word.
    #[tactic(auto, using(crate::proofs::Stacks::stack_top), unfolding(crate::specs::Words::words_of))]
    pub fn top(self) -> u32
        ensures { result ≡ slice_index_or (words_of self) 0 0 }
    {
        let place = usize::from(self.level);
        self.words[place]
    }

    // With another word in place of its only one; nothing where there are more.
    #[tactic(auto, using(crate::proofs::Stacks::stack_length), unfolding(crate::specs::Words::words_of))]
    pub fn with(self, word: u32) -> Option<Pile>
        ensures { MatchOption result (1 < length (words_of self)) (λ pile. (length (words_of self) ≡ 1) × (words_of pile ≡ word ∷ [])) }
    {
        if self.level > 0 {
            return None;
        }
        Some(Pile::new(word))
    }

    // With one word more on top; nothing at the deepest level.
    #[tactic(auto, using(crate::proofs::Stacks::stack_length, crate::proofs::Stacks::stack_push), unfolding(crate::specs::Words::words_of))]
    pub fn pushed(mut self, word: u32) -> Option<Pile>
        ensures { MatchOption result (5 ≤ length (words_of self)) (λ pile. (length (words_of self) < 5) × (words_of pile ≡ word ∷ words_of self)) }
    {
        if self.level >= 4 {
            return None;
        }
        self.level += 1;
        self.words[usize::from(self.level)] = word;
        Some(self)
    }

    // Without its top; nothing at level 0.
    #[tactic(auto, using(crate::proofs::Stacks::stack_length, crate::proofs::Stacks::stack_pop), unfolding(crate::specs::Words::words_of))]
    pub fn popped(mut self) -> Option<Pile>
        ensures { MatchOption result (length (words_of self) ≤ 1) (λ pile. (1 < length (words_of self)) × (words_of pile ≡ drop 1 (words_of self))) }
    {
        if self.level == 0 {
            return None;
        }
        self.level -= 1;
        Some(self)
    }
}
