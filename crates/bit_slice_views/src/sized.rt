//! Types that are so many words and nothing else.

ghost use Rattle.std.specs.Prelude.{◌≡◌, ℕ, List, [], ◌∷◌, length, replicate, slice_index_or};
ghost use Rattle.std.specs.Borrow.{Array, Lends, sem};

use crate::store::BitStore;

/// How the words of an `A` are borrowed to write: `OneWord`, `WordArray`.
pub trait WordAccess<A: Copy>: Copy {
    type Store: BitStore;

    // How many words.
    ghost COUNT: { ℕ };

    ghost words: { A → List Self.Store };

    // The value with other words.
    ghost with_words: { A → List Self.Store → A };

    /// The words, to write.
    fn words_mut(value: &mut A) -> &mut [Self::Store]
        ensures value { result.now ≡ words value.old }
        ensures count { length result.now ≡ COUNT }
        ensures* lends { sem 𝓛 (Lends A.row (Array Self.Store.row 0) value.entry result (with_words value.old)) };
}

/// A word is a slice of one word.
#[derive(Clone, Copy)]
pub struct OneWord;

impl<T: BitStore> WordAccess<T> for OneWord {
    type Store = T;

    ghost COUNT = { 1 };

    ghost words = { λ word. word ∷ [] };

    ghost with_words = { λ word words. slice_index_or words 0 word };

    fn words_mut(value: &mut T) -> &mut [T] {
        std::slice::from_mut(value)
    }
}

/// An array of words is a slice of them.
#[derive(Clone, Copy)]
pub struct WordArray;

impl<T: BitStore, const N: usize> WordAccess<[T; N]> for WordArray {
    type Store = T;

    ghost COUNT = { N };

    ghost words = { λ words. words };

    ghost with_words = { λ _ words. words };

    fn words_mut(value: &mut [T; N]) -> &mut [T] {
        value.as_mut_slice()
    }
}

/// A type that is so many words and nothing else: a word, or an array of words.
pub trait BitViewSized: Copy {
    type Store: BitStore;

    /// How the words are borrowed to write.
    type Access: WordAccess<Self, Store = Self::Store>;

    // How many words.
    ghost COUNT: { ℕ };

    ghost words: { Self → List Self.Store };

    // The value with other words.
    ghost with_words: { Self → List Self.Store → Self };

    ghost ZERO: { Self };

    /// The value whose bits are all 0.
    const ZERO: Self;

    /// The words, to read.
    fn as_raw_slice(&self) -> &[Self::Store]
        ensures value { result.now ≡ words self.now }
        ensures count { length result.now ≡ COUNT };

    /// The words, to write.
    final fn as_raw_mut_slice(&mut self) -> &mut [Self::Store]
        ensures value { result.now ≡ words self.old }
        ensures count { length result.now ≡ COUNT }
        ensures* lends { sem 𝓛 (Lends Self.row (Array Self.Store.row 0) self.entry result (with_words self.old)) }
    {
        Self::Access::words_mut(self)
    }

    ghost words_of: { (a : Self) (xs : List Self.Store) → length xs ≡ COUNT → words (with_words a xs) ≡ xs };

    ghost zero_words: { words ZERO ≡ replicate COUNT Self.Store.ZERO };

    // `Access` has the same words.
    ghost same_words: { (Self.Access.COUNT ≡ COUNT) × ((a : Self) → Self.Access.words a ≡ words a)
        × ((a : Self) (xs : List Self.Store) → Self.Access.with_words a xs ≡ with_words a xs) };
}

impl BitViewSized for u8 {
    ghost use Rattle.std.specs.Prelude.{refl};
    ghost use Rattle.bit_slice_views.specs.Words.{one_word};

    type Store = u8;

    type Access = OneWord;

    ghost COUNT = { 1 };

    ghost words = { λ word. word ∷ [] };

    ghost with_words = { λ word words. slice_index_or words 0 word };

    ghost ZERO = { 0 };

    const ZERO: u8 = 0;

    fn as_raw_slice(&self) -> &[u8] {
        std::slice::from_ref(self)
    }

    ghost words_of = { one_word };

    ghost zero_words = { refl };

    ghost same_words = { (refl, λ _. refl, λ _ _. refl) };
}

impl BitViewSized for u16 {
    ghost use Rattle.std.specs.Prelude.{refl};
    ghost use Rattle.bit_slice_views.specs.Words.{one_word};

    type Store = u16;

    type Access = OneWord;

    ghost COUNT = { 1 };

    ghost words = { λ word. word ∷ [] };

    ghost with_words = { λ word words. slice_index_or words 0 word };

    ghost ZERO = { 0 };

    const ZERO: u16 = 0;

    fn as_raw_slice(&self) -> &[u16] {
        std::slice::from_ref(self)
    }

    ghost words_of = { one_word };

    ghost zero_words = { refl };

    ghost same_words = { (refl, λ _. refl, λ _ _. refl) };
}

impl BitViewSized for u32 {
    ghost use Rattle.std.specs.Prelude.{refl};
    ghost use Rattle.bit_slice_views.specs.Words.{one_word};

    type Store = u32;

    type Access = OneWord;

    ghost COUNT = { 1 };

    ghost words = { λ word. word ∷ [] };

    ghost with_words = { λ word words. slice_index_or words 0 word };

    ghost ZERO = { 0 };

    const ZERO: u32 = 0;

    fn as_raw_slice(&self) -> &[u32] {
        std::slice::from_ref(self)
    }

    ghost words_of = { one_word };

    ghost zero_words = { refl };

    ghost same_words = { (refl, λ _. refl, λ _ _. refl) };
}

impl BitViewSized for u64 {
    ghost use Rattle.std.specs.Prelude.{refl};
    ghost use Rattle.bit_slice_views.specs.Words.{one_word};

    type Store = u64;

    type Access = OneWord;

    ghost COUNT = { 1 };

    ghost words = { λ word. word ∷ [] };

    ghost with_words = { λ word words. slice_index_or words 0 word };

    ghost ZERO = { 0 };

    const ZERO: u64 = 0;

    fn as_raw_slice(&self) -> &[u64] {
        std::slice::from_ref(self)
    }

    ghost words_of = { one_word };

    ghost zero_words = { refl };

    ghost same_words = { (refl, λ _. refl, λ _ _. refl) };
}

impl BitViewSized for usize {
    ghost use Rattle.std.specs.Prelude.{refl};
    ghost use Rattle.bit_slice_views.specs.Words.{one_word};

    type Store = usize;

    type Access = OneWord;

    ghost COUNT = { 1 };

    ghost words = { λ word. word ∷ [] };

    ghost with_words = { λ word words. slice_index_or words 0 word };

    ghost ZERO = { 0 };

    const ZERO: usize = 0;

    fn as_raw_slice(&self) -> &[usize] {
        std::slice::from_ref(self)
    }

    ghost words_of = { one_word };

    ghost zero_words = { refl };

    ghost same_words = { (refl, λ _. refl, λ _ _. refl) };
}

impl BitViewSized for u128 {
    ghost use Rattle.std.specs.Prelude.{refl};
    ghost use Rattle.bit_slice_views.specs.Words.{one_word};

    type Store = u128;

    type Access = OneWord;

    ghost COUNT = { 1 };

    ghost words = { λ word. word ∷ [] };

    ghost with_words = { λ word words. slice_index_or words 0 word };

    ghost ZERO = { 0 };

    const ZERO: u128 = 0;

    fn as_raw_slice(&self) -> &[u128] {
        std::slice::from_ref(self)
    }

    ghost words_of = { one_word };

    ghost zero_words = { refl };

    ghost same_words = { (refl, λ _. refl, λ _ _. refl) };
}

impl<T: BitStore, const N: usize> BitViewSized for [T; N] {
    ghost use Rattle.std.specs.Prelude.{refl};

    type Store = T;

    type Access = WordArray;

    ghost COUNT = { N };

    ghost words = { λ words. words };

    ghost with_words = { λ _ words. words };

    ghost ZERO = { replicate N T.ZERO };

    const ZERO: [T; N] = [T::ZERO; N];

    fn as_raw_slice(&self) -> &[T] {
        self.as_slice()
    }

    ghost words_of = { λ _ _ _. refl };

    ghost zero_words = { refl };

    ghost same_words = { (refl, λ _. refl, λ _ _. refl) };
}
