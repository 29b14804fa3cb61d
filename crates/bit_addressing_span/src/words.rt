//! The masked words of a domain, one after another, from both ends.

ghost use Rattle.std.specs.Prelude.{◌≡◌, ◌+◌, ◌<◌, ◌≤◌, ◌^◌, ◌↔◌, ◌++◌, [], length, IfSome, IsSome, IsTrue, Some, None};
ghost use Rattle.std.specs.Iterator.{YieldsFirstBy, YieldsLastBy, item_count, UpTo};
ghost use Rattle.std.specs.Iterator.SizeHint.{IsExactHint, IsWithinCount};
ghost use Rattle.bit_addressing_span.specs.Domain.{domain_numbers, option_numbers};
ghost use Rattle.bit_addressing_span.specs.DomainWords.{option_word};

use crate::domain::Domain;
use crate::partial::PartialElement;
use bit_addressing_memory::{BitOrder, BitRegister};
use std::alloc::AllocError;
use std::iter::FusedIterator;
use std::marker::Model;

/// The masked words of a domain; a contract sees it as the list of the numbers of those that are left.
///
/// It is exact in length, gives each word once from either end, and then `None` for good.
#[derive(Drop)]
pub struct DomainWords<'a, R: BitRegister> {
    head: Option<R>,
    body: &'a [R],
    tail: Option<R>,
}

impl<'a, R: BitRegister> Model for DomainWords<'a, R> {
    ghost use Rattle.std.specs.Prelude.{ℕ, List, ◌<◌, ◌^◌, length};
    ghost use Rattle.bit_addressing_span.specs.DomainWords.{words_left};

    ghost Value = { List ℕ };

    ghost view = { λ words. words_left R.number words.head words.body.now words.tail };

    ghost invariant = { λ words. length (words_left R.number words.head words.body.now words.tail) < 2 ^ 64 };
}

impl<'a, R: BitRegister> Clone for DomainWords<'a, R> {
    ghost use Rattle.std.specs.Prelude.{◌≡◌, ⊤};

    ghost is_clone = { λ words copy. copy ≡ words };

    ghost is_infallible = { λ _. ⊤ };

    fn clone(&self) -> Result<Self, AllocError> {
        Ok(DomainWords {
            head: self.head,
            body: self.body,
            tail: self.tail,
        })
    }
}

impl<'a, R: BitRegister, O: BitOrder<R>> Domain<'a, R, O> {
    /// Whether a `usize` counts the domain's words, as `words` asks. It counts those of each span's domain.
    pub fn is_counted(&self) -> bool
        ensures { IsTrue result ↔ (length (domain_numbers R.number O.masked self.now) < 2 ^ 64) }
    {
        count_of_words(*self).is_some()
    }

    /// The masked words of the domain, in order, as an iterator that tells their exact number, which a `usize` counts.
    pub fn words(self) -> DomainWords<'a, R>
        requires { length (domain_numbers R.number O.masked self) < 2 ^ 64 }
        ensures { result ≡ domain_numbers R.number O.masked self.entry }
    {
        match self {
            Domain::Enclave(part) => DomainWords {
                head: Some(part.load_value()),
                body: &[],
                tail: None,
            },
            Domain::Region { head, body, tail } => DomainWords {
                head: load_part(head),
                body,
                tail: load_part(tail),
            },
        }
    }
}

// How many words a domain has, where a `usize` counts them.
fn count_of_words<'a, R: BitRegister, O: BitOrder<R>>(domain: Domain<'a, R, O>) -> Option<usize>
    ensures counted { IsSome result ↔ (length (domain_numbers R.number O.masked domain.entry) < 2 ^ 64) }
    ensures count { IfSome result (λ count. count ≡ length (domain_numbers R.number O.masked domain.entry)) }
{
    match domain {
        Domain::Enclave(part) => Some(count_of(Some(part))),
        Domain::Region { head, body, tail } => {
            body.len().checked_add(count_of(head) + count_of(tail))
        }
    }
}

// How many words a part has: one, where there is one.
fn count_of<'a, R: BitRegister, O: BitOrder<R>>(part: Option<PartialElement<'a, R, O>>) -> usize
    ensures count { result ≡ length (option_numbers R.number O.masked part.entry) }
    ensures few { result ≤ 1 }
{
    match part {
        Some(part) => part.into_bitslice().0.len(),
        None => 0,
    }
}

// The masked word of a part, where there is one.
fn load_part<'a, R: BitRegister, O: BitOrder<R>>(
    part: Option<PartialElement<'a, R, O>>,
) -> Option<R>
    ensures { option_word R.number result ≡ option_numbers R.number O.masked part.entry }
{
    part.map(|part| part.load_value())
}

impl<'a, R: BitRegister> Iterator for DomainWords<'a, R> {
    type Item = R;

    ghost next_gives = { YieldsFirstBy R.number (λ rest. rest) };

    ghost remaining = { item_count (λ rest. rest) };

    fn next(&mut self) -> Option<R> {
        let head = self.head;
        if let Some(word) = head {
            self.head = None;
            return Some(word);
        }
        let body = self.body;
        if body.len() > 0 {
            self.body = &body[1..];
            return Some(body[0]);
        }
        let tail = self.tail;
        self.tail = None;
        tail
    }

    fn size_hint(&self) -> (usize, Option<usize>)
        ensures lower { IsWithinCount result.0 (item_count (λ rest. rest) self.now) }
        ensures upper { IfSome result.1 (UpTo (item_count (λ rest. rest) self.now)) }
        ensures exact { result ≡ (length self.now, Some (length self.now)) }
    {
        let len = self.len();
        (len, Some(len))
    }
}

impl<'a, R: BitRegister> DoubleEndedIterator for DomainWords<'a, R> {
    ghost next_back_gives = { YieldsLastBy R.number (λ rest. rest) };

    fn next_back(&mut self) -> Option<R> {
        let tail = self.tail;
        if let Some(word) = tail {
            self.tail = None;
            return Some(word);
        }
        let body = self.body;
        let n = body.len();
        if n > 0 {
            self.body = &body[..n - 1];
            return Some(body[n - 1]);
        }
        let head = self.head;
        self.head = None;
        head
    }
}

impl<'a, R: BitRegister> ExactSizeIterator for DomainWords<'a, R> {
    fn len(&self) -> usize {
        let heads = self.head.is_some() as usize;
        let tails = self.tail.is_some() as usize;
        heads + self.body.len() + tails
    }
}

impl<'a, R: BitRegister> FusedIterator for DomainWords<'a, R> {}

/// The masked words of the domain, in order, from both ends; after the last one the domain is empty, and gives `None`
/// for good.
impl<'a, R: BitRegister, O: BitOrder<R>> Iterator for Domain<'a, R, O> {
    type Item = R;

    ghost next_gives = { YieldsFirstBy R.number (domain_numbers R.number O.masked) };

    ghost remaining = { item_count (domain_numbers R.number O.masked) };

    fn next(&mut self) -> Option<R> {
        let (word, rest) = first_and_rest(*self);
        *self = rest;
        word
    }

    fn size_hint(&self) -> (usize, Option<usize>)
        ensures lower { IsWithinCount result.0 (item_count (domain_numbers R.number O.masked) self.now) }
        ensures upper { IfSome result.1 (UpTo (item_count (domain_numbers R.number O.masked) self.now)) }
        ensures exact { IsExactHint result (length (domain_numbers R.number O.masked self.now)) }
    {
        match count_of_words(*self) {
            Some(count) => (count, Some(count)),
            None => (usize::MAX, None),
        }
    }
}

impl<'a, R: BitRegister, O: BitOrder<R>> DoubleEndedIterator for Domain<'a, R, O> {
    ghost next_back_gives = { YieldsLastBy R.number (domain_numbers R.number O.masked) };

    fn next_back(&mut self) -> Option<R> {
        let (word, rest) = last_and_rest(*self);
        *self = rest;
        word
    }
}

impl<'a, R: BitRegister, O: BitOrder<R>> FusedIterator for Domain<'a, R, O> {}

// The first masked word of a domain, where there is one, and the domain without it.
fn first_and_rest<'a, R: BitRegister, O: BitOrder<R>>(
    domain: Domain<'a, R, O>,
) -> (Option<R>, Domain<'a, R, O>)
    ensures parts { domain_numbers R.number O.masked domain.entry
        ≡ option_word R.number result.0 ++ domain_numbers R.number O.masked result.1 }
    ensures none { result.0 ≡ None → domain_numbers R.number O.masked domain.entry ≡ [] }
{
    match domain {
        Domain::Enclave(part) => (Some(part.load_value()), Domain::default()),
        Domain::Region { head, body, tail } => {
            if let Some(part) = head {
                let rest = Domain::Region {
                    head: None,
                    body,
                    tail,
                };
                return (Some(part.load_value()), rest);
            }
            if body.len() > 0 {
                let rest = Domain::Region {
                    head: None,
                    body: &body[1..],
                    tail,
                };
                return (Some(body[0]), rest);
            }
            (load_part(tail), Domain::default())
        }
    }
}

// The last masked word of a domain, where there is one, and the domain without it.
fn last_and_rest<'a, R: BitRegister, O: BitOrder<R>>(
    domain: Domain<'a, R, O>,
) -> (Option<R>, Domain<'a, R, O>)
    ensures parts { domain_numbers R.number O.masked domain.entry
        ≡ domain_numbers R.number O.masked result.1 ++ option_word R.number result.0 }
    ensures none { result.0 ≡ None → domain_numbers R.number O.masked domain.entry ≡ [] }
{
    match domain {
        Domain::Enclave(part) => (Some(part.load_value()), Domain::default()),
        Domain::Region { head, body, tail } => {
            if let Some(part) = tail {
                let rest = Domain::Region {
                    head,
                    body,
                    tail: None,
                };
                return (Some(part.load_value()), rest);
            }
            let n = body.len();
            if n > 0 {
                let rest = Domain::Region {
                    head,
                    body: &body[..n - 1],
                    tail: None,
                };
                return (Some(body[n - 1]), rest);
            }
            (load_part(head), Domain::default())
        }
    }
}
