//! The texts of domains: the masked words as numbers in plain form, in brackets, separated by a comma and
//! a space.

ghost use Rattle.std.specs.Prelude.{◌≡◌, ℕ, List, ◌^◌, ◌<◌, ◌≤◌, true, false, map, IfOk, IsOk};
ghost use Rattle.std.specs.Fmt.{WritesOnOk, HasWritten, IsPlainFormatter, digits};
ghost use Rattle.bit_addressing_span.specs.Domain.{domain_numbers, option_numbers};
ghost use Rattle.bit_addressing_span.specs.Form.{form_text};
ghost use Rattle.bit_addressing_span.specs.DomainMut.{IsTextOf};
ghost use Rattle.bit_addressing_memory.specs.Memory.{read_by};
ghost use Rattle.bit_addressing_span.specs.Texts.{between, joined_text, numbers_text, begun_after};

use crate::domain::Domain;
use crate::domain_mut::DomainMut;
use crate::partial::PartialElement;
use bit_addressing_memory::{BitOrder, BitRegister};
use std::fmt;

// How a number is written.
#[derive(Clone, Copy)]
enum Form {
    Binary,
    Octal,
    LowerHex,
    UpperHex,
}

impl<'a, R: BitRegister, O: BitOrder<R>> fmt::Binary for Domain<'a, R, O> {
    fn fmt<W: fmt::Write>(&self, f: &mut fmt::Formatter<W>) -> fmt::Result
        ensures { R.BITS ≤ 64 → WritesOnOk W.write_str_gives f.old result
            (numbers_text (digits 2 false) (domain_numbers R.number O.masked self.now)) f.new }
    {
        write_domain(*self, Form::Binary, f)
    }
}

impl<'a, R: BitRegister, O: BitOrder<R>> fmt::Octal for Domain<'a, R, O> {
    fn fmt<W: fmt::Write>(&self, f: &mut fmt::Formatter<W>) -> fmt::Result
        ensures { R.BITS ≤ 64 → WritesOnOk W.write_str_gives f.old result
            (numbers_text (digits 8 false) (domain_numbers R.number O.masked self.now)) f.new }
    {
        write_domain(*self, Form::Octal, f)
    }
}

impl<'a, R: BitRegister, O: BitOrder<R>> fmt::LowerHex for Domain<'a, R, O> {
    fn fmt<W: fmt::Write>(&self, f: &mut fmt::Formatter<W>) -> fmt::Result
        ensures { R.BITS ≤ 64 → WritesOnOk W.write_str_gives f.old result
            (numbers_text (digits 16 false) (domain_numbers R.number O.masked self.now)) f.new }
    {
        write_domain(*self, Form::LowerHex, f)
    }
}

impl<'a, R: BitRegister, O: BitOrder<R>> fmt::UpperHex for Domain<'a, R, O> {
    fn fmt<W: fmt::Write>(&self, f: &mut fmt::Formatter<W>) -> fmt::Result
        ensures { R.BITS ≤ 64 → WritesOnOk W.write_str_gives f.old result
            (numbers_text (digits 16 true) (domain_numbers R.number O.masked self.now)) f.new }
    {
        write_domain(*self, Form::UpperHex, f)
    }
}

impl<'a, R: BitRegister, O: BitOrder<R>> fmt::Binary for DomainMut<'a, R, O> {
    fn fmt<W: fmt::Write>(&self, f: &mut fmt::Formatter<W>) -> fmt::Result
        ensures { R.BITS ≤ 64 → (text : List ℕ)
            × IsTextOf (read_by R.BitRegister O.position) R.number O.masked (digits 2 false) self.now text
            × WritesOnOk W.write_str_gives f.old result text f.new }
    {
        write_domain(self.as_domain(), Form::Binary, f)
    }
}

impl<'a, R: BitRegister, O: BitOrder<R>> fmt::Octal for DomainMut<'a, R, O> {
    fn fmt<W: fmt::Write>(&self, f: &mut fmt::Formatter<W>) -> fmt::Result
        ensures { R.BITS ≤ 64 → (text : List ℕ)
            × IsTextOf (read_by R.BitRegister O.position) R.number O.masked (digits 8 false) self.now text
            × WritesOnOk W.write_str_gives f.old result text f.new }
    {
        write_domain(self.as_domain(), Form::Octal, f)
    }
}

impl<'a, R: BitRegister, O: BitOrder<R>> fmt::LowerHex for DomainMut<'a, R, O> {
    fn fmt<W: fmt::Write>(&self, f: &mut fmt::Formatter<W>) -> fmt::Result
        ensures { R.BITS ≤ 64 → (text : List ℕ)
            × IsTextOf (read_by R.BitRegister O.position) R.number O.masked (digits 16 false) self.now text
            × WritesOnOk W.write_str_gives f.old result text f.new }
    {
        write_domain(self.as_domain(), Form::LowerHex, f)
    }
}

impl<'a, R: BitRegister, O: BitOrder<R>> fmt::UpperHex for DomainMut<'a, R, O> {
    fn fmt<W: fmt::Write>(&self, f: &mut fmt::Formatter<W>) -> fmt::Result
        ensures { R.BITS ≤ 64 → (text : List ℕ)
            × IsTextOf (read_by R.BitRegister O.position) R.number O.masked (digits 16 true) self.now text
            × WritesOnOk W.write_str_gives f.old result text f.new }
    {
        write_domain(self.as_domain(), Form::UpperHex, f)
    }
}

// The masked words in brackets.
fn write_domain<'a, R: BitRegister, O: BitOrder<R>, W: fmt::Write>(
    domain: Domain<'a, R, O>,
    form: Form,
    f: &mut fmt::Formatter<W>,
) -> fmt::Result
    ensures { R.BITS ≤ 64 → WritesOnOk W.write_str_gives f.old result
        (numbers_text (form_text form) (domain_numbers R.number O.masked domain.entry)) f.new }
{
    f.write_str("[")?;
    write_words(domain, form, f)?;
    f.write_str("]")
}

// The masked words.
fn write_words<'a, R: BitRegister, O: BitOrder<R>, W: fmt::Write>(
    domain: Domain<'a, R, O>,
    form: Form,
    f: &mut fmt::Formatter<W>,
) -> fmt::Result
    ensures { R.BITS ≤ 64 → WritesOnOk W.write_str_gives f.old result
        (joined_text (form_text form) false (domain_numbers R.number O.masked domain.entry)) f.new }
{
    match domain {
        Domain::Enclave(part) => write_word(part.load_value(), form, f),
        Domain::Region { head, body, tail } => {
            let begun = write_part(head, false, form, f)?;
            let begun_body = write_body(body, begun, form, f)?;
            write_part(tail, begun_body, form, f)?;
            Ok(())
        }
    }
}

// The masked word of a part, where there is one, after what was begun. Answers whether anything was.
fn write_part<'a, R: BitRegister, O: BitOrder<R>, W: fmt::Write>(
    part: Option<PartialElement<'a, R, O>>,
    begun: bool,
    form: Form,
    f: &mut fmt::Formatter<W>,
) -> Result<bool, fmt::Error>
    ensures begun { IfOk result (λ now. now ≡ begun_after begun (option_numbers R.number O.masked part.entry)) }
    ensures writes { R.BITS ≤ 64 → IsPlainFormatter f.old → IsOk result → HasWritten W.write_str_gives f.old
        (joined_text (form_text form) begun (option_numbers R.number O.masked part.entry)) f.new }
{
    match part {
        Some(part) => {
            write_between(begun, f)?;
            write_word(part.load_value(), form, f)?;
            Ok(true)
        }
        None => Ok(begun),
    }
}

// Whole words, after what was begun. Answers whether anything was.
fn write_body<R: BitRegister, W: fmt::Write>(
    body: &[R],
    mut begun: bool,
    form: Form,
    f: &mut fmt::Formatter<W>,
) -> Result<bool, fmt::Error>
    ensures begun { IfOk result (λ now. now ≡ begun_after begun (map R.number body.now)) }
    ensures writes { R.BITS ≤ 64 → IsPlainFormatter f.old → IsOk result → HasWritten W.write_str_gives f.old
        (joined_text (form_text form) begun (map R.number body.now)) f.new }
{
    for word in body {
        write_between(begun, f)?;
        write_word(*word, form, f)?;
        begun = true;
    }
    Ok(begun)
}

// What stands between two words.
fn write_between<W: fmt::Write>(begun: bool, f: &mut fmt::Formatter<W>) -> fmt::Result
    ensures { WritesOnOk W.write_str_gives f.old result (between begun) f.new }
{
    if begun { f.write_str(", ") } else { Ok(()) }
}

// One word.
fn write_word<R: BitRegister, W: fmt::Write>(
    word: R,
    form: Form,
    f: &mut fmt::Formatter<W>,
) -> fmt::Result
    ensures { R.BITS ≤ 64 → WritesOnOk W.write_str_gives f.old result (form_text form (R.number word)) f.new }
{
    write_number(word.value(), form, f)
}

// One number. A contract sees std's text of one that fits 64 bits alone.
fn write_number<W: fmt::Write>(number: u128, form: Form, f: &mut fmt::Formatter<W>) -> fmt::Result
    ensures { number < 2 ^ 64 → WritesOnOk W.write_str_gives f.old result (form_text form number) f.new }
{
    if number <= u64::MAX as u128 {
        return write_narrow(number as u64, form, f);
    }
    match form {
        Form::Binary => write!(f, "{number:b}"),
        Form::Octal => write!(f, "{number:o}"),
        Form::LowerHex => write!(f, "{number:x}"),
        Form::UpperHex => write!(f, "{number:X}"),
    }
}

// One number of at most 64 bits.
fn write_narrow<W: fmt::Write>(number: u64, form: Form, f: &mut fmt::Formatter<W>) -> fmt::Result
    ensures { WritesOnOk W.write_str_gives f.old result (form_text form number) f.new }
{
    match form {
        Form::Binary => write!(f, "{number:b}"),
        Form::Octal => write!(f, "{number:o}"),
        Form::LowerHex => write!(f, "{number:x}"),
        Form::UpperHex => write!(f, "{number:X}"),
    }
}
