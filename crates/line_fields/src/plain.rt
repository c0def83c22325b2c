//! Fields as they are usually written, which are read without a fault to return. Any other field is left in place, for
//! the reader that tells what is wrong with it.

ghost use Rattle.std.specs.Prelude.{◌≡◌, ◌≢◌, ◌≤◌, true, false, [], ◌∷◌, IfSome, IfNone, Ok};
ghost use Rattle.line_fields.specs.Reading.{number_field};
ghost use Rattle.line_fields.specs.FirstField.{IsNext, fields_of, rising_field};
ghost use Rattle.line_fields.specs.Hosts.{host_field};
ghost use Rattle.line_fields.specs.Reader.{texts};

use crate::fields::{Fields, greatest_host};
use crate::first_field::{field_len, one_digit};
use case_forms::{Host, Version};

impl<'a> Fields<'a> {
    /// The next field, if it is a number from `least` to `most` with at most 19 digits.
    #[inline(always)]
    pub fn plain_number(&mut self, least: u64, most: u64) -> Option<u64>
        ensures taken { IfSome result (λ n. number_field least most self.old ≡ Ok (n, self.new)) }
        ensures range { IfSome result (λ n. (least ≤ n) × (n ≤ most)) }
        ensures left { IfNone result (self.new ≡ self.old) }
    {
        self.plain(least, most)
    }

    /// The same field as `plain_number` takes, found sooner if it is one digit.
    #[inline(always)]
    pub fn plain_small(&mut self, least: u64, most: u64) -> Option<u64>
        ensures taken { IfSome result (λ n. number_field least most self.old ≡ Ok (n, self.new)) }
        ensures range { IfSome result (λ n. (least ≤ n) × (n ≤ most)) }
        ensures left { IfNone result (self.new ≡ self.old) }
    {
        if self.at > self.text.len() {
            return None;
        }
        let (_before, rest) = self.text.split_at(self.at);
        match one_digit(rest) {
            Some(n) if least <= n && n <= most => {
                let stop = self.at + 1;
                self.at = stop + 1;
                Some(n)
            }
            _ => self.plain_number(least, most),
        }
    }

    /// The next field, if it is a number from `before` to `most` with at most 19 digits.
    #[inline(always)]
    pub fn plain_rising(&mut self, before: u64, most: u64) -> Option<u64>
        ensures taken { IfSome result (λ n. rising_field before most self.old ≡ Ok (n, self.new)) }
        ensures range { IfSome result (λ n. (before ≤ n) × (n ≤ most)) }
        ensures left { IfNone result (self.new ≡ self.old) }
    {
        self.plain(before, most)
    }

    /// The next field, if it is a host.
    #[tactic(auto, unfolding(crate::specs::Hosts::host_field))]
    #[inline(always)]
    pub fn plain_host(&mut self, version: Version) -> Option<Host>
        ensures { IfSome result (λ host. host_field version self.old ≡ Ok (host, self.new)) }
    {
        if self.plain_small(0, greatest_host(version))? == 0 {
            Some(Host::Zero)
        } else {
            Some(Host::One)
        }
    }

    /// The bytes of the next field, if there is one.
    #[inline(always)]
    pub fn plain_word(&mut self) -> Option<&'a [u8]>
        ensures taken { IfSome result (λ text. IsNext text.now self.old self.new) }
        ensures left { IfNone result (self.new ≡ self.old) }
    {
        if self.at > self.text.len() {
            return None;
        }
        let (_before, rest) = self.text.split_at(self.at);
        let len = field_len(rest, false);
        let (text, _after) = rest.split_at(len);
        let stop = self.at + len;
        self.at = stop + 1;
        Some(text)
    }

    /// Takes the next field if it is this letter, and others follow.
    #[inline(always)]
    pub fn plain_letter(&mut self, letter: u8) -> bool
        requires { letter ≢ 32 }
        ensures taken { result ≡ true → IsNext (letter ∷ []) self.old self.new }
        ensures left { result ≡ false → self.new ≡ self.old }
    {
        if self.at > self.text.len() {
            return false;
        }
        let (_before, rest) = self.text.split_at(self.at);
        match rest {
            [first, b' ', ..] if *first == letter => {
                let stop = self.at + 1;
                self.at = stop + 1;
                true
            }
            _ => false,
        }
    }

    /// The bytes that are left of the line, if a field is left.
    #[inline(always)]
    pub fn rest(&self) -> Option<&'a [u8]>
        ensures { IfSome result (λ text. texts self.now ≡ fields_of text.now) }
    {
        if self.at > self.text.len() {
            return None;
        }
        let (_before, rest) = self.text.split_at(self.at);
        Some(rest)
    }
}
