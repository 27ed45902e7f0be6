//! Checks of the fields of a message.

ghost use Rattle.std.specs.{Prelude.◌≡◌, Prelude.◌==◌, Prelude.not, List.list_all, List.list_any};
ghost use Rattle.dist_conformance.specs.Judging.{is_given, is_new, is_far, first_flags, are_same, has_no_host, test_passes, check_passes};

use crate::bodies::{number_in, value_in};
use crate::digests::digest;
use crate::outcomes::Observed;
use crate::patterns::{Check, Test};
use crate::say::Learned;
use crate::shapes::Shape;
use dist_names::{Flags, is_same_text};

fn is_given(value: &[u8]) -> bool
    ensures { result ≡ is_given value.now }
{
    value.iter().any(|byte| *byte != 0)
}

fn has_no_host(value: &[u8]) -> bool
    ensures { result ≡ has_no_host value.now }
{
    value.iter().all(|byte| *byte != b'@')
}

// Whether this number is none of those that came before.
fn is_new(number: u64, learned: &[Learned]) -> bool
    ensures { result ≡ is_new number learned.now }
{
    learned.iter().all(|one| u64::from(one.number) != number)
}

// Whether one of those that came before is far from this number.
fn is_far(number: u64, learned: &[Learned]) -> bool
    ensures { result ≡ list_any (is_far number) learned.now }
{
    learned.iter().any(|one| {
        let other = u64::from(one.number);
        65536 <= number.saturating_sub(other) || 65536 <= other.saturating_sub(number)
    })
}

fn first_flags(learned: &[Learned]) -> Option<Flags>
    ensures { result ≡ first_flags learned.now }
{
    for one in learned {
        if let Some(flags) = one.flags {
            return Some(flags);
        }
    }
    None
}

fn is_alike(flags: u64, learned: &[Learned]) -> bool
    ensures { result ≡ are_same flags (first_flags learned.now) }
{
    match first_flags(learned) {
        Some(first) => first.0 == flags,
        None => true,
    }
}

fn test_passes(test: &Test, value: &[u8], observed: &Observed<'_>) -> bool
    ensures { result ≡ test_passes observed.now.learned.now observed.now.cookie.now value.now test.now }
{
    let learned = observed.learned;
    match test {
        Test::Is(wanted) => is_same_text(value, wanted.as_slice()),
        Test::AtLeast(least) => u64::from(*least) <= number_in(value),
        Test::Given => is_given(value),
        Test::Fresh => is_new(number_in(value), learned),
        Test::Apart => learned.is_empty() || is_far(number_in(value), learned),
        Test::Has(flags) => Flags(number_in(value)).has(*flags),
        Test::Lacks(flags) => !Flags(number_in(value)).has(*flags),
        Test::Alike => is_alike(number_in(value), learned),
        Test::Digest(challenge) => is_same_text(value, &digest(observed.cookie, *challenge)),
        Test::Empty => value.is_empty(),
        Test::NoHost => has_no_host(value),
    }
}

/// Whether a body of this shape passes a check.
pub fn check_passes(check: &Check, shape: &Shape, body: &[u8], observed: &Observed<'_>) -> bool
    ensures { result ≡ check_passes shape.now body.now observed.now.learned.now observed.now.cookie.now check.now }
{
    match value_in(shape.fields, check.place, body) {
        Some(value) => test_passes(&check.test, value, observed),
        None => false,
    }
}
