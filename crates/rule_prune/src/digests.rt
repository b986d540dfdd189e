// What a condition tests of response headers, as one number. Conditions of equal tests have equal
// numbers, so most of those that differ are told apart without a look at their texts.
ghost use Rattle.std.specs.Prelude.{◌≡◌, IfOk};
ghost use Rattle.std.specs.Option.{option_copied};
ghost use Rattle.rule_prune.specs.Digests as spec;

use crate::shadowing::has_no_tests;
use dnr_base::{Items, NoMemory};
use dnr_rules::{Condition, HeaderTest, Rule, ValuePattern};
use std::alloc::Global;

// Where FNV-1a begins at 32 bits.
const START: u32 = 0x811c_9dc5;

// Stands behind each text. No byte is a mark.
const TEXT_END: u32 = 256;

// Stands behind each list.
const LIST_END: u32 = 257;

// Stands for a list that is not given.
const ABSENT: u32 = 258;

#[tactic(auto, unfolding(crate::specs::Digests::mixed))]
fn mixed(digest: u32, byte: u32) -> u32
    ensures { result ≡ spec.mixed digest byte }
{
    (digest ^ byte).wrapping_mul(0x0100_0193)
}

fn text_mixed(so_far: u32, text: &str) -> u32
    ensures { result ≡ spec.text_mixed so_far text.now }
{
    let mut digest = so_far;
    for byte in text.as_bytes() {
        digest = mixed(digest, u32::from(*byte));
    }
    mixed(digest, TEXT_END)
}

fn texts_mixed(so_far: u32, texts: &[ValuePattern]) -> u32
    ensures { result ≡ spec.texts_mixed so_far texts.now }
{
    let mut digest = so_far;
    for text in texts {
        digest = text_mixed(digest, text.text());
    }
    mixed(digest, LIST_END)
}

fn given_mixed(digest: u32, texts: &Option<Items<ValuePattern>>) -> u32
    ensures { result ≡ spec.given_mixed digest texts.now }
{
    match texts {
        Some(texts) => texts_mixed(digest, texts.as_slice()),
        None => mixed(digest, ABSENT),
    }
}

fn test_mixed(digest: u32, test: &HeaderTest) -> u32
    ensures { result ≡ spec.test_mixed digest test.now }
{
    let name = text_mixed(digest, test.name.as_str());
    let values = given_mixed(name, &test.values);
    texts_mixed(values, test.excluded.as_slice())
}

fn tests_mixed(so_far: u32, tests: &[HeaderTest]) -> u32
    ensures { result ≡ spec.tests_mixed so_far tests.now }
{
    let mut digest = so_far;
    for test in tests {
        digest = test_mixed(digest, test);
    }
    mixed(digest, LIST_END)
}

fn given_tests_mixed(digest: u32, tests: Option<&Items<HeaderTest>>) -> u32
    ensures { result ≡ spec.given_tests_mixed digest (option_copied tests.entry) }
{
    match tests {
        Some(tests) => tests_mixed(digest, tests.as_slice()),
        None => mixed(digest, ABSENT),
    }
}

// Of a condition that tests response headers.
fn digest_of(condition: &Condition) -> Option<u32>
    ensures { result ≡ spec.digest_of condition.now }
{
    let tests = condition.header_tests();
    let others = condition.not_header_tests();
    if has_no_tests(tests, others) {
        return None;
    }
    Some(tests_mixed(given_tests_mixed(START, tests), others))
}

// Of each rule.
pub(crate) fn digests_of(alloc: Global, rules: &[Rule]) -> Result<Vec<Option<u32>>, NoMemory>
    ensures { IfOk result (λ digests. digests.items ≡ spec.digests_of rules.now) }
{
    let mut digests = Vec::with_capacity(alloc, rules.len())?;
    for rule in rules {
        digests.push(digest_of(rule.condition()))?;
    }
    Ok(digests)
}

// Whether the one tests nothing, or maybe what the other tests.
pub(crate) fn may_be_same(k: Option<u32>, s: Option<u32>) -> bool
    ensures { result ≡ spec.may_be_same k s }
{
    match (k, s) {
        (None, _) => true,
        (Some(_), None) => false,
        (Some(k), Some(s)) => k == s,
    }
}
