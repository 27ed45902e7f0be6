//! The line of a script that sets the node up.

ghost use Rattle.std.specs.Prelude.{◌≡◌, drop, [], Some, None, IfOk, MatchResult};
ghost use Rattle.dist_names.specs.Digits.{flags_in};
ghost use Rattle.dist_script.specs.{declared.words.LineFault.TheVariants.Bad, Fields.Reads, Fields.ReadsUpTo, Fields.Makes, Fields.first_in};
ghost use Rattle.dist_script.specs.{Fields.creation_in, Nodes.version_in, Nodes.required_in, Nodes.cookie_in, Nodes.cookie_added, Nodes.further_in};
ghost use Rattle.dist_script.specs.{Nodes.cookies_in, Nodes.names_in, Nodes.allowed_in, Nodes.terms_in, Nodes.behind_cookies, Nodes.node_in};

use crate::fields::{creation_word, line_end, name_of, name_word};
use crate::words::{LineFault, Words};
use dist_core::{Limits, NameList, Setup, Version};
use dist_names::{Creation, Flags, NodeName, are_visible};
use dist_secret::{Cookie, CookieError, Cookies, CookiesError};
use std::alloc::Global;

fn flags_word(words: &mut Words<'_>) -> Result<Flags, LineFault>
    ensures reads { Reads result (first_in flags_in words.old) }
    ensures rest { words.new ≡ drop 1 words.old }
{
    Flags::of_digits(words.word()?).ok_or(LineFault::Bad)
}

// The cookie that a word is.
fn cookie_of(alloc: Global, word: &[u8]) -> Result<Cookie, LineFault>
    ensures { Reads result (cookie_in word.now) }
{
    if !are_visible(word) {
        return Err(LineFault::Bad);
    }
    match Cookie::from_bytes(alloc, word) {
        Ok(cookie) => Ok(cookie),
        Err(CookieError::NoMemory) => Err(LineFault::NoMemory),
        Err(_) => Err(LineFault::Bad),
    }
}

/// The cookie that the next word is.
pub fn cookie_word(alloc: Global, words: &mut Words<'_>) -> Result<Cookie, LineFault>
    ensures reads { Reads result (first_in cookie_in words.old) }
    ensures rest { words.new ≡ drop 1 words.old }
{
    cookie_of(alloc, words.word()?)
}

// A cookie for this peer, which has none of its own yet.
fn set_cookie(cookies: &mut Cookies, peer: NodeName, cookie: Cookie) -> Result<(), LineFault>
    ensures { Makes result cookies.new (cookie_added cookies.old peer cookie) }
{
    let before = cookies.len();
    match cookies.set(peer, cookie) {
        Ok(()) if before < cookies.len() => Ok(()),
        Ok(()) | Err(CookiesError::Full) => Err(LineFault::Bad),
        Err(CookiesError::NoMemory) => Err(LineFault::NoMemory),
    }
}

// The next two words: a peer, and the cookie for it.
fn add_cookie(alloc: Global, cookies: &mut Cookies, words: &mut Words<'_>) -> Result<(), LineFault>
    ensures adds { Makes result cookies.new (further_in cookies.old words.old) }
    ensures rest { words.new ≡ drop 2 words.old }
{
    let peer = words.word()?;
    let cookie = words.word()?;
    let peer = name_of(alloc, peer)?;
    set_cookie(cookies, peer, cookie_of(alloc, cookie)?)
}

// Adds cookies of peers, each behind `cookie` and the peer's name.
#[tactic(auto, using(crate::proofs::Rows::one_cookie))]
fn add_cookies(alloc: Global, cookies: &mut Cookies, words: &mut Words<'_>) -> Result<(), LineFault>
    ensures { Makes result (cookies.new, words.new) (cookies_in cookies.old words.old) }
{
    'cookies: while words.skip(b"cookie") {
        add_cookie(alloc, cookies, words)?;
    }
    Ok(())
}

// Names to the end of the line, each behind `allow`.
#[tactic(auto, using(crate::proofs::Rows::no_names, crate::proofs::Rows::one_name, crate::proofs::Rows::bad_name, crate::proofs::Rows::all_named))]
fn names(alloc: Global, words: &mut Words<'_>) -> Result<Vec<NodeName>, LineFault>
    ensures { MatchResult result (λ names. (names_in words.old ≡ Some names.items) × (words.new ≡ [])) (λ fault. fault ≡ Bad → names_in words.old ≡ None) }
{
    let mut names = Vec::new(alloc);
    'names: while words.skip(b"allow") {
        names.push(name_word(alloc, words)?)?;
    }
    match line_end(words) {
        Ok(()) => Ok(names),
        Err(fault) => Err(fault),
    }
}

// The names that are allowed. Without one of them all are.
fn allow_list(alloc: Global, words: &mut Words<'_>) -> Result<Option<NameList>, LineFault>
    ensures reads { Reads result (allowed_in words.old) }
    ensures rest { IfOk result (λ _. words.new ≡ []) }
{
    if words.is_done() {
        return Ok(None);
    }
    Ok(Some(NameList::from_vec(names(alloc, words)?)))
}

// The version, 5, behind `version`. Without it the node knows version 6.
#[tactic(auto, using(crate::proofs::Reading::begun, crate::proofs::Reading::not_begun))]
fn version(words: &mut Words<'_>) -> Result<Version, LineFault>
    ensures { ReadsUpTo result words.new (version_in words.old) }
{
    if !words.skip(b"version") {
        return Ok(Version::Six);
    }
    if words.skip(b"5") {
        Ok(Version::Five)
    } else {
        Err(LineFault::Bad)
    }
}

// The flags that are required, behind `require`. Without it none are.
#[tactic(auto, using(crate::proofs::Reading::begun, crate::proofs::Reading::not_begun))]
fn required_flags(words: &mut Words<'_>) -> Result<Flags, LineFault>
    ensures { ReadsUpTo result words.new (required_in words.old) }
{
    if words.skip(b"require") {
        flags_word(words)
    } else {
        Ok(Flags(0))
    }
}

// How a node is met.
#[derive(Clone, Copy)]
struct NodeTerms {
    flags: Flags,
    creation: Creation,
    version: Version,
    required: Flags,
}

fn terms_of(words: &mut Words<'_>) -> Result<NodeTerms, LineFault>
    ensures { ReadsUpTo result words.new (terms_in words.old) }
{
    Ok(NodeTerms {
        flags: flags_word(words)?,
        creation: creation_word(words)?,
        version: version(words)?,
        required: required_flags(words)?,
    })
}

// The rest of what a node is set up with, from the words behind the cookies.
fn setup_behind(
    alloc: Global,
    name: &[u8],
    terms: NodeTerms,
    cookies: Cookies,
    words: &mut Words<'_>,
) -> Result<Setup, LineFault>
    ensures reads { Reads result (behind_cookies name.now terms cookies words.old) }
    ensures rest { IfOk result (λ _. words.new ≡ []) }
{
    let allow = allow_list(alloc, words)?;
    let name = name_of(alloc, name)?;
    Ok(Setup {
        name,
        cookies,
        version: terms.version,
        flags: terms.flags,
        required: terms.required,
        creation: terms.creation,
        allow,
        limits: Limits::usual(),
    })
}

/// What a node is set up with, from the words to the end of the line.
pub fn setup_of(alloc: Global, words: &mut Words<'_>) -> Result<Setup, LineFault>
    ensures reads { Reads result (node_in words.old) }
    ensures rest { IfOk result (λ _. words.new ≡ []) }
{
    let name = words.word()?;
    let cookie = words.word()?;
    let terms = terms_of(words)?;
    let mut cookies = Cookies::new(alloc, cookie_of(alloc, cookie)?);
    add_cookies(alloc, &mut cookies, words)?;
    setup_behind(alloc, name, terms, cookies, words)
}
