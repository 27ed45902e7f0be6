ghost use Rattle.std.proofs.Common.{rules};
ghost use Rattle.std.specs.Prelude.{◌≡◌, ◌==◌, ◌≤◌, ◌↔◌, ℕ, List, length, take, IsTrue, IfOk};
ghost use Rattle.std.specs.{Cmp.Lexicographic.pointwise, Cmp.Rules.comparing, List.list_all, List.position, List.position_or_len};
ghost use Rattle.dist_names.specs.Bytes.{is_printable};
ghost use Rattle.dist_secret.specs.{Cookie.is_other, Cookie.may_follow, Cookie.cookie_of, Cookie.IsCookie, Cookie.IsCookieOf, Answer.AnswersCookie};

use crate::cookie_error::CookieError;
use dist_names::is_printable;
use std::alloc::{AllocError, Global};
use std::marker::Model;

/// The secret that nodes share: 1 to 255 bytes from 0x20 to 0x7E, the space among them.
///
/// Erlang keeps it as an atom; the limit and the alphabet are our own choice. It has neither `Debug` nor `Display`, so that
/// no message and no failed assertion shows it.
#[derive(Drop)]
pub struct Cookie {
    secret: Vec<u8>,
}

impl Model for Cookie {
    ghost use Rattle.std.specs.Prelude.{ℕ, List};
    ghost use Rattle.dist_secret.specs.Cookie.{IsCookie};

    ghost Value = { List ℕ };

    ghost view = { λ c. c.secret.items };

    ghost invariant = { λ c. IsCookie c.secret.items };
}

// The most bytes that a text may have.
const MOST_OF_TEXT: usize = 4096;

// The most bytes that a cookie may have.
const MOST: usize = 255;

fn first_other(text: &[u8]) -> Option<usize>
    ensures { result ≡ position is_other text.now }
{
    text.iter().position(|byte| !is_printable(*byte))
}

// How many bytes of a cookie the text begins with.
#[tactic(auto, using(dist_names::proofs::Places::place_or_length, dist_names::proofs::Places::place_within, crate::proofs::Fronts::front_good))]
fn front_len(text: &[u8]) -> usize
    ensures place { result ≡ position_or_len is_other text.now }
    ensures within { result ≤ length text.now }
    ensures good { IsTrue (list_all is_printable (take result text.now)) }
{
    first_other(text).unwrap_or(text.len())
}

fn all_may_follow(rest: &[u8]) -> bool
    ensures { result ≡ list_all may_follow rest.now }
{
    rest.iter()
        .all(|byte| *byte == b'\n' || *byte == b'\r' || *byte == b' ')
}

fn read_text(alloc: Global, text: &[u8]) -> Result<Cookie, CookieError>
    ensures { AnswersCookie result (cookie_of text.now) }
{
    if text.len() > MOST_OF_TEXT {
        return Err(CookieError::TooLong);
    }
    let len = front_len(text);
    if len == 0 {
        return Err(CookieError::Empty);
    }
    if len > MOST {
        return Err(CookieError::TooLong);
    }
    if !all_may_follow(&text[len..]) {
        return Err(CookieError::BadByte);
    }
    Ok(Cookie {
        secret: Vec::from_slice(alloc, &text[..len])?,
    })
}

impl Cookie {
    /// The cookie of a text, as a file has it: the longest front of bytes from 0x20 to 0x7E.
    ///
    /// | Part of the text | Bytes | Limit |
    /// |---|---|---|
    /// | cookie | 0x20 to 0x7E | 1 to 255 bytes |
    /// | what may follow | 0x0A, 0x0D, 0x20 | |
    /// | the whole | | 4,096 bytes |
    ///
    /// Spaces straight behind the cookie's last other byte belong to it. Refusals, the first that holds: TooLong (the text),
    /// Empty, TooLong (the cookie), BadByte, NoMemory. All of this is our own choice.
    pub fn from_bytes(alloc: Global, text: &[u8]) -> Result<Cookie, CookieError>
        ensures exact { AnswersCookie result (cookie_of text.now) }

        // The cookie of the text is returned, unless memory runs out.
        ensures found { IfOk result (λ cookie. IsCookieOf text.now cookie) }
        ensures only { (cookie : List ℕ) → IsCookieOf text.now cookie → AnswersCookie result (Ok cookie) }
    {
        read_text(alloc, text)
    }

    /// Its bytes. Whoever prints them gives the secret away.
    pub fn bytes(&self) -> &[u8]
        ensures same { result.now ≡ self.now }
        ensures good { IsCookie self.now }
    {
        &self.secret
    }

    /// How many bytes it has, from 1 to 255.
    pub fn len(&self) -> usize
        ensures { result ≡ length self.now }
    {
        self.secret.len()
    }

    /// An equal cookie. It fails only where memory runs out.
    pub fn try_clone(&self, alloc: Global) -> Result<Cookie, AllocError>
        ensures { IfOk result (λ copy. copy ≡ self.now) }
    {
        Ok(Cookie {
            secret: Vec::from_slice(alloc, &self.secret)?,
        })
    }

    /// Whether the two have the same bytes. The time that it takes shows how long their common front is: it is for a caller who
    /// holds both.
    pub fn is_same(&self, other: &Cookie) -> bool
        ensures computed { result ≡ pointwise ◌==◌ self.now other.now }
        ensures each { IsTrue result ↔ (self.now ≡ other.now) }
    {
        self.bytes() == other.bytes()
    }
}

impl PartialEq for Cookie {
    ghost eq = { pointwise ◌==◌ };

    ghost laws = { Prim.search (comparing, rules) };

    fn eq(&self, other: &Cookie) -> bool {
        self.is_same(other)
    }
}

impl Eq for Cookie {
    ghost laws = { Prim.search (comparing, rules) };
}
