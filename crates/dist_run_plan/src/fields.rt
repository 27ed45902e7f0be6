//! What single values say.

ghost use Rattle.std.specs.{Prelude.◌≡◌, Prelude.map, Prelude.Option, Prelude.Some, Prelude.None, Prelude.MatchResult, Result.result_ok};
ghost use Rattle.toml.specs.{Data.Data, Data.as_str, Data.as_table, View.view, View.table_view};
ghost use Rattle.dist_names.specs.NodeName.{name_of_bytes};
ghost use Rattle.dist_run_plan.specs.Values.{number_in, name_in, cookie_in, cookies_with, cookies_of, version_in, flags_in, array_in, all_some};
ghost use Rattle.dist_run_plan.specs.{declared.plan_error.PlanError.TheVariants.Bad, Answer.Reads};

use crate::plan_error::PlanError;
use dist_core_setup::Version;
use dist_names::{Flags, NameError, NodeName, are_printable};
use dist_secret::{Cookie, CookieError, Cookies, CookiesError};
use std::alloc::Global;
use toml::{Table, Value};

/// What a value of the file can say.
pub trait FromValue: Sized {
    ghost says: { Data → Option Self };

    /// What this value says.
    fn from_value(alloc: Global, value: &Value) -> Result<Self, PlanError>
        ensures { Reads result (says (view value.now)) };
}

// The text of a string.
fn text_of(value: &Value) -> Result<&str, PlanError>
    ensures { MatchResult result (λ text. as_str (view value.now) ≡ Some text.now) (λ _. as_str (view value.now) ≡ None) }
{
    value.as_str().ok_or(PlanError::Bad)
}

/// The values of an array, in order.
#[tactic(auto, using(crate::proofs::Found::list_of_view))]
pub fn array_of(value: &Value) -> Result<&[Value], PlanError>
    ensures { MatchResult result (λ values. array_in (view value.now) ≡ Some (map view values.now)) (λ _. array_in (view value.now) ≡ None) }
{
    match value.as_array() {
        Some(values) => Ok(values.as_slice()),
        None => Err(PlanError::Bad),
    }
}

/// The members of a table.
pub fn table_of(value: &Value) -> Result<&Table, PlanError>
    ensures { MatchResult result (λ table. as_table (view value.now) ≡ Some (table_view table.now)) (λ _. as_table (view value.now) ≡ None) }
{
    value.as_table().ok_or(PlanError::Bad)
}

/// A port, 0 to 65,535.
impl FromValue for u16 {
    ghost says = { number_in 0 65535 };

    fn from_value(_alloc: Global, value: &Value) -> Result<u16, PlanError> {
        match value.as_integer() {
            Some(number) if 0 <= number && number <= 65535 => Ok(number as u16),
            _ => Err(PlanError::Bad),
        }
    }
}

/// How many turns a connection has, 1 to 1,000,000.
impl FromValue for u32 {
    ghost says = { number_in 1 1000000 };

    fn from_value(_alloc: Global, value: &Value) -> Result<u32, PlanError> {
        match value.as_integer() {
            Some(number) if 1 <= number && number <= 1_000_000 => Ok(number as u32),
            _ => Err(PlanError::Bad),
        }
    }
}

/// A version of the handshake, 5 or 6.
impl FromValue for Version {
    ghost says = { version_in };

    fn from_value(_alloc: Global, value: &Value) -> Result<Version, PlanError> {
        match value.as_integer() {
            Some(5) => Ok(Version::Five),
            Some(6) => Ok(Version::Six),
            _ => Err(PlanError::Bad),
        }
    }
}

/// Flags, in 1 to 16 hexadecimal digits of either case.
impl FromValue for Flags {
    ghost says = { flags_in };

    fn from_value(_alloc: Global, value: &Value) -> Result<Flags, PlanError> {
        let text = text_of(value)?;
        Flags::of_digits(text.as_bytes()).ok_or(PlanError::Bad)
    }
}

/// The name of a node.
impl FromValue for NodeName {
    ghost says = { name_in };

    fn from_value(alloc: Global, value: &Value) -> Result<NodeName, PlanError> {
        let text = text_of(value)?;
        name_of_text(alloc, text.as_bytes())
    }
}

/// A cookie: all bytes of the text, spaces at its end among them.
impl FromValue for Cookie {
    ghost says = { cookie_in };

    fn from_value(alloc: Global, value: &Value) -> Result<Cookie, PlanError> {
        let text = text_of(value)?;
        if !are_printable(text.as_bytes()) {
            return Err(PlanError::Bad);
        }
        match Cookie::from_bytes(alloc, text.as_bytes()) {
            Ok(cookie) => Ok(cookie),
            Err(CookieError::NoMemory) => Err(PlanError::NoMemory),
            Err(_) => Err(PlanError::Bad),
        }
    }
}

// The name of a text.
fn name_of_text(alloc: Global, text: &[u8]) -> Result<NodeName, PlanError>
    ensures { Reads result (result_ok (name_of_bytes text.now)) }
{
    match NodeName::new(alloc, text) {
        Ok(name) => Ok(name),
        Err(NameError::NoMemory) => Err(PlanError::NoMemory),
        Err(_) => Err(PlanError::Bad),
    }
}

// Adds the cookie of a key, where there is room for it.
fn add_cookie(
    alloc: Global,
    cookies: &mut Cookies,
    key: &str,
    value: &Value,
) -> Result<(), PlanError>
    ensures { MatchResult result
        (λ _. cookies_with cookies.old (result_ok (name_of_bytes key.now)) (cookie_in (view value.now)) ≡ Some cookies.new)
        (λ error. error ≡ Bad → cookies_with cookies.old (result_ok (name_of_bytes key.now)) (cookie_in (view value.now)) ≡ None) }
{
    let name = name_of_text(alloc, key.as_bytes())?;
    let cookie = Cookie::from_value(alloc, value)?;
    match cookies.set(name, cookie) {
        Ok(()) => Ok(()),
        Err(CookiesError::Full) => Err(PlanError::Bad),
        Err(CookiesError::NoMemory) => Err(PlanError::NoMemory),
    }
}

/// Adds the cookies of a table from names to cookies, with room for each.
pub fn add_cookies(alloc: Global, cookies: &mut Cookies, table: &Table) -> Result<(), PlanError>
    ensures { MatchResult result
        (λ _. cookies_of cookies.old (table_view table.now) ≡ Some cookies.new)
        (λ error. error ≡ Bad → cookies_of cookies.old (table_view table.now) ≡ None) }
{
    for row in table.iter() {
        let (key, value) = row;
        add_cookie(alloc, cookies, key.as_str(), value)?;
    }
    Ok(())
}

/// What each value says.
pub fn all_of<T: FromValue + Drop>(alloc: Global, values: &[Value]) -> Result<Vec<T>, PlanError>
    ensures { MatchResult result
        (λ rows. all_some (map T.says (map view values.now)) ≡ Some rows.items)
        (λ error. error ≡ Bad → all_some (map T.says (map view values.now)) ≡ None) }
{
    let mut rows = Vec::new(alloc);
    for value in values {
        rows.push(T::from_value(alloc, value)?)?;
    }
    Ok(rows)
}
